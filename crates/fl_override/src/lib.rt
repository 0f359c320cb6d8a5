//! Overrides: the changes that a user makes to applications' permissions.
#![tactic(auto)]

pub mod laws;
mod override_set;
mod writing;

pub use override_set::OverrideSet;
pub use writing::{groups_of, list_text, push_group};
