//! Tidying an installation: removing all that its state doesn't need.
#![tactic(auto)]

mod folders;
pub mod laws;
mod old_files;
mod pruning;
mod refs;
mod rows;
mod tidying;
mod work;

pub use tidying::{tidy, tidy_added, tidy_work};
