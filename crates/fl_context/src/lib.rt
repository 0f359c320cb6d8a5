//! Grants: what layers of mentions grant an application. The last mention of a permission decides.
#![tactic(auto)]

mod folding;
mod grants;
mod latest;
pub mod laws;

pub use folding::fold;
pub use grants::{Grants, is_granted};
