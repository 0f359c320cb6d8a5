//! Pulling a commit: fetching the objects that a store lacks from a remote.
#![tactic(auto)]

mod batches;
mod forms;
mod gathering;
mod keeping;
pub mod laws;
mod placing;
mod pulling;
mod small;
mod taking;
mod trusting;
mod turns;

pub use pulling::{pull, pull_gated, pull_trusting};
