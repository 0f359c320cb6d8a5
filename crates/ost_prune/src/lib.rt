//! Prunes a store: removes the objects that no commit uses.
#![tactic(auto)]

mod finding;
mod folders;
pub mod laws;
mod parting;
mod pruning;
mod removing;
mod texts;

pub use pruning::prune;
