//! Checking a whole store: which of its objects don't match their names, and which files and
//! symlinks among them are no objects.
#![tactic(auto)]

mod batch;
mod checking;
mod item;
mod judging;
pub mod laws;
mod metadata;
mod report;
mod row;

pub use checking::check_store;
pub use report::{Finding, Report};
