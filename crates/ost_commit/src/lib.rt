//! Builds commits from the rows of a tree, with the objects that OSTree makes for them.
#![tactic(auto)]

mod built;
mod committing;
mod contents;
mod directories;
pub mod laws;
mod limits;
mod objects;
mod row;
mod tree;
mod writing;

pub use built::{BuildError, Built, BuiltObject};
pub use committing::commit_tree;
pub use limits::{DIRECTORY_MODE, MOST_NAMES};
pub use row::TreeRow;
