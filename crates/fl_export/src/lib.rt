//! The exports of installed applications: the desktop files and icons that a desktop needs to show
//! them.
#![tactic(auto)]

mod contents;
mod gathering;
mod keys;
pub mod laws;
mod listing;
mod places;
mod placing;
mod refreshing;
mod rewriting;
mod rows;
mod standing;
mod sweeping;
mod texts;
mod trees;

pub use listing::wanted;
pub use refreshing::refresh;
pub use rewriting::rewrite;
pub use rows::{ExportRow, ExportWhat};
