//! The notes of a host on its directory, which spare system calls.
#![tactic(auto)]

mod contents;
mod found_files;
mod grants;
mod made;
mod notes;
mod waiting;

pub use found_files::FoundFiles;
pub use grants::Grants;
pub use made::Made;
pub use notes::Notes;
pub use waiting::{Appended, Batch, Waiting};
