//! Reads descriptions of trees, line by line, and builds commits from them.
#![tactic(auto)]

mod committing;
mod description;
mod laws;
mod limits;
mod parts;
mod reading;

pub use committing::commit_description;
pub use description::{Description, DescriptionError};
pub use laws::{limits_as_numbers, written_descriptions_read_back};
pub use limits::MOST_SUBJECT_BYTES;
