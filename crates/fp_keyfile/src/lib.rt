//! Key files: groups of key-value pairs, one pair on each line.
#![tactic(auto)]

mod change;
mod draft;
mod fault;
mod grammar;
mod group;
mod index;
mod key_file;
pub mod laws;
mod line;
mod parsing;
mod places;
mod table;
mod writing;

pub use fault::{KeyError, KeyFault};
pub use grammar::{is_group_name, is_key_byte, is_pair_key, is_pair_value};
pub use group::{Group, Pair};
pub use key_file::KeyFile;
pub use line::{cut_at_equals, first_line, trim_front};
