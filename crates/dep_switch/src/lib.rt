//! Changing the deployed commit of a ref: the new commit's `deploy` and a symlink to it are made
//! beside the old one, and then the symlink is renamed to `active`. Retiring a ref: `active` is
//! removed.
#![tactic(auto)]

pub mod laws;
mod paths;
mod preparing;
mod retiring;
mod rows;
mod staged;
mod switched;

pub use paths::{commit_path, new_link_path};
pub use retiring::{RetireError, RetirePlan};
pub use rows::{find_override, find_ref, find_remote, put_override, remove_override};
pub use staged::Staged;
pub use switched::{Faulted, Switched};
