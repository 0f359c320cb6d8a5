//! The remotes of a case, with their commits and damaged objects; and what an installation has of
//! these commits and of the remotes that it made.
#![tactic(auto)]

mod harm;
mod made;
mod naming;
mod sound;
mod wares;

pub use made::{offers_of, parts_of};
pub use naming::{text_with_digits, with_digits};
pub use sound::fault_in;
pub use wares::{MadeCommit, RemotePath, Ware, Wares};
