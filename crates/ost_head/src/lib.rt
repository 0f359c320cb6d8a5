//! Reads what a remote offers: the commit of a ref, its head, and single objects. All of it is
//! checked.
#![tactic(auto)]

mod bringing;
mod checking;
mod content;
mod copying;
mod entries;
mod fetching;
mod found;
mod hashing;
mod head;
mod judging;
mod limits;
mod metadata;
mod modes;
mod offering;
mod parts;
mod refusing;
mod small;
mod storing;
mod taking;

pub use bringing::bring;
pub use checking::check_stored;
pub use found::{Found, find};
pub use head::{Head, read_head};
pub use offering::offer;
