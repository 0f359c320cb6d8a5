//! Walks over the objects of commits in a store and at a remote: looks up a path, lists a commit's
//! objects in order, and gathers the objects that several commits use.
#![tactic(auto)]

mod checking;
mod dirs;
mod ends;
mod fetching;
mod finding;
mod found;
mod gathering;
mod limits;
mod listing;
mod looking;
mod places;
mod pull_end;
mod reading;
mod refusing;
mod remote;
mod surveying;
mod surveys;
mod walking;

pub use ends::{ObjectFault, WalkEnd, WalkFault, refused};
pub use finding::find_file;
pub use found::Found;
pub use gathering::used;
pub use looking::look;
pub use places::Places;
pub use pull_end::PullEnd;
pub use reading::{check_mode, unread};
pub use remote::read_remote;
pub use surveying::{order, survey};
pub use surveys::Survey;
