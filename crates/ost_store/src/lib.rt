//! The objects of a store: each is at the path that its digest and its kind give it, below the
//! store's directory.
#![tactic(auto)]

pub mod laws;
mod listing;
mod naming;
mod placing;
mod reading;
mod staging;
mod walking;

pub use listing::names;
pub use naming::{object_named, path_of};
pub use placing::{place, place_from, remove};
pub use reading::{Got, get, has, read_piece, read_sized, read_within};
pub use staging::{stage, stage_file, stage_piece};
