//! Extension points: the metadata of an application or a runtime about its extensions.
#![tactic(auto)]

mod candidates;
mod finding;
mod group;
pub mod laws;
mod point;
mod reading;

pub use finding::{found_place, found_ref, has_ref, row_of};
pub use point::Point;
pub use reading::points;
