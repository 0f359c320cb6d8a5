//! Laws of a small sample installation that has everything an installation may have: it meets the
//! conditions of the other crates' contracts.
#![tactic(auto)]

pub mod exporting;
pub mod filtering;
pub mod planning;
pub mod running;
pub mod standing;
pub mod updating;
