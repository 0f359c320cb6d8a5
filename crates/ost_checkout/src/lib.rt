//! Checking out a commit into a directory, from the objects of a store.
#![tactic(auto)]

mod ends;
pub mod laws;
mod laying;
mod listing;
mod placing;
mod reading;
mod rows;

pub use ends::CheckoutEnd;
pub use laying::checkout;
