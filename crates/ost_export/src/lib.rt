//! Writing a built commit into a store that serves as a remote, and offering it there under a ref.
#![tactic(auto)]

mod exporting;
mod furnishing;
pub mod laws;
mod placing;
mod staging;
mod storing;

pub use exporting::export;
