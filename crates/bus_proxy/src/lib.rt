//! A filter between a client and its bus: the messages that it forwards, those that it shortens,
//! and the errors with which it answers calls.
#![tactic(auto)]

mod client;
mod error;
mod judge;
pub mod laws;
mod out;
mod proxy;
mod reducing;
mod stream;
mod streams;

pub use error::FilterError;
pub use out::Out;
pub use proxy::{Filter, Next};
