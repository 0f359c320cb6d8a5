//! Reads values of GVariant from bytes in normal form, checks such bytes, and cuts containers into
//! their children.
#![tactic(auto)]

mod checking;
mod contents;
mod cutting;
mod decoding;
mod error;
mod framing;
mod numbers;
mod reading;
mod stepping;
mod variants;

pub use decoding::{array_elements, check_normal, children, decode};
pub use error::DecodeError;
pub use stepping::{Elements, next_element};
pub use variants::variant_parts;
