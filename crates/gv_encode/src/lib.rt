//! Serialises values of GVariant, in normal form.
#![tactic(auto)]

mod appending;
mod contents;
mod encoding;
mod error;
mod framing;
mod writing;

pub use encoding::encode;
pub use error::EncodeError;
