//! The messages that a filter sends.

use bytes::Bytes;
use fp_base::Side;

/// A message that is sent to a side.
#[derive(Drop)]
pub struct Out {
    /// The side to which the message is sent.
    pub to: Side,
    /// The whole message.
    pub bytes: Bytes,
}
