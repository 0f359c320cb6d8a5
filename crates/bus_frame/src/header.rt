//! Headers of messages (D-Bus specification, "Message Format").

use crate::message::{Flags, MessageType};
use fp_base::Text;

/// The header of a message: what its fixed part and its known header fields contain, without the
/// protocol version and the number of file descriptors (`UNIX_FDS`).
#[derive(Drop)]
pub struct Header {
    /// Whether the message's numbers are little-endian.
    pub little: bool,
    /// The message type.
    pub kind: MessageType,
    /// The flags.
    pub flags: Flags,
    /// The serial, which isn't 0.
    pub serial: u32,
    /// The path of the object that is called or that emits the signal.
    pub path: Option<Text>,
    /// The interface of the method or the signal.
    pub interface: Option<Text>,
    /// The name of the method or the signal.
    pub member: Option<Text>,
    /// The name of the error.
    pub error_name: Option<Text>,
    /// The serial of the call that this message answers.
    pub reply_serial: Option<u32>,
    /// The bus name of the receiver.
    pub destination: Option<Text>,
    /// The bus name of the sender.
    pub sender: Option<Text>,
    /// The signature: the types of the body's values.
    pub signature: Option<Text>,
    /// The offset at which the body begins, in bytes from the message's first byte.
    pub body_at: u64,
    /// The length of the body in bytes.
    pub body_len: u64,
}

/// The result of reading bytes that break no rule.
#[derive(Drop)]
pub enum ReadFrame {
    /// A whole message is at the front: its header, and its length in bytes.
    Frame(Header, u64),
    /// The message at the front isn't whole: it needs at least this many bytes more.
    Need(u64),
}
