//! Lines of a case that don't hold.
use std::alloc::{AllocError, Global};

/// A line of a case that doesn't hold.
#[derive(Drop)]
pub struct Wrong {
    /// The number of the line, from 1.
    pub line: u64,
    /// The reason why it doesn't hold.
    pub text: String,
}

/// Returns the bytes for a message: in quotes and escaped if they are UTF-8, else in hexadecimal.
pub fn bytes_text(alloc: Global, bytes: &[u8]) -> Result<String, AllocError> {
    match std::str::from_utf8(bytes) {
        Ok(text) => format!(in alloc; "{text:?}"),
        Err(_) => hex_text(alloc, bytes),
    }
}

fn hex_text(alloc: Global, bytes: &[u8]) -> Result<String, AllocError> {
    let mut text = String::from_str(alloc, "the bytes ")?;
    for byte in bytes {
        write!(text, "{byte:02x}")?;
    }
    Ok(text)
}

/// Returns a message with the expected bytes and those that came.
pub fn difference(
    alloc: Global,
    what: &str,
    expected: &[u8],
    came: &[u8],
) -> Result<String, AllocError> {
    let expected = bytes_text(alloc, expected)?;
    let came = bytes_text(alloc, came)?;
    format!(in alloc; "{what}: expected {expected}, but {came} came")
}

/// Returns a copy of the text as a message.
pub fn message(alloc: Global, text: &str) -> Result<Option<String>, AllocError> {
    Ok(Some(String::from_str(alloc, text)?))
}
