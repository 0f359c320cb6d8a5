//! Texts with names of objects in place of digests.
use crate::wares::Wares;
use std::alloc::{AllocError, Global};

/// Returns the text with each name in braces replaced by the digest or path that it stands for.
/// Braces that name nothing stay, and so do bytes that aren't UTF-8.
pub fn with_digits(alloc: Global, wares: &Wares, bytes: &[u8]) -> Result<Vec<u8>, AllocError> {
    let Ok(text) = str::from_utf8(bytes) else {
        return Vec::from_slice(alloc, bytes);
    };
    let mut made = Vec::new(alloc);
    for (at, piece) in text.split('{').enumerate() {
        if at == 0 {
            made.extend_from_slice(piece.as_bytes())?;
        } else {
            push_piece(&mut made, wares, piece)?;
        }
    }
    Ok(made)
}

/// Returns the text with each name in braces replaced by the digest or path that it stands for.
/// Braces that name nothing stay.
pub fn text_with_digits(alloc: Global, wares: &Wares, text: &str) -> Result<String, AllocError> {
    let made = with_digits(alloc, wares, text.as_bytes())?;
    String::from_str(alloc, str::from_utf8(&made).unwrap_or(text))
}

/// Appends the text after an opening brace, with its name replaced.
fn push_piece(made: &mut Vec<u8>, wares: &Wares, piece: &str) -> Result<(), AllocError> {
    if let Some((name, rest)) = piece.split_once('}') {
        if push_name(made, wares, name)? {
            made.extend_from_slice(rest.as_bytes())?;
            return Ok(());
        }
    }
    made.push(b'{')?;
    made.extend_from_slice(piece.as_bytes())?;
    Ok(())
}

/// Appends what a name stands for: with `at` before it, the object's path in the installation, else
/// the hexadecimal digest. Returns whether there is such an object.
fn push_name(made: &mut Vec<u8>, wares: &Wares, name: &str) -> Result<bool, AllocError> {
    if let Some(object) = name.strip_prefix("at ") {
        return match wares.place(object)? {
            Some(path) => {
                made.extend_from_slice(path.text().as_bytes())?;
                Ok(true)
            }
            None => Ok(false),
        };
    }
    match wares.digits(name)? {
        Some(digits) => {
            made.extend_from_slice(&digits)?;
            Ok(true)
        }
        None => Ok(false),
    }
}
