//! The words, numbers and bytes in a line.
use crate::fault::CaseError;
use std::alloc::{AllocError, Global};

/// Splits a text into words at spaces. A word in single quotes may contain spaces and may be empty.
pub fn cut_words(alloc: Global, text: &str) -> Result<Vec<String>, AllocError> {
    let mut words = Vec::new(alloc);
    for (i, piece) in text.split('\'').enumerate() {
        if i % 2 == 1 {
            words.push(String::from_str(alloc, piece)?)?;
        } else {
            push_plain(alloc, &mut words, piece)?;
        }
    }
    Ok(words)
}

/// Adds the words of a text outside of quotes.
fn push_plain(alloc: Global, words: &mut Vec<String>, text: &str) -> Result<(), AllocError> {
    for word in text.split(' ') {
        if !word.is_empty() {
            words.push(String::from_str(alloc, word)?)?;
        }
    }
    Ok(())
}

/// Parses a number. Errs with `NoNumber`.
pub fn number(text: &str) -> Result<u64, CaseError> {
    text.parse::<u64>().map_err(|_| CaseError::NoNumber)
}

/// Parses a number of bytes. Errs with `NoNumber`.
pub fn size(text: &str) -> Result<usize, CaseError> {
    text.parse::<usize>().map_err(|_| CaseError::NoNumber)
}

/// Parses an exit status. Errs with `NoNumber`.
pub fn status(text: &str) -> Result<u8, CaseError> {
    text.parse::<u8>().map_err(|_| CaseError::NoNumber)
}

/// Splits a text into a path and the permission bits after it in octal, which are 644 if there are
/// none. Errs with `NoMode`.
pub fn path_and_mode(text: &str) -> Result<(&str, u32), CaseError> {
    match first_word(text) {
        None => Ok((text, 0o644)),
        Some((path, digits)) => match u32::from_str_radix(digits, 8) {
            Ok(mode) => Ok((path, mode)),
            Err(_) => Err(CaseError::NoMode),
        },
    }
}

/// Splits a text at its first space outside of braces. Errs with `OneWord` if there is none.
pub fn word_and_rest(text: &str) -> Result<(&str, &str), CaseError> {
    first_word(text).ok_or(CaseError::OneWord)
}

/// Splits a text at its first space outside of braces. Returns none if there is no such space.
fn first_word(text: &str) -> Option<(&str, &str)> {
    let mut is_within = false;
    for (at, byte) in text.as_bytes().iter().enumerate() {
        match *byte {
            b'{' => is_within = true,
            b'}' => is_within = false,
            b' ' if !is_within => {
                return Some((text.get(..at)?, text.get(at.saturating_add(1)..)?));
            }
            _ => {}
        }
    }
    None
}

/// Appends a line with its newline.
pub fn push_line(bytes: &mut Vec<u8>, text: &str) -> Result<(), CaseError> {
    bytes.extend_from_slice(text.as_bytes())?;
    bytes.push(b'\n')?;
    Ok(())
}

/// Appends a text without a newline.
pub fn push_text(bytes: &mut Vec<u8>, text: &str) -> Result<(), CaseError> {
    bytes.extend_from_slice(text.as_bytes())?;
    Ok(())
}

/// Decodes hexadecimal digits and appends the bytes. Errs with `NoHex`.
pub fn push_hex(alloc: Global, bytes: &mut Vec<u8>, digits: &str) -> Result<(), CaseError> {
    match hex::decode(alloc, digits) {
        Ok(some) => {
            bytes.extend_from_slice(&some)?;
            Ok(())
        }
        Err(_) => Err(CaseError::NoHex),
    }
}
