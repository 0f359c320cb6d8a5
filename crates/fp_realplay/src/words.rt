//! The words of a line.

/// Splits a text at its first space. Without a space, the second part is empty.
pub fn pair(text: &str) -> (&str, &str) {
    match text.split_once(' ') {
        Some(both) => both,
        None => (text, ""),
    }
}

/// Parses a decimal number; 0 if the word is none.
pub(crate) fn number(word: &str) -> u64 {
    match word.parse::<u64>() {
        Ok(found) => found,
        Err(_) => 0,
    }
}

/// Parses permission bits in octal; 0 if the word is no octal number.
pub(crate) fn bits(word: &str) -> u32 {
    match u32::from_str_radix(word, 8) {
        Ok(found) => found,
        Err(_) => 0,
    }
}
