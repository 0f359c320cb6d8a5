//! Comparing what is read from bytes with a line of words.

use bus_frame::{
    FrameError, Header, ReadFrame, first_string, is_names, names_body, read_frame, three_strings,
};
use fp_base::Text;
use std::alloc::Global;
use std::panic::Expect;
use std::process::Abort;

/// Returns the word of a line with this index, counted from 0; empty if there is none.
pub fn word_at(line: &str, at: usize) -> &str {
    line.split(' ').nth(at).unwrap_or("")
}

/// Returns the number in a line at this index, if the word is one.
fn number_at(line: &str, at: usize) -> Option<u64> {
    word_at(line, at).parse::<u64>().ok()
}

/// Returns whether a text is that of a word, which is the text, `-` for `None`, or `#` and the
/// text's length in bytes.
fn is_word(text: &Option<Text>, word: &str) -> bool {
    match text {
        None => word == "-",
        Some(text) => fits(text.as_str(), word),
    }
}

/// Returns whether a text is this word, or has the length in bytes that follows `#` in the word.
fn fits(text: &str, word: &str) -> bool {
    match word.strip_prefix('#') {
        Some(length) => number_at(length, 0) == Some(text.len() as u64),
        None => text == word,
    }
}

/// Returns whether a header has the numbers of a line.
fn has_numbers(header: &Header, line: &str) -> bool {
    let reply = match header.reply_serial {
        Some(serial) => Some(serial as u64),
        None => None,
    };
    number_at(line, 0) == Some(header.kind.code() as u64)
        && number_at(line, 1) == Some(header.flags.bits as u64)
        && number_at(line, 2) == Some(header.serial as u64)
        && number_at(line, 7) == reply
        && number_at(line, 11) == Some(header.body_len)
}

/// Returns whether a header is that of a line: type, flags, serial, path, interface, member, error
/// name, reply serial, destination, sender, signature, and the length of the body in bytes.
fn is_header(header: &Header, line: &str) -> bool {
    has_numbers(header, line)
        && is_word(&header.path, word_at(line, 3))
        && is_word(&header.interface, word_at(line, 4))
        && is_word(&header.member, word_at(line, 5))
        && is_word(&header.error_name, word_at(line, 6))
        && is_word(&header.destination, word_at(line, 8))
        && is_word(&header.sender, word_at(line, 9))
        && is_word(&header.signature, word_at(line, 10))
}

/// Returns whether the line describes the front of the bytes: the header of a message, with `and N
/// more` if N bytes follow the message; `lacks N` if N bytes are missing; or `breaks` and the rule.
pub fn is_front(rt: &impl Abort, alloc: Global, bytes: &[u8], line: &str) -> bool {
    match read_frame(alloc, bytes) {
        Ok(ReadFrame::Need(count)) => word_at(line, 0) == "lacks"
            && number_at(line, 1) == Some(count),
        Ok(ReadFrame::Frame(header, len)) => {
            let is_so = is_header(&header, line);
            drop(header);
            is_so && number_at(line, 13).unwrap_or(0) == (bytes.len() as u64).saturating_sub(len)
        }
        Err(FrameError::Bad(rule)) => {
            let told = format!(in alloc; "breaks {rule:?}").expect(rt, "memory");
            told.as_str() == line
        }
        Err(FrameError::NoMemory) => false,
    }
}

/// Returns whether a body has the strings of a line: the byte order, the offset of the body, its
/// first string, and its three strings with commas between them.
fn has_texts(header: &Header, message: &[u8], line: &str) -> bool {
    let order = if header.little { "l" } else { "B" };
    let first = first_string(header, message).unwrap_or("-");
    let (front, end) = word_at(line, 3).rsplit_once(',').unwrap_or(("", ""));
    let are_three = match three_strings(header, message) {
        Some((one, two, three)) => front.split_once(',') == Some((one, two)) && end == three,
        None => word_at(line, 3) == "-",
    };
    word_at(line, 0) == order
        && number_at(line, 1) == Some(header.body_at)
        && fits(first, word_at(line, 2))
        && are_three
}

/// Returns whether the names are those of a word, in which a comma follows each name, or which is
/// `#` and the number of names.
fn are_names(names: &[Text], word: &str) -> bool {
    if word.starts_with('#') {
        return number_at(word.trim_start_matches('#'), 0) == Some(names.len() as u64);
    }
    let mut words = word.split_terminator(',');
    for name in names {
        if words.next() != Some(name.as_str()) {
            return false;
        }
    }
    words.next().is_none()
}

/// Returns whether a body has the names that follow `names:` in the word, or no array of names if
/// the word is `-`.
fn has_names(rt: &impl Abort, alloc: Global, header: &Header, message: &[u8], word: &str) -> bool {
    let are_there = is_names(header, message);
    match names_body(alloc, header, message).expect(rt, "memory") {
        Some(names) => {
            let listed = word.strip_prefix("names:").unwrap_or("-");
            are_there && are_names(names.as_slice(), listed)
        }
        None => !are_there && word == "-",
    }
}

/// Returns whether bytes are a message with the strings and names of a line as its body.
pub fn is_body(rt: &impl Abort, alloc: Global, bytes: &[u8], line: &str) -> bool {
    match read_frame(alloc, bytes) {
        Ok(ReadFrame::Frame(header, _)) => {
            let is_so = has_texts(&header, bytes, line)
                && has_names(rt, alloc, &header, bytes, word_at(line, 4));
            drop(header);
            is_so
        }
        Ok(ReadFrame::Need(_)) | Err(_) => false,
    }
}
