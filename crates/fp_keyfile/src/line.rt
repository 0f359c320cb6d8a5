//! One line of a key file.

ghost use Rattle.std.specs.Prelude.{◌≡◌, ◌<◌, ◌+◌, ◌∷◌, ◌==◌, drop, length, option_map};
ghost use Rattle.std.specs.List.{position};
ghost use Rattle.fp_keyfile.specs.Grammar as grammar;
ghost use Rattle.fp_keyfile.specs.Lines.{lines_of, split_at, trimmed_front, trimmed_end, header_of, entry_of, marked, line_says};
ghost use Rattle.fp_keyfile.specs.Line.{said};

use crate::grammar::{are_blank, has_zero, is_blank, is_group_name, is_pair_key};
use fp_base::KeyRule;

/// A parsed line.
#[derive(Clone, Copy)]
pub(crate) enum Line<'a> {
    /// A blank line or a comment.
    Nothing,
    /// A group header, with the group's name.
    Header(&'a str),
    /// A pair, with its key and its value.
    Entry(&'a str, &'a str),
}

/// Returns the index of the first newline.
fn newline_place(bytes: &[u8]) -> Option<usize>
    ensures { result ≡ position (λ b. b == 10) bytes.now }
{
    bytes.iter().position(|byte| *byte == b'\n')
}

/// Returns the first line, without its newline, and the bytes after it. The bytes must not be
/// empty.
pub fn first_line(bytes: &[u8]) -> (&[u8], &[u8])
    requires { 0 < length bytes.now }
    ensures lines { lines_of bytes.now ≡ result.0.now ∷ lines_of result.1.now }
    ensures rest { result.1.now ≡ drop (length result.0.now + 1) bytes.now }
    ensures shorter { length result.1.now < length bytes.now }
{
    match newline_place(bytes) {
        Some(end) => (&bytes[..end], &bytes[end + 1..]),
        None => (bytes, &[]),
    }
}

/// Returns the line without the carriage returns at its end.
fn without_returns(line: &[u8]) -> &[u8]
    ensures { result.now ≡ trimmed_end grammar.is_return line.now }
{
    let mut end = line.len();
    while end > 0 && line[end - 1] == b'\r' {
        end -= 1;
    }
    &line[..end]
}

/// Returns the text without the spaces and tabs at its start.
pub fn trim_front(text: &str) -> &str
    ensures { result.now ≡ trimmed_front grammar.is_blank text.now }
{
    let bytes = text.as_bytes();
    let mut start = 0;
    while start < bytes.len() && is_blank(bytes[start]) {
        start += 1;
    }
    &text[start..]
}

/// Returns the text without the spaces and tabs at its end.
fn trim_end(text: &str) -> &str
    ensures { result.now ≡ trimmed_end grammar.is_blank text.now }
{
    let bytes = text.as_bytes();
    let mut end = bytes.len();
    while end > 0 && is_blank(bytes[end - 1]) {
        end -= 1;
    }
    &text[..end]
}

/// Parses the text of a group header after its `[`. Errs with `Group` if there is no `]`, if the
/// name before it isn't valid, or if anything but spaces and tabs comes after it.
fn read_header(text: &str) -> Result<Line<'_>, KeyRule>
    ensures { said result ≡ header_of text.now }
{
    let Some((name, rest)) = text.split_once(']') else {
        return Err(KeyRule::Group);
    };
    if is_group_name(name) && are_blank(rest.as_bytes()) {
        Ok(Line::Header(name))
    } else {
        Err(KeyRule::Group)
    }
}

/// Splits a text at its first `=`, which neither part includes. Returns `None` if there is none.
pub fn cut_at_equals(text: &str) -> Option<(&str, &str)>
    ensures { option_map (λ x. (x.0.now, x.1.now)) result ≡ split_at 61 text.now }
{
    text.split_once('=')
}

/// Parses the line of a pair. Errs with `Line` if it has no `=`, and with `Key` if the key isn't
/// valid.
fn read_entry(text: &str) -> Result<Line<'_>, KeyRule>
    ensures { said result ≡ entry_of text.now }
{
    let Some((key, value)) = cut_at_equals(text) else {
        return Err(KeyRule::Line);
    };
    let key = trim_end(key);
    let value = trim_front(value);
    if is_pair_key(key) {
        Ok(Line::Entry(key, value))
    } else {
        Err(KeyRule::Key)
    }
}

/// Parses a line that isn't blank, by its first byte: `#` begins a comment, `[` a group header, and
/// any other byte a pair.
fn read_marked(text: &str) -> Result<Line<'_>, KeyRule>
    ensures { said result ≡ marked text.now }
{
    match text.as_bytes() {
        [] | [b'#', ..] => Ok(Line::Nothing),
        [b'[', ..] => read_header(&text[1..]),
        _ => read_entry(text),
    }
}

/// Parses a line. Errs with the first rule that the line breaks.
#[tactic(auto, unfolding(crate::specs::Lines::line_says))]
pub(crate) fn read_line(line: &[u8]) -> Result<Line<'_>, KeyRule>
    ensures { said result ≡ line_says line.now }
{
    let Ok(text) = str::from_utf8(without_returns(line)) else {
        return Err(KeyRule::Text);
    };
    let bytes = text.as_bytes();
    if has_zero(bytes) {
        Err(KeyRule::Text)
    } else if are_blank(bytes) {
        Ok(Line::Nothing)
    } else {
        read_marked(text)
    }
}
