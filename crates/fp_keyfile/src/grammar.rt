//! Tests of the parts of a key file (Desktop Entry Specification, "Basic format of the file").

ghost use Rattle.std.specs.Prelude.{◌≡◌, ◌==◌};
ghost use Rattle.std.specs.List.{list_all, list_any};
ghost use Rattle.fp_keyfile.specs.Grammar as grammar;

use fp_base::is_control;

/// Returns whether a byte is a space or a tab.
pub(crate) fn is_blank(byte: u8) -> bool
    ensures { result ≡ grammar.is_blank byte }
{
    byte == b' ' || byte == b'\t'
}

/// Returns whether each byte is a space or a tab.
pub(crate) fn are_blank(bytes: &[u8]) -> bool
    ensures { result ≡ list_all grammar.is_blank bytes.now }
{
    bytes.iter().all(|byte| is_blank(*byte))
}

/// Returns whether there is a zero byte.
pub(crate) fn has_zero(bytes: &[u8]) -> bool
    ensures { result ≡ list_any (λ b. b == 0) bytes.now }
{
    bytes.iter().any(|byte| *byte == 0)
}

/// Returns whether a byte may be in a group's name: it is none of `[`, `]` and the control
/// characters.
fn is_name_byte(byte: u8) -> bool
    ensures { result ≡ grammar.is_name_byte byte }
{
    byte != b'[' && byte != b']' && !is_control(byte)
}

/// Returns whether all bytes may be in a group's name.
fn are_name_bytes(bytes: &[u8]) -> bool
    ensures { result ≡ list_all grammar.is_name_byte bytes.now }
{
    bytes.iter().all(|byte| is_name_byte(*byte))
}

/// Returns whether a text may be a group's name: it isn't empty, and has no `[`, no `]` and no
/// control character.
pub fn is_group_name(text: &str) -> bool
    ensures { result ≡ grammar.is_name text.now }
{
    !text.is_empty() && are_name_bytes(text.as_bytes())
}

/// Returns whether a byte may be in a key: it is neither `=` nor a control character.
pub fn is_key_byte(byte: u8) -> bool
    ensures { result ≡ grammar.is_key_byte byte }
{
    byte != b'=' && !is_control(byte)
}

/// Returns whether all bytes may be in a key.
fn are_key_bytes(bytes: &[u8]) -> bool
    ensures { result ≡ list_all grammar.is_key_byte bytes.now }
{
    bytes.iter().all(|byte| is_key_byte(*byte))
}

/// Returns whether the first byte may not begin a key: it is `[`, `#`, a space or a tab.
fn begins_no_key(bytes: &[u8]) -> bool
    ensures { result ≡ grammar.begins_so grammar.begins_no_key bytes.now }
{
    match bytes {
        [first, ..] => *first == b'[' || *first == b'#' || is_blank(*first),
        [] => false,
    }
}

/// Returns whether the last byte is a space or a tab.
fn ends_in_blank(bytes: &[u8]) -> bool
    ensures { result ≡ grammar.ends_so grammar.is_blank bytes.now }
{
    match bytes {
        [.., last] => is_blank(*last),
        [] => false,
    }
}

/// Returns whether a text may be a key: it isn't empty, has no `=` and no control character (so no
/// tab), doesn't begin with `[`, `#` or a space, and doesn't end with a space.
pub fn is_pair_key(text: &str) -> bool
    ensures { result ≡ grammar.is_key text.now }
{
    let bytes = text.as_bytes();
    !bytes.is_empty() && !begins_no_key(bytes) && are_key_bytes(bytes) && !ends_in_blank(bytes)
}

/// Returns whether a byte may be in a value: it is neither a newline nor zero.
fn is_value_byte(byte: u8) -> bool
    ensures { result ≡ grammar.is_value_byte byte }
{
    byte != b'\n' && byte != 0
}

/// Returns whether all bytes may be in a value.
fn are_value_bytes(bytes: &[u8]) -> bool
    ensures { result ≡ list_all grammar.is_value_byte bytes.now }
{
    bytes.iter().all(|byte| is_value_byte(*byte))
}

/// Returns whether the first byte is a space or a tab.
fn begins_in_blank(bytes: &[u8]) -> bool
    ensures { result ≡ grammar.begins_so grammar.is_blank bytes.now }
{
    match bytes {
        [first, ..] => is_blank(*first),
        [] => false,
    }
}

/// Returns whether the last byte is a carriage return.
fn ends_in_return(bytes: &[u8]) -> bool
    ensures { result ≡ grammar.ends_so grammar.is_return bytes.now }
{
    match bytes {
        [.., last] => *last == b'\r',
        [] => false,
    }
}

/// Returns whether a text may be a value: it has no newline and no zero byte, doesn't begin with a
/// space or a tab, and doesn't end with a carriage return.
pub fn is_pair_value(text: &str) -> bool
    ensures { result ≡ grammar.is_value text.now }
{
    let bytes = text.as_bytes();
    are_value_bytes(bytes) && !begins_in_blank(bytes) && !ends_in_return(bytes)
}
