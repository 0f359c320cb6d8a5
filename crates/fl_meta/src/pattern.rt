//! Patterns of bus names.

ghost use Rattle.std.specs.Prelude.{◌≡◌, length};
ghost use Rattle.std.specs.List.{list_all, slice_split};
ghost use Rattle.fp_name.specs.Bytes as bytes;
ghost use Rattle.fl_meta.specs.Patterns as patterns;

use crate::limits::MOST_BUS_NAME_BYTES;

/// Returns whether a byte is an ASCII letter, a digit, `_` or `-`.
fn is_dashed(byte: u8) -> bool
    ensures { result ≡ bytes.is_dashed byte }
{
    byte.is_ascii_alphanumeric() || byte == b'_' || byte == b'-'
}

/// Returns whether a byte is an ASCII letter, `_` or `-`.
fn starts_element(byte: u8) -> bool
    ensures { result ≡ patterns.is_bus_start byte }
{
    byte.is_ascii_alphabetic() || byte == b'_' || byte == b'-'
}

/// Returns whether each byte is an ASCII letter, a digit, `_` or `-`.
fn all_dashed(text: &str) -> bool
    ensures { result ≡ list_all bytes.is_dashed text.now }
{
    text.bytes().all(is_dashed)
}

/// Returns whether a text is an element of a bus name: it doesn't begin with a digit.
fn is_element(text: &str) -> bool
    ensures { result ≡ patterns.is_bus_element text.now }
{
    text.bytes().next().is_some_and(starts_element) && all_dashed(text)
}

/// Returns whether a text is one or more elements, separated by dots.
fn are_elements(text: &str) -> bool
    ensures { result ≡ patterns.are_bus_elements text.now }
{
    text.split('.').all(is_element)
}

/// Returns the number of parts of a text between its dots.
fn element_count(text: &str) -> usize
    ensures { result ≡ length (slice_split bytes.is_dot text.now) }
{
    text.split('.').count()
}

/// Returns whether a text is a well-known bus name: two or more elements and at most 255 bytes.
fn is_bus_name(text: &str) -> bool
    ensures { result ≡ patterns.is_bus_name text.now }
{
    text.len() <= MOST_BUS_NAME_BYTES && element_count(text) >= 2 && are_elements(text)
}

/// Returns whether a text is a pattern of bus names (D-Bus specification, "Bus names"): a
/// well-known name (two or more elements of letters, digits, `_` and `-`, none of which begins with
/// a digit, and at most 255 bytes), or one or more such elements followed by `.*`.
#[tactic(auto, unfolding(crate::specs::Patterns::is_pattern))]
pub fn is_pattern(text: &str) -> bool
    ensures { result ≡ patterns.is_pattern text.now }
{
    match text.strip_suffix(".*") {
        Some(name) => are_elements(name),
        None => is_bus_name(text),
    }
}
