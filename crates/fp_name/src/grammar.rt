//! The grammars of names, as tests of texts.

ghost use Rattle.std.specs.Prelude.{◌≡◌, ◌&&◌, length, nat_le};
ghost use Rattle.std.specs.List.{list_all, slice_split};
ghost use Rattle.std.specs.Char.{is_ascii_graphic};
ghost use Rattle.fp_name.specs.Bytes.{is_word_start, is_word, is_dashed, is_dotted, is_dot, begins_with};
ghost use Rattle.fp_name.specs.Grammar.{is_element, is_last_element, are_elements, is_id, is_arch, is_branch, is_remote_name, is_url};

use crate::limits::{MOST_NAME_BYTES, MOST_REMOTE_NAME_BYTES, MOST_URL_BYTES};

/// The minimum number of dots in an ID: they separate three elements.
const FEWEST_DOTS: usize = 2;

/// Returns whether a byte is an ASCII letter or `_`.
fn starts_word(byte: u8) -> bool
    ensures { result ≡ is_word_start byte }
{
    byte.is_ascii_alphabetic() || byte == b'_'
}

/// Returns whether a byte is an ASCII letter, a digit or `_`.
fn is_word_byte(byte: u8) -> bool
    ensures { result ≡ is_word byte }
{
    byte.is_ascii_alphanumeric() || byte == b'_'
}

/// Returns whether a byte is an ASCII letter, a digit, `_` or `-`.
fn is_dashed_byte(byte: u8) -> bool
    ensures { result ≡ is_dashed byte }
{
    is_word_byte(byte) || byte == b'-'
}

/// Returns whether a byte is an ASCII letter, a digit, `_`, `-` or `.`.
fn is_dotted_byte(byte: u8) -> bool
    ensures { result ≡ is_dotted byte }
{
    is_dashed_byte(byte) || byte == b'.'
}

/// Returns whether each byte is an ASCII letter, a digit or `_`.
fn all_words(text: &str) -> bool
    ensures { result ≡ list_all is_word text.now }
{
    text.bytes().all(is_word_byte)
}

/// Returns whether each byte is an ASCII letter, a digit, `_` or `-`.
fn all_dashed(text: &str) -> bool
    ensures { result ≡ list_all is_dashed text.now }
{
    text.bytes().all(is_dashed_byte)
}

/// Returns whether each byte is an ASCII letter, a digit, `_`, `-` or `.`.
fn all_dotted(text: &str) -> bool
    ensures { result ≡ list_all is_dotted text.now }
{
    text.bytes().all(is_dotted_byte)
}

/// Returns whether each byte is printable ASCII other than the space: 0x21 to 0x7e.
fn all_graphic(text: &str) -> bool
    ensures { result ≡ list_all is_ascii_graphic text.now }
{
    text.bytes().all(|byte| byte.is_ascii_graphic())
}

/// Returns whether a text may be an element of an ID other than the last one: an ASCII letter or
/// `_`, and then letters, digits and `_`.
pub fn is_inner_element(text: &str) -> bool
    ensures { result ≡ is_element text.now }
{
    text.bytes().next().is_some_and(starts_word) && all_words(text)
}

/// Returns whether a text may be the last element of an ID: an ASCII letter or `_`, and then
/// letters, digits, `_` and `-`.
fn is_end_element(text: &str) -> bool
    ensures { result ≡ is_last_element text.now }
{
    text.bytes().next().is_some_and(starts_word) && all_dashed(text)
}

/// Returns whether a text is three elements or more, separated by dots.
fn has_elements(text: &str) -> bool
    ensures { result ≡ (nat_le 3 (length (slice_split is_dot text.now)) && are_elements
        (slice_split is_dot text.now)) }
{
    let mut dots: usize = 0;
    let mut rest = text;
    while let Some((element, remainder)) = rest.split_once('.') {
        if !is_inner_element(element) {
            return false;
        }
        dots += 1;
        rest = remainder;
    }
    dots >= FEWEST_DOTS && is_end_element(rest)
}

/// Returns whether a text is the ID of an application, a runtime or an extension: at most 255
/// bytes, and three elements or more, separated by dots, as in D-Bus names. An element is an ASCII
/// letter or `_`, and then letters, digits and `_`; the last one may have `-` too, but not first.
#[tactic(auto, unfolding(crate::specs::Grammar::is_id))]
pub fn is_id(text: &str) -> bool
    ensures { result ≡ is_id text.now }
{
    text.len() <= MOST_NAME_BYTES && has_elements(text)
}

/// Returns whether a text is an architecture: 1 to 255 ASCII letters, digits and `_`.
#[tactic(auto, unfolding(crate::specs::Grammar::is_arch))]
pub fn is_arch(text: &str) -> bool
    ensures { result ≡ is_arch text.now }
{
    text.len() <= MOST_NAME_BYTES
        && text.bytes().next().is_some_and(is_word_byte)
        && all_words(text)
}

/// Returns whether a text is a branch: 1 to 255 ASCII letters, digits, `_`, `-` and `.`, not
/// beginning with `.`.
#[tactic(auto, unfolding(crate::specs::Grammar::is_branch))]
pub fn is_branch(text: &str) -> bool
    ensures { result ≡ is_branch text.now }
{
    text.len() <= MOST_NAME_BYTES
        && text.bytes().next().is_some_and(is_dashed_byte)
        && all_dotted(text)
}

/// Returns whether a text is the name of a remote: 1 to 64 ASCII letters, digits, `_`, `-` and `.`,
/// beginning with a letter, a digit or `_`.
#[tactic(auto, unfolding(crate::specs::Grammar::is_remote_name))]
pub fn is_remote_name(text: &str) -> bool
    ensures { result ≡ is_remote_name text.now }
{
    text.len() <= MOST_REMOTE_NAME_BYTES
        && text.bytes().next().is_some_and(is_word_byte)
        && all_dotted(text)
}

/// Returns whether a text is the URL of a remote: `file:///`, and then bytes 0x21 to 0x7e or
/// nothing, at most 1,024 bytes in all.
#[tactic(auto, unfolding(crate::specs::Grammar::is_url))]
pub fn is_url(text: &str) -> bool
    ensures { result ≡ is_url text.now }
{
    let Some(path) = text.strip_prefix("file:///") else {
        return false;
    };
    text.len() <= MOST_URL_BYTES && all_graphic(path)
}
