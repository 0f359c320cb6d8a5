//! Reading the keys of a metadata group.

ghost use Rattle.std.specs.Prelude.{◌≡◌};
ghost use Rattle.std.specs.List.{list_all};
ghost use Rattle.fp_keyfile.specs.Grammar as keys;
ghost use Rattle.fl_extension.specs.Points as spec;

use fp_host::are_elements;
use fp_keyfile::{Group, is_key_byte};

/// Returns whether the key has the value `true`.
pub(crate) fn is_on(group: &Group, key: &str) -> bool
    ensures { result ≡ spec.is_on group.now key.now }
{
    match group.get(key) {
        Some(value) => value == "true",
        None => false,
    }
}

/// Returns whether no byte is `=` or a control character.
fn are_plain(text: &str) -> bool
    ensures { result ≡ list_all keys.is_key_byte text.now }
{
    text.bytes().all(|byte| is_key_byte(byte))
}

/// Returns whether a byte is a space or a tab.
fn is_blank(byte: u8) -> bool
    ensures { result ≡ keys.is_blank byte }
{
    byte == b' ' || byte == b'\t'
}

/// Returns whether the last byte is a space or a tab.
fn ends_in_blank(bytes: &[u8]) -> bool
    ensures { result ≡ keys.ends_so keys.is_blank bytes.now }
{
    match bytes {
        [.., last] => is_blank(*last),
        [] => false,
    }
}

/// Returns whether a text is a directory in which an extension may be mounted: a path other than
/// the root, without `=` and control characters, and without a space or a tab at its end.
pub(crate) fn is_directory(text: &str) -> bool
    ensures { result ≡ spec.is_directory text.now }
{
    are_elements(text) && are_plain(text) && !ends_in_blank(text.as_bytes())
}
