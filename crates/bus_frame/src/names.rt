//! Valid names (D-Bus specification, "Valid Object Paths" and "Valid Names").

ghost use Rattle.std.specs.Prelude.{◌≡◌, ◌==◌};
ghost use Rattle.std.specs.List.{list_all, slice_split};
ghost use Rattle.bus_frame.specs.Names.{begins_element, continues_element, is_element, are_elements, is_dotted, is_interface, is_member, is_unique, is_well_known, is_bus, is_path};

use crate::limits::MOST_NAME_BYTES;

/// The bus's own name, which is also the name of its interface.
pub const BUS_NAME: &str = "org.freedesktop.DBus";

/// The characters that the elements of a name may have.
#[derive(Clone, Copy)]
pub enum Alphabet {
    /// ASCII letters, digits and `_`; the first is no digit.
    Interface,
    /// ASCII letters, digits, `_` and `-`; the first is no digit.
    WellKnown,
    /// ASCII letters, digits, `_` and `-`.
    Unique,
    /// ASCII letters, digits and `_`.
    Path,
}

fn continues(alphabet: Alphabet, byte: u8) -> bool
    ensures { result ≡ continues_element alphabet byte }
{
    match byte {
        b'a'..=b'z' | b'A'..=b'Z' | b'0'..=b'9' | b'_' => true,
        b'-' => matches!(alphabet, Alphabet::WellKnown | Alphabet::Unique),
        _ => false,
    }
}

fn begins(alphabet: Alphabet, byte: u8) -> bool
    ensures { result ≡ begins_element alphabet byte }
{
    match alphabet {
        Alphabet::Interface | Alphabet::WellKnown => {
            !byte.is_ascii_digit() && continues(alphabet, byte)
        }
        Alphabet::Unique | Alphabet::Path => continues(alphabet, byte),
    }
}

fn all_continue(alphabet: Alphabet, bytes: &[u8]) -> bool
    ensures { result ≡ list_all (continues_element alphabet) bytes.now }
{
    bytes.iter().all(|byte| continues(alphabet, *byte))
}

fn element(alphabet: Alphabet, bytes: &[u8]) -> bool
    ensures { result ≡ is_element alphabet bytes.now }
{
    match bytes {
        [] => false,
        [first, later @ ..] => begins(alphabet, *first) && all_continue(alphabet, later),
    }
}

fn elements(alphabet: Alphabet, separator: u8, bytes: &[u8]) -> bool
    ensures { result ≡ are_elements alphabet separator bytes.now }
{
    bytes
        .split(|byte| *byte == separator)
        .all(|part| element(alphabet, part))
}

fn dotted(alphabet: Alphabet, bytes: &[u8]) -> bool
    ensures { result ≡ is_dotted alphabet bytes.now }
{
    bytes.contains(&b'.') && elements(alphabet, b'.', bytes)
}

/// Returns whether the bytes are the name of an interface or an error: at most 255 bytes, and two
/// or more elements with dots between them, each an ASCII letter or `_` and then ASCII letters,
/// digits and `_`.
#[tactic(auto, unfolding(crate::specs::Names::is_interface))]
pub fn is_interface_name(bytes: &[u8]) -> bool
    ensures { result ≡ is_interface bytes.now }
{
    bytes.len() <= MOST_NAME_BYTES && dotted(Alphabet::Interface, bytes)
}

/// Returns whether the bytes are the name of a method or a signal: at most 255 bytes, an ASCII
/// letter or `_` and then ASCII letters, digits and `_`.
#[tactic(auto, unfolding(crate::specs::Names::is_member))]
pub fn is_member_name(bytes: &[u8]) -> bool
    ensures { result ≡ is_member bytes.now }
{
    bytes.len() <= MOST_NAME_BYTES && element(Alphabet::Interface, bytes)
}

/// Returns whether the bytes are a unique bus name: at most 255 bytes, `:` and then two or more
/// elements of ASCII letters, digits, `_` and `-`, with dots between them.
#[tactic(auto, unfolding(crate::specs::Names::is_unique))]
pub fn is_unique_name(bytes: &[u8]) -> bool
    ensures { result ≡ is_unique bytes.now }
{
    match bytes {
        [b':', name @ ..] => bytes.len() <= MOST_NAME_BYTES && dotted(Alphabet::Unique, name),
        _ => false,
    }
}

/// Returns whether the bytes are a well-known bus name: at most 255 bytes, and two or more elements
/// of ASCII letters, digits, `_` and `-`, with dots between them. No element begins with a digit.
#[tactic(auto, unfolding(crate::specs::Names::is_well_known))]
pub fn is_well_known_name(bytes: &[u8]) -> bool
    ensures { result ≡ is_well_known bytes.now }
{
    bytes.len() <= MOST_NAME_BYTES && dotted(Alphabet::WellKnown, bytes)
}

/// Returns whether the bytes are one or more elements of a well-known bus name, with dots between
/// them. Their number of bytes isn't limited.
pub fn are_name_elements(bytes: &[u8]) -> bool
    ensures { result ≡ are_elements Alphabet.WellKnown 46 bytes.now }
{
    elements(Alphabet::WellKnown, b'.', bytes)
}

/// Returns whether the bytes are a bus name, unique or well-known.
#[tactic(auto, unfolding(crate::specs::Names::is_bus))]
pub fn is_bus_name(bytes: &[u8]) -> bool
    ensures { result ≡ is_bus bytes.now }
{
    is_unique_name(bytes) || is_well_known_name(bytes)
}

/// Returns whether the bytes are an object path: `/`, or one or more elements of ASCII letters,
/// digits and `_`, each after a `/`.
#[tactic(auto, unfolding(crate::specs::Names::is_path))]
pub fn is_object_path(bytes: &[u8]) -> bool
    ensures { result ≡ is_path bytes.now }
{
    match bytes {
        [b'/'] => true,
        [b'/', rest @ ..] => elements(Alphabet::Path, b'/', rest),
        _ => false,
    }
}
