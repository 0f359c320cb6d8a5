//! Complete types and signatures (D-Bus specification, "Type System").

ghost use Rattle.std.specs.Prelude.{◌≡◌, ◌==◌, ◌||◌, length};
ghost use Rattle.fp_base.specs.Steps.{Gives};
ghost use Rattle.bus_frame.specs.Types.{is_basic, element_after, members_after, type_after, is_one_type, is_signature, are_types_text};

use crate::limits::MOST_SIGNATURE_BYTES;
use crate::room::Room;
use crate::steps::{after_byte, first_byte};

fn is_basic_type(code: u8) -> bool
    ensures { result ≡ is_basic code }
{
    matches!(
        code,
        b'y' | b'b' | b'n' | b'q' | b'i' | b'u' | b'x' | b't' | b'd' | b's' | b'o' | b'g' | b'h'
    )
}

/// Returns the bytes after the complete type at the front, or `None` if there is none or it nests
/// deeper than `room` allows.
#[cycle(types)]
#[tactic(auto, using(crate::proofs::TypeSteps::step))]
pub fn after_type(room: Room, types: &[u8]) -> Option<&[u8]>
    ensures { Gives (λ rest. rest.now) result (type_after room.containers room.arrays room.structs
        types.now) }
{
    let (code, rest) = first_byte(types)?;
    match code {
        b'a' => after_element(room.in_array()?, rest),
        b'(' => after_members(room.in_struct()?, rest),
        _ if code == b'v' || is_basic_type(code) => Some(rest),
        _ => None,
    }
}

/// Returns the bytes after the element type of an array at the front, which may be a dictionary
/// entry, or `None` if there is none or it nests deeper than `room` allows.
#[cycle(types)]
pub fn after_element(room: Room, types: &[u8]) -> Option<&[u8]>
    ensures { Gives (λ rest. rest.now) result (element_after
        (type_after room.containers room.arrays room.structs) types.now) }
{
    let (code, rest) = first_byte(types)?;
    if code != b'{' {
        return after_type(room, types);
    }
    let (key, value) = first_byte(rest)?;
    if !is_basic_type(key) {
        return None;
    }
    after_byte(b'}', after_type(room, value)?)
}

#[cycle(types)]
fn after_members(room: Room, types: &[u8]) -> Option<&[u8]>
    ensures { Gives (λ rest. rest.now) result (members_after
        (type_after room.containers room.arrays room.structs) (length types.now) types.now) }
{
    let mut rest = types;
    for _ in 0..types.len() {
        rest = after_type(room, rest)?;
        if let Some(after) = after_byte(b')', rest) {
            return Some(after);
        }
    }
    None
}

/// Returns whether the bytes are exactly one complete type.
pub fn is_complete_type(types: &[u8]) -> bool
    ensures { result ≡ is_one_type types.now }
{
    match after_type(Room::WHOLE, types) {
        Some(rest) => rest.is_empty(),
        None => false,
    }
}

/// Returns whether the bytes are a signature: zero or more complete types, in at most 255 bytes.
#[tactic(auto, unfolding(crate::specs::Types::is_signature))]
pub fn is_type_signature(types: &[u8]) -> bool
    ensures { result ≡ is_signature types.now }
{
    types.len() <= MOST_SIGNATURE_BYTES && are_complete_types(types)
}

fn are_complete_types(types: &[u8]) -> bool
    ensures { result ≡ are_types_text (length types.now) types.now }
{
    let mut rest = types;
    for _ in 0..types.len() {
        if rest.is_empty() {
            return true;
        }
        match after_type(Room::WHOLE, rest) {
            Some(after) => rest = after,
            None => return false,
        }
    }
    rest.is_empty()
}
