//! Reading of values by their types (D-Bus specification, "Marshaling").

ghost use Rattle.std.specs.Prelude.{◌≡◌, ◌<◌, length};
ghost use Rattle.bus_frame.specs.Steps.{first_of};
ghost use Rattle.fp_base.specs.Steps.{Gives};
ghost use Rattle.bus_frame.specs.Types.{is_one_type};
ghost use Rattle.bus_frame.specs.Places.{place_of};
ghost use Rattle.bus_frame.specs.Values.{fixed_size, alignment, fixed_at, truth_at, basic_at, closed, members_at, elements_at, array_type_after, array_head_at, array_at, variant_type_at, variant_at, struct_at, value_at};

use crate::cursor::Cursor;
use crate::limits::MOST_ARRAY_BYTES;
use crate::room::Room;
use crate::steps::first_byte;
use crate::types::{after_element, is_complete_type};

fn size_of_fixed(code: u8) -> usize
    ensures { result ≡ fixed_size code }
{
    match code {
        b'y' => 1,
        b'n' | b'q' => 2,
        b'i' | b'u' | b'h' | b'b' => 4,
        b'x' | b't' | b'd' => 8,
        _ => 0,
    }
}

fn alignment_of(code: u8) -> usize
    ensures { result ≡ alignment code }
{
    match code {
        b'y' | b'g' | b'v' => 1,
        b'n' | b'q' => 2,
        b'x' | b't' | b'd' | b'(' | b'{' => 8,
        _ => 4,
    }
}

#[tactic(auto, unfolding(crate::specs::Values::fixed_at))]
fn fixed(size: usize, place: Cursor<'_>) -> Option<Cursor<'_>>
    requires { 0 < size }
    ensures { Gives place_of result (fixed_at size (place_of place.entry)) }
{
    let (_, remainder) = place.aligned(size)?.bytes(size)?;
    Some(remainder)
}

#[tactic(auto, unfolding(crate::specs::Values::truth_at))]
fn truth(little: bool, place: Cursor<'_>) -> Option<Cursor<'_>>
    ensures { Gives place_of result (truth_at little (place_of place.entry)) }
{
    let (number, remainder) = place.number(little)?;
    if number > 1 {
        return None;
    }
    Some(remainder)
}

/// Returns the position after a value of a basic type, or `None` if there is no such value. Of an
/// object path or a signature it is only checked that it is a string.
#[tactic(auto, unfolding(crate::specs::Values::basic_at))]
fn basic(little: bool, code: u8, place: Cursor<'_>) -> Option<Cursor<'_>>
    ensures { Gives place_of result (basic_at little code (place_of place.entry)) }
{
    match code {
        b's' | b'o' => {
            let (_, remainder) = place.long_text(little)?;
            Some(remainder)
        }
        b'g' => {
            let (_, remainder) = place.short_text()?;
            Some(remainder)
        }
        b'b' => truth(little, place),
        _ => {
            let size = size_of_fixed(code);
            if size == 0 {
                return None;
            }
            fixed(size, place)
        }
    }
}

/// Reads the length of an array, and returns it in bytes with the position of the first element.
/// Returns `None` if the length is above 64 MiB, bytes are missing, or a padding byte isn't zero.
/// `types` begins with the type of the elements.
#[tactic(auto, unfolding(crate::specs::Values::array_head_at))]
pub fn array_head<'m>(little: bool, types: &[u8], place: Cursor<'m>) -> Option<(usize, Cursor<'m>)>
    ensures { Gives (λ x. (x.0, place_of x.1)) result (array_head_at little types.now
        (place_of place.entry)) }
{
    let (count, remainder) = place.number(little)?;
    let (code, _) = first_byte(types)?;
    let first = remainder.aligned(alignment_of(code))?;
    if count > MOST_ARRAY_BYTES {
        return None;
    }
    Some((count as usize, first))
}

/// Reads the type of a variant, and returns it with the position of the variant's value, or `None`
/// if it isn't exactly one complete type.
#[tactic(auto, unfolding(crate::specs::Values::variant_type_at))]
pub fn variant_type<'m>(place: Cursor<'m>) -> Option<(&'m [u8], Cursor<'m>)>
    ensures { Gives (λ x. (x.0.now, place_of x.1)) result (variant_type_at (place_of place.entry)) }
{
    let (count, remainder) = place.byte()?;
    let (types, remainder) = remainder.bytes(usize::from(count))?;
    let (end, remainder) = remainder.byte()?;
    if end != 0 || !is_complete_type(types) {
        return None;
    }
    Some((types, remainder))
}

/// Returns the types after the closing bracket of a struct or a dictionary entry, or `None` if
/// `types` doesn't begin with one.
fn after_closing(types: &[u8]) -> Option<&[u8]>
    ensures { Gives (λ rest. rest.now) result (closed types.now) }
{
    let (code, rest) = first_byte(types)?;
    if code != b')' && code != b'}' {
        return None;
    }
    Some(rest)
}

/// Reads a value of the first type, and returns the types after this one with the position after
/// the value. Returns `None` if there is no such value or it nests deeper than `room` allows. The
/// types are assumed to be well formed.
#[cycle(values)]
#[tactic(auto, using(crate::proofs::ValueSteps::step))]
pub fn value<'t, 'm>(
    room: Room,
    little: bool,
    types: &'t [u8],
    place: Cursor<'m>,
) -> Option<(&'t [u8], Cursor<'m>)>
    ensures { Gives (λ x. (x.0.now, place_of x.1)) result
        (value_at little room.containers room.arrays room.structs types.now
        (place_of place.entry)) }
{
    let (code, rest) = first_byte(types)?;
    match code {
        b'a' => array(room.in_array()?, little, rest, place),
        b'(' => structure(room.in_struct()?, little, rest, place),
        b'{' => structure(room.in_other()?, little, rest, place),
        b'v' => Some((rest, variant(room.in_other()?, little, place)?)),
        _ => Some((rest, basic(little, code, place)?)),
    }
}

#[cycle(values)]
#[tactic(auto, unfolding(crate::specs::Values::variant_at))]
fn variant(room: Room, little: bool, place: Cursor<'_>) -> Option<Cursor<'_>>
    ensures { Gives place_of result
        (variant_at (value_at little room.containers room.arrays room.structs)
        (place_of place.entry)) }
{
    let (types, first) = variant_type(place)?;
    let (_, remainder) = value(room, little, types, first)?;
    Some(remainder)
}

#[cycle(values)]
#[tactic(auto, unfolding(crate::specs::Values::struct_at))]
fn structure<'t, 'm>(
    room: Room,
    little: bool,
    types: &'t [u8],
    place: Cursor<'m>,
) -> Option<(&'t [u8], Cursor<'m>)>
    ensures { Gives (λ x. (x.0.now, place_of x.1)) result
        (struct_at (value_at little room.containers room.arrays room.structs) types.now
        (place_of place.entry)) }
{
    let first = place.aligned(8)?;
    members(room, little, types, first)
}

#[cycle(values)]
fn members<'t, 'm>(
    room: Room,
    little: bool,
    types: &'t [u8],
    place: Cursor<'m>,
) -> Option<(&'t [u8], Cursor<'m>)>
    ensures { Gives (λ x. (x.0.now, place_of x.1)) result
        (members_at (value_at little room.containers room.arrays room.structs)
        (length types.now) types.now (place_of place.entry)) }
{
    let mut left = types;
    let mut next = place;
    for _ in 0..types.len() {
        let (rest, remainder) = value(room, little, left, next)?;
        if let Some(after) = after_closing(rest) {
            return Some((after, remainder));
        }
        left = rest;
        next = remainder;
    }
    None
}

#[cycle(values)]
#[tactic(auto, unfolding(crate::specs::Values::array_at))]
fn array<'t, 'm>(
    room: Room,
    little: bool,
    types: &'t [u8],
    place: Cursor<'m>,
) -> Option<(&'t [u8], Cursor<'m>)>
    ensures { Gives (λ x. (x.0.now, place_of x.1)) result
        (array_at little (value_at little room.containers room.arrays room.structs) types.now
        (place_of place.entry)) }
{
    let (count, first) = array_head(little, types, place)?;
    let (body, remainder) = first.bytes(count)?;
    let elements = Cursor {
        at: first.at,
        rest: body,
    };
    let rest = if count == 0 {
        after_element(Room::WHOLE, types)?
    } else {
        after_elements(room, little, types, elements)?
    };
    Some((rest, remainder))
}

#[cycle(values)]
fn after_elements<'t>(
    room: Room,
    little: bool,
    types: &'t [u8],
    place: Cursor<'_>,
) -> Option<&'t [u8]>
    ensures { Gives (λ rest. rest.now) result
        (elements_at (value_at little room.containers room.arrays room.structs)
        (length place.entry.rest.now) types.now (place_of place.entry)) }
{
    let mut next = place;
    for _ in 0..place.rest.len() {
        let (rest, remainder) = value(room, little, types, next)?;
        if remainder.rest.is_empty() {
            return Some(rest);
        }
        next = remainder;
    }
    None
}
