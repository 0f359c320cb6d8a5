//! Parsing of type strings.
ghost use Rattle.std.specs.Prelude.{◌≡◌, length, Some, None, MatchResult};
ghost use Rattle.gv_value.specs.Signs.{sign_at};
ghost use Rattle.gv_value.specs.TypeText.{flat_type, type_from, entry_at, members_at, type_at, type_of};
ghost use Rattle.gv_value.specs.Reads.{Reads};
ghost use Rattle.gv_value.specs.Views.{shape_of, shapes_of};

use crate::error::TypeError;
use crate::limits::MOST_DEPTH;
use crate::sign::Sign;
use crate::types::GvType;
use std::alloc::Global;

impl GvType {
    /// Parses a type string. Errs with `Bad` if the text isn't one type that nests at most 64 deep.
    pub fn parse(alloc: Global, text: &[u8]) -> Result<GvType, TypeError>
        ensures { Reads shape_of result (type_of text.now) }
    {
        let (found, rest) = read_type(alloc, text, MOST_DEPTH)?;
        if rest.is_empty() {
            Ok(found)
        } else {
            Err(TypeError::Bad)
        }
    }
}

/// Reads the character at the front. Returns its meaning and the text after it.
fn read_sign(text: &[u8]) -> Result<(Sign, &[u8]), TypeError>
    ensures { Reads (λ x. (x.0, x.1.now)) result (sign_at text.now) }
{
    match Sign::at_front(text) {
        Some(found) => Ok(found),
        None => Err(TypeError::Bad),
    }
}

/// Reads the type at the front, which nests at most `room` deep. Returns it and the text after it.
#[cycle(parse)]
fn read_type(alloc: Global, text: &[u8], room: u32) -> Result<(GvType, &[u8]), TypeError>
    ensures { Reads (λ x. (shape_of x.0, x.1.now)) result (type_at room text.now) }
{
    let (sign, rest) = read_sign(text)?;
    if room > 0 {
        read_from(alloc, sign, rest, room - 1)
    } else if let Sign::Basic(basic) = sign {
        Ok((GvType::from_basic(basic), rest))
    } else {
        Err(TypeError::Bad)
    }
}

/// Reads the rest of a type that begins with `sign`. The types in it nest at most `room` deep.
#[cycle(parse)]
fn read_from(
    alloc: Global,
    sign: Sign,
    rest: &[u8],
    room: u32,
) -> Result<(GvType, &[u8]), TypeError>
    ensures { Reads (λ x. (shape_of x.0, x.1.now)) result (type_from (type_at room) sign rest.now) }
{
    match sign {
        Sign::Basic(basic) => Ok((GvType::from_basic(basic), rest)),
        Sign::Variant => Ok((GvType::Variant, rest)),
        Sign::Array => {
            let (element, rest) = read_type(alloc, rest, room)?;
            Ok((GvType::Array(Box::new(alloc, element)?), rest))
        }
        Sign::Maybe => {
            let (child, rest) = read_type(alloc, rest, room)?;
            Ok((GvType::Maybe(Box::new(alloc, child)?), rest))
        }
        Sign::TupleOpen => {
            let (members, rest) = read_members(alloc, rest, room)?;
            Ok((GvType::Tuple(members), rest))
        }
        Sign::EntryOpen => read_entry(alloc, rest, room),
        Sign::TupleClose => Err(TypeError::Bad),
        Sign::EntryClose => Err(TypeError::Bad),
    }
}

/// Reads the members of a tuple and its closing parenthesis.
#[cycle(parse)]
fn read_members(alloc: Global, text: &[u8], room: u32) -> Result<(Vec<GvType>, &[u8]), TypeError>
    ensures { Reads (λ x. (shapes_of x.0.items, x.1.now)) result
        (members_at (type_at room) (length text.now) text.now) }
{
    let mut members = Vec::new(alloc);
    let mut left = text;
    'members: loop {
        let (sign, rest) = read_sign(left)?;
        if let Sign::TupleClose = sign {
            return Ok((members, rest));
        }
        let (member, remainder) = read_type(alloc, left, room)?;
        members.push(member)?;
        left = remainder;
    }
}

/// Reads the key, the value and the closing brace of a dictionary entry.
#[cycle(parse)]
fn read_entry(alloc: Global, text: &[u8], room: u32) -> Result<(GvType, &[u8]), TypeError>
    ensures { Reads (λ x. (shape_of x.0, x.1.now)) result (entry_at (type_at room) text.now) }
{
    let (sign, rest) = read_sign(text)?;
    let Sign::Basic(key) = sign else {
        return Err(TypeError::Bad);
    };
    let (value, rest) = read_type(alloc, rest, room)?;
    let (sign, rest) = read_sign(rest)?;
    let Sign::EntryClose = sign else {
        return Err(TypeError::Bad);
    };
    let key = Box::new(alloc, GvType::from_basic(key))?;
    let value = Box::new(alloc, value)?;
    Ok((GvType::Entry(key, value), rest))
}
