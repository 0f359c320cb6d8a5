//! Header fields: a code and a value (D-Bus specification, "Header Fields").

ghost use Rattle.fp_base.specs.Steps.{Gives};
ghost use Rattle.bus_frame.specs.Places.{place_of};
ghost use Rattle.bus_frame.specs.Fields.{content_of, field_of, content_at, field_at};

use crate::cursor::Cursor;
use crate::limits::{MOST_ARRAYS, MOST_CONTAINERS, MOST_STRUCTS};
use crate::room::Room;
use crate::steps::first_byte;
use crate::value::{value, variant_type};

/// The value of a header field.
#[derive(Clone, Copy)]
pub enum RawContent<'a> {
    /// A string of the type `s`, `o` or `g`, with the type's code before it.
    Word(u8, &'a str),
    /// A number of the type `u`.
    Number(u32),
    /// A value of another type.
    Other,
}

/// A header field with any code.
#[derive(Clone, Copy)]
pub struct RawField<'a> {
    /// The field's code, whose meaning the D-Bus specification's "Header Fields" defines.
    pub code: u8,
    /// The field's value.
    pub content: RawContent<'a>,
}

#[tactic(auto, unfolding(crate::specs::Fields::content_at))]
fn content<'a>(
    little: bool,
    types: &[u8],
    place: Cursor<'a>,
) -> Option<(RawContent<'a>, Cursor<'a>)>
    ensures { Gives (λ x. (content_of x.0, place_of x.1)) result
        (content_at little types.now (place_of place.entry)) }
{
    let (code, _) = first_byte(types)?;
    match code {
        b's' | b'o' => {
            let (text, remainder) = place.long_text(little)?;
            Some((RawContent::Word(code, text), remainder))
        }
        b'g' => {
            let (text, remainder) = place.short_text()?;
            Some((RawContent::Word(code, text), remainder))
        }
        b'u' => {
            let (number, remainder) = place.number(little)?;
            Some((RawContent::Number(number), remainder))
        }
        _ => {
            let room = Room {
                containers: MOST_CONTAINERS - 1,
                arrays: MOST_ARRAYS,
                structs: MOST_STRUCTS,
            };
            let (_, remainder) = value(room, little, types, place)?;
            Some((RawContent::Other, remainder))
        }
    }
}

/// Reads the header field at the next multiple of 8, and returns it with the position after it, or
/// `None` if there is no code with a variant.
#[tactic(auto, unfolding(crate::specs::Fields::field_at))]
pub fn field<'a>(little: bool, place: Cursor<'a>) -> Option<(RawField<'a>, Cursor<'a>)>
    ensures { Gives (λ x. (field_of x.0, place_of x.1)) result
        (field_at little (place_of place.entry)) }
{
    let (code, remainder) = place.aligned(8)?.byte()?;
    let (types, remainder) = variant_type(remainder)?;
    let (content, remainder) = content(little, types, remainder)?;
    Some((RawField { code, content }, remainder))
}
