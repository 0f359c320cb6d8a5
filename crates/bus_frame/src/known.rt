//! The known header fields, with the codes 1 to 9 (D-Bus specification, "Header Fields").

ghost use Rattle.std.specs.Prelude.{◌≡◌, length, option_map};
ghost use Rattle.bus_frame.specs.Results.{Reads};
ghost use Rattle.bus_frame.specs.Places.{place_of};
ghost use Rattle.bus_frame.specs.Fields.{content_of, field_of, known_of, none_known, good_text, word_in, number_in, once, add_field, fields_at};

use crate::cursor::Cursor;
use crate::field::{RawContent, RawField, field};
use crate::names::{is_bus_name, is_interface_name, is_member_name, is_object_path};
use crate::types::is_type_signature;
use fp_base::FrameRule;

/// The known header fields of a message, with strings borrowed from the message.
#[derive(Clone, Copy)]
pub struct RawKnown<'a> {
    /// The path of the object that is called or that emits the signal.
    pub path: Option<&'a str>,
    /// The interface of the method or the signal.
    pub interface: Option<&'a str>,
    /// The name of the method or the signal.
    pub member: Option<&'a str>,
    /// The name of the error.
    pub error_name: Option<&'a str>,
    /// The serial of the call that this message answers.
    pub reply_serial: Option<u32>,
    /// The bus name of the receiver.
    pub destination: Option<&'a str>,
    /// The bus name of the sender.
    pub sender: Option<&'a str>,
    /// The signature: the types of the body's values.
    pub signature: Option<&'a str>,
    /// The number of file descriptors that accompany the message.
    pub unix_fds: Option<u32>,
}

/// The grammar that the string of a known header field follows.
#[derive(Clone, Copy)]
pub enum Grammar {
    /// An object path.
    Path,
    /// The name of an interface or of an error.
    Interface,
    /// The name of a method or a signal.
    Member,
    /// A bus name, unique or well-known.
    Bus,
    /// A signature: zero or more complete types.
    Signature,
}

fn accepts(grammar: Grammar, text: &str) -> bool
    ensures { result ≡ good_text grammar text.now }
{
    let bytes = text.as_bytes();
    match grammar {
        Grammar::Path => is_object_path(bytes),
        Grammar::Interface => is_interface_name(bytes),
        Grammar::Member => is_member_name(bytes),
        Grammar::Bus => is_bus_name(bytes),
        Grammar::Signature => is_type_signature(bytes),
    }
}

fn word<'a>(
    before: Option<&'a str>,
    type_code: u8,
    grammar: Grammar,
    content: RawContent<'a>,
) -> Result<Option<&'a str>, FrameRule>
    ensures { Reads (λ t. option_map (λ u. u.now) t) result
        (once (option_map (λ u. u.now) before.entry)
        (word_in type_code (good_text grammar) (content_of content.entry))) }
{
    if before.is_some() {
        return Err(FrameRule::Double);
    }
    match content {
        RawContent::Word(code, text) if code == type_code => {
            if !accepts(grammar, text) {
                return Err(FrameRule::Value);
            }
            Ok(Some(text))
        }
        _ => Err(FrameRule::Kind),
    }
}

fn number(
    before: Option<u32>,
    zero_too: bool,
    content: RawContent<'_>,
) -> Result<Option<u32>, FrameRule>
    ensures { result ≡ once before (number_in zero_too (content_of content.entry)) }
{
    if before.is_some() {
        return Err(FrameRule::Double);
    }
    match content {
        RawContent::Number(number) => {
            if number == 0 && !zero_too {
                return Err(FrameRule::Value);
            }
            Ok(Some(number))
        }
        _ => Err(FrameRule::Kind),
    }
}

/// Adds a header field to the known ones, or returns the first rule that the field breaks. Fields
/// with codes above 9 are ignored.
#[tactic(auto, unfolding(crate::specs::Fields::add_field))]
fn with_field<'a>(known: RawKnown<'a>, field: RawField<'a>) -> Result<RawKnown<'a>, FrameRule>
    ensures { Reads known_of result (add_field (known_of known.entry) (field_of field.entry)) }
{
    let mut known = known;
    let content = field.content;
    match field.code {
        0 => return Err(FrameRule::Code),
        1 => known.path = word(known.path, b'o', Grammar::Path, content)?,
        2 => known.interface = word(known.interface, b's', Grammar::Interface, content)?,
        3 => known.member = word(known.member, b's', Grammar::Member, content)?,
        4 => known.error_name = word(known.error_name, b's', Grammar::Interface, content)?,
        5 => known.reply_serial = number(known.reply_serial, false, content)?,
        6 => known.destination = word(known.destination, b's', Grammar::Bus, content)?,
        7 => known.sender = word(known.sender, b's', Grammar::Bus, content)?,
        8 => known.signature = word(known.signature, b'g', Grammar::Signature, content)?,
        9 => known.unix_fds = number(known.unix_fds, true, content)?,
        _ => {}
    }
    Ok(known)
}

impl<'a> RawKnown<'a> {
    const NONE: RawKnown<'static> = RawKnown {
        path: None,
        interface: None,
        member: None,
        error_name: None,
        reply_serial: None,
        destination: None,
        sender: None,
        signature: None,
        unix_fds: None,
    };
}

/// Reads header fields from a position up to the last byte, and returns the known ones, or the
/// first rule that is broken.
pub fn known_fields<'a>(little: bool, place: Cursor<'a>) -> Result<RawKnown<'a>, FrameRule>
    ensures { Reads known_of result (fields_at little (length place.entry.rest.now) none_known
        (place_of place.entry)) }
{
    let mut known = RawKnown::NONE;
    let mut next = place;
    for _ in 0..place.rest.len() {
        if next.rest.is_empty() {
            return Ok(known);
        }
        let Some((field, remainder)) = field(little, next) else {
            return Err(FrameRule::Fields);
        };
        known = with_field(known, field)?;
        next = remainder;
    }
    if !next.rest.is_empty() {
        return Err(FrameRule::Fields);
    }
    Ok(known)
}
