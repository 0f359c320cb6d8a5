//! Bodies that a filter reads: strings, and arrays of strings.

ghost use Rattle.std.specs.Prelude.{◌≡◌, ◌↔◌, IsTrue, Some, option_map, ◌==◌, ◌+◌, length, map, is_some, IfOk, List, ℕ};
ghost use Rattle.fp_base.specs.Steps.{Gives};
ghost use Rattle.bus_frame.specs.Places.{place_of};
ghost use Rattle.bus_frame.specs.Bodies.{BeginsWithText, AreThreeTexts, AreNames, body_place, signature_text, has_signature, first_text, three_texts_at, three_texts, texts_at, elements_place, names_place, names_in};

use crate::cursor::Cursor;
use crate::header::Header;
use crate::steps::after_byte;
use crate::value::array_head;
use fp_base::{Items, Text};
use std::alloc::{AllocError, Global};

/// Returns the body of a message, or as much of it as `message` has.
fn body<'m>(header: &Header, message: &'m [u8]) -> Cursor<'m>
    ensures { place_of result ≡ body_place header.now message.now }
{
    let at = header.body_at as usize;
    let rest = if at <= message.len() {
        &message[at..]
    } else {
        &message[..0]
    };
    let count = rest.len().min(header.body_len as usize);
    Cursor {
        at,
        rest: &rest[..count],
    }
}

fn signature(header: &Header) -> &str
    ensures { result.now ≡ signature_text header.now }
{
    match &header.signature {
        Some(signature) => signature.as_str(),
        None => "",
    }
}

#[tactic(auto, unfolding(crate::specs::Bodies::first_text))]
fn text_at_start<'m>(header: &Header, message: &'m [u8]) -> Option<&'m str>
    ensures { Gives (λ t. t.now) result (first_text header.now message.now) }
{
    after_byte(b's', signature(header).as_bytes())?;
    let (text, _) = body(header, message).long_text(header.little)?;
    Some(text)
}

/// Returns the string at the start of the body, or `None` exactly if the signature doesn't begin
/// with `s` or the body doesn't begin with a valid string. Allocates nothing.
pub fn first_string<'m>(header: &Header, message: &'m [u8]) -> Option<&'m str>
    ensures exact { Gives (λ t. t.now) result (first_text header.now message.now) }
    ensures text { (text : List ℕ) → (option_map (λ t. t.now) result ≡ Some text) ↔ BeginsWithText
        header.now message.now text }
{
    text_at_start(header, message)
}

#[tactic(auto, unfolding(crate::specs::Bodies::three_texts_at))]
fn three<'m>(little: bool, place: Cursor<'m>) -> Option<(&'m str, &'m str, &'m str)>
    ensures { Gives (λ t. (t.0.now, t.1.now, t.2.now)) result
        (three_texts_at little (place_of place.entry)) }
{
    let (first, remainder) = place.long_text(little)?;
    let (second, remainder) = remainder.long_text(little)?;
    let (third, remainder) = remainder.long_text(little)?;
    if !remainder.rest.is_empty() {
        return None;
    }
    Some((first, second, third))
}

#[tactic(auto, unfolding(crate::specs::Bodies::three_texts))]
fn texts_of_three<'m>(header: &Header, message: &'m [u8]) -> Option<(&'m str, &'m str, &'m str)>
    ensures { Gives (λ t. (t.0.now, t.1.now, t.2.now)) result (three_texts header.now message.now) }
{
    if signature(header) != "sss" {
        return None;
    }
    three(header.little, body(header, message))
}

/// Returns the three strings of the body, or `None` exactly if the signature isn't `sss` or the
/// body isn't exactly three valid strings. Allocates nothing.
pub fn three_strings<'m>(header: &Header, message: &'m [u8]) -> Option<(&'m str, &'m str, &'m str)>
    ensures exact { Gives (λ t. (t.0.now, t.1.now, t.2.now)) result
        (three_texts header.now message.now) }
    ensures texts { (a b c : List ℕ) → (option_map {U = List ℕ × List ℕ × List ℕ}
        (λ t. (t.0.now, t.1.now, t.2.now)) result ≡ Some (a, b, c))
        ↔ AreThreeTexts header.now message.now a b c }
{
    texts_of_three(header, message)
}

#[tactic(auto, unfolding(crate::specs::Bodies::elements_place))]
fn elements<'m>(little: bool, place: Cursor<'m>) -> Option<Cursor<'m>>
    ensures { Gives place_of result (elements_place little (place_of place.entry)) }
{
    let (count, first) = array_head(little, b"s", place)?;
    let (rest, remainder) = first.bytes(count)?;
    if !remainder.rest.is_empty() {
        return None;
    }
    Some(Cursor { at: first.at, rest })
}

#[tactic(auto, unfolding(crate::specs::Bodies::names_place))]
fn names<'m>(header: &Header, message: &'m [u8]) -> Option<Cursor<'m>>
    ensures { Gives place_of result (names_place header.now message.now) }
{
    if signature(header) != "as" {
        return None;
    }
    elements(header.little, body(header, message))
}

fn are_texts(little: bool, place: Cursor<'_>) -> bool
    ensures { result ≡ is_some (texts_at little (length place.entry.rest.now)
        (place_of place.entry)) }
{
    let mut next = place;
    for _ in 0..place.rest.len() {
        if next.rest.is_empty() {
            return true;
        }
        let Some((_, remainder)) = next.long_text(little) else {
            return false;
        };
        next = remainder;
    }
    next.rest.is_empty()
}

fn texts(alloc: Global, little: bool, place: Cursor<'_>) -> Result<Option<Vec<Text>>, AllocError>
    ensures { IfOk result (λ found. Gives (λ v. v.items) found
        (texts_at little (length place.entry.rest.now) (place_of place.entry))) }
{
    let mut texts = Vec::new(alloc);
    let mut next = place;
    for _ in 0..place.rest.len() {
        if next.rest.is_empty() {
            return Ok(Some(texts));
        }
        let Some((text, remainder)) = next.long_text(little) else {
            return Ok(None);
        };
        texts.push(Text::from_str(alloc, text)?)?;
        next = remainder;
    }
    if !next.rest.is_empty() {
        return Ok(None);
    }
    Ok(Some(texts))
}

#[tactic(auto, unfolding(crate::specs::Bodies::names_in))]
fn has_names(header: &Header, message: &[u8]) -> bool
    ensures { result ≡ is_some (names_in header.now message.now) }
{
    match names(header, message) {
        Some(place) => are_texts(header.little, place),
        None => false,
    }
}

/// Returns whether the signature is `as` and the body is exactly one array of valid strings.
/// Allocates nothing.
pub fn is_names(header: &Header, message: &[u8]) -> bool
    ensures exact { result ≡ is_some (names_in header.now message.now) }
    ensures names { IsTrue result ↔ ((names : List (List ℕ)) × AreNames header.now message.now
        names) }
{
    has_names(header, message)
}

#[tactic(auto, unfolding(crate::specs::Bodies::names_in))]
fn names_of(
    alloc: Global,
    header: &Header,
    message: &[u8],
) -> Result<Option<Items<Text>>, AllocError>
    ensures { IfOk result (λ found. found ≡ names_in header.now message.now) }
{
    match names(header, message) {
        Some(place) => match texts(alloc, header.little, place)? {
            Some(texts) => Ok(Some(Items::from_vec(texts))),
            None => Ok(None),
        },
        None => Ok(None),
    }
}

/// Returns the strings of a body that is one array of strings (`as`), in order, or `None` exactly
/// if `is_names` is false. Errs only if memory runs out.
pub fn names_body(
    alloc: Global,
    header: &Header,
    message: &[u8],
) -> Result<Option<Items<Text>>, AllocError>
    ensures exact { IfOk result (λ found. found ≡ names_in header.now message.now) }
    ensures names { IfOk result (λ found. (names : List (List ℕ)) → (found ≡ Some names) ↔ AreNames
        header.now message.now names) }
{
    names_of(alloc, header, message)
}
