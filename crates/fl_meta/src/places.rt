//! The normal form of filesystem texts.

ghost use Rattle.std.specs.Prelude.{◌≡◌, ◌++◌, IfOk, OnOk, MatchOption, string_bytes};
ghost use Rattle.std.specs.List.{slice_split};
ghost use Rattle.fp_keyfile.specs.Grammar.{begins_so};
ghost use Rattle.fl_meta.specs.Places as places;
ghost use Rattle.fl_meta.specs.Cuts.{CutsEnding, HasNoEnding, CutsEnd, HasNoEnd};

use crate::names::access_of;
use fp_base::Text;
use std::alloc::{AllocError, Global};

/// Returns the text without its last ending, or `None` if it has none.
fn cut_ending(text: &str) -> Option<&str>
    ensures { MatchOption result (HasNoEnding text.now) (λ front. CutsEnding text.now front.now) }
{
    let (front, word) = text.rsplit_once(':')?;
    access_of(word)?;
    Some(front)
}

/// Returns the text without a `/`, `/.` or ending at its end, or `None` if it has none.
fn cut_end(text: &str) -> Option<&str>
    ensures { MatchOption result (HasNoEnd text.now) (λ front. CutsEnd text.now front.now) }
{
    if let Some(front) = text.strip_suffix("/") {
        return Some(front);
    }
    match text.strip_suffix("/.") {
        Some(front) => Some(front),
        None => cut_ending(text),
    }
}

/// Returns the text without all `/`, `/.` and endings at its end.
fn without_ends(text: &str) -> &str
    ensures { result.now ≡ places.without_ends text.now }
{
    let mut rest = text;
    while let Some(front) = cut_end(rest) {
        rest = front;
    }
    rest
}

/// Returns whether a part between two `/` can be left out: it is empty or `.`.
fn says_nothing(part: &str) -> bool
    ensures { result ≡ places.says_nothing part.now }
{
    matches!(part, "" | ".")
}

/// Appends a `/` and the part, unless the part can be left out.
fn push_part(out: &mut String, part: &str) -> Result<(), AllocError>
    ensures { OnOk result (string_bytes out.new ≡ string_bytes out.old
        ++ places.part_text part.now) }
{
    if says_nothing(part) {
        return Ok(());
    }
    out.push('/')?;
    out.push_str(part)
}

/// Appends the parts that a text has between its `/`, each after a `/`, without those that can be
/// left out.
fn push_parts(out: &mut String, text: &str) -> Result<(), AllocError>
    ensures { OnOk result (string_bytes out.new ≡ string_bytes out.old
        ++ places.parts_text (slice_split places.is_slash text.now)) }
{
    for part in text.split('/') {
        push_part(out, part)?;
    }
    Ok(())
}

/// Returns the text with one `/` between its parts, without those that can be left out.
fn joined_parts(alloc: Global, text: &str) -> Result<String, AllocError>
    ensures { IfOk result (λ s. places.without_ends (string_bytes s) ≡ places.normal text.now) }
{
    match text.split_once('/') {
        Some((first, rest)) => {
            let mut out = String::from_str(alloc, first)?;
            push_parts(&mut out, rest)?;
            Ok(out)
        }
        None => Ok(String::from_str(alloc, text)?),
    }
}

/// Returns whether a text begins with a `/`.
fn is_absolute(text: &str) -> bool
    ensures { result ≡ begins_so places.is_slash text.now }
{
    matches!(text.as_bytes(), [b'/', ..])
}

/// Returns the place, or `/` if nothing is left of an absolute one.
fn rooted(absolute: bool, place: &str) -> &str
    ensures { result.now ≡ places.rooted absolute place.now }
{
    if absolute && place.is_empty() {
        "/"
    } else {
        place
    }
}

/// Returns the place that a text names: its normal form.
pub(crate) fn place_in(alloc: Global, text: &str) -> Result<Text, AllocError>
    ensures { IfOk result (λ place. place ≡ places.place_in text.now) }
{
    let parts = joined_parts(alloc, text)?;
    Text::from_str(alloc, rooted(is_absolute(text), without_ends(&parts)))
}
