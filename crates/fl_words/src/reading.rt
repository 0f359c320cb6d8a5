//! Reading the words of a command line.
ghost use Rattle.std.specs.Prelude.{◌≡◌, Some, IfOk, IfErr, map, option_map, string_bytes};
ghost use Rattle.std.specs.List.{find, list_all};
ghost use Rattle.fl_words.specs.Forms.{place_of, repeats as may_repeat, command_of, most, left_after_word as left_of_word, left_after as left_of, reach as reach_of, reads as are_read};
ghost use Rattle.fl_words.specs.Reading.{IsNoCommand};

use crate::command::{Command, WordsError};
use crate::forms::{Form, Slot};
use crate::values::fits;
use std::alloc::{AllocError, Global};

/// Reads the words of a command line as a command. Errs with `BadWords` if they are none.
pub fn read_words(alloc: Global, words: &[String]) -> Result<Command, WordsError>
    ensures ok { IfOk result (λ command. command_of (map string_bytes words.now) ≡ Some command) }
    ensures bad { IfErr result (IsNoCommand (map string_bytes words.now)) }
{
    match form_of(alloc, Form::all(), words)? {
        Some(form) => form.command(alloc, words),
        None => Err(WordsError::BadWords {
            index: furthest(alloc, Form::all(), words)? as u64,
        }),
    }
}

/// Returns the first of the forms that the words are of.
fn form_of(alloc: Global, forms: &[Form], words: &[String]) -> Result<Option<Form>, AllocError>
    ensures { IfOk result (λ form. form ≡ find (are_read (map string_bytes words.now)) forms.now) }
{
    for form in forms {
        if reads(alloc, *form, words)? {
            return Ok(Some(*form));
        }
    }
    Ok(None)
}

/// Returns whether the words are of a form: each word has a place, and no place that needs a word
/// is left.
fn reads(alloc: Global, form: Form, words: &[String]) -> Result<bool, AllocError>
    ensures { IfOk result (λ good. good ≡ are_read (map string_bytes words.now) form) }
{
    match left_after(alloc, form.slots(), words)? {
        Some(left) => Ok(all_repeat(left)),
        None => Ok(false),
    }
}

/// Returns whether none of the places needs a word.
fn all_repeat(slots: &[Slot]) -> bool
    ensures { result ≡ list_all may_repeat (map place_of slots.now) }
{
    for slot in slots {
        if !slot.repeats() {
            return false;
        }
    }
    true
}

/// Returns the greatest number of words, from the first on, that have places in one of the forms.
pub(crate) fn furthest(alloc: Global, forms: &[Form], words: &[String]) -> Result<usize, AllocError>
    ensures { IfOk result (λ count. count ≡ most (map string_bytes words.now) forms.now) }
{
    let mut furthest = 0;
    for form in forms {
        let reached = reach(alloc, form.slots(), words)?;
        if reached > furthest {
            furthest = reached;
        }
    }
    Ok(furthest)
}

/// Returns the number of words, from the first on, that have places.
fn reach(alloc: Global, slots: &[Slot], words: &[String]) -> Result<usize, AllocError>
    ensures { IfOk result (λ count. count ≡ reach_of (map place_of slots.now)
        (map string_bytes words.now)) }
{
    let mut left = slots;
    let mut count = 0;
    for word in words {
        match left_after_word(alloc, left, word.as_str())? {
            Some(rest) => left = rest,
            None => return Ok(count),
        }
        count += 1;
    }
    Ok(count)
}

/// Returns the places that are left after each of the words took one, or `None` if a word has no
/// place.
pub(crate) fn left_after<'a>(
    alloc: Global,
    slots: &'a [Slot],
    words: &[String],
) -> Result<Option<&'a [Slot]>, AllocError>
    ensures { IfOk result (λ left. option_map (λ s. map place_of s.now) left ≡ left_of
        (map place_of slots.now) (map string_bytes words.now)) }
{
    let mut left = slots;
    for word in words {
        match left_after_word(alloc, left, word.as_str())? {
            Some(rest) => left = rest,
            None => return Ok(None),
        }
    }
    Ok(Some(left))
}

/// Returns the places that are left after a word took one, or `None` if it has no place. The word
/// takes the first place that it fits, but may skip only places for any number of words. Such a
/// place stays after a word that fits it.
fn left_after_word<'a>(
    alloc: Global,
    slots: &'a [Slot],
    word: &str,
) -> Result<Option<&'a [Slot]>, AllocError>
    ensures { IfOk result (λ left. option_map (λ s. map place_of s.now) left ≡ left_of_word
        (map place_of slots.now) word.now) }
{
    let mut left = slots;
    while let [slot, rest @ ..] = left {
        if fits(alloc, slot, word)? {
            return Ok(Some(if slot.repeats() { left } else { rest }));
        }
        if !slot.repeats() {
            return Ok(None);
        }
        left = rest;
    }
    Ok(None)
}
