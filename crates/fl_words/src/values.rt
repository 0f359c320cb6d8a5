//! The values of the words at the places of a command line.
ghost use Rattle.std.specs.Prelude.{◌≡◌, ◌++◌, ◌∷◌, [], Ok, IfOk, IfErr, OnOk, take, drop, map, string_bytes, codes};
ghost use Rattle.fl_words.specs.Forms.{place_of, fits as may_stand, word_at as text_at, remote_in as remote_of, last_place, pattern, remote, url, ref_name, app, app_id, type_string, from_app, app_count};
ghost use Rattle.fl_words.specs.declared.command.Change.TheVariants.{OverrideChange};
ghost use Rattle.fp_name.specs.Refs.{ref_at as ref_of_text};
ghost use Rattle.fl_words.specs.Counts.{count_at as count_of_text};
ghost use Rattle.fl_words.specs.Reading.{IsMisplaced, IsRemoteMisplaced, IsReadBy, IsUnread};

use crate::app_count::AppCount;
use crate::command::{Change, WordsError};
use crate::forms::Slot;
use crate::override_name::OverrideName;
use crate::value_type::ValueType;
use fl_options::{is_launch_option, is_option, is_rule};
use fp_base::{Items, Text};
use fp_name::{AppId, NameError, PinPattern, RefKind, RefName, RemoteName, RemoteUrl};
use fp_small::RemoteRow;
use std::alloc::{AllocError, Global};

/// Returns whether a word may be at a place.
pub fn fits(alloc: Global, slot: &Slot, word: &str) -> Result<bool, AllocError>
    ensures { IfOk result (λ good. good ≡ may_stand (place_of slot.now) word.now) }
{
    match slot {
        Slot::Word(text) => Ok(word == *text),
        Slot::Pattern => is_read(PinPattern::parse(alloc, word.as_bytes())),
        Slot::Remote => is_read(RemoteName::parse(alloc, word.as_bytes())),
        Slot::Url => is_read(RemoteUrl::parse(alloc, word.as_bytes())),
        Slot::Ref => is_read(RefName::parse(alloc, word.as_bytes())),
        Slot::App => is_app(alloc, word),
        Slot::Id => is_read(AppId::parse(alloc, word.as_bytes())),
        Slot::Type => is_read(ValueType::parse(alloc, word.as_bytes())),
        Slot::Permission | Slot::Permissions => is_option(alloc, word),
        Slot::LaunchOptions => is_launch_option(alloc, word),
        Slot::Rules => is_rule(alloc, word),
        Slot::FromApp => is_from_app(alloc, word),
        Slot::Count => is_read(AppCount::parse(alloc, word)),
    }
}

/// Returns whether a word is `--from=` and a ref of an application.
fn is_from_app(alloc: Global, word: &str) -> Result<bool, AllocError>
    ensures { IfOk result (λ good. good ≡ may_stand from_app word.now) }
{
    match word.strip_prefix("--from=") {
        Some(name) => is_app(alloc, name),
        None => Ok(false),
    }
}

/// Returns whether a word is a ref of an application.
fn is_app(alloc: Global, word: &str) -> Result<bool, AllocError>
    ensures { IfOk result (λ good. good ≡ may_stand app word.now) }
{
    match RefName::parse(alloc, word.as_bytes()) {
        Ok(name) => Ok(name.kind() == RefKind::App),
        Err(NameError::Bad) => Ok(false),
        Err(NameError::NoMemory) => Err(AllocError),
    }
}

/// Returns whether parsing succeeded. Errs only if memory ran out.
fn is_read<T: Drop>(read: Result<T, NameError>) -> Result<bool, AllocError>
    ensures { IfOk result (IsReadBy read) }
{
    match read {
        Ok(_) => Ok(true),
        Err(NameError::Bad) => Ok(false),
        Err(NameError::NoMemory) => Err(AllocError),
    }
}

/// Returns the word at a place, counted from 0, or an empty one if there is none.
pub(crate) fn word_at(words: &[String], place: usize) -> &str
    ensures { result.now ≡ text_at place (map string_bytes words.now) }
{
    match words.get(place) {
        Some(word) => word.as_str(),
        None => "",
    }
}

/// Parses the word at a place as the pattern of a pin. Errs with `BadWords` only if it is none.
pub(crate) fn pattern_at(
    alloc: Global,
    words: &[String],
    place: usize,
) -> Result<PinPattern, WordsError>
    ensures ok { IfOk result (λ p. p ≡ text_at place (map string_bytes words.now)) }
    ensures bad { IfErr result (IsMisplaced pattern (text_at place (map string_bytes words.now))) }
{
    placed(PinPattern::parse(alloc, word_at(words, place).as_bytes()))
}

/// Parses the word at a place as the name of a remote. Errs with `BadWords` only if it is none.
pub(crate) fn name_at(
    alloc: Global,
    words: &[String],
    place: usize,
) -> Result<RemoteName, WordsError>
    ensures ok { IfOk result (λ name. name ≡ text_at place (map string_bytes words.now)) }
    ensures bad { IfErr result (IsMisplaced remote (text_at place (map string_bytes words.now))) }
{
    placed(RemoteName::parse(alloc, word_at(words, place).as_bytes()))
}

/// Parses the word at a place as the URL of a remote. Errs with `BadWords` only if it is none.
fn url_at(alloc: Global, words: &[String], place: usize) -> Result<RemoteUrl, WordsError>
    ensures ok { IfOk result (λ u. u ≡ text_at place (map string_bytes words.now)) }
    ensures bad { IfErr result (IsMisplaced url (text_at place (map string_bytes words.now))) }
{
    placed(RemoteUrl::parse(alloc, word_at(words, place).as_bytes()))
}

/// Parses the word at a place as a ref. Errs with `BadWords` only if it is none.
#[tactic(auto, using(crate::proofs::RefTexts::is_read, crate::proofs::RefTexts::is_none))]
pub(crate) fn ref_at(alloc: Global, words: &[String], place: usize) -> Result<RefName, WordsError>
    ensures ok { IfOk result (λ name. name ≡ ref_of_text
        (text_at place (map string_bytes words.now))) }
    ensures bad { IfErr result (IsMisplaced ref_name (text_at place (map string_bytes words.now))) }
{
    placed(RefName::parse(alloc, word_at(words, place).as_bytes()))
}

/// Parses what follows `--from=` in the word at a place as a ref. Errs with `BadWords` only if the
/// word isn't `--from=` and a ref of an application.
pub(crate) fn from_at(alloc: Global, words: &[String], place: usize) -> Result<RefName, WordsError>
    ensures ok { IfOk result (λ name. name ≡ ref_of_text
        (drop 7 (text_at place (map string_bytes words.now)))) }
    ensures bad { IfErr result (IsMisplaced from_app (text_at place (map string_bytes words.now))) }
{
    match word_at(words, place).strip_prefix("--from=") {
        Some(name) => placed(RefName::parse(alloc, name.as_bytes())),
        None => Err(WordsError::BadWords { index: 0 }),
    }
}

/// Parses the word at a place as an application's ID, and returns it as the name of the
/// application's override. Errs with `BadWords` only if it is none.
pub(crate) fn id_at(alloc: Global, words: &[String], place: usize) -> Result<Text, WordsError>
    ensures ok { IfOk result (λ id. id ≡ text_at place (map string_bytes words.now)) }
    ensures bad { IfErr result (IsMisplaced app_id (text_at place (map string_bytes words.now))) }
{
    let id = placed(AppId::parse(alloc, word_at(words, place).as_bytes()))?;
    Ok(id.write()?)
}

/// Parses the word at a place as an application's ID, and returns the name of the application's
/// override. Errs with `BadWords` only if it is none.
pub(crate) fn override_at(
    alloc: Global,
    words: &[String],
    place: usize,
) -> Result<OverrideName, WordsError>
    ensures ok { IfOk result (λ name. name ≡ text_at place (map string_bytes words.now)) }
    ensures bad { IfErr result (IsMisplaced app_id (text_at place (map string_bytes words.now))) }
{
    let id = placed(AppId::parse(alloc, word_at(words, place).as_bytes()))?;
    Ok(OverrideName::of_app(&id)?)
}

/// Returns the name of the override for all applications: `global`.
pub(crate) fn global_name(alloc: Global) -> Result<Text, AllocError>
    ensures { IfOk result (λ name. name ≡ codes "global") }
{
    Text::from_str(alloc, "global")
}

/// Returns the words from a place on.
fn words_from(words: &[String], place: usize) -> &[String]
    ensures { map string_bytes result.now ≡ drop place (map string_bytes words.now) }
{
    if place < words.len() {
        &words[place..]
    } else {
        &[]
    }
}

/// Returns copies of the words from the index `place` on.
pub(crate) fn texts_from(
    alloc: Global,
    words: &[String],
    place: usize,
) -> Result<Items<Text>, AllocError>
    ensures { IfOk result (λ texts. texts ≡ drop place (map string_bytes words.now)) }
{
    let left = words_from(words, place);
    let mut texts = Vec::new(alloc);
    for word in left {
        add_text(alloc, &mut texts, word.as_str())?;
    }
    Ok(Items::from_vec(texts))
}

/// Appends a copy of a text to a list.
fn add_text(alloc: Global, texts: &mut Vec<Text>, text: &str) -> Result<(), AllocError>
    ensures { OnOk result (texts.new.items ≡ texts.old.items ++ text.now ∷ []) }
{
    let text = Text::from_str(alloc, text)?;
    texts.push(text)?;
    Ok(())
}

/// Returns the change of an application's override: its ID is the last word, and the options are
/// the words between that and the first one. Errs with `BadWords` only if the last word is no ID.
pub(crate) fn app_override(alloc: Global, words: &[String]) -> Result<Change, WordsError>
    ensures ok { IfOk result (λ change. change ≡ OverrideChange
        (text_at (last_place (map string_bytes words.now)) (map string_bytes words.now))
        (drop 1 (take (last_place (map string_bytes words.now)) (map string_bytes words.now)))) }
    ensures bad { IfErr result (IsMisplaced app_id
        (text_at (last_place (map string_bytes words.now)) (map string_bytes words.now))) }
{
    let last = words.len().saturating_sub(1);
    let name = override_at(alloc, words, last)?;
    let options = texts_from(alloc, &words[..last], 1)?;
    Ok(Change::OverrideChange { name, options })
}

/// Parses the word at a place as a type string. Errs with `BadWords` only if it is none.
pub(crate) fn type_at(
    alloc: Global,
    words: &[String],
    place: usize,
) -> Result<ValueType, WordsError>
    ensures ok { IfOk result (λ of. of ≡ text_at place (map string_bytes words.now)) }
    ensures bad { IfErr result (IsMisplaced type_string (text_at place
        (map string_bytes words.now))) }
{
    placed(ValueType::parse(alloc, word_at(words, place).as_bytes()))
}

/// Parses the word at a place as the number of an exercise's applications. Errs with `BadWords`
/// only if it is none.
pub(crate) fn count_at(
    alloc: Global,
    words: &[String],
    place: usize,
) -> Result<AppCount, WordsError>
    ensures ok { IfOk result (λ count. count ≡ count_of_text
        (text_at place (map string_bytes words.now))) }
    ensures bad { IfErr result
        (IsMisplaced app_count (text_at place (map string_bytes words.now))) }
{
    placed(AppCount::parse(alloc, word_at(words, place)))
}

/// Parses the second word as the name of a remote, and the third as its URL. Errs with `BadWords`
/// only if one of them is none.
pub(crate) fn remote_in(alloc: Global, words: &[String]) -> Result<RemoteRow, WordsError>
    ensures ok { IfOk result (λ row. row ≡ remote_of (map string_bytes words.now)) }
    ensures bad { IfErr result (IsRemoteMisplaced (map string_bytes words.now)) }
{
    let name = name_at(alloc, words, 1)?;
    let url = url_at(alloc, words, 2)?;
    Ok(RemoteRow { name, url })
}

/// Returns the parsed value. Errs with `BadWords` if the word was bad, and with `NoMemory` if
/// memory ran out.
fn placed<T: Drop>(read: Result<T, NameError>) -> Result<T, WordsError>
    ensures ok { IfOk result (λ value. read ≡ Ok value) }
    ensures bad { IfErr result (IsUnread read) }
{
    match read {
        Ok(value) => Ok(value),
        Err(NameError::Bad) => Err(WordsError::BadWords { index: 0 }),
        Err(NameError::NoMemory) => Err(WordsError::NoMemory),
    }
}
