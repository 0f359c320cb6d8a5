//! Notes on options that do less than they seem to.
ghost use Rattle.std.specs.Prelude.{◌≡◌, ◌++◌, [], codes, IfOk, OnOk, map, string_bytes, option_map};
ghost use Rattle.std.specs.Option.{option_copied, option_map_or};
ghost use Rattle.fl_words.specs.Notes.{unknown_in, effect_of, unknown_note, is_below as is_path_below, below_path, path_in, other_home as home_under, names_line, home_line, home_note as note_of_home, note_of, notes_of, notes as notes_on};

use fl_lines::escape;
use fl_meta::{Mention, PermList, Value};
use fl_options::option_layer;
use fp_base::Text;
use std::alloc::{AllocError, Global};

/// Returns the notes on the options among some words, in lines that end with a newline. A note is
/// about a name that isn't known, or about a denial of the home directory or a place in it, which
/// has two names.
pub fn notes(alloc: Global, words: &[String]) -> Result<Text, AllocError>
    ensures { IfOk result (λ t. t ≡ notes_on (map string_bytes words.now)) }
{
    let mut text = String::new(alloc);
    for word in words {
        push_notes(alloc, &mut text, word.as_str())?;
    }
    Ok(Text::from_string(text))
}

/// Appends the notes on a word to a text.
fn push_notes(alloc: Global, text: &mut String, word: &str) -> Result<(), AllocError>
    ensures { OnOk result (string_bytes text.new ≡ string_bytes text.old ++ notes_of word.now) }
{
    let layer = option_layer(alloc, word)?;
    for mention in layer.as_slice() {
        push_note(alloc, text, mention)?;
    }
    Ok(())
}

/// Appends the note on a mention to a text, if there is one.
fn push_note(alloc: Global, text: &mut String, mention: &Mention) -> Result<(), AllocError>
    ensures { OnOk result (string_bytes text.new ≡ string_bytes text.old ++ note_of mention.now) }
{
    match unknown_names(mention.permission.list) {
        Some((noun, known)) => push_unknown(alloc, text, mention, noun, known),
        None => push_home(alloc, text, mention),
    }
}

/// Returns what a list of unknown names calls its names, and the names that are known. `None` for a
/// list of known names.
fn unknown_names(list: PermList) -> Option<(&'static str, &'static str)>
    ensures { option_map (λ x. (x.0.now, x.1.now)) result ≡ unknown_in list }
{
    match list {
        PermList::UnknownShared => Some(("share", "network, ipc")),
        PermList::UnknownSockets => Some((
            "socket",
            "x11, wayland, fallback-x11, pulseaudio, session-bus, system-bus, ssh-auth, pcsc, cups",
        )),
        PermList::UnknownDevices => Some(("device", "dri, kvm, shm, all")),
        PermList::UnknownFeatures => Some((
            "feature",
            "devel, multiarch, bluetooth, canbus, per-app-dev-shm",
        )),
        _ => None,
    }
}

/// Appends the note that a name isn't known, and which names are.
fn push_unknown(
    alloc: Global,
    text: &mut String,
    mention: &Mention,
    noun: &str,
    known: &str,
) -> Result<(), AllocError>
    ensures { OnOk result (string_bytes text.new ≡ string_bytes text.old
        ++ unknown_note mention.now (noun.now, known.now)) }
{
    let name = escape(alloc, mention.permission.name.as_str())?;
    let effect = effect_of(&mention.value);
    write!(
        text,
        "fpk: no known {noun}: {name}; it is kept and {effect} nothing (known: {known})\n"
    )
}

/// Returns the effect that a value has on a known name.
fn effect_of(value: &Value) -> &'static str
    ensures { result.now ≡ effect_of value.now }
{
    match value {
        Value::Off => "denies",
        _ => "grants",
    }
}

/// Appends the note that a denied place of the home directory has another name, if it has one. The
/// denial doesn't apply to that name.
fn push_home(alloc: Global, text: &mut String, mention: &Mention) -> Result<(), AllocError>
    ensures { OnOk result (string_bytes text.new ≡ string_bytes text.old
        ++ note_of_home mention.now.permission.list mention.now.value mention.now.permission.name) }
{
    match (mention.permission.list, &mention.value) {
        (PermList::Filesystems, Value::Off) => {
            push_other_home(alloc, text, mention.permission.name.as_str())
        }
        _ => Ok(()),
    }
}

/// Appends the note on the other name of a place, if the place is in the home directory.
fn push_other_home(alloc: Global, text: &mut String, name: &str) -> Result<(), AllocError>
    ensures { OnOk result (string_bytes text.new ≡ string_bytes text.old
        ++ option_map_or (home_line name.now) (home_under name.now) []) }
{
    match other_home(alloc, name)? {
        Some(other) => push_both_names(alloc, text, name, other.as_str()),
        None => Ok(()),
    }
}

/// Appends the note that a place has another name. Escapes both names.
fn push_both_names(
    alloc: Global,
    text: &mut String,
    name: &str,
    other: &str,
) -> Result<(), AllocError>
    ensures { OnOk result (string_bytes text.new ≡ string_bytes text.old
        ++ home_line name.now other.now) }
{
    let name = escape(alloc, name)?;
    let other = escape(alloc, other)?;
    push_names(text, name.as_str(), other.as_str())
}

/// Appends the note that a place has another name. Both names are escaped already.
#[tactic(auto, unfolding(crate::specs::Notes::names_line))]
fn push_names(text: &mut String, name: &str, other: &str) -> Result<(), AllocError>
    ensures { OnOk result (string_bytes text.new ≡ string_bytes text.old
        ++ names_line name.now other.now) }
{
    write!(
        text,
        "fpk: {other} is another name of {name}, and stays as it is\n"
    )
}

/// Returns the other name of a place in the home directory: `home` and a path for `~` and the path,
/// and the reverse. `None` for other places.
fn other_home(alloc: Global, name: &str) -> Result<Option<String>, AllocError>
    ensures { IfOk result (λ other. option_map string_bytes other ≡ home_under name.now) }
{
    match path_of_tilde(name) {
        Some(path) => Ok(Some(format!(in alloc; "home{path}")?)),
        None => match path_of_home(name) {
            Some(path) => Ok(Some(format!(in alloc; "~{path}")?)),
            None => Ok(None),
        },
    }
}

/// Returns what follows `~`, if that is empty or begins with a slash.
fn path_of_tilde(name: &str) -> Option<&str>
    ensures { option_copied result ≡ path_in (codes "~") name.now }
{
    match name.strip_prefix("~") {
        Some(path) => path_below(path),
        None => None,
    }
}

/// Returns what follows `home`, if that is empty or begins with a slash.
fn path_of_home(name: &str) -> Option<&str>
    ensures { option_copied result ≡ path_in (codes "home") name.now }
{
    match name.strip_prefix("home") {
        Some(path) => path_below(path),
        None => None,
    }
}

/// Returns a text, if it is empty or begins with a slash.
fn path_below(path: &str) -> Option<&str>
    ensures { option_copied result ≡ below_path path.now }
{
    if is_below(path) { Some(path) } else { None }
}

/// Returns whether a text is empty or begins with a slash.
fn is_below(path: &str) -> bool
    ensures { result ≡ is_path_below path.now }
{
    match path.as_bytes() {
        [] => true,
        [first, ..] => *first == b'/',
    }
}
