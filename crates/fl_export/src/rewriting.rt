//! Rewriting of desktop files for export, after the Desktop Entry Specification and Flatpak's own
//! exports.
ghost use Rattle.std.specs.Prelude.{◌≡◌, ◌++◌, nat_eq, IfOk, OnOk, string_bytes};
ghost use Rattle.std.specs.List.{list_all, starts_with};
ghost use Rattle.fp_keyfile.specs.KeyFile.{text_of};
ghost use Rattle.fl_export.specs.Rewritten as spec;

use crate::keys::is_left_out;
use fp_base::{Blob, Items, Text};
use fp_keyfile::{Group, KeyError, KeyFile, Pair};
use fp_name::RefName;
use std::alloc::{AllocError, Global};

/// Returns the text before the first space, or all of it if there is none.
fn first_word(value: &str) -> &str
    ensures { result.now ≡ spec.first_word value.now }
{
    match value.split_once(' ') {
        Some((word, _)) => word,
        None => value,
    }
}

/// Returns whether a byte may be in a command that is handed on: an ASCII letter, a digit or one of
/// `-_./+`.
fn is_command_byte(byte: u8) -> bool
    ensures { result ≡ spec.is_command_byte byte }
{
    byte.is_ascii_alphanumeric()
        || byte == b'-'
        || byte == b'_'
        || byte == b'.'
        || byte == b'/'
        || byte == b'+'
}

/// Returns whether all bytes may be in a command that is handed on.
fn are_command_bytes(bytes: &[u8]) -> bool
    ensures { result ≡ list_all spec.is_command_byte bytes.now }
{
    bytes.iter().all(|byte| is_command_byte(*byte))
}

/// Returns whether a word is handed on as a command: it isn't empty, and no desktop can read it as
/// other words.
fn is_command(word: &str) -> bool
    ensures { result ≡ spec.is_command word.now }
{
    !word.is_empty() && are_command_bytes(word.as_bytes())
}

/// Returns the option ` --command=WORD` that hands the word on, or an empty text if the word isn't
/// handed on.
fn command_option(alloc: Global, word: &str) -> Result<String, AllocError>
    ensures { IfOk result (λ option. string_bytes option ≡ spec.command_option word.now) }
{
    if is_command(word) {
        format!(in alloc; " --command={word}")
    } else {
        Ok(String::new(alloc))
    }
}

/// Returns the command line with which a desktop launches the application, for this value of `Exec`
/// in the application's own desktop file.
fn launch_line(alloc: Global, name: &RefName, value: &str) -> Result<String, AllocError>
    ensures { IfOk result (λ line. string_bytes line ≡ spec.launch_line name.now value.now) }
{
    let app = name.as_str();
    let option = command_option(alloc, first_word(value))?;
    format!(in alloc; "fpk launch {app}{option}")
}

/// Returns whether the text begins with the prefix.
#[tactic(auto, using(std::proofs::lemmas::Str::Pattern::starts_text))]
pub(crate) fn begins_with(text: &str, prefix: &str) -> bool
    ensures { result ≡ starts_with nat_eq text.now prefix.now }
{
    text.starts_with(prefix)
}

/// Returns a copy of the pair; if its key is `Exec`, the value is the launch of the application.
fn launching(alloc: Global, name: &RefName, pair: &Pair) -> Result<Pair, AllocError>
    ensures { IfOk result (λ p. p ≡ spec.launching name.now pair.now) }
{
    if pair.key.as_str() != "Exec" {
        return pair.copy();
    }
    let line = launch_line(alloc, name, pair.value.as_str())?;
    Ok(Pair {
        key: pair.key.copy()?,
        value: Text::from_string(line),
    })
}

/// Appends the pair as it is exported, unless it is left out.
fn add_pair(
    alloc: Global,
    name: &RefName,
    pair: &Pair,
    pairs: &mut Vec<Pair>,
) -> Result<(), AllocError>
    ensures { OnOk result (pairs.new.items ≡ pairs.old.items ++ spec.rewritten_pair name.now
        pair.now) }
{
    if is_left_out(pair.key.as_str()) {
        return Ok(());
    }
    pairs.push(launching(alloc, name, pair)?)?;
    Ok(())
}

/// Returns the group as it is exported.
fn rewritten_group(alloc: Global, name: &RefName, group: &Group) -> Result<Group, AllocError>
    ensures { IfOk result (λ g. g ≡ spec.rewritten_group name.now group.now) }
{
    let mut pairs = Vec::new(alloc);
    for pair in group.pairs.as_slice() {
        add_pair(alloc, name, pair, &mut pairs)?;
    }
    Ok(Group {
        name: group.name.copy()?,
        pairs: Items::from_vec(pairs),
    })
}

/// Returns the groups as they are exported.
fn rewritten_file(alloc: Global, name: &RefName, file: &[Group]) -> Result<Vec<Group>, AllocError>
    ensures { IfOk result (λ groups. groups.items ≡ spec.rewritten_file name.now file.now) }
{
    let mut groups = Vec::new(alloc);
    for group in file {
        groups.push(rewritten_group(alloc, name, group)?)?;
    }
    Ok(groups)
}

/// Returns the text of the file as it is exported.
fn rewritten_text(alloc: Global, name: &RefName, file: &KeyFile) -> Result<Blob, AllocError>
    ensures { IfOk result (λ text. text ≡ text_of (spec.rewritten_file name.now file.now)) }
{
    // For the proof: the name's text is a valid ref, which can be in a key file's value.
    let _ref_text = name.as_str();
    let groups = rewritten_file(alloc, name, file.groups().as_slice())?;
    let text = KeyFile::from_groups(Items::from_vec(groups)).write()?;
    Ok(Blob::from_vec(text.into_string().into_bytes()))
}

/// Rewrites a desktop file for export by the application. Returns `None` exactly if the bytes
/// aren't a key file.
///
/// The value of each `Exec` becomes `fpk launch REF --command=WORD`, where WORD is the text before
/// the first space of the old value. The option is left out if WORD is empty or has anything but
/// ASCII letters, digits and `-_./+`, because a desktop reads `%i`, quotes, `$` and backslashes as
/// other words. Pairs are left out if their key is `TryExec`, `Exec[..]`, `TryExec[..]`, `Path`,
/// `DBusActivatable`, `X-Flatpak` or `X-GNOME-Bugzilla-ExtraInfoScript`, or has anything but
/// letters, digits and `-`, and at most one `[LOCALE]`.
#[tactic(auto, unfolding(crate::specs::Rewritten::rewritten))]
pub fn rewrite(alloc: Global, bytes: &[u8], name: &RefName) -> Result<Option<Blob>, AllocError>
    ensures { IfOk result (λ text. text ≡ spec.rewritten bytes.now name.now) }
{
    match KeyFile::parse(alloc, bytes) {
        Ok(file) => Ok(Some(rewritten_text(alloc, name, &file)?)),
        Err(KeyError::Fault(_)) => Ok(None),
        Err(KeyError::NoMemory) => Err(AllocError),
    }
}
