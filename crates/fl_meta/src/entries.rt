//! The entries of a list of permissions.

ghost use Rattle.std.specs.Prelude.{◌≡◌, ◌++◌, ◌∷◌, List, ℕ, IsTrue, OnOk, OnSome, MatchOption, IfOk};
ghost use Rattle.fl_meta.specs.Entries as entries;
ghost use Rattle.fl_meta.specs.Names as names;

use crate::names::{access_of, list_with};
use crate::permission::{Layer, Mention, PermList, Value};
use crate::places::place_in;
use crate::separators::{ends_escaped, first_entry};
use fp_base::Text;
use fp_keyfile::trim_front;
use std::alloc::{AllocError, Global};

/// Returns the access of a filesystem by its text's last ending: read and write if there is none.
fn access_at(text: &str) -> Value
    ensures { result ≡ entries.access_at text.now }
{
    match text.rsplit_once(':') {
        Some((_, word)) => access_of(word).unwrap_or(Value::Rw),
        None => Value::Rw,
    }
}

/// Returns the name in an entry: the normal form of a filesystem's text, else the text itself.
fn name_in(alloc: Global, list: PermList, text: &str) -> Result<Text, AllocError>
    ensures { IfOk result (λ name. name ≡ entries.name_in list text.now) }
{
    match list {
        PermList::Filesystems => place_in(alloc, text),
        _ => Text::from_str(alloc, text),
    }
}

/// Returns the value of an entry that doesn't turn the permission off.
fn value_in(list: PermList, text: &str) -> Value
    ensures { result ≡ entries.value_in list text.now }
{
    match list {
        PermList::Filesystems => access_at(text),
        _ => Value::On,
    }
}

/// Returns whether an entry turns the permission off: it begins with `!`.
pub(crate) fn is_off(entry: &str) -> bool
    ensures { result ≡ entries.is_off entry.now }
{
    matches!(entry.as_bytes(), [b'!', ..])
}

/// Returns the entry without a leading `!`.
fn without_mark(entry: &str) -> &str
    ensures { result.now ≡ entries.without_mark entry.now }
{
    match entry.strip_prefix('!') {
        Some(text) => text,
        None => entry,
    }
}

/// Returns whether a text isn't a name: it is empty, or a `;` after it would be part of it.
fn is_no_name(name: &str) -> bool
    ensures { result ≡ entries.is_no_name name.now }
{
    name.is_empty() || ends_escaped(name)
}

/// Appends the mention of an entry, if it has a name.
#[tactic(auto, unfolding(crate::specs::Entries::mentions_in))]
fn push_entry(out: &mut Layer, list: PermList, entry: &str) -> Result<(), AllocError>
    ensures { OnOk result (out.new ≡ out.old ++ entries.mentions_in list entry.now) }
{
    let text = without_mark(entry);
    let name = name_in(out.allocator(), list, text)?;
    if is_no_name(name.as_str()) {
        return Ok(());
    }
    let value = if is_off(entry) {
        Value::Off
    } else {
        value_in(list, text)
    };
    let mention = Mention::new(
        out.allocator(),
        list_with(list, name.as_str()),
        name.as_str(),
        value,
    )?;
    out.push(mention)
}

/// Appends the mentions of a list's value, entry by entry.
#[tactic(auto, unfolding(crate::specs::Entries::list_mentions))]
pub(crate) fn push_list(out: &mut Layer, list: PermList, value: &str) -> Result<(), AllocError>
    ensures { OnOk result (out.new ≡ out.old ++ entries.list_mentions list value.now) }
{
    let mut left = Some(value);
    while let Some(text) = left {
        let (entry, others) = first_entry(text);
        push_entry(out, list, trim_front(entry))?;
        left = others;
    }
    Ok(())
}
