//! The permissions that a key file mentions.

ghost use Rattle.std.specs.Prelude.{◌≡◌, ◌++◌, IfOk, OnOk};
ghost use Rattle.std.specs.List.{list_any};
ghost use Rattle.fl_meta.specs.Separators.{is_semicolon};
ghost use Rattle.fl_meta.specs.Mentions as mentions;

use crate::entries::{is_off, push_list};
use crate::pattern::is_pattern;
use crate::permission::{Layer, Mention, PermList, Value};
use crate::separators::ends_escaped;
use fp_base::Text;
use fp_keyfile::{Group, KeyFile, Pair};
use std::alloc::{AllocError, Global};

/// The kind of the file from which mentions are read.
#[derive(Clone, Copy, Debug, PartialEq, Eq)]
pub enum Source {
    /// The metadata of an application or a runtime.
    Metadata,
    /// An override, which also has the keys `unknown-LIST` in the group `Context`.
    Override,
}

/// Returns the list with this key in the group `Context`, or `None` if there is none.
fn list_at(source: Source, key: &str) -> Option<PermList>
    ensures { result ≡ mentions.list_at source key.now }
{
    match source {
        Source::Metadata => PermList::of_key(key),
        Source::Override => match PermList::of_key(key) {
            Some(list) => Some(list),
            None => PermList::of_unknown_key(key),
        },
    }
}

/// Appends the mentions of a pair in the group `Context`.
fn push_context(out: &mut Layer, source: Source, pair: &Pair) -> Result<(), AllocError>
    ensures { OnOk result (out.new ≡ out.old ++ mentions.context_mentions
        (mentions.list_at source pair.now.key) pair.now.value) }
{
    match list_at(source, pair.key.as_str()) {
        Some(list) => push_list(out, list, pair.value.as_str()),
        None => Ok(()),
    }
}

/// Appends the mention of a variable of the environment.
fn push_variable(out: &mut Layer, pair: &Pair) -> Result<(), AllocError>
    ensures { OnOk result (out.new ≡ out.old ++ mentions.variable_mentions pair.now) }
{
    let value = Value::Text(pair.value.copy()?);
    let mention = Mention::new(
        out.allocator(),
        PermList::Environment,
        pair.key.as_str(),
        value,
    )?;
    out.push(mention)
}

/// Returns the text `KEY=VALUE` of a pair.
fn pair_name(alloc: Global, pair: &Pair) -> Result<Text, AllocError>
    ensures { IfOk result (λ t. t ≡ mentions.pair_name pair.now) }
{
    let mut name = String::from_str(alloc, pair.key.as_str())?;
    name.push('=')?;
    name.push_str(pair.value.as_str())?;
    Ok(Text::from_string(name))
}

/// Returns whether a text has a `;`.
fn has_semicolon(text: &str) -> bool
    ensures { result ≡ list_any is_semicolon text.now }
{
    text.bytes().any(|byte| byte == b';')
}

/// Returns whether a text can be an entry of a list that turns no permission off: it has no `;`,
/// doesn't begin with `!`, and doesn't end in an odd number of backslashes.
fn can_stand(name: &str) -> bool
    ensures { result ≡ mentions.can_stand name.now }
{
    !has_semicolon(name) && !is_off(name) && !ends_escaped(name)
}

/// Appends the mention of an unknown permission for a bus pair whose pattern or level isn't known,
/// if its text can be an entry of a list.
fn push_odd(out: &mut Layer, unknown: PermList, pair: &Pair) -> Result<(), AllocError>
    ensures { OnOk result (out.new ≡ out.old ++ mentions.odd_pair unknown
        (mentions.pair_name pair.now)) }
{
    let name = pair_name(out.allocator(), pair)?;
    if !can_stand(name.as_str()) {
        return Ok(());
    }
    let mention = Mention::new(out.allocator(), unknown, name.as_str(), Value::On)?;
    out.push(mention)
}

/// Appends the mention of a pair of a bus policy.
fn push_bus(
    out: &mut Layer,
    list: PermList,
    unknown: PermList,
    pair: &Pair,
) -> Result<(), AllocError>
    ensures { OnOk result (out.new ≡ out.old ++ mentions.bus_mentions list unknown pair.now) }
{
    let name = pair.key.as_str();
    match Value::of_word(pair.value.as_str()) {
        Some(level) if is_pattern(name) => {
            let mention = Mention::new(out.allocator(), list, name, level)?;
            out.push(mention)
        }
        _ => push_odd(out, unknown, pair),
    }
}

/// Appends the mentions of a pair in the group with this name. Pairs of other groups mention
/// nothing.
#[tactic(auto, unfolding(crate::specs::Mentions::pair_mentions))]
fn push_pair(out: &mut Layer, source: Source, group: &str, pair: &Pair) -> Result<(), AllocError>
    ensures { OnOk result (out.new ≡ out.old ++ mentions.pair_mentions source group.now pair.now) }
{
    match group {
        "Context" => push_context(out, source, pair),
        "Environment" => push_variable(out, pair),
        "Session Bus Policy" => {
            push_bus(out, PermList::SessionBus, PermList::UnknownSessionBus, pair)
        }
        "System Bus Policy" => {
            push_bus(out, PermList::SystemBus, PermList::UnknownSystemBus, pair)
        }
        _ => Ok(()),
    }
}

/// Appends the mentions of a group, pair by pair.
#[tactic(auto, unfolding(crate::specs::Mentions::group_mentions))]
fn push_group(out: &mut Layer, source: Source, group: &Group) -> Result<(), AllocError>
    ensures { OnOk result (out.new ≡ out.old ++ mentions.group_mentions source group.now) }
{
    for pair in group.pairs.as_slice() {
        push_pair(out, source, group.name.as_str(), pair)?;
    }
    Ok(())
}

/// Returns the permissions that a key file mentions, in the order of the file, as
/// flatpak-metadata(5) describes.
///
/// A list is split at each `;` before which there is no odd number of backslashes; the bytes of an
/// entry stay as they are written. Spaces and tabs at the start of an entry are dropped. A leading
/// `!` turns the permission off. Of a filesystem, the endings `:ro`, `:rw` and `:create` are cut
/// off, and the last one is its access; without one it may be read and written. Its name is the
/// normal form of the text: `/opt//data/` is `/opt/data`. An entry without a name mentions nothing,
/// nor does one whose name ends in an odd number of backslashes. A name that its list doesn't know
/// is an unknown permission, and so is a bus pair whose pattern or level isn't known.
#[tactic(auto, unfolding(crate::specs::Mentions::file_mentions))]
pub fn mentions_of(alloc: Global, file: &KeyFile, source: Source) -> Result<Layer, AllocError>
    ensures { IfOk result (λ layer. layer ≡ mentions.file_mentions source file.now) }
{
    let mut out = Layer::new(alloc);
    for group in file.groups().as_slice() {
        push_group(&mut out, source, group)?;
    }
    Ok(out)
}
