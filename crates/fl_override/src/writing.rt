//! Writing mentions as a key file.

ghost use Rattle.std.specs.Prelude.{◌≡◌, ◌++◌, ◌∷◌, [], OnOk, IfOk, string_bytes};
ghost use Rattle.std.specs.List.{flat_map};
ghost use Rattle.fl_override.specs.Written as written;

use fl_meta::{Mention, PermList, Value};
use fp_base::{Items, Text};
use fp_keyfile::{Group, Pair};
use std::alloc::{AllocError, Global};

/// The lists of the group `Context`, in the order in which they are written.
const CONTEXT_LISTS: [PermList; 12] = [
    PermList::Shared,
    PermList::Sockets,
    PermList::Devices,
    PermList::Features,
    PermList::Filesystems,
    PermList::Persistent,
    PermList::UnknownShared,
    PermList::UnknownSockets,
    PermList::UnknownDevices,
    PermList::UnknownFeatures,
    PermList::UnknownSessionBus,
    PermList::UnknownSystemBus,
];

/// Appends an entry of a list to a text, without the `;` that ends it.
fn push_open_entry(out: &mut String, mention: &Mention) -> Result<(), AllocError>
    ensures { OnOk result (string_bytes out.new ≡ string_bytes out.old ++ written.entry_text
        mention.now) }
{
    let name = mention.permission.name.as_str();
    match &mention.value {
        Value::Off => {
            out.push('!')?;
            out.push_str(name)
        }
        Value::Ro => {
            out.push_str(name)?;
            out.push_str(":ro")
        }
        Value::Create => {
            out.push_str(name)?;
            out.push_str(":create")
        }
        _ => out.push_str(name),
    }
}

/// Returns whether a mention belongs to a list.
fn is_in(list: PermList, mention: &Mention) -> bool
    ensures { result ≡ written.is_in list mention.now }
{
    mention.permission.list.place() == list.place()
}

/// Appends an entry and `;` to a text, if the mention belongs to the list.
fn push_entry(out: &mut String, list: PermList, mention: &Mention) -> Result<(), AllocError>
    ensures { OnOk result (string_bytes out.new ≡ string_bytes out.old ++ written.entry_in list
        mention.now) }
{
    if !is_in(list, mention) {
        return Ok(());
    }
    push_open_entry(out, mention)?;
    out.push(';')
}

/// Returns the entries of a list, each followed by `;`, in the order of the mentions.
#[tactic(auto, unfolding(crate::specs::Written::list_text))]
pub fn list_text(alloc: Global, list: PermList, mentions: &[Mention]) -> Result<String, AllocError>
    ensures { IfOk result (λ t. string_bytes t ≡ written.list_text list mentions.now) }
{
    let mut out = String::new(alloc);
    for mention in mentions {
        push_entry(&mut out, list, mention)?;
    }
    Ok(out)
}

/// Appends the pair of a list, if the list has entries.
fn push_list(
    pairs: &mut Items<Pair>,
    list: PermList,
    mentions: &[Mention],
) -> Result<(), AllocError>
    ensures { OnOk result (pairs.new ≡ pairs.old ++ written.list_pair mentions.now list) }
{
    let text = list_text(pairs.allocator(), list, mentions)?;
    if text.is_empty() {
        return Ok(());
    }
    let key = Text::from_str(pairs.allocator(), list.key())?;
    pairs.push(Pair {
        key,
        value: Text::from_string(text),
    })
}

/// Appends the pairs of those lists that have entries.
fn push_lists(
    pairs: &mut Items<Pair>,
    lists: &[PermList],
    mentions: &[Mention],
) -> Result<(), AllocError>
    ensures { OnOk result (pairs.new ≡ pairs.old ++ flat_map (written.list_pair mentions.now)
        lists.now) }
{
    for list in lists {
        push_list(pairs, *list, mentions)?;
    }
    Ok(())
}

/// Returns the pairs of the group `Context`.
#[tactic(auto, unfolding(crate::specs::Written::context_pairs))]
fn context_pairs(alloc: Global, mentions: &[Mention]) -> Result<Items<Pair>, AllocError>
    ensures { IfOk result (λ pairs. pairs ≡ written.context_pairs mentions.now) }
{
    let mut pairs = Items::new(alloc);
    push_lists(&mut pairs, &CONTEXT_LISTS, mentions)?;
    Ok(pairs)
}

/// Appends the pair of a mention, if it belongs to the list. The pair's key is the permission's
/// name.
fn push_named(pairs: &mut Items<Pair>, list: PermList, mention: &Mention) -> Result<(), AllocError>
    ensures { OnOk result (pairs.new ≡ pairs.old ++ written.named_in list mention.now) }
{
    if !is_in(list, mention) {
        return Ok(());
    }
    let name = mention.permission.name.as_str();
    let pair = Pair::new(pairs.allocator(), name, mention.value.word())?;
    pairs.push(pair)
}

/// Returns the pairs of a group whose keys are the names of permissions.
#[tactic(auto, unfolding(crate::specs::Written::named_pairs))]
fn named_pairs(
    alloc: Global,
    list: PermList,
    mentions: &[Mention],
) -> Result<Items<Pair>, AllocError>
    ensures { IfOk result (λ pairs. pairs ≡ written.named_pairs list mentions.now) }
{
    let mut pairs = Items::new(alloc);
    for mention in mentions {
        push_named(&mut pairs, list, mention)?;
    }
    Ok(pairs)
}

/// Appends a group, if it has pairs.
pub fn push_group(
    groups: &mut Items<Group>,
    name: &str,
    pairs: Items<Pair>,
) -> Result<(), AllocError>
    ensures { OnOk result (groups.new ≡ groups.old ++ written.group_if name.now pairs) }
{
    if pairs.is_empty() {
        return Ok(());
    }
    let name = Text::from_str(groups.allocator(), name)?;
    groups.push(Group { name, pairs })
}

/// Returns the groups of a key file with these mentions, in the form of Flatpak's overrides. Groups
/// without pairs are left out.
#[tactic(auto, unfolding(crate::specs::Written::file_with))]
pub fn groups_of(alloc: Global, mentions: &[Mention]) -> Result<Items<Group>, AllocError>
    ensures { IfOk result (λ groups. groups ≡ written.file_with mentions.now) }
{
    let mut groups = Items::new(alloc);
    let context = context_pairs(alloc, mentions)?;
    push_group(&mut groups, "Context", context)?;
    let variables = named_pairs(alloc, PermList::Environment, mentions)?;
    push_group(&mut groups, "Environment", variables)?;
    let session = named_pairs(alloc, PermList::SessionBus, mentions)?;
    push_group(&mut groups, "Session Bus Policy", session)?;
    let system = named_pairs(alloc, PermList::SystemBus, mentions)?;
    push_group(&mut groups, "System Bus Policy", system)?;
    Ok(groups)
}
