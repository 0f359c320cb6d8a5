//! The granted permissions of a launch, as groups of a key file.

ghost use Rattle.std.specs.Prelude.{◌≡◌, ◌++◌, IfOk, OnOk};
ghost use Rattle.std.specs.List.{filter, flat_map};
ghost use Rattle.fl_launch.specs.Granted as spec;

use fl_context::{Grants, is_granted};
use fl_meta::{Mention, PermList, Permission};
use fl_override::{groups_of, list_text, push_group};
use fp_base::{Items, Text};
use fp_keyfile::{Group, Pair};
use std::alloc::{AllocError, Global};

/// The lists of unknown permissions, in the order in which they are written.
const UNKNOWN_LISTS: [PermList; 6] = [
    PermList::UnknownShared,
    PermList::UnknownSockets,
    PermList::UnknownDevices,
    PermList::UnknownFeatures,
    PermList::UnknownSessionBus,
    PermList::UnknownSystemBus,
];

/// Returns the key of a list of unknown permissions in the group `Unknown`. Returns an empty text
/// for the other lists, which are written in other groups.
fn unknown_key(list: PermList) -> &'static str
    ensures { result.now ≡ spec.unknown_key list }
{
    match list.key().strip_prefix("unknown-") {
        Some(key) => key,
        None => "",
    }
}

/// Returns whether the mention grants a known permission.
fn gives_known(mention: &Mention) -> bool
    ensures { result ≡ spec.gives_known mention.now }
{
    mention.permission.list.place() < 9 && is_granted(&mention.value)
}

/// Returns the mentions that grant a permission.
fn granted(alloc: Global, grants: &[Mention]) -> Result<Vec<Mention>, AllocError>
    ensures { IfOk result (λ kept. kept.items ≡ spec.granted grants.now) }
{
    let mut kept = Vec::new(alloc);
    for mention in grants {
        if is_granted(&mention.value) {
            kept.push(mention.copy()?)?;
        }
    }
    Ok(kept)
}

/// Returns the mentions that grant a known permission.
fn known(alloc: Global, grants: &[Mention]) -> Result<Vec<Mention>, AllocError>
    ensures { IfOk result (λ kept. kept.items ≡ spec.known grants.now) }
{
    let mut kept = Vec::new(alloc);
    for mention in grants {
        if gives_known(mention) {
            kept.push(mention.copy()?)?;
        }
    }
    Ok(kept)
}

/// Appends the pair of a list of unknown permissions, unless the list is empty.
fn push_unknown(
    pairs: &mut Items<Pair>,
    list: PermList,
    mentions: &[Mention],
) -> Result<(), AllocError>
    ensures { OnOk result (pairs.new ≡ pairs.old ++ spec.unknown_pair mentions.now list) }
{
    let text = list_text(pairs.allocator(), list, mentions)?;
    if text.is_empty() {
        return Ok(());
    }
    let key = Text::from_str(pairs.allocator(), unknown_key(list))?;
    pairs.push(Pair {
        key,
        value: Text::from_string(text),
    })
}

/// Returns the pairs of the lists of unknown permissions.
fn unknown_pairs(alloc: Global, mentions: &[Mention]) -> Result<Items<Pair>, AllocError>
    ensures { IfOk result (λ pairs. pairs ≡ spec.unknown_pairs mentions.now) }
{
    let mut pairs = Items::new(alloc);
    for list in &UNKNOWN_LISTS {
        push_unknown(&mut pairs, *list, mentions)?;
    }
    Ok(pairs)
}

/// Returns the groups of the granted permissions: the known ones as in an override, then the group
/// `Unknown` with the others.
#[tactic(auto, unfolding(crate::specs::Granted::granted_groups))]
pub(crate) fn granted_groups(alloc: Global, grants: &[Mention]) -> Result<Items<Group>, AllocError>
    ensures { IfOk result (λ groups. groups ≡ spec.granted_groups grants.now) }
{
    let mut groups = groups_of(alloc, &known(alloc, grants)?)?;
    let unknown = unknown_pairs(alloc, &granted(alloc, grants)?)?;
    push_group(&mut groups, "Unknown", unknown)?;
    Ok(groups)
}

/// Returns whether the socket `session-bus` is granted.
#[tactic(auto, unfolding(crate::specs::Granted::has_session_bus))]
pub(crate) fn has_session_bus(alloc: Global, grants: &Grants) -> Result<bool, AllocError>
    ensures { IfOk result (λ has. has ≡ spec.has_session_bus grants.now) }
{
    let socket = Permission::new(alloc, PermList::Sockets, "session-bus")?;
    match grants.value(&socket) {
        Some(value) => Ok(is_granted(value)),
        None => Ok(false),
    }
}
