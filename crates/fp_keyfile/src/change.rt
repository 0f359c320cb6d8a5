//! Changes of one pair in a list of groups.

ghost use Rattle.std.specs.Prelude.{◌≡◌, OnOk, OnErr};
ghost use Rattle.fp_keyfile.specs.KeyFile.{value_at, with_pair, without_pair};

use crate::group::Group;
use crate::places::group_place;
use fp_base::{Items, Text};
use std::alloc::AllocError;

/// Sets the value of the key in the group. A missing pair is added at the end of its group, and a
/// missing group at the end of the list. If memory runs out, nothing changes.
pub(crate) fn set_pair(
    groups: &mut Items<Group>,
    name: &str,
    key: &str,
    value: &str,
) -> Result<(), AllocError>
    ensures ok { OnOk result (groups.new ≡ with_pair groups.old name.now key.now value.now) }
    ensures err { OnErr result (groups.new ≡ groups.old) }
{
    match group_place(groups.as_slice(), name) {
        Some(at) => {
            let group = groups.at_mut(at);
            group.put(key, value)
        }
        None => {
            let group = Group::of_pair(groups.allocator(), name, key, value)?;
            groups.push(group)
        }
    }
}

/// Removes the pair and returns its value. Its group is removed with its last pair. Returns `None`
/// and changes nothing if there is no such pair.
pub(crate) fn take_pair(groups: &mut Items<Group>, name: &str, key: &str) -> Option<Text>
    ensures value { result ≡ value_at groups.old name.now key.now }
    ensures after { groups.new ≡ without_pair groups.old name.now key.now }
{
    let at = group_place(groups.as_slice(), name)?;
    let group = groups.at_mut(at);
    let value = group.take(key)?;
    let is_last = group.pairs.is_empty();
    if is_last {
        let _ = groups.remove(at);
    }
    Some(value)
}
