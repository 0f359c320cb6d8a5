//! The lookup of groups in a file, and of pairs in a group.

ghost use Rattle.std.specs.Prelude.{◌≡◌};
ghost use Rattle.std.specs.List.{position};
ghost use Rattle.std.specs.Option.{option_copied};
ghost use Rattle.std.specs.Str.{bytes_eq};
ghost use Rattle.fp_keyfile.specs.KeyFile.{group_at, pair_at};

use crate::group::{Group, Pair};

/// Returns the index of the group with this name.
pub(crate) fn group_place(groups: &[Group], name: &str) -> Option<usize>
    ensures { result ≡ position (λ g. bytes_eq g.name name.now) groups.now }
{
    groups.iter().position(|g| g.name.as_str() == name)
}

/// Returns the index of the pair with this key.
pub(crate) fn pair_place(pairs: &[Pair], key: &str) -> Option<usize>
    ensures { result ≡ position (λ p. bytes_eq p.key key.now) pairs.now }
{
    pairs.iter().position(|p| p.key.as_str() == key)
}

/// Returns the group with this name.
pub(crate) fn find_group<'a>(groups: &'a [Group], name: &str) -> Option<&'a Group>
    ensures { option_copied result ≡ group_at groups.now name.now }
{
    groups.iter().find(|g| g.name.as_str() == name)
}

/// Returns the pair with this key.
pub(crate) fn find_pair<'a>(pairs: &'a [Pair], key: &str) -> Option<&'a Pair>
    ensures { option_copied result ≡ pair_at pairs.now key.now }
{
    pairs.iter().find(|p| p.key.as_str() == key)
}
