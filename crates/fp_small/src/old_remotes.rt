//! Parsing of the file `remotes.conf` of layout 1.
ghost use Rattle.std.specs.Prelude.{◌≡◌, Some, None, IfOk, IsErrOf};
ghost use Rattle.std.specs.List.{list_all};
ghost use Rattle.std.specs.Option.{is_some};
ghost use Rattle.fp_small.specs.Config.{remote_of};
ghost use Rattle.fp_small.specs.Old as spec;
ghost use Rattle.fp_small.specs.Old.{AreRows, remotes_of, remotes_seen};

use crate::config::ConfigError;
use crate::config_reading::{count_remotes, is_remote, remote_rows};
use crate::limits::MOST_REMOTES;
use crate::state::RemoteRow;
use fp_base::Items;
use fp_keyfile::{Group, KeyFile};
use std::alloc::Global;

/// Returns whether each group defines a remote.
fn all_say_remotes(groups: &[Group]) -> bool
    ensures { result ≡ list_all (λ g. is_some (remote_of g)) groups.now }
{
    groups.iter().all(|group| is_remote(group))
}

/// Returns whether the groups are a valid `remotes.conf`.
fn are_remotes(groups: &[Group]) -> bool
    ensures { result ≡ spec.are_remotes groups.now }
{
    all_say_remotes(groups) && count_remotes(groups) <= MOST_REMOTES
}

/// Returns the remotes that the groups define, ascending by name. Errs with `Bad` if the groups
/// aren't a valid `remotes.conf`.
fn rows_of(alloc: Global, groups: &[Group]) -> Result<Items<RemoteRow>, ConfigError>
    ensures ok { IfOk result (λ rows. remotes_seen groups.now ≡ Some rows) }
    ensures bad { IsErrOf result ConfigError.Bad → remotes_seen groups.now ≡ None }
{
    if !are_remotes(groups) {
        return Err(ConfigError::Bad);
    }
    Ok(Items::from_vec(remote_rows(alloc, groups)?))
}

/// Parses a file `remotes.conf` of layout 1: a key file with at most 256 groups `remote "NAME"`, in
/// any order, each with exactly the key `url`. Returns the remotes ascending by name. Errs with
/// `Bad` for any other bytes.
pub fn read_remotes(alloc: Global, bytes: &[u8]) -> Result<Items<RemoteRow>, ConfigError>
    ensures ok { IfOk result (λ rows. remotes_of bytes.now ≡ Some rows) }
    ensures good { IfOk result (λ rows. AreRows rows) }
    ensures bad { IsErrOf result ConfigError.Bad → remotes_of bytes.now ≡ None }
{
    let file = KeyFile::parse(alloc, bytes)?;
    rows_of(alloc, file.groups().as_slice())
}
