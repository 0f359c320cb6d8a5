//! Reading the commit that a remote offers under a ref.
ghost use Rattle.std.specs.Prelude.{◌≡◌, IfOk, IsErrOf, Some};
ghost use Rattle.fp_host.specs.Remote.{Holdings};
ghost use Rattle.fp_small.specs.declared.refusal.Refusal.TheVariants as refusals;
ghost use Rattle.ost_walk.specs.Ends.{IsRemotes};
ghost use Rattle.ost_walk.specs.PullEnds.{Answers, Tells};
ghost use Rattle.ost_refs.specs.Offers.{config_path, wrong_mode, ref_path, ref_at, commit_said, offered};

use crate::modes::mode_in;
use crate::small::load_remote;
use fp_base::Text;
use fp_host::{Path, RemoteError, Remotes};
use fp_name::{Digest, RefName};
use fp_small::{Refusal, RemoteRow};
use ost_refs::{MOST_STORE_CONFIG_BYTES, REF_FILE_BYTES, RefFile, RefPlace, path_of, ref_file};
use ost_walk::PullEnd;
use std::alloc::{AllocError, Global};

/// Returns the path of the remote's file `config`.
fn config_path(alloc: Global) -> Result<Path, AllocError>
    ensures { IfOk result (λ path. path ≡ config_path) }
{
    Path::root(alloc).child("config")
}

/// Returns the path of the ref's file at the remote.
fn ref_path(alloc: Global, name: &RefName) -> Result<Path, AllocError>
    ensures { IfOk result (λ path. path ≡ ref_path name.now) }
{
    path_of(&Path::root(alloc), &RefPlace::Head(name.copy()?))
}

/// Returns the mode of the remote that is refused, or `None` if fpk pulls from the remote.
fn mode_of<R: Remotes>(
    alloc: Global,
    remotes: &mut R,
    remote: &RemoteRow,
) -> Result<Option<Text>, PullEnd>
    ensures same { R.holds remotes.new ≡ R.holds remotes.old }
    ensures tells { (held : Holdings) → R.holds remotes.old ≡ Some held
        → Tells (λ mode. mode ≡ wrong_mode held remote.now.url) result }
    ensures host { IsErrOf result PullEnd.HostFault → ⊥ }
    ensures fault_has_cause { IsRemotes (IsErrOf result PullEnd.RemoteFault)
        (R.faults remotes.old) (R.faults remotes.new) }
{
    let path = config_path(alloc)?;
    let config = load_remote(
        alloc,
        remotes,
        remote.url.as_str(),
        &path,
        MOST_STORE_CONFIG_BYTES,
    )?;
    Ok(mode_in(alloc, config)?)
}

/// Reads the ref's file at the remote. A file that is missing or too long is `Bad`.
fn ref_of<R: Remotes>(
    alloc: Global,
    remotes: &mut R,
    remote: &RemoteRow,
    name: &RefName,
) -> Result<RefFile, PullEnd>
    ensures same { R.holds remotes.new ≡ R.holds remotes.old }
    ensures tells { (held : Holdings) → R.holds remotes.old ≡ Some held
        → Tells (λ said. said ≡ ref_at held remote.now.url name.now) result }
    ensures host { IsErrOf result PullEnd.HostFault → ⊥ }
    ensures fault_has_cause { IsRemotes (IsErrOf result PullEnd.RemoteFault)
        (R.faults remotes.old) (R.faults remotes.new) }
{
    let path = ref_path(alloc, name)?;
    match load_remote(alloc, remotes, remote.url.as_str(), &path, REF_FILE_BYTES)? {
        Some(bytes) => Ok(ref_file(bytes.as_slice())),
        None => Ok(RefFile::Bad),
    }
}

/// Returns the refusal of a remote for its mode.
fn refuse_mode(remote: &RemoteRow, mode: Text) -> Result<Refusal, AllocError>
    ensures { IfOk result (λ r. r ≡ refusals.WrongMode remote.now.name mode) }
{
    Ok(Refusal::WrongMode {
        remote: remote.name.copy()?,
        mode,
    })
}

/// Returns the refusal of a ref that the remote doesn't offer.
fn refuse_ref(remote: &RemoteRow, name: &RefName) -> Result<Refusal, AllocError>
    ensures { IfOk result (λ r. r ≡ refusals.NoSuchRef remote.now.name name.now) }
{
    Ok(Refusal::NoSuchRef {
        remote: remote.name.copy()?,
        name: name.copy()?,
    })
}

/// Returns the commit in the ref's file at the remote, whose mode isn't checked. `Refused` with
/// `NoSuchRef`.
fn commit_of<R: Remotes>(
    alloc: Global,
    remotes: &mut R,
    remote: &RemoteRow,
    name: &RefName,
) -> Result<Digest, PullEnd>
    ensures same { R.holds remotes.new ≡ R.holds remotes.old }
    ensures tells { (held : Holdings) → R.holds remotes.old ≡ Some held
        → Answers result (commit_said remote.now name.now (ref_at held remote.now.url name.now)) }
    ensures host { IsErrOf result PullEnd.HostFault → ⊥ }
    ensures fault_has_cause { IsRemotes (IsErrOf result PullEnd.RemoteFault)
        (R.faults remotes.old) (R.faults remotes.new) }
{
    match ref_of(alloc, remotes, remote, name)? {
        RefFile::Digest(digest) => Ok(digest),
        RefFile::Absent | RefFile::Bad => Err(PullEnd::Refused(refuse_ref(remote, name)?)),
    }
}

/// Returns the commit that the remote offers under the ref. `Refused` with `WrongMode` if its
/// `config` isn't that of a repository of version 1 and of the mode `bare-user-only`, and with
/// `NoSuchRef` if the ref's file isn't 64 lower-case hexadecimal digits and a newline. Never fails
/// with `HostFault`.
pub fn offer<R: Remotes>(
    alloc: Global,
    remotes: &mut R,
    remote: &RemoteRow,
    name: &RefName,
) -> Result<Digest, PullEnd>
    ensures same { R.holds remotes.new ≡ R.holds remotes.old }
    ensures tells { (held : Holdings) → R.holds remotes.old ≡ Some held
        → Answers result (offered held remote.now name.now) }
    ensures host { IsErrOf result PullEnd.HostFault → ⊥ }
    ensures fault_has_cause { IsRemotes (IsErrOf result PullEnd.RemoteFault)
        (R.faults remotes.old) (R.faults remotes.new) }
{
    match mode_of(alloc, remotes, remote)? {
        Some(mode) => Err(PullEnd::Refused(refuse_mode(remote, mode)?)),
        None => commit_of(alloc, remotes, remote, name),
    }
}
