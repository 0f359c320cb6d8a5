//! Checking whether an update of all has nothing to do.
ghost use Rattle.std.specs.Prelude.{◌≡◌, true, IfOk, IsErrOf, Some, Err};
ghost use Rattle.std.specs.List.{list_all};
ghost use Rattle.std.specs.Str.{bytes_eq};
ghost use Rattle.fp_host.specs.OverHost.{ChangesNothing, FailsAlone};
ghost use Rattle.fp_host.specs.Remote.{Holdings};
ghost use Rattle.fp_small.specs.declared.refusal.Refusal.{Refusal as SomeRefusal};
ghost use Rattle.fp_small.specs.declared.state.Layout.TheVariants.{Two};
ghost use Rattle.ost_refs.specs.Offers.{offered};
ghost use Rattle.ost_walk.specs.Ends.{IsRemotes};
ghost use Rattle.fl_change.specs.Current as spec;
ghost use Rattle.fl_change.specs.Current.{updates_all, is_commit_of, is_as_offered, are_as_offered};

use crate::end::RunEnd;
use dep_switch::find_remote;
use fl_words::Change;
use fp_host::{Host, HostEnd, RemoteError, Remotes};
use fp_name::Digest;
use fp_small::{Layout, RefRow, RemoteRow, State, names_in, tmp_path};
use ost_head::offer;
use ost_walk::PullEnd;
use std::alloc::Global;

/// Returns whether the changes are an update of all, and nothing else.
pub(crate) fn is_update_of_all(changes: &[Change]) -> bool
    ensures { result ≡ updates_all changes.now }
{
    match changes.first() {
        Some(Change::UpdateAll) => changes.len() == 1,
        _ => false,
    }
}

/// Returns whether the row's deployed commit is `commit`.
fn is_commit(row: &RefRow, commit: &Digest) -> bool
    ensures { result ≡ bytes_eq row.now.commit commit.now }
{
    row.commit == *commit
}

/// Converts the error of an offer: a refusal means that the commit isn't offered, and a fault of
/// the remote stays an error. A fault of the host, which an offer never has, becomes `NoMemory`.
fn declined(end: PullEnd) -> Result<bool, RemoteError>
    ensures { result ≡ spec.declined end }
{
    match end {
        PullEnd::Refused(_) => Ok(false),
        PullEnd::RemoteFault => Err(RemoteError::Failed),
        PullEnd::HostFault | PullEnd::NoMemory => Err(RemoteError::NoMemory),
    }
}

/// Returns whether the remote offers the ref's deployed commit; false if it doesn't offer the ref.
fn is_offered<R: Remotes>(
    alloc: Global,
    remotes: &mut R,
    remote: &RemoteRow,
    row: &RefRow,
) -> Result<bool, RemoteError>
    ensures same { R.holds remotes.new ≡ R.holds remotes.old }
    ensures tells { (held : Holdings) → R.holds remotes.old ≡ Some held
        → IfOk result (λ b. b ≡ is_commit_of row.now (offered held remote.now row.now.name)) }
    ensures fault_has_cause { IsRemotes (IsErrOf result RemoteError.Failed)
        (R.faults remotes.old) (R.faults remotes.new) }
{
    match offer(alloc, remotes, remote, &row.name) {
        Ok(commit) => Ok(is_commit(row, &commit)),
        Err(end) => declined(end),
    }
}

/// Returns whether the remote that the ref comes from offers its deployed commit; false if the
/// remote is gone or doesn't offer the ref.
fn is_current<R: Remotes>(
    alloc: Global,
    remotes: &mut R,
    known: &[RemoteRow],
    row: &RefRow,
) -> Result<bool, RemoteError>
    ensures same { R.holds remotes.new ≡ R.holds remotes.old }
    ensures tells { (held : Holdings) → R.holds remotes.old ≡ Some held
        → IfOk result (λ b. b ≡ is_as_offered held known.now row.now) }
    ensures fault_has_cause { IsRemotes (IsErrOf result RemoteError.Failed)
        (R.faults remotes.old) (R.faults remotes.new) }
{
    match find_remote(known, &row.origin) {
        Some(remote) => is_offered(alloc, remotes, remote, row),
        None => Ok(false),
    }
}

/// Returns whether, for each row, the remote that its ref comes from offers its deployed commit.
fn are_current<R: Remotes>(
    alloc: Global,
    remotes: &mut R,
    known: &[RemoteRow],
    rows: &[RefRow],
) -> Result<bool, RemoteError>
    ensures same { R.holds remotes.new ≡ R.holds remotes.old }
    ensures tells { (held : Holdings) → R.holds remotes.old ≡ Some held
        → IfOk result (λ b. b ≡ list_all (is_as_offered held known.now) rows.now) }
    ensures fault_has_cause { IsRemotes (IsErrOf result RemoteError.Failed)
        (R.faults remotes.old) (R.faults remotes.new) }
{
    for row in rows {
        if !is_current(alloc, remotes, known, row)? {
            return Ok(false);
        }
    }
    Ok(true)
}

/// Returns whether `repo/tmp` has no names in it.
fn has_no_work<H: Host>(alloc: Global, host: &mut H) -> Result<bool, HostEnd>
    ensures unchanged { ChangesNothing H.Host host.old host.new }
    ensures fault_has_cause { FailsAlone H.Host host.old host.new (IsErrOf result HostEnd.Fault) }
{
    let work = tmp_path(alloc)?;
    Ok(names_in(alloc, host, &work)?.as_slice().is_empty())
}

/// Returns whether an update of all has nothing to do: the layout is 2, `repo/tmp` is empty, and
/// the remote of each deployed ref offers its deployed commit. Reads nothing else of the
/// installation, and changes nothing.
pub(crate) fn is_idle<H: Host, R: Remotes>(
    alloc: Global,
    host: &mut H,
    remotes: &mut R,
    state: &State,
) -> Result<bool, RunEnd>
    ensures unchanged { ChangesNothing H.Host host.old host.new }
    ensures same { R.holds remotes.new ≡ R.holds remotes.old }
    ensures idle { (held : Holdings) → R.holds remotes.old ≡ Some held
        → IfOk result (λ b. b ≡ true
        → (state.now.layout ≡ Two) × (are_as_offered held state.now ≡ true)) }
    ensures unrefused { (refusal : SomeRefusal) → result ≡ Err (RunEnd.Refused refusal) → ⊥ }
    ensures host { FailsAlone H.Host host.old host.new (IsErrOf result RunEnd.Fault) }
    ensures remote { IsRemotes (IsErrOf result RunEnd.RemoteFault)
        (R.faults remotes.old) (R.faults remotes.new) }
{
    match state.layout {
        Layout::One => Ok(false),
        Layout::Two => {
            if has_no_work(alloc, host)? {
                let known = state.remotes.as_slice();
                Ok(are_current(alloc, remotes, known, state.refs.as_slice())?)
            } else {
                Ok(false)
            }
        }
    }
}
