//! Making the file and the symlink before a switch.
ghost use Rattle.std.specs.Prelude.{◌≡◌, ◌≤◌, true, false, Some, length, IfOk, OnOk, IsErrOf};
ghost use Rattle.fp_host.specs.OverHost.{AtEachMoment, AtReturn, FailsOnly};
ghost use Rattle.fp_host.specs.Paths.{is_link_text};
ghost use Rattle.fp_name.specs.Refs.{is_ref};
ghost use Rattle.dep_states.specs.Deploy.{deploy_of, goes_back_to};
ghost use Rattle.dep_states.specs.Shown.{small_most};
ghost use Rattle.dep_switch.specs.Rows.{with_row};
ghost use Rattle.dep_switch.specs.Writing.{data_of, new_link, WritesFile, HasFile, CanWrite, Prepares, WasPrepared, CanPrepare};

use crate::rows::put_ref;
use dep_states::DeployData;
use fp_base::{Blob, Items};
use fp_host::{Host, HostEnd, Path};
use fp_small::{FILE_MODE, RefRow, State, make_above, take_away};
use std::alloc::{AllocError, Global};

/// Returns the bytes of the row's `deploy`. Condition: the previous commit isn't the row's commit.
pub(crate) fn deploy_bytes(alloc: Global, row: &RefRow) -> Result<Blob, AllocError>
    requires moves { goes_back_to row.now.commit row.now.previous ≡ false }
    ensures says { IfOk result (λ bytes. deploy_of bytes ≡ Some (data_of row.now)) }
    ensures short { IfOk result (λ bytes. length bytes ≤ small_most) }
{
    let data = DeployData {
        origin: row.origin.copy()?,
        commit: row.commit,
        timestamp: row.timestamp,
        previous: row.previous,
    };
    data.write(alloc)
}

/// Returns the state with this row instead of the one of its ref.
pub(crate) fn with_row(state: State, row: RefRow) -> Result<State, AllocError>
    ensures state { IfOk result (λ s. s ≡ with_row state row) }
    ensures good { OnOk result (is_ref row.name ≡ true) }
{
    let mut rows = state.refs.into_vec();
    put_ref(&mut rows, row)?;
    Ok(State {
        layout: state.layout,
        refs: Items::from_vec(rows),
        remotes: state.remotes,
        pins: state.pins,
        overrides: state.overrides,
    })
}

/// Writes a new file with the permission bits 0644; removes a file that is at the path. Syncs
/// nothing. Condition: the parent is a directory, and the path is absent or a file.
pub(crate) fn write_new<H: Host>(host: &mut H, path: &Path, bytes: &[u8]) -> Result<(), HostEnd>
    ensures any_moment { AtEachMoment H.Host host.old host.new (WritesFile path.now) }
    ensures on_success { OnOk result (AtReturn H.Host host.old host.new
        (λ u w. HasFile path.now bytes.now w)) }
    ensures fault_has_cause { FailsOnly H.Host host.old host.new
        (CanWrite path.now) (IsErrOf result HostEnd.Fault) }
    ensures needs_no_memory { IsErrOf result HostEnd.NoMemory → ⊥ }
{
    take_away(host, path)?;
    host.create(path, FILE_MODE)?;
    Ok(host.append(path, bytes)?)
}

/// Writes the `deploy`, makes a symlink with this text, and syncs. Makes the ancestors of the
/// symlink that are absent. Allocates before the first change only. Condition: see `CanPrepare`.
pub(crate) fn prepare<H: Host>(
    alloc: Global,
    host: &mut H,
    deploy: &Path,
    bytes: &[u8],
    link: &Path,
    text: &str,
) -> Result<(), HostEnd>
    requires place { link.now ≡ new_link }
    requires text { is_link_text text.now ≡ true }
    ensures any_moment { AtEachMoment H.Host host.old host.new (Prepares deploy.now text.now) }
    ensures on_success { OnOk result (AtReturn H.Host host.old host.new
        (λ u w. WasPrepared deploy.now text.now bytes.now w)) }
    ensures fault_has_cause { FailsOnly H.Host host.old host.new
        (CanPrepare deploy.now) (IsErrOf result HostEnd.Fault) }
    ensures starved_unchanged { IsErrOf result HostEnd.NoMemory → AtReturn H.Host host.old host.new
        (λ u w. w ≡ u) }
{
    make_above(alloc, host, link)?;
    write_new(host, deploy, bytes)?;
    host.symlink(text, link)?;
    Ok(host.sync()?)
}
