//! Clearing the directories of commits that aren't kept.
ghost use Rattle.std.specs.Prelude.{◌≡◌, ◌∷◌, [], true, OnOk, IsErrOf};
ghost use Rattle.fp_host.specs.OverHost.{AtReturn, FailsOnly};
ghost use Rattle.fp_host.specs.Frame.{Frame, NoPath};
ghost use Rattle.fp_name.specs.Refs.{is_ref};
ghost use Rattle.dep_states.specs.Names.{branch_dir};
ghost use Rattle.dep_states.specs.Sound.{Opens};
ghost use Rattle.dep_tidy.specs.Steps.{UnkeptGone, UnkeptAbsent, HasNoUnkept, HasNoneIn, HasNoneOf};

use crate::rows::is_kept;
use dep_states::{branch_paths, ref_at};
use fp_base::Text;
use fp_host::{Host, HostEnd, Path};
use fp_name::{Digest, RefName};
use fp_small::{State, clear, names_in};
use std::alloc::Global;

/// Clears the path with this name in the ref's branch directory, if the name is that of a commit
/// that the state doesn't keep. Other names stay.
fn clear_name<H: Host>(
    alloc: Global,
    host: &mut H,
    state: &State,
    name: &RefName,
    folder: &Path,
    text: &Text,
) -> Result<(), HostEnd>
    requires folder { folder.now ≡ branch_dir name.now }
    requires good { is_ref name.now ≡ true }
    ensures frame { Frame (UnkeptGone state.now) (UnkeptAbsent state.now) NoPath
        (H.moments host.old) (H.moments host.new) }
    ensures on_success { OnOk result (AtReturn H.Host host.old host.new
        (λ u w. HasNoneOf state.now name.now (text.now ∷ []) w)) }
    ensures fault_has_cause { FailsOnly H.Host host.old host.new
        (Opens state.now) (IsErrOf result HostEnd.Fault) }
{
    let Ok(commit) = Digest::parse(text.as_str().as_bytes()) else {
        return Ok(());
    };
    if is_kept(state, name, &commit) {
        return Ok(());
    }
    let path = folder.child(text.as_str())?;
    clear(alloc, host, &path)
}

/// Clears each commit's directory in the ref's branch directory, unless the state keeps the commit.
fn clear_ref<H: Host>(
    alloc: Global,
    host: &mut H,
    state: &State,
    name: &RefName,
    folder: &Path,
) -> Result<(), HostEnd>
    requires folder { folder.now ≡ branch_dir name.now }
    requires good { is_ref name.now ≡ true }
    ensures frame { Frame (UnkeptGone state.now) (UnkeptAbsent state.now) NoPath
        (H.moments host.old) (H.moments host.new) }
    ensures on_success { OnOk result (AtReturn H.Host host.old host.new
        (λ u w. HasNoneIn state.now (folder.now ∷ []) w)) }
    ensures fault_has_cause { FailsOnly H.Host host.old host.new
        (Opens state.now) (IsErrOf result HostEnd.Fault) }
{
    let names = names_in(alloc, host, folder)?;
    for text in names.as_slice() {
        clear_name(alloc, host, state, name, folder, text)?;
    }
    Ok(())
}

/// Clears each commit's directory that is directly below this path, unless the state keeps the
/// commit. Does nothing if the path isn't that of a ref's branch directory.
fn clear_branch<H: Host>(
    alloc: Global,
    host: &mut H,
    state: &State,
    path: &Path,
) -> Result<(), HostEnd>
    ensures frame { Frame (UnkeptGone state.now) (UnkeptAbsent state.now) NoPath
        (H.moments host.old) (H.moments host.new) }
    ensures on_success { OnOk result (AtReturn H.Host host.old host.new
        (λ u w. HasNoneIn state.now (path.now ∷ []) w)) }
    ensures fault_has_cause { FailsOnly H.Host host.old host.new
        (Opens state.now) (IsErrOf result HostEnd.Fault) }
{
    match ref_at(alloc, path)? {
        None => Ok(()),
        Some(name) => clear_ref(alloc, host, state, &name, path),
    }
}

/// Clears each directory of a commit that the state doesn't keep, in every branch directory, even
/// those of refs that the state doesn't have.
pub(crate) fn clear_folders<H: Host>(
    alloc: Global,
    host: &mut H,
    state: &State,
) -> Result<(), HostEnd>
    ensures frame { Frame (UnkeptGone state.now) (UnkeptAbsent state.now) NoPath
        (H.moments host.old) (H.moments host.new) }
    ensures on_success { OnOk result (AtReturn H.Host host.old host.new
        (λ u w. HasNoUnkept state.now w)) }
    ensures fault_has_cause { FailsOnly H.Host host.old host.new
        (Opens state.now) (IsErrOf result HostEnd.Fault) }
{
    let paths = branch_paths(alloc, host)?;
    for path in paths.as_slice() {
        clear_branch(alloc, host, state, path)?;
    }
    Ok(())
}
