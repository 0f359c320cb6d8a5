//! The rest of a store besides objects and refs: `config`, and the directory of its remotes' refs.
ghost use Rattle.std.specs.Prelude.{◌≡◌, IfOk, OnOk, IsErrOf};
ghost use Rattle.fp_host.specs.OverHost.{AtEachMoment, AtReturn, FailsOnly};
ghost use Rattle.fp_host.specs.Paths.{absent, dir};
ghost use Rattle.fp_host.specs.Frame.{Frame, NoPath};
ghost use Rattle.fp_small.specs.Folders.{ancestors, AreFree, DirsAt, FoldersAt};
ghost use Rattle.fp_small.specs.Replace.{CanReplace, Replaces, WasReplaced};
ghost use Rattle.ost_refs.specs.Places.{remotes};
ghost use Rattle.ost_export.specs.Exports.{a_remote, config_path, config_text};

use fp_host::{Host, HostEnd, Path, Stat};
use fp_small::{make_above, replace};
use ost_model::STORE_CONFIG;
use std::alloc::{AllocError, Global};

/// Returns the path of `config`.
fn config_path(root: &Path) -> Result<Path, AllocError>
    ensures { IfOk result (λ path. path ≡ config_path root.now) }
{
    root.child("config")
}

/// Returns the content of `config`.
fn config_bytes(alloc: Global) -> Result<Vec<u8>, AllocError>
    ensures { IfOk result (λ bytes. bytes.items ≡ config_text) }
{
    Vec::from_slice(alloc, STORE_CONFIG.as_bytes())
}

/// Returns the path of the directory of the remotes' refs, and a path in it.
fn remotes_paths(root: &Path) -> Result<(Path, Path), AllocError>
    ensures { IfOk result (λ paths. (paths.0 ≡ remotes root.now) × (paths.1 ≡ a_remote root.now)) }
{
    let folder = root.child("refs")?.child("remotes")?;
    let below = folder.child("x")?;
    Ok((folder, below))
}

/// Replaces `config`, and syncs.
pub(crate) fn write_config<H: Host>(alloc: Global, host: &mut H, root: &Path) -> Result<(), HostEnd>
    ensures any_moment { AtEachMoment H.Host host.old host.new
        (Replaces (config_path root.now) config_text) }
    ensures on_success { OnOk result (AtReturn H.Host host.old host.new
        (WasReplaced (config_path root.now) config_text)) }
    ensures fault_has_cause { FailsOnly H.Host host.old host.new
        (CanReplace (config_path root.now)) (IsErrOf result HostEnd.Fault) }
{
    let path = config_path(root)?;
    let bytes = config_bytes(alloc)?;
    replace(alloc, host, &path, &bytes)
}

/// Makes the directory `refs/remotes` and the missing directories above it. Does nothing if
/// anything is at that path. OSTree's own tools need it.
pub(crate) fn make_remotes<H: Host>(alloc: Global, host: &mut H, root: &Path) -> Result<(), HostEnd>
    ensures frame { Frame (FoldersAt (ancestors (a_remote root.now)))
        (DirsAt (ancestors (a_remote root.now))) NoPath
        (H.moments host.old) (H.moments host.new) }
    ensures on_success { OnOk result (AtReturn H.Host host.old host.new
        (λ u w. AreFree (ancestors (a_remote root.now)) u
        → u.names (remotes root.now) ≡ absent → w.names (remotes root.now) ≡ dir)) }
    ensures fault_has_cause { FailsOnly H.Host host.old host.new
        (λ v. v.names (remotes root.now) ≡ absent → AreFree (ancestors (a_remote root.now)) v) (IsErrOf result HostEnd.Fault) }
{
    let (folder, below) = remotes_paths(root)?;
    match host.stat(&folder)? {
        Stat::Absent => make_above(alloc, host, &below),
        _ => Ok(()),
    }
}
