//! Copying a file or a symlink of the remote to the work directory.
ghost use Rattle.std.specs.Prelude.{◌≡◌, ◌<◌, length, Some, IfOk, OnOk, IsErrOf};
ghost use Rattle.fp_base.specs.declared.object.ObjKind.TheVariants as kinds;
ghost use Rattle.fp_host.specs.OverHost.{AtEachMoment, AtReturn, FailsOnly};
ghost use Rattle.fp_host.specs.Remote.{Holdings};
ghost use Rattle.ost_model.specs.declared.object.Object.TheVariants as objects;
ghost use Rattle.ost_store.specs.Stage.{CanStage, Stages, WasStaged};
ghost use Rattle.ost_walk.specs.Ends.{EndsBy, IsRemotes, NoFault};
ghost use Rattle.ost_walk.specs.declared.ends.WalkFault.{WalkFault};
ghost use Rattle.ost_head.specs.Contents.{IsGoodLink, IsWithinLimits};
ghost use Rattle.ost_head.specs.Brings.{CanBring, Comes, IsBrought, IsCorruptAs, JudgesRemote, RemoteHasFile};
ghost use Rattle.ost_head.specs.Copies.{IsCopiedAnew};

use crate::content::{Content, remote_content};
use crate::copying::copy_file;
use crate::limits::refused;
use fp_base::{ObjKind, Text};
use fp_host::{Host, PIECE_BYTES, Path, Remotes};
use fp_name::Digest;
use ost_model::Object;
use ost_store::{path_of, stage, stage_file};
use ost_walk::{ObjectFault, WalkEnd};
use std::alloc::Global;

/// Creates a file with these permission bits at `to`, copies the remote's file of `size` bytes to
/// it, and returns the digest of the copy. Condition: nothing is at `to`, and each path above it is
/// absent or a directory.
fn copy_anew<H: Host, R: Remotes>(
    alloc: Global,
    host: &mut H,
    remotes: &mut R,
    url: &str,
    from: &Path,
    to: &Path,
    mode: u32,
    size: u64,
    buffer: &mut [u8],
) -> Result<Digest, WalkEnd>
    requires limits { IsWithinLimits mode size }
    requires room { 0 < length buffer.old }
    ensures any_moment { AtEachMoment H.Host host.old host.new (Comes to.now) }
    ensures same { R.holds remotes.new ≡ R.holds remotes.old }
    ensures copies { IfOk result (IsCopiedAnew to.now from.now url.now (R.holds remotes.old) mode
        size (H.moments host.old) (H.moments host.new)) }
    ensures refuses { (w : WalkFault) → IsErrOf result (WalkEnd.Refused w) → ⊥ }
    ensures fault_has_cause { FailsOnly H.Host host.old host.new
        (CanBring to.now) (IsErrOf result WalkEnd.HostFault) }
    ensures remote_fault_has_cause { IsRemotes (IsErrOf result WalkEnd.RemoteFault)
        (R.faults remotes.old) (R.faults remotes.new) }
{
    stage_file(alloc, host, to, mode)?;
    copy_file(host, remotes, url, from, to, mode, size, buffer)
}

/// Checks that the computed digest `got` of a file is the one in its name. `Refused` with `Corrupt`
/// if it isn't.
fn check_digest(digest: &Digest, got: &Digest) -> Result<(), WalkEnd>
    ensures tells { EndsBy (λ _. got.now ≡ digest.now) (IsCorruptAs digest.now got.now) result }
    ensures faults { NoFault result }
{
    if *got == *digest {
        Ok(())
    } else {
        Err(refused(digest, ObjectFault::Corrupt(*got)))
    }
}

/// Creates a file with these permission bits at `to`, and copies the remote's file of `size` bytes
/// to it, piece by piece. `Refused` with `Corrupt` if the copy doesn't match its digest; the copy
/// stays. Condition: nothing is at `to`, and each path above it is absent or a directory.
fn bring_file<H: Host, R: Remotes>(
    alloc: Global,
    host: &mut H,
    remotes: &mut R,
    url: &str,
    digest: &Digest,
    to: &Path,
    mode: u32,
    size: u64,
) -> Result<(), WalkEnd>
    requires limits { IsWithinLimits mode size }
    requires there { RemoteHasFile url.now (R.holds remotes.old) digest.now mode size }
    ensures any_moment { AtEachMoment H.Host host.old host.new (Comes to.now) }
    ensures same { R.holds remotes.new ≡ R.holds remotes.old }
    ensures on_success { OnOk result (IsBrought to.now url.now (R.holds remotes.old) digest.now
        (H.moments host.old) (H.moments host.new)) }
    ensures tells { (held : Holdings) → R.holds remotes.old ≡ Some held
        → JudgesRemote held url.now digest.now result }
    ensures fault_has_cause { FailsOnly H.Host host.old host.new
        (CanBring to.now) (IsErrOf result WalkEnd.HostFault) }
    ensures remote_fault_has_cause { IsRemotes (IsErrOf result WalkEnd.RemoteFault)
        (R.faults remotes.old) (R.faults remotes.new) }
{
    let from = path_of(alloc, &Path::root(alloc), digest, ObjKind::File)?;
    let mut buffer = vec![in alloc; 0u8; PIECE_BYTES]?;
    let got = copy_anew(
        alloc,
        host,
        remotes,
        url,
        &from,
        to,
        mode,
        size,
        &mut buffer,
    )?;
    check_digest(digest, &got)
}

/// Creates the symlink with this text at `to`. Condition: nothing is at `to`, each path above it is
/// absent or a directory, and the text is valid.
fn bring_link<H: Host>(alloc: Global, host: &mut H, to: &Path, text: Text) -> Result<(), WalkEnd>
    ensures any_moment { AtEachMoment H.Host host.old host.new (Stages to.now (objects.Link text)) }
    ensures on_success { OnOk result (AtReturn H.Host host.old host.new
        (WasStaged to.now (objects.Link text))) }
    ensures refuses { (w : WalkFault) → IsErrOf result (WalkEnd.Refused w) → ⊥ }
    ensures fault_has_cause { FailsOnly H.Host host.old host.new
        (CanStage to.now (objects.Link text)) (IsErrOf result WalkEnd.HostFault) }
    ensures remote { IsErrOf result WalkEnd.RemoteFault → ⊥ }
{
    let link = Object::Link(text);
    stage(alloc, host, to, &link)?;
    Ok(())
}

/// Copies a file or a symlink of the remote at `url` to `to`, and checks it. Makes the missing
/// directories above `to`. Reads a file piece by piece. Syncs nothing. `Refused` with the object's
/// fault; a copy that doesn't match its digest stays at `to`. Condition: nothing is at `to`, and
/// each path above it is absent or a directory.
pub fn bring<H: Host, R: Remotes>(
    alloc: Global,
    host: &mut H,
    remotes: &mut R,
    url: &str,
    digest: &Digest,
    to: &Path,
) -> Result<(), WalkEnd>
    ensures any_moment { AtEachMoment H.Host host.old host.new (Comes to.now) }
    ensures same { R.holds remotes.new ≡ R.holds remotes.old }
    ensures on_success { OnOk result (IsBrought to.now url.now (R.holds remotes.old) digest.now
        (H.moments host.old) (H.moments host.new)) }
    ensures tells { (held : Holdings) → R.holds remotes.old ≡ Some held
        → JudgesRemote held url.now digest.now result }
    ensures fault_has_cause { FailsOnly H.Host host.old host.new
        (CanBring to.now) (IsErrOf result WalkEnd.HostFault) }
    ensures remote_fault_has_cause { IsRemotes (IsErrOf result WalkEnd.RemoteFault)
        (R.faults remotes.old) (R.faults remotes.new) }
{
    match remote_content(alloc, remotes, url, digest) {
        Ok(Content::Link(text)) => bring_link(alloc, host, to, text),
        Ok(Content::File { mode, size }) => {
            bring_file(alloc, host, remotes, url, digest, to, mode, size)
        }
        Err(end) => Err(end),
    }
}
