//! Writing objects at the paths from which they are placed.
ghost use Rattle.std.specs.Prelude.{◌≡◌, [], OnOk, IsErrOf};
ghost use Rattle.fp_host.specs.OverHost.{AtEachMoment, AtReturn, FailsOnly};
ghost use Rattle.fp_host.specs.Outcome.{Nothing};
ghost use Rattle.fp_host.specs.Frame.{Frame, Only, NoName};
ghost use Rattle.ost_model.specs.declared.object.Object.TheVariants as objects;
ghost use Rattle.fp_small.specs.Unsynced.{MakesNoFile, MakesOneFile};
ghost use Rattle.ost_store.specs.Stage.{Stages, WasStaged, Grows, CanStage, CanGrow};

use fp_host::{Host, HostEnd, Path};
use fp_small::{FILE_MODE, make_above};
use ost_model::Object;
use std::alloc::Global;

/// Writes the object to the path, and makes the missing directories above it. The file of a
/// metadata object has the permission bits 0644. Syncs nothing, so the caller has to sync before it
/// places the object. All memory is allocated before the first change. Condition: the path is
/// absent, each path above it is absent or a directory, and a file's permission bits are within
/// 0775, or a symlink's text is valid.
pub fn stage<H: Host>(
    alloc: Global,
    host: &mut H,
    tmp: &Path,
    object: &Object,
) -> Result<(), HostEnd>
    // A crash at any moment leaves at the path what some crash before would have left, or a file
    // with the object's permission bits and any bytes, or its symlink. Nothing else changes, except
    // that directories above the path may be made. Each file that existed keeps its bytes.
    ensures any_moment { AtEachMoment H.Host host.old host.new (Stages tmp.now object.now) }
    ensures on_success { OnOk result (AtReturn H.Host host.old host.new
        (WasStaged tmp.now object.now)) }
    // Nothing is synced, and at most one file is created.
    ensures unsynced { AtReturn H.Host host.old host.new MakesOneFile }
    ensures fault_has_cause { FailsOnly H.Host host.old host.new
        (CanStage tmp.now object.now) (IsErrOf result HostEnd.Fault) }
    ensures starved_unchanged { IsErrOf result HostEnd.NoMemory → AtReturn H.Host host.old host.new
        (λ u w. w ≡ u) }
{
    match object {
        Object::Meta(bytes) => stage_bytes(alloc, host, tmp, FILE_MODE, bytes.as_slice()),
        Object::File { mode, bytes } => stage_bytes(alloc, host, tmp, *mode, bytes.as_slice()),
        Object::Link(text) => stage_link(alloc, host, tmp, text.as_str()),
    }
}

/// Creates a file with these permission bits and these bytes at the path.
fn stage_bytes<H: Host>(
    alloc: Global,
    host: &mut H,
    tmp: &Path,
    mode: u32,
    bytes: &[u8],
) -> Result<(), HostEnd>
    ensures any_moment { AtEachMoment H.Host host.old host.new
        (Stages tmp.now (objects.File mode bytes.now)) }
    ensures on_success { OnOk result (AtReturn H.Host host.old host.new
        (WasStaged tmp.now (objects.File mode bytes.now))) }
    ensures unsynced { AtReturn H.Host host.old host.new MakesOneFile }
    ensures fault_has_cause { FailsOnly H.Host host.old host.new
        (CanStage tmp.now (objects.File mode bytes.now)) (IsErrOf result HostEnd.Fault) }
    ensures starved_unchanged { IsErrOf result HostEnd.NoMemory → AtReturn H.Host host.old host.new
        (λ u w. w ≡ u) }
{
    stage_file(alloc, host, tmp, mode)?;
    stage_piece(host, tmp, bytes)
}

/// Makes a symlink with this text at the path.
fn stage_link<H: Host>(alloc: Global, host: &mut H, tmp: &Path, text: &str) -> Result<(), HostEnd>
    ensures any_moment { AtEachMoment H.Host host.old host.new
        (Stages tmp.now (objects.Link text.now)) }
    ensures on_success { OnOk result (AtReturn H.Host host.old host.new
        (WasStaged tmp.now (objects.Link text.now))) }
    ensures unsynced { AtReturn H.Host host.old host.new MakesNoFile }
    ensures fault_has_cause { FailsOnly H.Host host.old host.new
        (CanStage tmp.now (objects.Link text.now)) (IsErrOf result HostEnd.Fault) }
    ensures starved_unchanged { IsErrOf result HostEnd.NoMemory → AtReturn H.Host host.old host.new
        (λ u w. w ≡ u) }
{
    make_above(alloc, host, tmp)?;
    Ok(host.symlink(text, tmp)?)
}

/// Creates an empty file with these permission bits at the path, for content that comes in pieces,
/// and makes the missing directories above it. Syncs nothing. All memory is allocated before the
/// first change. Condition: the path is absent, each path above it is absent or a directory, and
/// the permission bits are within 0775.
pub fn stage_file<H: Host>(
    alloc: Global,
    host: &mut H,
    tmp: &Path,
    mode: u32,
) -> Result<(), HostEnd>
    ensures any_moment { AtEachMoment H.Host host.old host.new
        (Stages tmp.now (objects.File mode [])) }
    ensures on_success { OnOk result (AtReturn H.Host host.old host.new
        (WasStaged tmp.now (objects.File mode []))) }
    // Nothing is synced, and at most one file is created.
    ensures unsynced { AtReturn H.Host host.old host.new MakesOneFile }
    ensures fault_has_cause { FailsOnly H.Host host.old host.new
        (CanStage tmp.now (objects.File mode [])) (IsErrOf result HostEnd.Fault) }
    ensures starved_unchanged { IsErrOf result HostEnd.NoMemory → AtReturn H.Host host.old host.new
        (λ u w. w ≡ u) }
{
    make_above(alloc, host, tmp)?;
    Ok(host.create(tmp, mode)?)
}

/// Appends a piece to the file. Needs no memory. Condition: the file was created since the last
/// sync.
pub fn stage_piece<H: Host>(host: &mut H, tmp: &Path, piece: &[u8]) -> Result<(), HostEnd>
    // No name changes, and no other file.
    ensures frame { Frame Nothing NoName (Only tmp.now) (H.moments host.old) (H.moments host.new) }
    ensures on_success { OnOk result (AtReturn H.Host host.old host.new (Grows tmp.now piece.now)) }
    ensures unsynced { AtReturn H.Host host.old host.new MakesNoFile }
    ensures fault_has_cause { FailsOnly H.Host host.old host.new
        (CanGrow tmp.now) (IsErrOf result HostEnd.Fault) }
    ensures needs_no_memory { IsErrOf result HostEnd.NoMemory → ⊥ }
{
    Ok(host.append(tmp, piece)?)
}
