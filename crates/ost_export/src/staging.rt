//! Staging the objects that a store lacks in the work directory.
ghost use Rattle.std.specs.Prelude.{◌≡◌, ◌∷◌, ◌++◌, [], true, false, Bool, Some, None, IfOk, OnOk, IsErrOf};
ghost use Rattle.std.specs.List.{AllByRecursion};
ghost use Rattle.fp_host.specs.OverHost.{AtEachMoment, AtReturn, ChangesNothing, FailsAlone, FailsOnly};
ghost use Rattle.fp_name.specs.Hex.{is_digest};
ghost use Rattle.ost_model.specs.Objects.{Have, object_path, name_fault};
ghost use Rattle.ost_store.specs.Stage.{CanStage, Stages, WasStaged};
ghost use Rattle.ost_commit.specs.Objects.{have_of};
ghost use Rattle.ost_store.specs.ObjectNames.{AreOpen};
ghost use Rattle.ost_export.specs.Staging.{AreWhole, CanStageAll, CanStageOne, IsAbsentSaid, IsApart, IsIn, IsLacking, StagesOne, StagesSome, Works, name_of};

use fp_base::ObjKind;
use fp_host::{Host, HostEnd, Path, Stat};
use fp_name::Digest;
use ost_commit::BuiltObject;
use ost_store::{path_of, stage};
use std::alloc::Global;

/// Returns whether nothing is at the path.
fn is_absent<H: Host>(host: &mut H, path: &Path) -> Result<bool, HostEnd>
    ensures unchanged { ChangesNothing H.Host host.old host.new }
    ensures tells { IfOk result (λ none. AtReturn H.Host host.old host.new
        (λ u w. IsAbsentSaid path.now u none)) }
    ensures fault_has_cause { FailsAlone H.Host host.old host.new (IsErrOf result HostEnd.Fault) }
{
    match host.stat(path)? {
        Stat::Absent => Ok(true),
        _ => Ok(false),
    }
}

/// Returns whether nothing is at the object's path in the store, nor in the work directory.
fn is_lacking<H: Host>(
    alloc: Global,
    host: &mut H,
    root: &Path,
    work: &Path,
    digest: &Digest,
    kind: ObjKind,
) -> Result<bool, HostEnd>
    ensures unchanged { ChangesNothing H.Host host.old host.new }
    ensures tells { IfOk result
        (λ lacks. AtReturn H.Host host.old host.new
        (λ u w. IsLacking root.now work.now (digest.now, kind) u lacks)) }
    ensures fault_has_cause { FailsAlone H.Host host.old host.new (IsErrOf result HostEnd.Fault) }
{
    let name = path_of(alloc, root, digest, kind)?;
    let place = path_of(alloc, work, digest, kind)?;
    let none = is_absent(host, &name)?;
    if none {
        is_absent(host, &place)
    } else {
        Ok(false)
    }
}

/// Stages the object in the work directory, and appends it to the list.
fn stage_object<H: Host>(
    alloc: Global,
    host: &mut H,
    work: &Path,
    object: &BuiltObject,
    staged: &mut Vec<(Digest, ObjKind)>,
) -> Result<(), HostEnd>
    ensures any_moment { AtEachMoment H.Host host.old host.new
        (Stages (object_path work.now object.now.digest object.now.kind) object.now.object) }
    ensures on_success { OnOk result
        ((staged.new.items ≡ staged.old.items ++ name_of object.now ∷ []) × AtReturn H.Host host.old host.new
        (WasStaged (object_path work.now object.now.digest object.now.kind) object.now.object)) }
    ensures digits { is_digest object.now.digest ≡ true }
    ensures fault_has_cause { FailsOnly H.Host host.old host.new
        (CanStage (object_path work.now object.now.digest object.now.kind) object.now.object) (IsErrOf result HostEnd.Fault) }
{
    let _bytes = object.digest.as_bytes();
    let path = path_of(alloc, work, &object.digest, object.kind)?;
    stage(alloc, host, &path, &object.object)?;
    match staged.push((object.digest, object.kind)) {
        Ok(()) => Ok(()),
        Err(_) => Err(HostEnd::NoMemory),
    }
}

/// Stages the object, unless something is at its path in the store or in the work directory.
fn stage_lacking<H: Host>(
    alloc: Global,
    host: &mut H,
    root: &Path,
    work: &Path,
    object: &BuiltObject,
    staged: &mut Vec<(Digest, ObjKind)>,
) -> Result<(), HostEnd>
    ensures any_moment { AtEachMoment H.Host host.old host.new (Works work.now) }
    ensures on_success { OnOk result ((have : Have) → IsIn have object.now
        → AtReturn H.Host host.old host.new (StagesOne have root.now work.now
        (name_of object.now) staged.old.items staged.new.items)) }
    ensures digits { is_digest object.now.digest ≡ true }
    ensures fault_has_cause { FailsOnly H.Host host.old host.new
        (CanStageOne work.now object.now.object) (IsErrOf result HostEnd.Fault) }
{
    let _bytes = object.digest.as_bytes();
    let lacks = is_lacking(alloc, host, root, work, &object.digest, object.kind)?;
    if lacks {
        stage_object(alloc, host, work, object, staged)
    } else {
        Ok(())
    }
}

/// Stages each of these objects that has nothing at its path in the store, at its path in the work
/// directory. Returns the staged objects. Syncs nothing. The work directory must be one of
/// `repo/tmp/new0`, `repo/tmp/new1` and so on, and nothing should be there; the store must be
/// neither `repo/tmp` nor below it.
pub(crate) fn stage_all<H: Host>(
    alloc: Global,
    host: &mut H,
    root: &Path,
    work: &Path,
    objects: &[BuiltObject],
) -> Result<Vec<(Digest, ObjKind)>, HostEnd>
    requires apart { IsApart root.now work.now }
    requires whole { AreWhole objects.now }
    ensures any_moment { AtEachMoment H.Host host.old host.new (Works work.now) }
    ensures on_success { IfOk result (λ staged. AtReturn H.Host host.old host.new
        (StagesSome (have_of objects.now) root.now work.now objects.now staged.items)) }
    ensures fault_has_cause { FailsOnly H.Host host.old host.new
        (CanStageAll work.now objects.now) (IsErrOf result HostEnd.Fault) }
{
    let mut staged = Vec::new(alloc);
    for object in objects {
        stage_lacking(alloc, host, root, work, object, &mut staged)?;
    }
    Ok(staged)
}
