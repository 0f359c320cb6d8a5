//! Atomic replacement of a small file.
ghost use Rattle.std.specs.Prelude.{◌≡◌, ◌↔◌, ◌≢◌, ℕ, List, ◌∷◌, [], OnOk, IfOk, IsTrue, IsErrOf, Contains, string_bytes};
ghost use Rattle.fp_host.specs.OverHost.{AtEachMoment, AtReturn, ChangesNothing, FailsAlone, FailsOnly};
ghost use Rattle.fp_host.specs.Paths.{Elements, absent, dir, is_element};
ghost use Rattle.fp_host.specs.View.{View};
ghost use Rattle.fp_host.specs.Calls.{HasFolder};
ghost use Rattle.fp_host.specs.Frame.{Frame, AnyAt, AnyHeld, Only, NoPath};
ghost use Rattle.fp_small.specs.Places.{tmp, new_name, IsWorkName};
ghost use Rattle.fp_small.specs.Files.{SameFiles, MakesOneAtMost, MakesFile};
ghost use Rattle.fp_small.specs.Unsynced.{MakesNoFile};
ghost use Rattle.fp_small.specs.Folders.{ancestors, FolderAt, DirAt, FoldersAt, DirsAt, IsFree, AreFree, AreDirs, IsLadder};
ghost use Rattle.fp_small.specs.Stage.{WasStaged, CanStage};
ghost use Rattle.fp_small.specs.Move.{Moves, WasMoved, CanMove};
ghost use Rattle.fp_small.specs.Naming.{IsFirstFree};
ghost use Rattle.fp_small.specs.Replace.{folders_of, IsStaging, Replaces, WasReplaced, CanReplace};

use crate::limits::FILE_MODE;
use crate::places::tmp_path;
use crate::walking::names_in;
use fp_base::Text;
use fp_host::{Host, HostEnd, Path, Stat};
use std::alloc::{AllocError, Global};

/// Makes the directory if the path is absent. Does nothing if anything is there.
fn make_folder<H: Host>(host: &mut H, path: &Path) -> Result<(), HostEnd>
    ensures frame { Frame (FolderAt path.now) (DirAt path.now) NoPath
        (H.moments host.old) (H.moments host.new) }
    ensures on_success { OnOk result (AtReturn H.Host host.old host.new
        (λ u w. IsFree u path.now → w.names path.now ≡ dir)) }
    ensures unsynced { AtReturn H.Host host.old host.new MakesNoFile }
    ensures fault_has_cause { FailsOnly H.Host host.old host.new
        (λ v. v.names path.now ≡ absent → HasFolder v path.now) (IsErrOf result HostEnd.Fault) }
    ensures needs_no_memory { IsErrOf result HostEnd.NoMemory → ⊥ }
{
    match host.stat(path)? {
        Stat::Absent => {
            host.make_dir(path)?;
            Ok(())
        }
        _ => Ok(()),
    }
}

/// Makes the missing directories, in this order. Does nothing for paths at which anything is.
pub(crate) fn make_folders<H: Host>(host: &mut H, paths: &[Path]) -> Result<(), HostEnd>
    ensures frame { Frame (FoldersAt paths.now) (DirsAt paths.now) NoPath
        (H.moments host.old) (H.moments host.new) }
    ensures on_success { OnOk result (AtReturn H.Host host.old host.new
        (λ u w. AreFree paths.now u → AreDirs paths.now w)) }
    ensures unsynced { AtReturn H.Host host.old host.new MakesNoFile }
    ensures fault_has_cause { FailsOnly H.Host host.old host.new
        (λ v. IsLadder paths.now × AreFree paths.now v) (IsErrOf result HostEnd.Fault) }
    ensures needs_no_memory { IsErrOf result HostEnd.NoMemory → ⊥ }
{
    for path in paths {
        make_folder(host, path)?;
    }
    Ok(())
}

/// Creates a file with these bytes and the permission bits 0644, and syncs.
fn stage<H: Host>(host: &mut H, path: &Path, bytes: &[u8]) -> Result<(), HostEnd>
    ensures frame { Frame (AnyAt path.now) (AnyHeld path.now) (Only path.now)
        (H.moments host.old) (H.moments host.new) }
    ensures on_success { OnOk result (AtReturn H.Host host.old host.new
        (WasStaged path.now bytes.now)) }
    ensures made { OnOk result (AtReturn H.Host host.old host.new (MakesFile path.now bytes.now)) }
    ensures one { AtReturn H.Host host.old host.new MakesOneAtMost }
    ensures fault_has_cause { FailsOnly H.Host host.old host.new
        (CanStage path.now) (IsErrOf result HostEnd.Fault) }
    ensures needs_no_memory { IsErrOf result HostEnd.NoMemory → ⊥ }
{
    host.create(path, FILE_MODE)?;
    host.append(path, bytes)?;
    Ok(host.sync()?)
}

/// Renames a synced file to its final path, and syncs.
fn move_onto<H: Host>(host: &mut H, from: &Path, to: &Path) -> Result<(), HostEnd>
    ensures any_moment { AtEachMoment H.Host host.old host.new (Moves from.now to.now) }
    ensures on_success { OnOk result (AtReturn H.Host host.old host.new
        (WasMoved from.now to.now)) }
    ensures files { AtReturn H.Host host.old host.new SameFiles }
    ensures fault_has_cause { FailsOnly H.Host host.old host.new
        (CanMove from.now to.now) (IsErrOf result HostEnd.Fault) }
    ensures needs_no_memory { IsErrOf result HostEnd.NoMemory → ⊥ }
{
    host.rename(from, to)?;
    host.sync()?;
    Ok(())
}

/// Returns whether the name is in the list.
fn has_name(names: &[Text], name: &str) -> bool
    ensures { IsTrue result ↔ Contains names.now name.now }
{
    for text in names {
        if text.as_str() == name {
            return true;
        }
    }
    false
}

/// Returns the first of the names `new0`, `new1` and so on that isn't in the list.
fn free_name(alloc: Global, names: &[Text]) -> Result<String, AllocError>
    ensures first { IfOk result (λ name. IsFirstFree names.now (string_bytes name)) }
    ensures element { IfOk result (λ name. IsTrue (is_element (string_bytes name))) }
{
    let most = names.len();
    let mut k: usize = 0;
    loop {
        let name = format!(in alloc; "new{k}")?;
        if !has_name(names, &name) {
            return Ok(name);
        }
        if k == most {
            unreachable!();
        }
        k += 1;
    }
}

/// Returns the path at which a new file is staged: the first of `repo/tmp/new0`, `repo/tmp/new1`
/// and so on that is absent. Changes nothing.
pub fn staging_place<H: Host>(alloc: Global, host: &mut H) -> Result<Path, HostEnd>
    ensures unchanged { ChangesNothing H.Host host.old host.new }
    ensures tells { IfOk result (λ place. AtReturn H.Host host.old host.new
        (λ u w. IsStaging u place)) }
    ensures name { IfOk result IsWorkName }
    ensures fault_has_cause { FailsAlone H.Host host.old host.new (IsErrOf result HostEnd.Fault) }
{
    let folder = tmp_path(alloc)?;
    let names = names_in(alloc, host, &folder)?;
    let name = free_name(alloc, names.as_slice())?;
    Ok(folder.child(&name)?)
}

/// Returns the ancestors of a path without the root, the outermost first.
pub(crate) fn ancestors(alloc: Global, path: &Path) -> Result<Vec<Path>, AllocError>
    ensures { IfOk result (λ folders. folders.items ≡ ancestors path.now) }
{
    let mut folders = Vec::new(alloc);
    let mut up = path.len();
    while up > 1 {
        up -= 1;
        folders.push(path.folder(up)?)?;
    }
    Ok(folders)
}

/// Returns the directories that a replacement needs: the ancestors of the path, `repo` and
/// `repo/tmp`.
fn folders_of(alloc: Global, path: &Path) -> Result<Vec<Path>, AllocError>
    ensures { IfOk result (λ folders. folders.items ≡ folders_of path.now) }
{
    let mut folders = ancestors(alloc, path)?;
    folders.push(Path::root(alloc).child("repo")?)?;
    folders.push(tmp_path(alloc)?)?;
    Ok(folders)
}

/// Replaces the file at the path, or creates it, with these bytes and the permission bits 0644.
/// Makes the missing directories among its ancestors, `repo` and `repo/tmp`; writes the new file at
/// the first free path of `repo/tmp/new0`, `repo/tmp/new1` and so on; syncs; renames it onto the
/// path; and syncs again. Allocates only before the first change. If it errs, the new file may be
/// left in `repo/tmp`.
pub fn replace<H: Host>(
    alloc: Global,
    host: &mut H,
    path: &Path,
    bytes: &[u8],
) -> Result<(), HostEnd>
    // A crash at any moment leaves at the path what a crash before the call could have left, or the
    // whole new file.
    ensures any_moment { AtEachMoment H.Host host.old host.new (Replaces path.now bytes.now) }
    // After success every crash leaves the new file, and no other file was created.
    ensures on_success { OnOk result (AtReturn H.Host host.old host.new
        (WasReplaced path.now bytes.now)) }
    // At most one file was created, also if the call fails.
    ensures one { AtReturn H.Host host.old host.new MakesOneAtMost }
    ensures fault_has_cause { FailsOnly H.Host host.old host.new
        (CanReplace path.now) (IsErrOf result HostEnd.Fault) }
    ensures starved_unchanged { IsErrOf result HostEnd.NoMemory → AtReturn H.Host host.old host.new
        (λ u w. w ≡ u) }
{
    let folders = folders_of(alloc, path)?;
    let place = staging_place(alloc, host)?;
    make_folders(host, &folders)?;
    stage(host, &place, bytes)?;
    move_onto(host, &place, path)
}
