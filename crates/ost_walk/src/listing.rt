//! Listing the objects of one directory in order.
ghost use Rattle.std.specs.Prelude.{◌≡◌, ◌≤◌, ◌+◌, ◌++◌, ◌∷◌, [], map, length, None, OnOk, IsErrOf};
ghost use Rattle.fp_base.specs.declared.object.ObjKind.TheVariants as kinds;
ghost use Rattle.ost_model.specs.declared.limits.TheConstants.{MOST_OBJECTS};
ghost use Rattle.ost_model.specs.Objects.{Have};
ghost use Rattle.ost_model.specs.Order.{file_places};
ghost use Rattle.ost_object.specs.Views.{file_row, tree_view};
ghost use Rattle.ost_walk.specs.Ends.{EndsBy, IsLimit, NoFault};
ghost use Rattle.ost_walk.specs.Steps.{AreListed, IsOpened, heads_of, limit_of};
ghost use Rattle.ost_walk.specs.Surveys.{StopsAmong, WalksDir};
ghost use Rattle.ost_walk.specs.declared.ends.WalkFault.{WalkFault};

use crate::dirs::{Dir, add_dirs};
use crate::ends::{WalkEnd, refused};
use crate::limits::limit_of;
use fp_base::ObjKind;
use fp_name::Digest;
use ost_object::{DirTree, FileEntry};
use std::alloc::AllocError;

/// Adds a file of a directory at this depth to the order. `Refused` if it exceeds a limit; then
/// nothing is added.
#[tactic(auto, using(crate::proofs::Listed::limit_low))]
fn add_file(digest: &Digest, depth: u32, done: &mut Vec<(Digest, ObjKind)>) -> Result<(), WalkEnd>
    ensures tells { EndsBy (λ _. limit_of (length done.old.items) depth ≡ None)
        (λ w. IsLimit digest.now kinds.File (limit_of (length done.old.items) depth) w) result }
    ensures refused_unchanged { (w : WalkFault) → IsErrOf result (WalkEnd.Refused w)
        → done.new.items ≡ done.old.items }
    ensures on_success { OnOk result (done.new.items ≡ done.old.items ++ (digest.now, kinds.File) ∷
        []) }
    ensures most { OnOk result (length done.new.items ≤ MOST_OBJECTS) }
    ensures faults { NoFault result }
{
    if let Some(fault) = limit_of(done.len(), depth) {
        return Err(refused(digest, ObjKind::File, fault));
    }
    done.push((*digest, ObjKind::File))?;
    Ok(())
}

/// Adds the files of a directory at this depth to the order. `Refused` with the first of them that
/// exceeds a limit.
fn add_files(
    files: &[FileEntry],
    depth: u32,
    done: &mut Vec<(Digest, ObjKind)>,
) -> Result<(), WalkEnd>
    ensures tells { (have : Have) → EndsBy (λ _. AreListed have depth (map file_row files.now)
        done.old.items done.new.items)
        (StopsAmong have (length done.old.items) (file_places depth (map file_row files.now))
        done.old.items done.new.items) result }
    ensures more { OnOk result (length done.old.items ≤ length done.new.items) }
    ensures most { length done.old.items ≤ MOST_OBJECTS
        → OnOk result (length done.new.items ≤ MOST_OBJECTS) }
    ensures faults { NoFault result }
{
    for file in files {
        match add_file(&file.digest, depth, done) {
            Ok(()) => {}
            Err(end) => return Err(end),
        }
    }
    Ok(())
}

/// Adds the dirtree and the dirmeta of a directory to the order.
fn add_heads(dir: &Dir, done: &mut Vec<(Digest, ObjKind)>) -> Result<(), AllocError>
    ensures { OnOk result (done.new.items ≡ done.old.items ++ heads_of dir.now) }
{
    done.push((dir.tree, ObjKind::DirTree))?;
    done.push((dir.meta, ObjKind::DirMeta))?;
    Ok(())
}

/// Adds the objects of a directory to the order: its dirtree and its dirmeta, which must have been
/// checked, and its files. Adds its directories to the work list. `Refused` with the first file
/// that exceeds a limit.
pub(crate) fn list_dir(
    tree: &DirTree,
    dir: &Dir,
    done: &mut Vec<(Digest, ObjKind)>,
    left: &mut Vec<Dir>,
) -> Result<(), WalkEnd>
    requires { limit_of (length done.old.items + 1) dir.now.depth ≡ None }
    ensures tells { (have : Have) → IsOpened have (length done.old.items) dir.now
        (tree_view tree.now)
        → WalksDir have dir.now done.old.items done.new.items left.old.items left.new.items
        result }
    ensures more { OnOk result (length done.old.items + 2 ≤ length done.new.items) }
    ensures most { OnOk result (length done.new.items ≤ MOST_OBJECTS) }
    ensures faults { NoFault result }
{
    add_heads(dir, done)?;
    match add_files(tree.files.as_slice(), dir.depth, done) {
        Ok(()) => Ok(add_dirs(tree.dirs.as_slice(), dir.depth + 1, left)?),
        Err(end) => Err(end),
    }
}
