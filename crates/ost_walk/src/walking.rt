//! Walking the directories of a commit, one after another.
ghost use Rattle.std.specs.Prelude.{◌≡◌, ◌≤◌, ◌+◌, [], List, ℕ, length, OnOk};
ghost use Rattle.ost_model.specs.declared.limits.TheConstants.{MOST_OBJECTS};
ghost use Rattle.ost_model.specs.Objects.{Have};
ghost use Rattle.ost_walk.specs.Ends.{EndsBy, Observes, around};
ghost use Rattle.ost_walk.specs.Sources.{SuppliesAt};
ghost use Rattle.ost_walk.specs.Steps.{IsOnTheWay};
ghost use Rattle.ost_walk.specs.Surveys.{StopsIn, WalksDir};

use crate::checking::open_dir;
use crate::dirs::Dir;
use crate::ends::{ObjectFault, WalkEnd, WalkFault};
use crate::listing::list_dir;
use crate::places::Places;
use fp_base::{Items, ObjKind};
use fp_host::{Host, Remotes};
use fp_name::Digest;
use std::alloc::{AllocError, Global};

/// Walks one directory: adds its objects to the order `done`, and its directories to the work list
/// `left`. `Refused` with the first of its objects that has a fault or exceeds a limit.
fn visit<H: Host, R: Remotes>(
    alloc: Global,
    host: &mut H,
    remotes: &mut R,
    places: &Places,
    dir: &Dir,
    done: &mut Vec<(Digest, ObjKind)>,
    left: &mut Vec<Dir>,
) -> Result<(), WalkEnd>
    ensures looks { Observes result (around H.Host R.Remotes host.old remotes.old)
        (around H.Host R.Remotes host.new remotes.new) }
    ensures more { OnOk result (length done.old.items + 2 ≤ length done.new.items) }
    ensures most { OnOk result (length done.new.items ≤ MOST_OBJECTS) }
    ensures tells { (have : Have) → SuppliesAt places.now (H.moments host.old)
        (R.holds remotes.old) have
        → WalksDir have dir.now done.old.items done.new.items left.old.items left.new.items
        result }
{
    match open_dir(alloc, host, remotes, places, dir, done.len()) {
        Ok(tree) => list_dir(&tree, dir, done, left),
        Err(end) => Err(end),
    }
}

/// Walks all directories of the work list, and those in them. `Refused` with the first object that
/// has a fault or exceeds a limit.
pub(crate) fn walk<H: Host, R: Remotes>(
    alloc: Global,
    host: &mut H,
    remotes: &mut R,
    places: &Places,
    done: &mut Vec<(Digest, ObjKind)>,
    left: &mut Vec<Dir>,
) -> Result<(), WalkEnd>
    ensures looks { Observes result (around H.Host R.Remotes host.old remotes.old)
        (around H.Host R.Remotes host.new remotes.new) }
    ensures tells { (have : Have) (commit : List ℕ) → SuppliesAt places.now
        (H.moments host.old) (R.holds remotes.old) have
        → IsOnTheWay have commit done.old.items left.old.items
        → EndsBy (λ _. IsOnTheWay have commit done.new.items [])
        (StopsIn have commit done.new.items) result }
{
    while let Some(dir) = left.pop() {
        match visit(alloc, host, remotes, places, &dir, done, left) {
            Ok(()) => {}
            Err(end) => return Err(end),
        }
    }
    Ok(())
}
