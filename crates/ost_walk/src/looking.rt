//! Looking up a path of a commit, one name after another.
ghost use Rattle.std.specs.Prelude.{◌≡◌, ◌≢◌, ◌≤◌, ◌∷◌, [], List, ℕ, drop, IfOk};
ghost use Rattle.fp_host.specs.Paths.{Elements};
ghost use Rattle.ost_model.specs.declared.limits.TheConstants.{MOST_LEVELS};
ghost use Rattle.ost_model.specs.Objects.{Have};
ghost use Rattle.ost_model.specs.Look.{look_fault};
ghost use Rattle.ost_object.specs.Views.{tree_view};
ghost use Rattle.ost_walk.specs.Ends.{EndsBy, IsFirst, Observes, outside, around};
ghost use Rattle.ost_walk.specs.Sources.{SuppliesAt};
ghost use Rattle.ost_walk.specs.Looked.{IsFound, IsDirAt, IsHere, IsLow};

use crate::checking::{fetch_root, open_tree};
use crate::ends::{ObjectFault, WalkEnd, WalkFault};
use crate::finding::{find_dir, find_file};
use crate::found::{Found, Here};
use crate::places::Places;
use fp_host::{Host, Path, Remotes};
use fp_name::Digest;
use ost_object::DirTree;
use std::alloc::Global;

/// Returns the root directory of a commit.
fn start<H: Host, R: Remotes>(
    alloc: Global,
    host: &mut H,
    remotes: &mut R,
    places: &Places,
    commit: &Digest,
) -> Result<Here, WalkEnd>
    ensures looks { Observes result (around H.Host R.Remotes host.old remotes.old)
        (around H.Host R.Remotes host.new remotes.new) }
    ensures low { IfOk result IsLow }
    ensures tells { (have : Have) → SuppliesAt places.now (H.moments host.old)
        (R.holds remotes.old) have
        → EndsBy (IsHere have commit.now []) (IsFirst (look_fault have commit.now [])) result }
{
    match fetch_root(alloc, host, remotes, places, commit) {
        Ok(root) => match open_tree(alloc, host, remotes, places, &root, 0) {
            Ok(tree) => Ok(Here::Dir(tree, 0)),
            Err(end) => Err(end),
        },
        Err(end) => Err(end),
    }
}

/// Looks up a name in a directory at this depth below the root.
fn enter<H: Host, R: Remotes>(
    alloc: Global,
    host: &mut H,
    remotes: &mut R,
    places: &Places,
    tree: &DirTree,
    depth: u32,
    name: &str,
) -> Result<Here, WalkEnd>
    requires { depth ≤ MOST_LEVELS }
    ensures looks { Observes result (around H.Host R.Remotes host.old remotes.old)
        (around H.Host R.Remotes host.new remotes.new) }
    ensures low { IfOk result IsLow }
    ensures tells { (have : Have) (commit : List ℕ) (up : Elements)
        → SuppliesAt places.now (H.moments host.old) (R.holds remotes.old) have
        → IsDirAt have commit up (tree_view tree.now) depth
        → EndsBy (IsHere have commit (name.now ∷ up))
        (IsFirst (look_fault have commit (name.now ∷ up))) result }
{
    match find_dir(tree.dirs.as_slice(), name, depth + 1) {
        Some(dir) => match open_tree(alloc, host, remotes, places, &dir, 0) {
            Ok(tree) => Ok(Here::Dir(tree, depth + 1)),
            Err(end) => Err(end),
        },
        None => match find_file(tree.files.as_slice(), name) {
            Some(digest) => Ok(Here::File(digest)),
            None => Ok(Here::Nothing),
        },
    }
}

/// Looks up a name in what was reached. Only a directory contains names.
fn advance<H: Host, R: Remotes>(
    alloc: Global,
    host: &mut H,
    remotes: &mut R,
    places: &Places,
    here: &Here,
    name: &str,
) -> Result<Here, WalkEnd>
    requires { IsLow here.now }
    ensures looks { Observes result (around H.Host R.Remotes host.old remotes.old)
        (around H.Host R.Remotes host.new remotes.new) }
    ensures low { IfOk result IsLow }
    ensures tells { (have : Have) (commit : List ℕ) (up : Elements)
        → SuppliesAt places.now (H.moments host.old) (R.holds remotes.old) have
        → IsHere have commit up here.now
        → EndsBy (IsHere have commit (name.now ∷ up))
        (IsFirst (look_fault have commit (name.now ∷ up))) result }
{
    match here {
        Here::Dir(tree, depth) => enter(alloc, host, remotes, places, tree, *depth, name),
        _ => Ok(Here::Nothing),
    }
}

/// Returns what is at this path, if `here` is what is at its parent.
fn follow_one<H: Host, R: Remotes>(
    alloc: Global,
    host: &mut H,
    remotes: &mut R,
    places: &Places,
    here: &Here,
    path: &Path,
) -> Result<Here, WalkEnd>
    requires some { path.now ≢ [] }
    requires low { IsLow here.now }
    ensures looks { Observes result (around H.Host R.Remotes host.old remotes.old)
        (around H.Host R.Remotes host.new remotes.new) }
    ensures low { IfOk result IsLow }
    ensures tells { (have : Have) (commit : List ℕ) → SuppliesAt places.now
        (H.moments host.old) (R.holds remotes.old) have
        → IsHere have commit (drop 1 path.now) here.now
        → EndsBy (IsHere have commit path.now) (IsFirst (look_fault have commit path.now)) result }
{
    match path.name() {
        Some(name) => advance(alloc, host, remotes, places, here, name),
        None => unreachable!(),
    }
}

/// Returns what is at the path, if `root` is the root directory.
fn follow<H: Host, R: Remotes>(
    alloc: Global,
    host: &mut H,
    remotes: &mut R,
    places: &Places,
    root: Here,
    path: &Path,
) -> Result<Here, WalkEnd>
    requires { IsLow root }
    ensures looks { Observes result (around H.Host R.Remotes host.old remotes.old)
        (around H.Host R.Remotes host.new remotes.new) }
    ensures tells { (have : Have) (commit : List ℕ) → SuppliesAt places.now
        (H.moments host.old) (R.holds remotes.old) have
        → IsHere have commit [] root
        → EndsBy (IsHere have commit path.now) (IsFirst (look_fault have commit path.now)) result }
{
    let mut here = root;
    let mut left = path.len();
    while left > 0 {
        left -= 1;
        let step = path.folder(left)?;
        match follow_one(alloc, host, remotes, places, &here, &step) {
            Ok(next) => here = next,
            Err(end) => return Err(end),
        }
    }
    Ok(here)
}

/// Returns the result of looking up a path, by what was reached.
fn found_of(here: &Here) -> Found
    ensures tells { (have : Have) (commit : List ℕ) (path : Elements) → IsHere have commit path
        here.now → IsFound have commit path result }
{
    match here {
        Here::Dir(..) => Found::Dir,
        Here::File(digest) => Found::File(*digest),
        Here::Nothing => Found::Nothing,
    }
}

/// Looks up a path of a commit. Reads and checks the commit and the dirtree of each directory on
/// the path, also of the last one. `Refused` with the first of these objects that has a fault or
/// belongs to a directory more than 64 levels below the root. Changes nothing.
pub fn look<H: Host, R: Remotes>(
    alloc: Global,
    host: &mut H,
    remotes: &mut R,
    places: &Places,
    commit: &Digest,
    path: &Path,
) -> Result<Found, WalkEnd>
    // Nothing changes, and a fault occurs only if the host's or the remotes' count of faults rose.
    ensures looks { Observes result (around H.Host R.Remotes host.old remotes.old)
        (around H.Host R.Remotes host.new remotes.new) }
    ensures tells { (have : Have) → SuppliesAt places.now (H.moments host.old)
        (R.holds remotes.old) have
        → EndsBy (IsFound have commit.now path.now)
        (IsFirst (look_fault have commit.now path.now)) result }
{
    match start(alloc, host, remotes, places, commit) {
        Ok(root) => match follow(alloc, host, remotes, places, root, path) {
            Ok(here) => Ok(found_of(&here)),
            Err(end) => Err(end),
        },
        Err(end) => Err(end),
    }
}
