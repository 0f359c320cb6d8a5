//! The order of a commit, and its survey.
ghost use Rattle.std.specs.Prelude.{◌≡◌, ◌∷◌, [], IfOk};
ghost use Rattle.fp_base.specs.declared.object.ObjKind.TheVariants as kinds;
ghost use Rattle.ost_model.specs.Objects.{Have};
ghost use Rattle.ost_model.specs.Order.{first_walk_fault};
ghost use Rattle.ost_walk.specs.Ends.{EndsBy, IsFirst, Observes, around};
ghost use Rattle.ost_walk.specs.Sources.{SuppliesAt};
ghost use Rattle.ost_walk.specs.Steps.{IsRoot, IsOrder};
ghost use Rattle.ost_walk.specs.Surveys.{IsSurvey, stopped_at, unless_faulty};

use crate::checking::fetch_root;
use crate::dirs::Dir;
use crate::ends::{ObjectFault, WalkEnd, WalkFault};
use crate::places::Places;
use crate::surveys::Survey;
use crate::walking::walk;
use fp_base::{Items, ObjKind};
use fp_host::{Host, Remotes};
use fp_name::Digest;
use std::alloc::{AllocError, Global};

/// Returns a list with the commit as its only object.
fn commit_alone(alloc: Global, commit: &Digest) -> Result<Vec<(Digest, ObjKind)>, AllocError>
    ensures { IfOk result (λ done. done.items ≡ (commit.now, kinds.Commit) ∷ []) }
{
    let mut done = Vec::new(alloc);
    done.push((*commit, ObjKind::Commit))?;
    Ok(done)
}

/// Returns a work list with one directory.
fn dir_alone(alloc: Global, dir: Dir) -> Result<Vec<Dir>, AllocError>
    ensures { IfOk result (λ left. left.items ≡ dir ∷ []) }
{
    let mut left = Vec::new(alloc);
    left.push(dir)?;
    Ok(left)
}

/// Returns the survey with the objects `done` if the walk ended with a refusal. Returns any other
/// error as it is.
fn stopped(done: Vec<(Digest, ObjKind)>, end: WalkEnd) -> Result<Survey, WalkEnd>
    ensures { result ≡ stopped_at done.items end }
{
    match end {
        WalkEnd::Refused(fault) => Ok(Survey {
            objects: Items::from_vec(done),
            fault: Some(fault),
        }),
        WalkEnd::HostFault => Err(WalkEnd::HostFault),
        WalkEnd::RemoteFault => Err(WalkEnd::RemoteFault),
        WalkEnd::NoMemory => Err(WalkEnd::NoMemory),
    }
}

/// Returns the survey of a commit that was checked, whose root directory is `root`.
fn survey_from<H: Host, R: Remotes>(
    alloc: Global,
    host: &mut H,
    remotes: &mut R,
    places: &Places,
    commit: &Digest,
    root: Dir,
) -> Result<Survey, WalkEnd>
    ensures looks { Observes result (around H.Host R.Remotes host.old remotes.old)
        (around H.Host R.Remotes host.new remotes.new) }
    ensures tells { (have : Have) → SuppliesAt places.now (H.moments host.old)
        (R.holds remotes.old) have → IsRoot have commit.now root
        → EndsBy (IsSurvey have commit.now) (λ w. ⊥) result }
{
    let mut done = commit_alone(alloc, commit)?;
    let mut left = dir_alone(alloc, root)?;
    match walk(alloc, host, remotes, places, &mut done, &mut left) {
        Ok(()) => Ok(Survey {
            objects: Items::from_vec(done),
            fault: None,
        }),
        Err(end) => stopped(done, end),
    }
}

/// Returns the survey of a commit: the objects of its order up to the first metadata object that
/// has a fault or the first object that exceeds a limit, and that fault. Reads no content objects.
/// If the fault is that of a directory's dirmeta, the survey also lacks the directory's dirtree.
/// Never returns `Refused`. Changes nothing.
pub fn survey<H: Host, R: Remotes>(
    alloc: Global,
    host: &mut H,
    remotes: &mut R,
    places: &Places,
    commit: &Digest,
) -> Result<Survey, WalkEnd>
    ensures looks { Observes result (around H.Host R.Remotes host.old remotes.old)
        (around H.Host R.Remotes host.new remotes.new) }
    ensures tells { (have : Have) → SuppliesAt places.now (H.moments host.old)
        (R.holds remotes.old) have
        → EndsBy (IsSurvey have commit.now) (λ w. ⊥) result }
{
    match fetch_root(alloc, host, remotes, places, commit) {
        Ok(root) => survey_from(alloc, host, remotes, places, commit, root),
        Err(end) => stopped(Vec::new(alloc), end),
    }
}

/// Returns the objects of a survey. `Refused` with its fault if it has one.
fn whole(survey: Survey) -> Result<Items<(Digest, ObjKind)>, WalkEnd>
    ensures { result ≡ unless_faulty survey.objects survey.fault }
{
    let Survey { objects, fault } = survey;
    match fault {
        None => Ok(objects),
        Some(fault) => Err(WalkEnd::Refused(fault)),
    }
}

/// Returns the objects of a commit in order, with repeats: the commit, then the root directory. A
/// directory's objects are its dirtree, its dirmeta, its files, and then those of each of its
/// directories. Checks each metadata object, and reads no content objects. `Refused` with the first
/// metadata object that has a fault or the first object that exceeds a limit. Changes nothing.
pub fn order<H: Host, R: Remotes>(
    alloc: Global,
    host: &mut H,
    remotes: &mut R,
    places: &Places,
    commit: &Digest,
) -> Result<Items<(Digest, ObjKind)>, WalkEnd>
    ensures looks { Observes result (around H.Host R.Remotes host.old remotes.old)
        (around H.Host R.Remotes host.new remotes.new) }
    ensures tells { (have : Have) → SuppliesAt places.now (H.moments host.old)
        (R.holds remotes.old) have
        → EndsBy (IsOrder have commit.now) (IsFirst (first_walk_fault have commit.now)) result }
{
    match survey(alloc, host, remotes, places, commit) {
        Ok(survey) => whole(survey),
        Err(end) => Err(end),
    }
}
