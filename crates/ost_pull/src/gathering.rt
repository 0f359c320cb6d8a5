//! Gathering everything that a store lacks of a commit in the work directory.
ghost use Rattle.std.specs.Prelude.{◌≡◌, None, Some, [], IfOk, OnOk, IsErrOf};
ghost use Rattle.fp_host.specs.OverHost.{AtEachMoment, AtReturn, FailsOnly};
ghost use Rattle.ost_model.specs.Objects.{Have};
ghost use Rattle.ost_model.specs.Order.{first_fault};
ghost use Rattle.ost_model.specs.Remotes.{Supplies};
ghost use Rattle.ost_walk.specs.Ends.{IsRemotes, around};
ghost use Rattle.ost_walk.specs.Surveys.{first_named, told_fault, first_told, TellsNoFault};
ghost use Rattle.ost_pull.specs.Pulls.{IsApart};
ghost use Rattle.ost_pull.specs.Takes.{AddsAmong, StaysTaken, TakesAll, CoversFromNone};
ghost use Rattle.ost_store.specs.ObjectNames.{AreOpen};
ghost use Rattle.ost_pull.specs.Work.{Works};
ghost use Rattle.ost_pull.specs.Turns.{GathersCommit, EndsTold};

use crate::taking::walk_end;
use crate::trusting::Trust;
use crate::turns::take_all;
use fp_base::{ObjKind, Text};
use fp_host::{Host, HostEnd, Path, Remotes};
use fp_name::Digest;
use fp_small::clear;
use ost_walk::{ObjectFault, Places, Survey, WalkEnd, WalkFault, survey};
use par_digest::Gate;
use std::alloc::{AllocError, Global};
use std::thread::Threads;

/// Returns the store at `root` and the remote at the URL as the places to read objects from.
pub(crate) fn places_of(alloc: Global, root: &Path, url: &str) -> Result<Places, AllocError>
    ensures { IfOk result (λ places. (places.root ≡ root.now) × (places.url ≡ Some url.now)) }
{
    Ok(Places {
        root: root.copy()?,
        url: Some(Text::from_str(alloc, url)?),
    })
}

/// Takes the objects that a survey of the commit reported. Refuses the first with a fault, or else
/// the commit for the fault that the survey reported, if it did.
fn take_surveyed<H: Host, R: Remotes, G: Gate + Sync>(
    rt: &(impl Threads + Sync),
    alloc: Global,
    host: &mut H,
    remotes: &mut R,
    root: &Path,
    url: &str,
    work: &Path,
    trust: Trust,
    survey: &Survey,
    kept: &mut Vec<(Digest, ObjKind)>,
    gate: &G,
) -> Result<(), WalkEnd>
    requires { IsApart root.now work.now }
    ensures any_moment { AtEachMoment H.Host host.old host.new (Works work.now) }
    ensures same { R.holds remotes.new ≡ R.holds remotes.old }
    ensures only { OnOk result (AddsAmong survey.now.objects kept.old.items kept.new.items
        × (survey.now.fault ≡ None)) }
    ensures on_success { OnOk result (AtReturn H.Host host.old host.new
        (TakesAll root.now work.now url.now (R.holds remotes.old) survey.now.objects kept.old.items
        kept.new.items)) }
    ensures tells { EndsTold root.now work.now url.now trust kept.old.items
        (around H.Host R.Remotes host.old remotes.old) (λ have. TellsNoFault have survey.now)
        (λ have w. first_told have survey.now ≡ Some (told_fault w)) result }
    ensures fault_has_cause { FailsOnly H.Host host.old host.new
        (AreOpen work.now) (IsErrOf result WalkEnd.HostFault) }
    ensures remote_fault_has_cause { IsRemotes (IsErrOf result WalkEnd.RemoteFault)
        (R.faults remotes.old) (R.faults remotes.new) }
{
    match take_all(
        rt,
        alloc,
        host,
        remotes,
        root,
        url,
        work,
        trust,
        survey.objects.as_slice(),
        kept,
        gate,
    ) {
        Ok(()) => match &survey.fault {
            None => Ok(()),
            Some(fault) => Err(WalkEnd::Refused(*fault)),
        },
        Err(end) => Err(end),
    }
}

/// Takes the objects of the commit's order. Refuses the first with a fault.
fn take_order<H: Host, R: Remotes, G: Gate + Sync>(
    rt: &(impl Threads + Sync),
    alloc: Global,
    host: &mut H,
    remotes: &mut R,
    root: &Path,
    url: &str,
    work: &Path,
    trust: Trust,
    commit: &Digest,
    kept: &mut Vec<(Digest, ObjKind)>,
    gate: &G,
) -> Result<(), WalkEnd>
    requires { IsApart root.now work.now }
    ensures any_moment { AtEachMoment H.Host host.old host.new (Works work.now) }
    ensures same { R.holds remotes.new ≡ R.holds remotes.old }
    ensures on_success { OnOk result (AtReturn H.Host host.old host.new
        (StaysTaken root.now work.now url.now (R.holds remotes.old) kept.old.items kept.new.items)) }
    ensures covers { (have : Have) → Supplies root.now (Some url.now) (H.moments host.old)
        (R.holds remotes.old) have → kept.old.items ≡ []
        → OnOk result (AtReturn H.Host host.old host.new
        (CoversFromNone root.now work.now url.now (R.holds remotes.old) have commit.now
        kept.new.items)) }
    ensures refuses { EndsTold root.now work.now url.now trust kept.old.items
        (around H.Host R.Remotes host.old remotes.old) (λ have. first_fault have commit.now ≡ None)
        (λ have w. first_named have commit.now ≡ Some (told_fault w)) result }
    ensures fault_has_cause { FailsOnly H.Host host.old host.new
        (AreOpen work.now) (IsErrOf result WalkEnd.HostFault) }
    ensures remote_fault_has_cause { IsRemotes (IsErrOf result WalkEnd.RemoteFault)
        (R.faults remotes.old) (R.faults remotes.new) }
{
    let places = places_of(alloc, root, url)?;
    match survey(alloc, host, remotes, &places, commit) {
        Ok(survey) => take_surveyed(
            rt, alloc, host, remotes, root, url, work, trust, &survey, kept, gate,
        ),
        Err(end) => Err(end),
    }
}

/// Takes the objects of the commit's order into the work directory, which is cleared first, and
/// into the list, which must be empty. Refuses the first with a fault.
pub(crate) fn gather<H: Host, R: Remotes, G: Gate + Sync>(
    rt: &(impl Threads + Sync),
    alloc: Global,
    host: &mut H,
    remotes: &mut R,
    root: &Path,
    url: &str,
    work: &Path,
    trust: Trust,
    commit: &Digest,
    kept: &mut Vec<(Digest, ObjKind)>,
    gate: &G,
) -> Result<(), WalkEnd>
    requires apart { IsApart root.now work.now }
    requires empty { kept.old.items ≡ [] }
    ensures { GathersCommit root.now work.now url.now trust commit.now kept.new.items result
        (around H.Host R.Remotes host.old remotes.old)
        (around H.Host R.Remotes host.new remotes.new) }
{
    match clear(alloc, host, work) {
        Ok(()) => take_order(
            rt, alloc, host, remotes, root, url, work, trust, commit, kept, gate,
        ),
        Err(end) => Err(walk_end(end)),
    }
}
