//! Looking up of refs at remotes.
ghost use Rattle.std.specs.Prelude.{◌≡◌, filter, Some, IfOk, IfSome};
ghost use Rattle.ost_walk.specs.PullEnds.{NoFault, Tells};
ghost use Rattle.fl_plan.specs.Allowed.{IsTaken, IsOneOf, IsOfferOf};
ghost use Rattle.fl_plan.specs.Answers.{Asks};
ghost use Rattle.fl_plan.specs.Offers as spec;

use crate::offer::Offer;
use fp_host::Remotes;
use fp_name::{Digest, RefName, RemoteName};
use fp_small::{RemoteRow, State};
use ost_head::offer;
use ost_walk::PullEnd;
use std::alloc::Global;

/// Returns no offer if the lookup was refused, and any other error unchanged.
fn declined(end: PullEnd) -> Result<Option<Offer>, PullEnd>
    ensures { result ≡ spec.declined end }
{
    match end {
        PullEnd::Refused(_) => Ok(None),
        PullEnd::HostFault => Err(PullEnd::HostFault),
        PullEnd::RemoteFault => Err(PullEnd::RemoteFault),
        PullEnd::NoMemory => Err(PullEnd::NoMemory),
    }
}

/// Returns the offer of a commit.
fn offer_of_commit(
    remote: &RemoteRow,
    name: &RefName,
    commit: Digest,
) -> Result<Option<Offer>, PullEnd>
    ensures tells { Tells (λ found. found ≡ Some (spec.offer_with remote.now name.now commit))
        result }
    ensures faults { NoFault result }
    ensures good { IfOk result (λ found. IfSome found (IsTaken remote.now name.now)) }
{
    Ok(Some(Offer::new(remote, name, commit)?))
}

/// Returns the remote's offer of the ref. Returns `None` if the remote doesn't offer the ref, or
/// isn't a repository of the right mode.
pub(crate) fn ask<R: Remotes>(
    alloc: Global,
    remotes: &mut R,
    remote: &RemoteRow,
    name: &RefName,
) -> Result<Option<Offer>, PullEnd>
    ensures asks { Asks (λ held. spec.offer_of held remote.now name.now) result
        (R.holds remotes.old) (R.holds remotes.new) (R.faults remotes.old) (R.faults remotes.new) }
    ensures good { IfOk result (λ found. IfSome found (IsTaken remote.now name.now)) }
{
    match offer(alloc, remotes, remote, name) {
        Ok(commit) => offer_of_commit(remote, name, commit),
        Err(end) => declined(end),
    }
}

/// Returns whether a remote is asked: with `others`, each remote but the one with this name, else
/// only that one.
fn is_in_turn(row: &RemoteRow, own: &RemoteName, others: bool) -> bool
    ensures { result ≡ spec.is_in_turn own.now others row.now }
{
    if others {
        row.name != *own
    } else {
        row.name == *own
    }
}

/// Returns the remote's offer of the ref, or `None` if the remote doesn't offer it or isn't asked.
/// With `others`, each remote but the one named `own` is asked, else only that one.
fn ask_in_turn<R: Remotes>(
    alloc: Global,
    remotes: &mut R,
    row: &RemoteRow,
    own: &RemoteName,
    others: bool,
    name: &RefName,
) -> Result<Option<Offer>, PullEnd>
    ensures asks { Asks (λ held. spec.offer_if held own.now others name.now row.now) result
        (R.holds remotes.old) (R.holds remotes.new) (R.faults remotes.old) (R.faults remotes.new) }
    ensures good { IfOk result (λ found. IfSome found (IsTaken row.now name.now)) }
{
    if is_in_turn(row, own, others) {
        ask(alloc, remotes, row, name)
    } else {
        Ok(None)
    }
}

/// Returns the first offer of the ref by a remote that is asked.
fn ask_each<R: Remotes>(
    alloc: Global,
    remotes: &mut R,
    rows: &[RemoteRow],
    own: &RemoteName,
    others: bool,
    name: &RefName,
) -> Result<Option<Offer>, PullEnd>
    ensures asks { Asks (λ held. spec.first_offer held
        (filter (spec.is_in_turn own.now others) rows.now) name.now) result
        (R.holds remotes.old) (R.holds remotes.new) (R.faults remotes.old) (R.faults remotes.new) }
    ensures good { IfOk result (λ found. IfSome found (IsOfferOf rows.now name.now)) }
{
    for row in rows {
        match ask_in_turn(alloc, remotes, row, own, others, name) {
            Ok(found) => {
                if found.is_some() {
                    return Ok(found);
                }
            }
            Err(end) => return Err(end),
        }
    }
    Ok(None)
}

/// Returns the offer of the ref by the remote with this name, or else by the first other remote
/// that offers it.
pub(crate) fn first_offer<R: Remotes>(
    alloc: Global,
    remotes: &mut R,
    state: &State,
    own: &RemoteName,
    name: &RefName,
) -> Result<Option<Offer>, PullEnd>
    ensures asks { Asks (λ held. spec.first_offer held
        (spec.in_turn own.now state.now.remotes) name.now) result
        (R.holds remotes.old) (R.holds remotes.new) (R.faults remotes.old) (R.faults remotes.new) }
    ensures good { IfOk result (λ found. IfSome found (IsOfferOf state.now.remotes name.now)) }
{
    let rows = state.remotes.as_slice();
    match ask_each(alloc, remotes, rows, own, false, name) {
        Ok(found) => {
            if found.is_some() {
                return Ok(found);
            }
            ask_each(alloc, remotes, rows, own, true, name)
        }
        Err(end) => Err(end),
    }
}

/// Returns the offer of the first of these refs that the remote offers.
pub(crate) fn first_candidate<R: Remotes>(
    alloc: Global,
    remotes: &mut R,
    remote: &RemoteRow,
    candidates: &[RefName],
) -> Result<Option<Offer>, PullEnd>
    ensures asks { Asks (λ held. spec.first_of (spec.offer_of held remote.now) candidates.now)
        result
        (R.holds remotes.old) (R.holds remotes.new) (R.faults remotes.old) (R.faults remotes.new) }
    ensures good { IfOk result (λ found. IfSome found (IsOneOf remote.now candidates.now)) }
{
    for name in candidates {
        match ask(alloc, remotes, remote, name) {
            Ok(found) => {
                if found.is_some() {
                    return Ok(found);
                }
            }
            Err(end) => return Err(end),
        }
    }
    Ok(None)
}
