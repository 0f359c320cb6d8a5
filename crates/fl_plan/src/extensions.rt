//! The extensions that are installed along with a runtime and a target.
ghost use Rattle.std.specs.Prelude.{◌≡◌, ◌++◌, true, option_to_list, IfOk, IfSome, OnOk};
ghost use Rattle.fp_small.specs.Config.{name_of};
ghost use Rattle.fp_small.specs.Order.{has_name};
ghost use Rattle.ost_walk.specs.Ends.{around};
ghost use Rattle.fl_plan.specs.Allowed.{ComesTo, IsPlan};
ghost use Rattle.fl_plan.specs.Answers.{Plans};
ghost use Rattle.fl_plan.specs.Extensions as spec;

use crate::asking::first_candidate;
use crate::choosing::choose;
use crate::offer::{Chosen, Offer};
use fl_extension::{Point, has_ref};
use fl_installed::points_in;
use fp_base::Items;
use fp_host::{Host, Remotes};
use fp_name::RefName;
use fp_small::{RemoteRow, State};
use ost_walk::PullEnd;
use std::alloc::{AllocError, Global};

/// Returns whether the ref is in the plan.
fn is_coming(plan: &Items<Offer>, name: &RefName) -> bool
    ensures { result ≡ spec.is_coming plan.now name.now }
{
    plan.as_slice().iter().any(|offer| offer.name == *name)
}

/// Returns whether one of the point's candidates is installed or in the plan.
fn is_filled(state: &State, plan: &Items<Offer>, point: &Point) -> bool
    ensures { result ≡ spec.is_filled state.now plan.now point.now }
{
    let mut candidates = point.candidates.as_slice().iter();
    candidates.any(|name| has_ref(state, name) || is_coming(plan, name))
}

/// Checks an offer, if there is one, and returns it. Changes nothing.
fn if_any<H: Host, R: Remotes>(
    alloc: Global,
    host: &mut H,
    remotes: &mut R,
    offer: Option<Offer>,
) -> Result<Option<Offer>, PullEnd>
    ensures plans { Plans (λ held stored. spec.if_any held stored offer) result
        (around H.Host R.Remotes host.old remotes.old)
        (around H.Host R.Remotes host.new remotes.new) }
    ensures same { IfOk result (λ more. more ≡ offer) }
{
    let Some(offer) = offer else {
        return Ok(None);
    };
    match choose(alloc, host, remotes, offer) {
        Ok(chosen) => Ok(Some(chosen.offer)),
        Err(end) => Err(end),
    }
}

/// Returns the offer that a plan needs for an extension point: the first candidate that the owner's
/// remote offers, with its head checked. Returns `None` if the point isn't automatic, a candidate
/// is installed or in the plan, or none is offered. Changes nothing.
fn extension_at<H: Host, R: Remotes>(
    alloc: Global,
    host: &mut H,
    remotes: &mut R,
    state: &State,
    remote: &RemoteRow,
    plan: &Items<Offer>,
    point: &Point,
) -> Result<Option<Offer>, PullEnd>
    requires remote { has_name name_of state.now.remotes remote.now.name ≡ true }
    ensures plans { Plans (λ held stored. spec.extension_at held stored
        state.now remote.now plan.now point.now) result
        (around H.Host R.Remotes host.old remotes.old)
        (around H.Host R.Remotes host.new remotes.new) }
    ensures good { IfOk result (λ more. IfSome more (ComesTo state.now plan.now)) }
{
    if !point.auto || is_filled(state, plan, point) {
        return Ok(None);
    }
    match first_candidate(alloc, remotes, remote, point.candidates.as_slice()) {
        Ok(offer) => if_any(alloc, host, remotes, offer),
        Err(end) => Err(end),
    }
}

/// Appends an offer, if there is one.
fn push_more(plan: &mut Items<Offer>, more: Option<Offer>) -> Result<(), AllocError>
    ensures { OnOk result (plan.new ≡ plan.old ++ option_to_list more) }
{
    match more {
        Some(offer) => plan.push(offer),
        None => Ok(()),
    }
}

/// Appends the extensions for these points to the plan, as the owner's remote offers them. Changes
/// nothing on the host.
fn with_points<H: Host, R: Remotes>(
    alloc: Global,
    host: &mut H,
    remotes: &mut R,
    state: &State,
    remote: &RemoteRow,
    points: &[Point],
    mut plan: Items<Offer>,
) -> Result<Items<Offer>, PullEnd>
    requires remote { has_name name_of state.now.remotes remote.now.name ≡ true }
    requires plan { IsPlan state.now plan }
    ensures plans { Plans (λ held stored. spec.with_points held stored
        state.now remote.now points.now plan) result
        (around H.Host R.Remotes host.old remotes.old)
        (around H.Host R.Remotes host.new remotes.new) }
    ensures good { IfOk result (IsPlan state.now) }
{
    for point in points {
        match extension_at(alloc, host, remotes, state, remote, &plan, point) {
            Ok(more) => push_more(&mut plan, more)?,
            Err(end) => return Err(end),
        }
    }
    Ok(plan)
}

/// Appends the extensions of an application or a runtime to the plan. Changes nothing on the host.
pub(crate) fn with_extensions<H: Host, R: Remotes>(
    alloc: Global,
    host: &mut H,
    remotes: &mut R,
    state: &State,
    owner: &Chosen,
    plan: Items<Offer>,
) -> Result<Items<Offer>, PullEnd>
    requires owner { has_name name_of state.now.remotes owner.now.offer.remote.name ≡ true }
    requires plan { IsPlan state.now plan }
    ensures plans { Plans (λ held stored. spec.with_extensions held stored
        state.now owner.now plan) result
        (around H.Host R.Remotes host.old remotes.old)
        (around H.Host R.Remotes host.new remotes.new) }
    ensures good { IfOk result (IsPlan state.now) }
{
    let points = points_in(alloc, &owner.offer.name, &owner.metadata)?;
    with_points(
        alloc,
        host,
        remotes,
        state,
        &owner.offer.remote,
        points.as_slice(),
        plan,
    )
}

/// Appends the extensions of the runtime to the plan, if a runtime is installed along. Changes
/// nothing on the host.
pub(crate) fn with_runtime<H: Host, R: Remotes>(
    alloc: Global,
    host: &mut H,
    remotes: &mut R,
    state: &State,
    runtime: &Option<Chosen>,
    plan: Items<Offer>,
) -> Result<Items<Offer>, PullEnd>
    requires runtime { IfSome runtime.now
        (λ c. has_name name_of state.now.remotes c.offer.remote.name ≡ true) }
    requires plan { IsPlan state.now plan }
    ensures plans { Plans (λ held stored. spec.with_runtime held stored
        state.now runtime.now plan) result
        (around H.Host R.Remotes host.old remotes.old)
        (around H.Host R.Remotes host.new remotes.new) }
    ensures good { IfOk result (IsPlan state.now) }
{
    match runtime {
        Some(chosen) => with_extensions(alloc, host, remotes, state, chosen, plan),
        None => Ok(plan),
    }
}
