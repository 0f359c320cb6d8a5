//! The operations of an install or an update.
ghost use Rattle.std.specs.Prelude.{◌≡◌, ◌≤◌, ◌++◌, ◌∷◌, [], length, map, true, false, Some, IfOk, IfSome, OnOk};
ghost use Rattle.std.specs.List.{AllByRecursion};
ghost use Rattle.std.specs.Str.{bytes_eq};
ghost use Rattle.fp_name.specs.Refs.{ref_text};
ghost use Rattle.fp_small.specs.Config.{name_of};
ghost use Rattle.fp_small.specs.Order.{has_name};
ghost use Rattle.ost_walk.specs.Ends.{around};
ghost use Rattle.ost_walk.specs.PullEnds.{Answers, NoFault};
ghost use Rattle.fl_plan.specs.Allowed.{AreAllowed, IsComing, IsOfferOf, IsPlan, MayCome};
ghost use Rattle.fl_plan.specs.Answers.{Plans};
ghost use Rattle.fl_plan.specs.Offers.{chosen_with, offer_with};
ghost use Rattle.fl_plan.specs.Runtimes.{if_named};
ghost use Rattle.fl_plan.specs.Plans as spec;

use crate::extensions::{with_extensions, with_runtime};
use crate::offer::{Chosen, Offer};
use crate::runtimes::find_runtime;
use crate::state::{is_at, time_of};
use fl_extension::has_ref;
use fl_installed::runtime_named;
use fp_base::{Items, What};
use fp_host::{Host, Remotes};
use fp_name::{RefName, RemoteName};
use fp_small::{MOST_REFS, Op, Refusal, RemoteRow, State};
use ost_head::{offer, read_head};
use ost_walk::PullEnd;
use std::alloc::{AllocError, Global};

/// Returns the operation for an offer: an update if the ref is deployed, else an install.
fn op_of(state: &State, offer: &Offer) -> Result<Op, AllocError>
    ensures { IfOk result (λ op. op ≡ spec.op_of state.now offer.now) }
{
    let name = offer.name.copy()?;
    let remote = offer.remote.name.copy()?;
    let commit = offer.commit;
    if has_ref(state, &offer.name) {
        Ok(Op::Update {
            name,
            remote,
            commit,
        })
    } else {
        Ok(Op::Install {
            name,
            remote,
            commit,
        })
    }
}

/// Appends the operation for an offer.
fn push_op(ops: &mut Items<Op>, state: &State, offer: &Offer) -> Result<(), AllocError>
    ensures { OnOk result (ops.new ≡ ops.old ++ spec.op_of state.now offer.now ∷ []) }
{
    ops.push(op_of(state, offer)?)
}

/// Returns the operations for these offers, in order.
fn ops_of(alloc: Global, state: &State, plan: &[Offer]) -> Result<Items<Op>, AllocError>
    ensures { IfOk result (λ ops. ops ≡ map (spec.op_of state.now) plan.now) }
{
    let mut ops = Items::new(alloc);
    for offer in plan {
        push_op(&mut ops, state, offer)?;
    }
    Ok(ops)
}

/// Returns the number of offers whose refs aren't deployed.
#[tactic(auto, using(crate::proofs::Turns::new_few))]
fn new_ones(state: &State, plan: &[Offer]) -> usize
    ensures number { result ≡ spec.new_ones state.now plan.now }
    ensures few { result ≤ length plan.now }
{
    plan.iter()
        .filter(|offer| !has_ref(state, &offer.name))
        .count()
}

/// Returns the number of deployed refs after all offers of the plan are installed.
fn number_after(state: &State, plan: &[Offer]) -> u64
    ensures { result ≡ spec.number_after state.now plan.now }
{
    let rows = state.refs.as_slice();
    let _most = plan.len();
    rows.len() as u64 + new_ones(state, plan) as u64
}

/// Returns the operations for a plan. Errs with `Limit` if more than 4,096 refs would be deployed.
fn ops_within_limit(alloc: Global, state: &State, plan: &[Offer]) -> Result<Items<Op>, PullEnd>
    ensures tells { Answers result (spec.ops_within_limit state.now plan.now) }
    ensures faults { NoFault result }
    ensures allowed { IsPlan state.now plan.now → IfOk result (AreAllowed state.now) }
    ensures coming { IfOk result (AllByRecursion IsComing) }
{
    if number_after(state, plan) > MOST_REFS {
        return Err(PullEnd::Refused(Refusal::Limit {
            what: What::Refs,
            number: MOST_REFS + 1,
        }));
    }
    Ok(ops_of(alloc, state, plan)?)
}

/// Returns the plan without extensions: the runtime, if it is installed along, then the target.
fn begun(
    alloc: Global,
    runtime: &Option<Chosen>,
    target: &Chosen,
) -> Result<Items<Offer>, AllocError>
    ensures { IfOk result (λ plan. plan ≡ spec.begun runtime.now target.now) }
{
    let mut plan = Items::new(alloc);
    if let Some(chosen) = runtime {
        plan.push(chosen.offer.copy()?)?;
    }
    plan.push(target.offer.copy()?)?;
    Ok(plan)
}

/// Returns the whole plan: the runtime, the target, the extensions of the runtime, and those of the
/// target. Changes nothing.
fn extended<H: Host, R: Remotes>(
    alloc: Global,
    host: &mut H,
    remotes: &mut R,
    state: &State,
    target: &Chosen,
    runtime: &Option<Chosen>,
) -> Result<Items<Offer>, PullEnd>
    requires target { MayCome state.now target.now.offer }
    requires runtime { IfSome runtime.now (λ c. MayCome state.now c.offer
        × (bytes_eq (ref_text c.offer.name) (ref_text target.now.offer.name) ≡ false)) }
    ensures plans { Plans (λ held stored. spec.extended held stored
        state.now target.now runtime.now) result
        (around H.Host R.Remotes host.old remotes.old)
        (around H.Host R.Remotes host.new remotes.new) }
    ensures good { IfOk result (IsPlan state.now) }
{
    let plan = begun(alloc, runtime, target)?;
    match with_runtime(alloc, host, remotes, state, runtime, plan) {
        Ok(plan) => with_extensions(alloc, host, remotes, state, target, plan),
        Err(end) => Err(end),
    }
}

/// Returns the operations for a target and the runtime that is installed along. Changes nothing.
fn plan_with<H: Host, R: Remotes>(
    alloc: Global,
    host: &mut H,
    remotes: &mut R,
    state: &State,
    target: &Chosen,
    runtime: &Option<Chosen>,
) -> Result<Items<Op>, PullEnd>
    requires target { MayCome state.now target.now.offer }
    requires runtime { IfSome runtime.now (λ c. MayCome state.now c.offer
        × (bytes_eq (ref_text c.offer.name) (ref_text target.now.offer.name) ≡ false)) }
    ensures plans { Plans (λ held stored. spec.plan_with held stored
        state.now target.now runtime.now) result
        (around H.Host R.Remotes host.old remotes.old)
        (around H.Host R.Remotes host.new remotes.new) }
    ensures allowed { IfOk result (AreAllowed state.now) }
    ensures coming { IfOk result (AllByRecursion IsComing) }
{
    match extended(alloc, host, remotes, state, target, runtime) {
        Ok(plan) => ops_within_limit(alloc, state, plan.as_slice()),
        Err(end) => Err(end),
    }
}

/// Returns the offer of the runtime that has to be installed along. Returns `None` if no runtime is
/// named, or if it is installed. Changes nothing.
fn if_named<H: Host, R: Remotes>(
    alloc: Global,
    host: &mut H,
    remotes: &mut R,
    state: &State,
    own: &RemoteName,
    runtime: Option<RefName>,
) -> Result<Option<Chosen>, PullEnd>
    ensures plans { Plans (λ held stored. if_named held stored state.now own.now runtime) result
        (around H.Host R.Remotes host.old remotes.old)
        (around H.Host R.Remotes host.new remotes.new) }
    ensures good { IfOk result (λ found. IfSome found
        (λ c. (Some c.offer.name ≡ runtime) × MayCome state.now c.offer)) }
{
    match runtime {
        Some(name) => find_runtime(alloc, host, remotes, state, own, &name),
        None => Ok(None),
    }
}

/// Returns the operations for a target whose head was checked. Changes nothing.
fn planned<H: Host, R: Remotes>(
    alloc: Global,
    host: &mut H,
    remotes: &mut R,
    state: &State,
    target: &Chosen,
) -> Result<Items<Op>, PullEnd>
    requires target { MayCome state.now target.now.offer }
    ensures plans { Plans (λ held stored. spec.planned held stored state.now target.now) result
        (around H.Host R.Remotes host.old remotes.old)
        (around H.Host R.Remotes host.new remotes.new) }
    ensures allowed { IfOk result (AreAllowed state.now) }
    ensures coming { IfOk result (AllByRecursion IsComing) }
{
    let named = runtime_named(alloc, &target.offer.name, &target.metadata)?;
    match if_named(
        alloc,
        host,
        remotes,
        state,
        &target.offer.remote.name,
        named,
    ) {
        Ok(runtime) => plan_with(alloc, host, remotes, state, target, &runtime),
        Err(end) => Err(end),
    }
}

/// Checks the head of the target's offer, and returns the offer with its metadata. Changes nothing.
fn target_of<H: Host, R: Remotes>(
    alloc: Global,
    host: &mut H,
    remotes: &mut R,
    state: &State,
    offer: Offer,
) -> Result<Chosen, PullEnd>
    ensures plans { Plans (λ held stored. spec.target_of held stored state.now offer) result
        (around H.Host R.Remotes host.old remotes.old)
        (around H.Host R.Remotes host.new remotes.new) }
    ensures same { IfOk result (λ chosen. chosen.offer ≡ offer) }
{
    let since = time_of(state, &offer.name);
    match read_head(
        alloc,
        host,
        remotes,
        &offer.remote,
        &offer.name,
        &offer.commit,
        since,
    ) {
        Ok(head) => Ok(Chosen {
            offer,
            metadata: head.metadata,
        }),
        Err(end) => Err(end),
    }
}

/// Returns the operations for a target by its remote's offer; none if the offered commit is
/// deployed. Changes nothing.
fn planned_at<H: Host, R: Remotes>(
    alloc: Global,
    host: &mut H,
    remotes: &mut R,
    state: &State,
    offer: Offer,
) -> Result<Items<Op>, PullEnd>
    requires { IsOfferOf state.now.remotes offer.name offer }
    ensures plans { Plans (λ held stored. spec.planned_at held stored state.now offer) result
        (around H.Host R.Remotes host.old remotes.old)
        (around H.Host R.Remotes host.new remotes.new) }
    ensures allowed { IfOk result (AreAllowed state.now) }
    ensures coming { IfOk result (AllByRecursion IsComing) }
{
    if is_at(state, &offer.name, &offer.commit) {
        return Ok(Items::new(alloc));
    }
    match target_of(alloc, host, remotes, state, offer) {
        Ok(target) => planned(alloc, host, remotes, state, &target),
        Err(end) => Err(end),
    }
}

/// Returns the operations of an install or an update of the ref from this remote, in their order:
/// the install of its runtime, if that isn't installed; the ref's own install, or its update if it
/// is deployed; and the installs of that runtime's extensions and of its own. There are none
/// exactly if the offered commit is deployed. The state has to have a remote with this name.
/// Changes nothing.
///
/// Errs with `WrongMode` or `NoSuchRef` of this remote and this ref; with a refusal of the ref's
/// head; with `RuntimeMissing`, if no remote offers the runtime; with a refusal, except `Older`, of
/// the head of the runtime or an extension; or with `Limit`, if more than 4,096 refs would be
/// deployed.
pub fn ops<H: Host, R: Remotes>(
    alloc: Global,
    host: &mut H,
    remotes: &mut R,
    state: &State,
    remote: &RemoteRow,
    name: &RefName,
) -> Result<Items<Op>, PullEnd>
    requires { has_name name_of state.now.remotes remote.now.name ≡ true }
    ensures plans { Plans (λ held stored. spec.plan_of held stored
        state.now remote.now name.now) result
        (around H.Host R.Remotes host.old remotes.old)
        (around H.Host R.Remotes host.new remotes.new) }
    ensures allowed { IfOk result (AreAllowed state.now) }
    ensures coming { IfOk result (AllByRecursion IsComing) }
{
    match offer(alloc, remotes, remote, name) {
        Ok(commit) => {
            let offer = Offer::new(remote, name, commit)?;
            planned_at(alloc, host, remotes, state, offer)
        }
        Err(end) => Err(end),
    }
}
