//! The runtime that is installed along with an application.
ghost use Rattle.std.specs.Prelude.{◌≡◌, IfOk, IfSome, IsSomeAnd, Some, is_some, not};
ghost use Rattle.fp_small.specs.declared.refusal.Refusal.TheVariants as refusals;
ghost use Rattle.ost_walk.specs.Ends.{around};
ghost use Rattle.fl_extension.specs.Found.{has_ref};
ghost use Rattle.fl_plan.specs.Allowed.{IsOfferOf, MayCome};
ghost use Rattle.fl_plan.specs.Answers.{Plans};
ghost use Rattle.fl_plan.specs.Runtimes as spec;

use crate::asking::first_offer;
use crate::choosing::choose;
use crate::offer::{Chosen, Offer};
use fl_extension::has_ref;
use fp_host::{Host, Remotes};
use fp_name::{RefName, RemoteName};
use fp_small::{Op, Refusal, State};
use ost_walk::PullEnd;
use std::alloc::{AllocError, Global};

/// Returns the refusal of a runtime that is neither installed nor offered.
fn refuse_missing(runtime: &RefName) -> Result<Refusal, AllocError>
    ensures { IfOk result (λ r. r ≡ refusals.RuntimeMissing runtime.now) }
{
    Ok(Refusal::RuntimeMissing {
        name: runtime.copy()?,
    })
}

/// Checks the offer of a runtime that isn't installed. Errs with `RuntimeMissing` if there is no
/// offer. Changes nothing.
fn if_offered<H: Host, R: Remotes>(
    alloc: Global,
    host: &mut H,
    remotes: &mut R,
    runtime: &RefName,
    offer: Option<Offer>,
) -> Result<Option<Chosen>, PullEnd>
    ensures plans { Plans (λ held stored. spec.if_offered held stored runtime.now offer) result
        (around H.Host R.Remotes host.old remotes.old)
        (around H.Host R.Remotes host.new remotes.new) }
    ensures some { IfOk result (λ found. IsSomeAnd found (λ chosen. Some chosen.offer ≡ offer)) }
{
    let Some(offer) = offer else {
        return Err(PullEnd::Refused(refuse_missing(runtime)?));
    };
    match choose(alloc, host, remotes, offer) {
        Ok(chosen) => Ok(Some(chosen)),
        Err(end) => Err(end),
    }
}

/// Returns the offer of a runtime, with its head checked, for an application from the remote with
/// this name. Returns `None` if the runtime is installed. Changes nothing.
pub(crate) fn find_runtime<H: Host, R: Remotes>(
    alloc: Global,
    host: &mut H,
    remotes: &mut R,
    state: &State,
    own: &RemoteName,
    runtime: &RefName,
) -> Result<Option<Chosen>, PullEnd>
    ensures plans { Plans (λ held stored. spec.runtime_for held stored
        state.now own.now runtime.now) result
        (around H.Host R.Remotes host.old remotes.old)
        (around H.Host R.Remotes host.new remotes.new) }
    ensures installed { IfOk result (λ found. is_some found ≡ not (has_ref state.now runtime.now)) }
    ensures good { IfOk result (λ found. IfSome found
        (λ chosen. (chosen.offer.name ≡ runtime.now) × MayCome state.now chosen.offer)) }
{
    if has_ref(state, runtime) {
        return Ok(None);
    }
    match first_offer(alloc, remotes, state, own, runtime) {
        Ok(offer) => if_offered(alloc, host, remotes, runtime, offer),
        Err(end) => Err(end),
    }
}

/// Returns the install of an offer.
pub(crate) fn install_of(offer: Offer) -> Op
    ensures { result ≡ spec.install_of offer }
{
    let Offer {
        name,
        remote,
        commit,
    } = offer;
    Op::Install {
        name,
        remote: remote.name,
        commit,
    }
}

/// Returns the install of the runtime that was found, if there is one.
fn install_in(found: Option<Chosen>) -> Option<Op>
    ensures { result ≡ spec.install_in found }
{
    match found {
        Some(chosen) => Some(install_of(chosen.offer)),
        None => None,
    }
}

/// Returns the install of a runtime for an application from the remote with this name, with the
/// runtime's head checked. Returns `None` exactly if the runtime is installed. Asks that remote
/// first, then the state's others in their order; a remote that is refused doesn't offer the
/// runtime. Errs with `RuntimeMissing` if no remote offers it, or with a refusal of its head, which
/// is never `Older`. Changes nothing.
pub fn resolve_runtime<H: Host, R: Remotes>(
    alloc: Global,
    host: &mut H,
    remotes: &mut R,
    state: &State,
    remote: &RemoteName,
    runtime: &RefName,
) -> Result<Option<Op>, PullEnd>
    ensures plans { Plans (λ held stored. spec.runtime_install held stored
        state.now remote.now runtime.now) result
        (around H.Host R.Remotes host.old remotes.old)
        (around H.Host R.Remotes host.new remotes.new) }
    ensures installed { IfOk result (λ op. is_some op ≡ not (has_ref state.now runtime.now)) }
{
    match find_runtime(alloc, host, remotes, state, remote, runtime) {
        Ok(found) => Ok(install_in(found)),
        Err(end) => Err(end),
    }
}
