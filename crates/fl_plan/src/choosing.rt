//! Checking of an offer.
ghost use Rattle.std.specs.Prelude.{◌≡◌, IfOk};
ghost use Rattle.ost_walk.specs.Ends.{around};
ghost use Rattle.fl_plan.specs.Answers.{Plans};
ghost use Rattle.fl_plan.specs.Offers.{chosen};

use crate::offer::{Chosen, Offer};
use fp_host::{Host, Remotes};
use ost_head::read_head;
use ost_walk::PullEnd;
use std::alloc::Global;

/// Checks the head of an offer whose ref isn't deployed, and returns the offer with its metadata.
/// Errs with the refusal of the head. Changes nothing.
pub(crate) fn choose<H: Host, R: Remotes>(
    alloc: Global,
    host: &mut H,
    remotes: &mut R,
    offer: Offer,
) -> Result<Chosen, PullEnd>
    ensures plans { Plans (λ held stored. chosen held stored offer) result
        (around H.Host R.Remotes host.old remotes.old)
        (around H.Host R.Remotes host.new remotes.new) }
    ensures same { IfOk result (λ chosen. chosen.offer ≡ offer) }
{
    match read_head(
        alloc,
        host,
        remotes,
        &offer.remote,
        &offer.name,
        &offer.commit,
        None,
    ) {
        Ok(head) => Ok(Chosen {
            offer,
            metadata: head.metadata,
        }),
        Err(end) => Err(end),
    }
}
