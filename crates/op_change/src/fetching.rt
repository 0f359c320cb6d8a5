//! Fetching a commit: pulling it and checking it out, while the state stays as it is.
ghost use Rattle.std.specs.Prelude.{◌≡◌, false};
ghost use Rattle.ost_walk.specs.Ends.{around};
ghost use Rattle.dep_states.specs.Frames.{KeptIn};
ghost use Rattle.op_change.specs.Fetching.{Retrieves};
ghost use Rattle.op_change.specs.Places.{ArePlaces};

use crate::furnishing::furnish;
use crate::places::Places;
use crate::rooms::make_room;
use dep_states::Opened;
use fp_host::{Host, Remotes};
use fp_name::{Digest, RefName};
use ost_pull::pull_trusting;
use ost_walk::PullEnd;
use std::alloc::Global;
use std::thread::Threads;

/// Pulls the commit into the store, and checks it out into its directory unless `kept`. First
/// clears everything below `repo/tmp`, and the commit's directory unless `kept`. The state stays as
/// it is. Condition: unless `kept`, the state's row of the ref has the commit neither as its own
/// nor as its previous one.
pub(crate) fn fetch<H: Host, R: Remotes>(
    rt: &(impl Threads + Sync),
    alloc: Global,
    host: &mut H,
    remotes: &mut R,
    opened: &Opened,
    places: &Places,
    url: &str,
    name: &RefName,
    commit: &Digest,
    kept: bool,
) -> Result<(), PullEnd>
    requires places { ArePlaces name.now commit.now places.now }
    requires unkept { kept ≡ false → KeptIn opened.now name.now commit.now → ⊥ }
    ensures { Retrieves opened.now name.now commit.now kept url.now result
        (around H.Host R.Remotes host.old remotes.old)
        (around H.Host R.Remotes host.new remotes.new) }
{
    make_room(alloc, host, &places.tmp, &places.folder, kept)?;
    pull_trusting(
        rt,
        alloc,
        host,
        remotes,
        &places.repo,
        url,
        commit,
        &places.work,
    )?;
    furnish(alloc, host, name, commit, &places.folder, kept)
}
