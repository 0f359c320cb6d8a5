//! Pulling a commit.
ghost use Rattle.std.specs.Prelude.{⊤};
ghost use Rattle.ost_walk.specs.Ends.{around};
ghost use Rattle.ost_pull.specs.Pulls.{IsApart, PullsCommit, HasTrueFilesNow};
ghost use Rattle.ost_pull.specs.Trusts.{MayTrust};

use crate::gathering::gather;
use crate::placing::store_kept;
use crate::trusting::Trust;
use fp_base::ObjKind;
use fp_host::{Host, HostEnd, Path, Remotes};
use fp_name::Digest;
use fp_small::clear;
use ost_walk::{PullEnd, WalkEnd};
use par_digest::{Gate, NoGate};
use std::alloc::Global;
use std::thread::Threads;

/// Pulls the commit: fetches each object of its order that the store at `root` lacks from the
/// remote at the URL. All objects are checked before the first is stored, also those that the store
/// has, and the pull is refused with the first fault in the order. Until then objects are kept in
/// the directory `work`, at the paths that they have in a store; what was there before is cleared.
/// Syncs twice, however many objects there are. The directory `work` must be apart from the store's
/// objects. Condition: every crash leaves a store whose objects match their names; `work` isn't the
/// root, and no path below it, and no object's path in it, has more than 128 elements; the paths
/// above it and above the store's objects are absent or directories.
pub fn pull<H: Host, R: Remotes>(
    rt: &(impl Threads + Sync),
    alloc: Global,
    host: &mut H,
    remotes: &mut R,
    root: &Path,
    url: &str,
    commit: &Digest,
    work: &Path,
) -> Result<(), PullEnd>
    requires { IsApart root.now work.now }
    ensures { PullsCommit root.now work.now url.now commit.now ⊤ result
        (around H.Host R.Remotes host.old remotes.old)
        (around H.Host R.Remotes host.new remotes.new) }
{
    pull_gated(rt, alloc, host, remotes, root, url, commit, work, &NoGate)
}

/// Pulls the commit as `pull` does, whatever the gate does. Objects are taken in batches of at most
/// 64. In each batch, several threads compute the digests of the remote's objects of up to 256 KiB,
/// and the gate is called as by `digests_gated`. A larger object is taken by itself, a file in
/// pieces of 64 KiB. Each batch is checked before any later refusal is returned. A fault of the
/// remote may be returned instead of a refusal that the current batch would give.
pub fn pull_gated<H: Host, R: Remotes, G: Gate + Sync>(
    rt: &(impl Threads + Sync),
    alloc: Global,
    host: &mut H,
    remotes: &mut R,
    root: &Path,
    url: &str,
    commit: &Digest,
    work: &Path,
    gate: &G,
) -> Result<(), PullEnd>
    requires { IsApart root.now work.now }
    ensures { PullsCommit root.now work.now url.now commit.now ⊤ result
        (around H.Host R.Remotes host.old remotes.old)
        (around H.Host R.Remotes host.new remotes.new) }
{
    pull_by(
        rt,
        alloc,
        host,
        remotes,
        root,
        url,
        commit,
        work,
        Trust::Nothing,
        gate,
    )
}

/// Pulls the commit as `pull` does, into a store whose files and symlinks all match their digests.
/// Of a file that the store has, only the permission bits and the size are checked, and its bytes
/// aren't read. Metadata objects are read and checked. If a file doesn't match its digest, it is
/// taken for the object all the same.
pub fn pull_trusting<H: Host, R: Remotes>(
    rt: &(impl Threads + Sync),
    alloc: Global,
    host: &mut H,
    remotes: &mut R,
    root: &Path,
    url: &str,
    commit: &Digest,
    work: &Path,
) -> Result<(), PullEnd>
    requires { IsApart root.now work.now }
    ensures { PullsCommit root.now work.now url.now commit.now
        (HasTrueFilesNow root.now (H.moments host.old)) result
        (around H.Host R.Remotes host.old remotes.old)
        (around H.Host R.Remotes host.new remotes.new) }
{
    pull_by(
        rt,
        alloc,
        host,
        remotes,
        root,
        url,
        commit,
        work,
        Trust::Names,
        &NoGate,
    )
}

/// Pulls the commit as `pull_gated` does. If the names of the store are trusted, its files and
/// symlinks must match their digests.
fn pull_by<H: Host, R: Remotes, G: Gate + Sync>(
    rt: &(impl Threads + Sync),
    alloc: Global,
    host: &mut H,
    remotes: &mut R,
    root: &Path,
    url: &str,
    commit: &Digest,
    work: &Path,
    trust: Trust,
    gate: &G,
) -> Result<(), PullEnd>
    requires { IsApart root.now work.now }
    ensures { PullsCommit root.now work.now url.now commit.now
        (MayTrust trust root.now (H.moments host.old)) result
        (around H.Host R.Remotes host.old remotes.old)
        (around H.Host R.Remotes host.new remotes.new) }
{
    let mut kept = Vec::new(alloc);
    match gather(
        rt, alloc, host, remotes, root, url, work, trust, commit, &mut kept, gate,
    ) {
        Ok(()) => match store_kept(alloc, host, root, work, &mut kept) {
            Ok(()) => Ok(()),
            Err(end) => Err(PullEnd::from(end)),
        },
        Err(end) => match clear(alloc, host, work) {
            Ok(()) => Err(PullEnd::from(end)),
            Err(fault) => Err(PullEnd::from(fault)),
        },
    }
}
