//! Taking the objects of an order in batches: small ones are read whole and hashed together, and
//! then each object is taken in order.
ghost use Rattle.std.specs.Prelude.{◌≡◌, ◌+◌, ◌<◌, ◌≤◌, length, None, Some, OnOk, IsErrOf};
ghost use Rattle.fp_host.specs.OverHost.{AtEachMoment, AtReturn, FailsOnly};
ghost use Rattle.par_digest.specs.Digests.{item_digest, item_digests};
ghost use Rattle.ost_walk.specs.Ends.{IsRemotes, around};
ghost use Rattle.ost_walk.specs.Surveys.{first_bad, told_fault};
ghost use Rattle.ost_pull.specs.Batches.{AreReady, IsBatched, IsReady};
ghost use Rattle.ost_pull.specs.Pulls.{IsApart};
ghost use Rattle.ost_pull.specs.Takes.{AddsAmong, TakesAll};
ghost use Rattle.ost_store.specs.ObjectNames.{AreOpen};
ghost use Rattle.ost_pull.specs.Work.{Works};
ghost use Rattle.ost_pull.specs.Turns.{TakesObject, TakesObjects, EndsTold};

use crate::batches::{Turn, read_batch};
use crate::forms::{Form, is_good, whole};
use crate::keeping::keep;
use crate::taking::{take, walk_end};
use crate::trusting::Trust;
use fp_base::ObjKind;
use fp_host::{Host, Path, Remotes};
use fp_name::Digest;
use ost_walk::WalkEnd;
use par_digest::{Gate, Item, MOST_IN_BATCH, digests_gated};
use std::alloc::Global;
use std::thread::Threads;

/// Takes an object of the remote that was read whole and whose digest was computed. If it isn't
/// found to be good, calls `take`, which refuses it if it has a fault.
fn take_read<H: Host, R: Remotes>(
    alloc: Global,
    host: &mut H,
    remotes: &mut R,
    root: &Path,
    url: &str,
    work: &Path,
    trust: Trust,
    digest: &Digest,
    kind: ObjKind,
    form: &Form,
    item: &Item,
    got: &Digest,
    kept: &mut Vec<(Digest, ObjKind)>,
) -> Result<(), WalkEnd>
    requires apart { IsApart root.now work.now }
    requires read { IsBatched root.now url.now (H.moments host.old) (R.holds remotes.old)
        (digest.now, kind) form.now item.now }
    requires got { got.now ≡ item_digest item.now }
    ensures { TakesObject root.now work.now url.now trust (digest.now, kind)
        kept.old.items kept.new.items result
        (around H.Host R.Remotes host.old remotes.old)
        (around H.Host R.Remotes host.new remotes.new) }
{
    let _bytes = digest.as_bytes();
    let object = whole(alloc, form, item)?;
    if is_good(alloc, digest, kind, &object, got) {
        match keep(alloc, host, work, digest, kind, &object, kept) {
            Ok(()) => Ok(()),
            Err(end) => Err(walk_end(end)),
        }
    } else {
        take(
            alloc, host, remotes, root, url, work, trust, digest, kind, kept,
        )
    }
}

/// Takes an object in its turn.
fn take_turn<H: Host, R: Remotes>(
    alloc: Global,
    host: &mut H,
    remotes: &mut R,
    root: &Path,
    url: &str,
    work: &Path,
    trust: Trust,
    digest: &Digest,
    kind: ObjKind,
    turn: &Turn,
    items: &[Item],
    digests: &[Digest],
    kept: &mut Vec<(Digest, ObjKind)>,
) -> Result<(), WalkEnd>
    requires apart { IsApart root.now work.now }
    requires ready { IsReady root.now url.now (H.moments host.old) (R.holds remotes.old)
        (digest.now, kind) items.now turn.now }
    requires digests { digests.now ≡ item_digests items.now }
    ensures { TakesObject root.now work.now url.now trust (digest.now, kind)
        kept.old.items kept.new.items result
        (around H.Host R.Remotes host.old remotes.old)
        (around H.Host R.Remotes host.new remotes.new) }
{
    match turn {
        Turn::Alone => take(
            alloc, host, remotes, root, url, work, trust, digest, kind, kept,
        ),
        Turn::Batched(form, place) => take_read(
            alloc,
            host,
            remotes,
            root,
            url,
            work,
            trust,
            digest,
            kind,
            form,
            &items[*place],
            &digests[*place],
            kept,
        ),
    }
}

/// Takes these objects one after another, each in its turn. Refuses the first with a fault. The
/// objects on the list must be kept in the work directory.
fn take_turns<H: Host, R: Remotes>(
    alloc: Global,
    host: &mut H,
    remotes: &mut R,
    root: &Path,
    url: &str,
    work: &Path,
    trust: Trust,
    objects: &[(Digest, ObjKind)],
    turns: &[Turn],
    items: &[Item],
    digests: &[Digest],
    kept: &mut Vec<(Digest, ObjKind)>,
) -> Result<(), WalkEnd>
    requires apart { IsApart root.now work.now }
    requires ready { AreReady root.now url.now (H.moments host.old) (R.holds remotes.old)
        (length objects.now) objects.now turns.now items.now }
    requires digests { digests.now ≡ item_digests items.now }
    ensures { TakesObjects root.now work.now url.now trust objects.now
        kept.old.items kept.new.items result
        (around H.Host R.Remotes host.old remotes.old)
        (around H.Host R.Remotes host.new remotes.new) }
{
    for (at, object) in objects.iter().enumerate() {
        match take_turn(
            alloc, host, remotes, root, url, work, trust, &object.0, object.1, &turns[at], items,
            digests, kept,
        ) {
            Ok(()) => {}
            Err(end) => return Err(end),
        }
    }
    Ok(())
}

/// Takes the objects of a batch, which are at most 64: reads the remote's small ones, computes
/// their digests, and then takes each object in order. Refuses the first with a fault. The objects
/// on the list must be kept in the work directory.
fn take_batch<H: Host, R: Remotes, G: Gate + Sync>(
    rt: &(impl Threads + Sync),
    alloc: Global,
    host: &mut H,
    remotes: &mut R,
    root: &Path,
    url: &str,
    work: &Path,
    trust: Trust,
    objects: &[(Digest, ObjKind)],
    kept: &mut Vec<(Digest, ObjKind)>,
    gate: &G,
) -> Result<(), WalkEnd>
    requires apart { IsApart root.now work.now }
    requires few { length objects.now ≤ MOST_IN_BATCH }
    ensures { TakesObjects root.now work.now url.now trust objects.now
        kept.old.items kept.new.items result
        (around H.Host R.Remotes host.old remotes.old)
        (around H.Host R.Remotes host.new remotes.new) }
{
    match read_batch(alloc, host, remotes, root, url, work, objects) {
        Ok(batch) => {
            let digests = digests_gated(rt, alloc, &batch.items, gate)?;
            take_turns(
                alloc,
                host,
                remotes,
                root,
                url,
                work,
                trust,
                objects,
                &batch.turns,
                &batch.items,
                digests.as_slice(),
                kept,
            )
        }
        Err(end) => Err(end),
    }
}

/// Returns the index after the batch that begins at index `at`, of `count` objects.
fn batch_end(at: usize, count: usize) -> usize
    requires { at < count }
    ensures later { at < result }
    ensures within { result ≤ count }
    ensures most { result ≤ at + MOST_IN_BATCH }
{
    at + (count - at).min(MOST_IN_BATCH)
}

/// Takes these objects in order, one batch after another. Refuses the first with a fault. The
/// objects on the list must be kept in the work directory.
pub(crate) fn take_all<H: Host, R: Remotes, G: Gate + Sync>(
    rt: &(impl Threads + Sync),
    alloc: Global,
    host: &mut H,
    remotes: &mut R,
    root: &Path,
    url: &str,
    work: &Path,
    trust: Trust,
    objects: &[(Digest, ObjKind)],
    kept: &mut Vec<(Digest, ObjKind)>,
    gate: &G,
) -> Result<(), WalkEnd>
    requires { IsApart root.now work.now }
    ensures any_moment { AtEachMoment H.Host host.old host.new (Works work.now) }
    ensures same { R.holds remotes.new ≡ R.holds remotes.old }
    ensures only { OnOk result (AddsAmong objects.now kept.old.items kept.new.items) }
    ensures on_success { OnOk result (AtReturn H.Host host.old host.new
        (TakesAll root.now work.now url.now (R.holds remotes.old) objects.now kept.old.items
        kept.new.items)) }
    ensures tells { EndsTold root.now work.now url.now trust kept.old.items
        (around H.Host R.Remotes host.old remotes.old) (λ have. first_bad have objects.now ≡ None)
        (λ have w. first_bad have objects.now ≡ Some (told_fault w)) result }
    ensures fault_has_cause { FailsOnly H.Host host.old host.new
        (AreOpen work.now) (IsErrOf result WalkEnd.HostFault) }
    ensures remote_fault_has_cause { IsRemotes (IsErrOf result WalkEnd.RemoteFault)
        (R.faults remotes.old) (R.faults remotes.new) }
{
    let mut at = 0;
    while at < objects.len() {
        let end = batch_end(at, objects.len());
        match take_batch(
            rt,
            alloc,
            host,
            remotes,
            root,
            url,
            work,
            trust,
            &objects[at..end],
            kept,
            gate,
        ) {
            Ok(()) => at = end,
            Err(end) => return Err(end),
        }
    }
    Ok(())
}
