//! Batches of objects, which are read before any of them is checked.
ghost use Rattle.std.specs.Prelude.{◌≡◌, ◌≤◌, length, None, IfOk, IfSome, IsTrue, OnOk, IsErrOf};
ghost use Rattle.fp_host.specs.OverHost.{ChangesNothing, FailsAlone};
ghost use Rattle.ost_walk.specs.Ends.{IsRemotes};
ghost use Rattle.ost_walk.specs.declared.ends.WalkFault.{WalkFault};
ghost use Rattle.ost_head.specs.Found.{HostHas, IsNew};
ghost use Rattle.ost_head.specs.Objects.{IsFit};
ghost use Rattle.ost_pull.specs.Batches.{AddsTurn, AreReady, IsSmall};

use crate::forms::{Form, parted};
use crate::small::small_object;
use fp_base::ObjKind;
use fp_host::{Host, HostEnd, Path, Remotes, Stat};
use fp_name::Digest;
use ost_model::Object;
use ost_store::{has, path_of};
use ost_walk::WalkEnd;
use par_digest::{Item, MOST_IN_BATCH};
use std::alloc::Global;

/// The turn of an object of a batch: whether the object was read with the batch.
#[derive(Drop)]
pub(crate) enum Turn {
    /// The object is taken by itself: the store has it, it is kept already, it occurs earlier in
    /// the batch, it is large, or a store can't have it.
    Alone,
    /// The object was read with the batch: its form, and the index of its item.
    Batched(Form, usize),
}

/// The objects of a batch that were read, and the turn of each object.
#[derive(Drop)]
pub(crate) struct Batch {
    /// The turn of each object, in order.
    pub(crate) turns: Vec<Turn>,
    /// The items of the objects that were read, in order.
    pub(crate) items: Vec<Item>,
}

/// Returns whether the object is to be read with the batch: the store lacks it, it isn't kept in
/// the work directory, and it isn't among the objects before it in the batch.
fn is_wanted<H: Host>(
    alloc: Global,
    host: &mut H,
    root: &Path,
    work: &Path,
    digest: &Digest,
    kind: ObjKind,
    before: &[(Digest, ObjKind)],
) -> Result<bool, HostEnd>
    ensures unchanged { ChangesNothing H.Host host.old host.new }
    ensures lacks { IfOk result (λ wanted. IsTrue wanted
        → HostHas root.now (H.moments host.new) digest.now kind None) }
    ensures fault_has_cause { FailsAlone H.Host host.old host.new (IsErrOf result HostEnd.Fault) }
{
    if before.contains(&(*digest, kind)) {
        return Ok(false);
    }
    if has(alloc, host, root, digest, kind)? {
        return Ok(false);
    }
    let path = path_of(alloc, work, digest, kind)?;
    match host.stat(&path)? {
        Stat::Absent => Ok(true),
        _ => Ok(false),
    }
}

/// Reads the remote's object, if it is to be read with the batch and is small; else returns `None`.
#[tactic(auto, using(crate::proofs::Batched::new_found))]
fn read_wanted<H: Host, R: Remotes>(
    alloc: Global,
    host: &mut H,
    remotes: &mut R,
    root: &Path,
    url: &str,
    work: &Path,
    digest: &Digest,
    kind: ObjKind,
    before: &[(Digest, ObjKind)],
) -> Result<Option<Object>, WalkEnd>
    ensures unchanged { ChangesNothing H.Host host.old host.new }
    ensures same { R.holds remotes.new ≡ R.holds remotes.old }
    ensures fit { IfOk result (λ found. IfSome found (IsFit kind)) }
    ensures small { IfOk result (λ found. IfSome found IsSmall) }
    ensures new { IfOk result (λ found. IfSome found (IsNew root.now url.now (H.moments host.new)
        (R.holds remotes.old) digest.now kind)) }
    ensures refuses { (w : WalkFault) → IsErrOf result (WalkEnd.Refused w) → ⊥ }
    ensures fault_has_cause { FailsAlone H.Host host.old host.new
        (IsErrOf result WalkEnd.HostFault) }
    ensures remote_fault_has_cause { IsRemotes (IsErrOf result WalkEnd.RemoteFault)
        (R.faults remotes.old) (R.faults remotes.new) }
{
    if is_wanted(alloc, host, root, work, digest, kind, before)? {
        small_object(alloc, remotes, url, digest, kind)
    } else {
        Ok(None)
    }
}

/// Reads one object of a batch, if it is to be read with the batch, and appends its turn, and its
/// item if it was read.
#[tactic(auto, using(crate::proofs::Batched::batched_ready, crate::proofs::Batched::alone_ready))]
fn add<H: Host, R: Remotes>(
    alloc: Global,
    host: &mut H,
    remotes: &mut R,
    root: &Path,
    url: &str,
    work: &Path,
    digest: &Digest,
    kind: ObjKind,
    before: &[(Digest, ObjKind)],
    batch: &mut Batch,
) -> Result<(), WalkEnd>
    ensures unchanged { ChangesNothing H.Host host.old host.new }
    ensures same { R.holds remotes.new ≡ R.holds remotes.old }
    ensures adds { OnOk result (AddsTurn root.now url.now (H.moments host.new) (R.holds remotes.old)
        (digest.now, kind) batch.old.turns.items batch.new.turns.items batch.old.items.items
        batch.new.items.items) }
    ensures refuses { (w : WalkFault) → IsErrOf result (WalkEnd.Refused w) → ⊥ }
    ensures fault_has_cause { FailsAlone H.Host host.old host.new
        (IsErrOf result WalkEnd.HostFault) }
    ensures remote_fault_has_cause { IsRemotes (IsErrOf result WalkEnd.RemoteFault)
        (R.faults remotes.old) (R.faults remotes.new) }
{
    match read_wanted(alloc, host, remotes, root, url, work, digest, kind, before) {
        Ok(Some(object)) => {
            let (form, item) = parted(alloc, object)?;
            let place = batch.items.len();
            batch.items.push(item)?;
            batch.turns.push(Turn::Batched(form, place))?;
            Ok(())
        }
        Ok(None) => {
            batch.turns.push(Turn::Alone)?;
            Ok(())
        }
        Err(end) => Err(end),
    }
}

/// Reads the objects of a batch, which are at most 64, before any is checked: each small object of
/// the remote that the store lacks and that isn't kept in the work directory.
pub(crate) fn read_batch<H: Host, R: Remotes>(
    alloc: Global,
    host: &mut H,
    remotes: &mut R,
    root: &Path,
    url: &str,
    work: &Path,
    objects: &[(Digest, ObjKind)],
) -> Result<Batch, WalkEnd>
    requires { length objects.now ≤ MOST_IN_BATCH }
    ensures unchanged { ChangesNothing H.Host host.old host.new }
    ensures same { R.holds remotes.new ≡ R.holds remotes.old }
    ensures ready { IfOk result (λ batch. AreReady root.now url.now (H.moments host.new)
        (R.holds remotes.old) (length objects.now) objects.now batch.turns.items
        batch.items.items) }
    ensures refuses { (w : WalkFault) → IsErrOf result (WalkEnd.Refused w) → ⊥ }
    ensures fault_has_cause { FailsAlone H.Host host.old host.new
        (IsErrOf result WalkEnd.HostFault) }
    ensures remote_fault_has_cause { IsRemotes (IsErrOf result WalkEnd.RemoteFault)
        (R.faults remotes.old) (R.faults remotes.new) }
{
    let mut batch = Batch {
        turns: Vec::new(alloc),
        items: Vec::new(alloc),
    };
    for (at, object) in objects.iter().enumerate() {
        match add(
            alloc,
            host,
            remotes,
            root,
            url,
            work,
            &object.0,
            object.1,
            &objects[..at],
            &mut batch,
        ) {
            Ok(()) => {}
            Err(end) => return Err(end),
        }
    }
    Ok(batch)
}
