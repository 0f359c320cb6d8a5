//! The results of reading paths, before digests are computed.
ghost use Rattle.std.specs.Prelude.{◌≡◌, ◌++◌, ◌∷◌, [], length, IfOk, OnOk, IsErrOf};
ghost use Rattle.fp_host.specs.OverHost.{AtReturn, ChangesNothing, FailsAlone};
ghost use Rattle.ost_fsck.specs.declared.row.Row.TheVariants as rows;
ghost use Rattle.ost_fsck.specs.Batches.{is_at, seen_by, Grows, IsRow, IsRowAt};

use crate::item::small_item;
use crate::judging::{Seen, bad_unless, look_at, stray};
use fp_base::ObjKind;
use fp_host::{Host, HostEnd, Path};
use fp_name::Digest;
use ost_store::{object_named, path_of};
use par_digest::Item;
use std::alloc::{AllocError, Global};

/// The result of reading a path.
#[derive(Drop)]
pub(crate) enum Row {
    /// The path needs no digest, and was checked.
    Answer(Seen),
    /// The path is that of this object, and is good if and only if the item at the index `number`
    /// has its digest.
    Question {
        digest: Digest,
        kind: ObjKind,
        number: usize,
    },
}

/// Reads a path below `objects` in the store at `root`. Appends the item of a small object.
pub(crate) fn read<H: Host>(
    alloc: Global,
    host: &mut H,
    root: &Path,
    path: &Path,
    items: &mut Vec<Item>,
) -> Result<Row, HostEnd>
    ensures unchanged { ChangesNothing H.Host host.old host.new }
    ensures grows { OnOk result (Grows items.old.items items.new.items) }
    ensures tells { IfOk result (λ row. AtReturn H.Host host.old host.new
        (λ u w. IsRow root.now path.now u items.new.items row)) }
    ensures fault_has_cause { FailsAlone H.Host host.old host.new (IsErrOf result HostEnd.Fault) }
{
    match object_named(alloc, root, path)? {
        Some(object) => read_object(alloc, host, root, &object.0, object.1, items),
        None => Ok(Row::Answer(stray(path)?)),
    }
}

/// Reads the path of an object in the store at `root`. Appends the item of a small object.
fn read_object<H: Host>(
    alloc: Global,
    host: &mut H,
    root: &Path,
    digest: &Digest,
    kind: ObjKind,
    items: &mut Vec<Item>,
) -> Result<Row, HostEnd>
    ensures unchanged { ChangesNothing H.Host host.old host.new }
    ensures grows { OnOk result (Grows items.old.items items.new.items) }
    ensures tells { IfOk result
        (λ row. AtReturn H.Host host.old host.new
        (λ u w. IsRowAt root.now digest.now kind u items.new.items row)) }
    ensures fault_has_cause { FailsAlone H.Host host.old host.new (IsErrOf result HostEnd.Fault) }
{
    let path = path_of(alloc, root, digest, kind)?;
    match small_item(alloc, host, &path, kind)? {
        Some(item) => Ok(question(*digest, kind, item, items)?),
        None => Ok(Row::Answer(look_at(alloc, host, root, digest, kind)?)),
    }
}

/// Appends the item of an object, and returns the row that asks whether it has the object's digest.
fn question(
    digest: Digest,
    kind: ObjKind,
    item: Item,
    items: &mut Vec<Item>,
) -> Result<Row, AllocError>
    ensures row { IfOk result (λ row. row ≡ rows.Question digest kind (length items.old.items)) }
    ensures pushed { OnOk result (items.new.items ≡ items.old.items ++ item ∷ []) }
{
    let number = items.len();
    items.push(item)?;
    Ok(Row::Question {
        digest,
        kind,
        number,
    })
}

/// Returns whether the digest at the index `number` equals `digest`.
fn is_at(digests: &[Digest], number: usize, digest: &Digest) -> bool
    ensures { result ≡ is_at digests.now number digest.now }
{
    match digests.get(number) {
        Some(got) => *got == *digest,
        None => false,
    }
}

/// Returns the result of checking a path, by the digests of the items.
pub(crate) fn judge(row: Row, digests: &[Digest]) -> Seen
    ensures { result ≡ seen_by digests.now row }
{
    match row {
        Row::Answer(seen) => seen,
        Row::Question {
            digest,
            kind,
            number,
        } => Seen {
            is_object: true,
            finding: bad_unless(is_at(digests, number, &digest), digest, kind),
        },
    }
}
