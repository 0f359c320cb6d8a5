//! The digests and the objects of the rows' files and symlinks.

ghost use Rattle.std.specs.Prelude.{◌≡◌, ◌∷◌, ◌++◌, List, [], true, IfOk, IfErr, OnOk};
ghost use Rattle.fp_base.specs.declared.object.ObjKind.TheVariants as kinds;
ghost use Rattle.par_digest.specs.Digests.{item_digest, item_digests};
ghost use Rattle.ost_commit.specs.Refusals.{is_good_row, AreGoodRows};
ghost use Rattle.ost_commit.specs.Digests.{IsDigestOf, AreDigests, object_by};
ghost use Rattle.ost_commit.specs.Tables.{AreContents, AreUsable, IsFaultOfTables};

use crate::built::BuildError;
use crate::objects::{Table, put};
use crate::row::TreeRow;
use fp_base::{Blob, Items};
use fp_name::Digest;
use ost_content::{header, link_header};
use ost_model::Object;
use par_digest::{Item, digests};
use std::alloc::{AllocError, Global};
use std::thread::Threads;

/// Returns the digest of each row's file or symlink, in order. The digest for a directory's row has
/// no meaning.
pub(crate) fn row_digests(
    rt: &(impl Threads + Sync),
    alloc: Global,
    rows: &[TreeRow],
) -> Result<Items<Digest>, AllocError>
    requires { AreGoodRows rows.now }
    ensures { IfOk result (AreDigests rows.now) }
{
    let items = items_of(alloc, rows)?;
    digests(rt, alloc, &items)
}

/// Returns the bytes that are hashed for each row.
fn items_of(alloc: Global, rows: &[TreeRow]) -> Result<Vec<Item>, AllocError>
    requires { AreGoodRows rows.now }
    ensures { IfOk result (λ items. AreDigests rows.now (item_digests items.items)) }
{
    let mut items = Vec::with_capacity(alloc, rows.len())?;
    for row in rows {
        items.push(item_of(alloc, row)?)?;
    }
    Ok(items)
}

/// Returns the bytes that are hashed for a row: none for a directory.
fn item_of(alloc: Global, row: &TreeRow) -> Result<Item, AllocError>
    requires { is_good_row row.now ≡ true }
    ensures { IfOk result (λ item. IsDigestOf row.now (item_digest item)) }
{
    match row {
        TreeRow::Dir(_) => Ok(Item {
            head: Blob::from_slice(alloc, &[])?,
            body: Blob::from_slice(alloc, &[])?,
        }),
        TreeRow::File { mode, bytes, .. } => Ok(Item {
            head: Blob::from_slice(alloc, &header(*mode))?,
            body: bytes.copy()?,
        }),
        TreeRow::Link { target, .. } => Ok(Item {
            head: link_header(alloc, target.as_str())?,
            body: Blob::from_slice(alloc, &[])?,
        }),
    }
}

/// Returns the objects of the rows' files and symlinks by their digests. `Collision` if two
/// different objects have the same digest.
pub(crate) fn contents_of(
    alloc: Global,
    rows: &[TreeRow],
    digests: &[Digest],
) -> Result<Table, BuildError>
    requires good { AreGoodRows rows.now }
    requires digests { AreDigests rows.now digests.now }
    ensures contents { IfOk result (λ contents. AreContents rows.now contents.entries) }
    ensures error { IfErr result (IsFaultOfTables ⊥) }
{
    let mut contents = Table::new(alloc);
    for (at, row) in rows.iter().enumerate() {
        add_row(&mut contents, row, digests[at])?;
    }
    Ok(contents)
}

/// Adds the object of a row, if it isn't a directory's. `Collision` if a different object has its
/// digest.
fn add_row(contents: &mut Table, row: &TreeRow, digest: Digest) -> Result<(), BuildError>
    requires good { is_good_row row.now ≡ true }
    requires digest { IsDigestOf row.now digest }
    requires usable { AreUsable kinds.File contents.old.entries }
    ensures adds { OnOk result ((before : List TreeRow) → AreContents before contents.old.entries
        → AreContents (before ++ row.now ∷ []) contents.new.entries) }
    ensures error { IfErr result (IsFaultOfTables ⊥) }
{
    match object_of(row)? {
        Some(object) => put(contents, digest, object),
        None => Ok(()),
    }
}

/// Returns the object of a row, or `None` for a directory.
fn object_of(row: &TreeRow) -> Result<Option<Object>, AllocError>
    ensures { IfOk result (λ object. object ≡ object_by row.now) }
{
    match row {
        TreeRow::Dir(_) => Ok(None),
        TreeRow::File { mode, bytes, .. } => Ok(Some(Object::File {
            mode: *mode,
            bytes: bytes.copy()?,
        })),
        TreeRow::Link { target, .. } => Ok(Some(Object::Link(target.copy()?))),
    }
}
