//! The list of a commit's paths, each after the directory that contains it.
ghost use Rattle.std.specs.Prelude.{◌≡◌, ◌≤◌, ◌<◌, ◌+◌, ◌∷◌, [], leb, length, IfOk, IsErrOf, OnOk};
ghost use Rattle.fp_host.specs.OverHost.{AtReturn, ChangesNothing, FailsOnly};
ghost use Rattle.ost_checkout.specs.Listing.{IsDirAt, ExpandsDir, Expands, CanExpandDir, CanExpand, IsFirstRow, HasRows, CanListRows, most_rows};
ghost use Rattle.ost_checkout.specs.Reading.{HasCommit};

use crate::reading::{read_root, read_tree};
use crate::rows::{Entry, Row, add_rows};
use fp_host::{Host, HostEnd, Path};
use fp_name::Digest;
use ost_model::MOST_OBJECTS;
use ost_object::DirTree;
use std::alloc::{AllocError, Global};

/// Returns whether a list of `listed` rows has room for the entries of a dirtree.
fn has_room(listed: usize, tree: &DirTree) -> bool
    requires { listed ≤ most_rows }
    ensures { result ≡ leb (listed + (length tree.now.files + length tree.now.dirs)) most_rows }
{
    let files = tree.files.len();
    let dirs = tree.dirs.len();
    let left = MOST_OBJECTS - listed;
    files <= left && dirs <= left - files
}

/// Appends the entries of a directory, given by its dirtree and its path. Errs with `Fault` if
/// there would be more rows than a commit may have objects.
fn expand_dir<H: Host>(
    alloc: Global,
    host: &mut H,
    root: &Path,
    digest: &Digest,
    path: &Path,
    rows: &mut Vec<Row>,
) -> Result<(), HostEnd>
    requires { length rows.old.items ≤ most_rows }
    ensures unchanged { ChangesNothing H.Host host.old host.new }
    ensures grown { OnOk result (AtReturn H.Host host.old host.new
        (λ u w. ExpandsDir root.now digest.now path.now u rows.old.items rows.new.items)) }
    ensures most { OnOk result (length rows.new.items ≤ most_rows) }
    ensures fault_has_cause { FailsOnly H.Host host.old host.new
        (CanExpandDir root.now digest.now (length rows.old.items)) (IsErrOf result HostEnd.Fault) }
{
    let tree = read_tree(alloc, host, root, digest)?;
    if !has_room(rows.len(), &tree) {
        return Err(HostEnd::Fault);
    }
    Ok(add_rows(path, &tree, rows)?)
}

/// Returns the dirtree and the path of the directory at this index, or `None` for a file or
/// symlink.
fn dir_at(rows: &[Row], at: usize) -> Result<Option<(Digest, Path)>, AllocError>
    requires { at < length rows.now }
    ensures { IfOk result (IsDirAt rows.now at) }
{
    let row = &rows[at];
    match row.entry {
        Entry::Dir { tree, .. } => Ok(Some((tree, row.path.copy()?))),
        Entry::File(_) => Ok(None),
    }
}

/// Appends the entries of the directory at this index. Does nothing for a file or symlink.
fn expand<H: Host>(
    alloc: Global,
    host: &mut H,
    root: &Path,
    at: usize,
    rows: &mut Vec<Row>,
) -> Result<(), HostEnd>
    requires low { at < length rows.old.items }
    requires most { length rows.old.items ≤ most_rows }
    ensures unchanged { ChangesNothing H.Host host.old host.new }
    ensures grown { OnOk result (AtReturn H.Host host.old host.new
        (λ u w. Expands root.now at u rows.old.items rows.new.items)) }
    ensures most { OnOk result (length rows.new.items ≤ most_rows) }
    ensures fault_has_cause { FailsOnly H.Host host.old host.new
        (CanExpand root.now at rows.old.items) (IsErrOf result HostEnd.Fault) }
{
    match dir_at(rows, at)? {
        Some((tree, path)) => expand_dir(alloc, host, root, &tree, &path, rows),
        None => Ok(()),
    }
}

/// Returns the row of the checkout's directory itself.
fn first_row<H: Host>(
    alloc: Global,
    host: &mut H,
    root: &Path,
    commit: &Digest,
    to: &Path,
) -> Result<Row, HostEnd>
    ensures unchanged { ChangesNothing H.Host host.old host.new }
    ensures tells { IfOk result (λ row. AtReturn H.Host host.old host.new
        (λ u w. IsFirstRow root.now commit.now to.now u row)) }
    ensures fault_has_cause { FailsOnly H.Host host.old host.new
        (HasCommit root.now commit.now) (IsErrOf result HostEnd.Fault) }
{
    let found = read_root(alloc, host, root, commit)?;
    Ok(Row {
        path: to.copy()?,
        entry: Entry::Dir {
            tree: found.tree,
            meta: found.meta,
        },
    })
}

/// Returns a list of one row.
fn row_alone(alloc: Global, row: Row) -> Result<Vec<Row>, AllocError>
    ensures { IfOk result (λ rows. rows.items ≡ row ∷ []) }
{
    let mut rows = Vec::new(alloc);
    rows.push(row)?;
    Ok(rows)
}

/// Lists the paths of the commit in the checkout's directory, each after the directory that
/// contains it. Condition: the commit has no fault in the store.
pub(crate) fn list_rows<H: Host>(
    alloc: Global,
    host: &mut H,
    root: &Path,
    commit: &Digest,
    to: &Path,
) -> Result<Vec<Row>, HostEnd>
    ensures unchanged { ChangesNothing H.Host host.old host.new }
    ensures tells { IfOk result (λ rows. AtReturn H.Host host.old host.new
        (λ u w. HasRows root.now commit.now to.now u rows.items)) }
    ensures fault_has_cause { FailsOnly H.Host host.old host.new
        (CanListRows root.now commit.now) (IsErrOf result HostEnd.Fault) }
{
    let first = first_row(alloc, host, root, commit, to)?;
    let mut rows = row_alone(alloc, first)?;
    let mut next: usize = 0;
    while next < rows.len() {
        expand(alloc, host, root, next, &mut rows)?;
        next += 1;
    }
    Ok(rows)
}
