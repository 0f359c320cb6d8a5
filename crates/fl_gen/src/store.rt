//! Stores in memory: files and links by their paths.
ghost use Rattle.std.specs.Prelude.{◌≡◌, ◌≤◌, ◌↔◌, ◌∷◌, [], ◌++◌, true, None, IsTrue, IfOk, IfSome, OnOk, IsErrOf, length};
ghost use Rattle.std.specs.List.{list_all, list_any};
ghost use Rattle.std.specs.Option.{option_copied};
ghost use Rattle.fp_host.specs.Remote.{IsNode, HasNodeBits, CameFrom, bytes_of};
ghost use Rattle.fp_host.specs.Outcome.{Spot, holds, points};
ghost use Rattle.ost_export.specs.Remotes.{held_of};
ghost use Rattle.fl_gen.specs.Stores.{spot_by};
ghost use Rattle.fl_gen.specs.Keeping.{Adds, covers as is_below, has_bits, disk_of_rows, leaf_bits, leaf_spot, row_at, row_spot_of};

use fp_base::{Blob, Text};
use fp_host::{Node, Path, RemoteError, copy_out};
use std::alloc::{AllocError, Global};

/// A file or a link of a store.
#[derive(Drop)]
pub(crate) enum Leaf {
    /// A file's permission bits, at most 0o7777, and its bytes.
    File { mode: u32, bytes: Blob },
    /// A symlink's text.
    Link(Text),
}

/// A path, and the file or link at it.
#[derive(Drop)]
pub(crate) struct Row {
    path: Path,
    leaf: Leaf,
}

/// A store: files and links by their paths, each path once. The paths above them are directories.
#[derive(Drop)]
pub(crate) struct Store {
    rows: Vec<Row>,
    ghost bits: { list_all has_bits rows.items ≡ true },
}

/// Returns whether a leaf is a file with these permission bits and bytes.
fn is_file(leaf: &Leaf, mode: u32, bytes: &[u8]) -> bool
    ensures { IsTrue result ↔ (leaf_spot leaf.now ≡ holds 0 mode bytes.now) }
{
    match leaf {
        Leaf::File {
            mode: other,
            bytes: others,
        } => *other == mode && others.as_slice() == bytes,
        Leaf::Link(_) => false,
    }
}

/// Returns whether a leaf is a link with this text.
fn is_link(leaf: &Leaf, text: &str) -> bool
    ensures { IsTrue result ↔ (leaf_spot leaf.now ≡ points text.now) }
{
    match leaf {
        Leaf::Link(other) => other.as_str() == text,
        Leaf::File { .. } => false,
    }
}

/// Returns whether two leaves are the same file or the same link.
fn are_same(a: &Leaf, b: &Leaf) -> bool
    ensures { IsTrue result ↔ (leaf_spot b.now ≡ leaf_spot a.now) }
{
    match a {
        Leaf::File { mode, bytes } => is_file(b, *mode, bytes.as_slice()),
        Leaf::Link(text) => is_link(b, text.as_str()),
    }
}

/// Checks that two leaves are the same. Errs with `AllocError` if they differ.
fn agree(there: &Leaf, leaf: &Leaf) -> Result<(), AllocError>
    ensures { OnOk result (leaf_spot there.now ≡ leaf_spot leaf.now) }
{
    if are_same(leaf, there) {
        Ok(())
    } else {
        Err(AllocError)
    }
}

/// Returns the row of a path, if there is one.
fn find<'a>(rows: &'a [Row], path: &Path) -> Option<&'a Row>
    ensures { option_copied result ≡ row_at rows.now path.now }
{
    rows.iter().find(|row| path.is(&row.path))
}

/// Returns whether a row is below a path.
fn is_below(row: &Row, path: &Path) -> bool
    ensures { result ≡ is_below path.now row.now }
{
    path.is_above(&row.path)
}

/// Returns whether some row is below a path.
fn is_folder(rows: &[Row], path: &Path) -> bool
    ensures { result ≡ list_any (is_below path.now) rows.now }
{
    rows.iter().any(|row| is_below(row, path))
}

/// Returns the node of a row: its file or link. Without a row it is a directory or absent.
fn node_of(row: Option<&Row>, is_folder: bool) -> Result<Node, RemoteError>
    requires { IfSome row (λ r. has_bits r.now ≡ true) }
    ensures node { IfOk result
        (IsNode (held_of (spot_by (row_spot_of (option_copied row.entry)) is_folder))) }
    ensures bits { IfOk result HasNodeBits }
    ensures never { IsErrOf result RemoteError.Failed → ⊥ }
{
    match row {
        Some(row) => match &row.leaf {
            Leaf::File { mode, bytes } => Ok(Node::File {
                mode: *mode,
                size: bytes.len() as u64,
            }),
            Leaf::Link(text) => match text.copy() {
                Ok(text) => Ok(Node::Link(text)),
                Err(_) => Err(RemoteError::NoMemory),
            },
        },
        None if is_folder => Ok(Node::Dir),
        None => Ok(Node::Absent),
    }
}

/// Copies bytes of a row's file into a buffer, and returns their number. A link has none.
fn read_row(row: &Row, at: u64, into: &mut [u8]) -> usize
    ensures came { CameFrom (bytes_of (held_of (leaf_spot row.now.leaf))) at into.new result }
    ensures bound { result ≤ length into.old }
{
    match &row.leaf {
        Leaf::File { bytes, .. } => copy_out(bytes.as_slice(), at, into),
        Leaf::Link(_) => 0,
    }
}

impl Store {
    /// Creates an empty store.
    pub(crate) fn new(alloc: Global) -> Self
        ensures { result.rows.items ≡ [] }
    {
        Store {
            rows: Vec::new(alloc),
        }
    }

    /// Adds a file or a link at a path. Errs with `AllocError` if another one is already there,
    /// which happens only if two objects have the same digest.
    pub(crate) fn put(&mut self, path: Path, leaf: Leaf) -> Result<(), AllocError>
        requires { leaf_bits leaf ≡ true }
        ensures { OnOk result (Adds ((path, leaf_spot leaf) ∷ []) self.old.rows.items
            self.new.rows.items) }
    {
        match find(&self.rows, &path) {
            Some(there) => agree(&there.leaf, &leaf),
            None => {
                self.rows.push(Row { path, leaf })?;
                Ok(())
            }
        }
    }

    /// Returns the node at a path. Errs only if memory runs out.
    pub(crate) fn node(&self, path: &Path) -> Result<Node, RemoteError>
        ensures node { IfOk result (IsNode (held_of (disk_of_rows self.now.rows.items path.now))) }
        ensures bits { IfOk result HasNodeBits }
        ensures never { IsErrOf result RemoteError.Failed → ⊥ }
    {
        let is_folder = is_folder(&self.rows, path);
        node_of(find(&self.rows, path), is_folder)
    }

    /// Copies bytes of the file at a path, from this offset on, into a buffer, and returns their
    /// number. It is 0 if there is no file at the path.
    pub(crate) fn read_at(&self, path: &Path, at: u64, into: &mut [u8]) -> usize
        ensures came { CameFrom (bytes_of (held_of (disk_of_rows self.now.rows.items path.now))) at
            into.new result }
        ensures bound { result ≤ length into.old }
    {
        match find(&self.rows, path) {
            Some(row) => read_row(row, at, into),
            None => 0,
        }
    }
}
