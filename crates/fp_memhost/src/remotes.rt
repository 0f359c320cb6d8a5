//! The remotes in memory.
ghost use Rattle.std.specs.Prelude.{◌≡◌, ◌≤◌, ◌↔◌, None, Some, IsTrue, IfOk, IfSome, OnOk, OnErr, IsErrOf, MatchOption, true, length, eqb};
ghost use Rattle.std.specs.List.{list_all, list_any};
ghost use Rattle.std.specs.Option.{option_copied};
ghost use Rattle.fp_host.specs.Remote.{IsNode, HasNodeBits, CameFrom, bytes_of, directory};
ghost use Rattle.fp_memhost.specs.Holding.{node_bits, node_held};
ghost use Rattle.fp_memhost.specs.RemoteRows.{has_bits, is_row, row_at, covers, stands_over, PutsRow, IsRowAt, held_in, held_of};

use crate::folders::is_below;
use crate::story::Keeper;
use fp_base::{Blob, Text};
use fp_host::{Node, PERMISSION_BITS, Path, RemoteError, Remotes, copy_out};
use std::alloc::{AllocError, Global};

/// A node that can be put at a path of a remote.
#[derive(Drop)]
pub enum MemNode {
    /// A file: its permission bits (at most 0o7777) and its bytes.
    File { mode: u32, bytes: Blob },
    /// A symlink, by its text.
    Link(Text),
}

/// The node at a path of a URL.
#[derive(Drop)]
struct Row {
    url: String,
    path: Path,
    node: MemNode,
}

/// Remotes in memory, for tests. The ancestors of each node are directories.
#[derive(Drop)]
pub struct MemRemotes {
    rows: Vec<Row>,
    failing: Vec<u64>,
    calls: u64,
    faults: u64,
    ghost bits: { list_all has_bits rows.items ≡ true },
}

impl MemNode {
    /// Returns whether the permission bits are at most 0o7777; true for a symlink.
    fn has_bits(&self) -> bool
        ensures { result ≡ node_bits self.now }
    {
        match self {
            MemNode::File { mode, .. } => *mode <= PERMISSION_BITS,
            MemNode::Link(_) => true,
        }
    }
}

/// Returns whether this is the row of the URL and the path.
fn is_row(row: &Row, url: &str, path: &Path) -> bool
    ensures { result ≡ is_row url.now path.now row.now }
{
    url == row.url.as_str() && path.is(&row.path)
}

/// Returns the index of the row of this URL and path.
fn find_row(rows: &[Row], url: &str, path: &Path) -> Option<usize>
    ensures { MatchOption result (row_at rows.now url.now path.now ≡ None)
        (IsRowAt rows.now url.now path.now) }
{
    for (i, row) in rows.iter().enumerate() {
        if is_row(row, url, path) {
            return Some(i);
        }
    }
    None
}

/// Returns the row of this URL and path.
fn find<'a>(rows: &'a [Row], url: &str, path: &Path) -> Option<&'a Row>
    ensures { option_copied result ≡ row_at rows.now url.now path.now }
{
    match find_row(rows, url, path) {
        Some(at) => Some(&rows[at]),
        None => None,
    }
}

/// Returns whether a row of the URL is below the path.
fn is_folder(rows: &[Row], url: &str, path: &Path) -> bool
    ensures { result ≡ list_any (covers url.now path.now) rows.now }
{
    rows.iter().any(|row| url == row.url.as_str() && is_below(&row.path, path.text()))
}

/// Returns whether a row of the URL is an ancestor of the path.
fn has_leaf_above(rows: &[Row], url: &str, path: &Path) -> bool
    ensures { result ≡ list_any (stands_over url.now path.now) rows.now }
{
    rows.iter().any(|row| url == row.url.as_str() && is_below(path, row.path.text()))
}

/// Returns whether the path is a directory: it has no row, but one is below it.
fn holds_folder(rows: &[Row], url: &str, path: &Path) -> bool
    ensures { IsTrue result ↔ (held_of rows.now url.now path.now ≡ directory) }
{
    match find(rows, url, path) {
        Some(_) => false,
        None => is_folder(rows, url, path),
    }
}

/// Replaces the node of the row of this URL and path, or adds a row. If memory runs out, nothing
/// changes.
fn put_row(rows: &mut Vec<Row>, url: &str, path: &Path, node: MemNode) -> Result<(), AllocError>
    ensures ok { OnOk result (PutsRow url.now path.now node rows.old.items rows.new.items) }
    ensures err { OnErr result (rows.new.items ≡ rows.old.items) }
{
    match find_row(rows, url, path) {
        Some(at) => {
            let row = &mut rows[at];
            row.node = node;
        }
        None => {
            let url = url.to_string(*rows.allocator())?;
            let path = path.copy()?;
            rows.push(Row { url, path, node })?;
        }
    }
    Ok(())
}

impl MemRemotes {
    ghost use Rattle.std.specs.Prelude.{◌≡◌, ◌↔◌, ℕ, List, Some, IsTrue, IfOk, OnOk, OnErr, false, eqb};
    ghost use Rattle.std.specs.List.{list_any};
    ghost use Rattle.fp_host.specs.Paths.{Elements};
    ghost use Rattle.fp_host.specs.Remote.{nothing};
    ghost use Rattle.fp_memhost.specs.Holding.{CanPut, put_held, node_held};
    ghost use Rattle.fp_memhost.specs.Keepings.{keeping_of, holdings_of, Fails};

    /// Creates empty remotes.
    pub fn new(alloc: Global) -> Result<Self, AllocError>
        ensures holds { IfOk result (λ r. ⟦<MemRemotes as Remotes>⟧.holds r ≡ Some
            (λ url path. nothing)) }
        ensures keeping { IfOk result (λ r. ⟦<MemRemotes as Keeper>⟧.keeping r ≡ record
            { calls = 0; fails = λ n. false }) }
        ensures faults { IfOk result (λ r. ⟦<MemRemotes as Remotes>⟧.faults r ≡ 0) }
    {
        Ok(MemRemotes {
            rows: Vec::new(alloc),
            failing: Vec::new(alloc),
            calls: 0,
            faults: 0,
        })
    }

    /// Returns whether the node can be put at the path of the URL: the path isn't the root and no
    /// directory, no file or symlink is an ancestor of it, and a file's permission bits are at most
    /// 0o7777.
    pub fn can_put(&self, url: &str, path: &Path, node: &MemNode) -> bool
        ensures { IsTrue result ↔ CanPut (holdings_of self.now url.now) path.now node.now }
    {
        if path.is_root() {
            return false;
        }
        if !node.has_bits() {
            return false;
        }
        if holds_folder(&self.rows, url, path) {
            return false;
        }
        !has_leaf_above(&self.rows, url, path)
    }

    /// Puts a file or a symlink at the path of the URL, and directories at the path's ancestors. It
    /// replaces a file or symlink that is there. If memory runs out, nothing changes.
    pub fn put(&mut self, url: &str, path: &Path, node: MemNode) -> Result<(), AllocError>
        requires { CanPut (holdings_of self.old url.now) path.now node }
        ensures ok { OnOk result ((u : List ℕ) (q : Elements) → holdings_of self.new u q ≡ put_held
            (holdings_of self.old) url.now path.now (node_held node) u q) }
        ensures err { OnErr result (holdings_of self.new ≡ holdings_of self.old) }
        ensures keeping { keeping_of self.new ≡ keeping_of self.old }
        ensures faults { ⟦<MemRemotes as Remotes>⟧.faults self.new ≡
            ⟦<MemRemotes as Remotes>⟧.faults self.old }
    {
        put_row(&mut self.rows, url, path, node)
    }

    /// Makes the calls with these numbers, counted from 0 over all calls, fail. The list replaces
    /// an earlier one. Errs if memory runs out, and then nothing changes.
    pub fn fail_calls(&mut self, list: &[u64]) -> Result<(), AllocError>
        ensures ok { OnOk result (keeping_of self.new ≡ record (keeping_of self.old)
            { fails = λ n. list_any (λ x. eqb x n) list.now }) }
        ensures err { OnErr result (keeping_of self.new ≡ keeping_of self.old) }
        ensures holds { holdings_of self.new ≡ holdings_of self.old }
        ensures faults { ⟦<MemRemotes as Remotes>⟧.faults self.new ≡
            ⟦<MemRemotes as Remotes>⟧.faults self.old }
    {
        self.failing = list.to_vec(*self.failing.allocator())?;
        Ok(())
    }

    /// Counts the call, and returns whether it is to fail. If so, counts a fault too.
    fn fails(&mut self) -> bool
        ensures { Fails self.old self.new result }
    {
        let call = self.calls;
        self.calls = self.calls.saturating_add(1);
        if !is_listed(&self.failing, call) {
            return false;
        }
        self.faults = self.faults.saturating_add(1);
        true
    }
}

/// Returns whether the number of the call is in the list.
fn is_listed(list: &[u64], call: u64) -> bool
    ensures { result ≡ list_any (λ x. eqb x call) list.now }
{
    list.iter().any(|number| *number == call)
}

impl Keeper for MemRemotes {
    ghost use Rattle.fp_memhost.specs.Keepings.{keeping_of};

    ghost keeping = { keeping_of };
}

/// Returns the node of a row; without a row, a directory or `Absent`.
fn node_of(alloc: Global, row: Option<&Row>, is_folder: bool) -> Result<Node, RemoteError>
    requires { IfSome row (λ r. has_bits r.now ≡ true) }
    ensures node { IfOk result (IsNode (held_in (option_copied row.entry) is_folder)) }
    ensures bits { IfOk result HasNodeBits }
    ensures needs_no_memory { IsErrOf result RemoteError.Failed → ⊥ }
{
    match row {
        Some(row) => match &row.node {
            MemNode::File { mode, bytes } => Ok(Node::File {
                mode: *mode,
                size: bytes.len() as u64,
            }),
            MemNode::Link(text) => match text.copy() {
                Ok(text) => Ok(Node::Link(text)),
                Err(_) => Err(RemoteError::NoMemory),
            },
        },
        None if is_folder => Ok(Node::Dir),
        None => Ok(Node::Absent),
    }
}

impl Remotes for MemRemotes {
    ghost use Rattle.std.specs.Prelude.{◌≡◌, ◌≤◌, Some, IfOk, IsErrOf, length};
    ghost use Rattle.fp_host.specs.Moments.{Rose};
    ghost use Rattle.fp_host.specs.Remote.{Holdings, IsNode, HasNodeBits, bytes_of, CameFrom};
    ghost use Rattle.fp_memhost.specs.Holding.{Numbers};
    ghost use Rattle.fp_memhost.specs.Keepings.{keeping_of, holdings_of};

    ghost holds = { λ r. Some (holdings_of r) };

    ghost faults = { λ r. r.faults };

    fn node(&mut self, alloc: Global, url: &str, path: &Path) -> Result<Node, RemoteError>
        ensures same { Some (holdings_of self.new) ≡ Some (holdings_of self.old) }
        ensures tells { (held : Holdings) → Some (holdings_of self.old) ≡ Some held → IfOk result
            (IsNode (held url.now path.now)) }
        ensures bits { IfOk result HasNodeBits }
        ensures later { self.old.faults ≤ self.new.faults }
        ensures failed { IsErrOf result RemoteError.Failed → Rose self.old.faults self.new.faults }
        ensures numbers { Numbers (keeping_of self.old) (keeping_of self.new) result }
    {
        if self.fails() {
            return Err(RemoteError::Failed);
        }
        let is_folder = is_folder(&self.rows, url, path);
        node_of(alloc, find(&self.rows, url, path), is_folder)
    }

    fn read_at(
        &mut self,
        url: &str,
        path: &Path,
        at: u64,
        into: &mut [u8],
    ) -> Result<usize, RemoteError>
        ensures same { Some (holdings_of self.new) ≡ Some (holdings_of self.old) }
        ensures tells { (held : Holdings) → Some (holdings_of self.old) ≡ Some held → IfOk result
            (CameFrom (bytes_of (held url.now path.now)) at into.new) }
        ensures bound { IfOk result (λ n. n ≤ length into.old) }
        ensures later { self.old.faults ≤ self.new.faults }
        ensures failed { IsErrOf result RemoteError.Failed → Rose self.old.faults self.new.faults }
        ensures needs_no_memory { IsErrOf result RemoteError.NoMemory → ⊥ }
        ensures numbers { Numbers (keeping_of self.old) (keeping_of self.new) result }
    {
        if self.fails() {
            return Err(RemoteError::Failed);
        }
        match find(&self.rows, url, path) {
            Some(row) => Ok(read_row(row, at, into)),
            None => Ok(0),
        }
    }
}

/// Reads bytes of the row's file from the byte offset `at` on, as many as fit or are left, and
/// returns their number, which is 0 for a symlink.
fn read_row(row: &Row, at: u64, into: &mut [u8]) -> usize
    ensures came { CameFrom (bytes_of (node_held row.now.node)) at into.new result }
    ensures bound { result ≤ length into.old }
{
    match &row.node {
        MemNode::File { bytes, .. } => copy_out(bytes.as_slice(), at, into),
        MemNode::Link(_) => 0,
    }
}
