//! Commits of a few files and of many on a remote. `scripts/ostree_pulls.py` makes the same commits
//! with the `ostree` command.

use fp_base::{Blob, ObjKind, Text};
use fp_host::Path;
use fp_memhost::{MemNode, MemRemotes};
use fp_name::{Digest, RefName};
use ost_commit::{Built, TreeRow, commit_tree};
use ost_model::Object;
use ost_store::path_of;
use std::alloc::Global;
use std::panic::Expect;
use std::process::Abort;
use std::thread::Threads;

/// The URL of the remote.
pub const URL: &str = "file:///srv/lab";

/// Returns the path of a text.
pub fn path(rt: &impl Abort, alloc: Global, text: &str) -> Path {
    Path::parse(alloc, text).expect(rt, "a path")
}

/// Makes a text.
pub fn text(rt: &impl Abort, alloc: Global, text: &str) -> Text {
    Text::from_str(alloc, text).expect(rt, "memory")
}

/// Returns the bytes of a text in which `|` stands for a newline; `zeros:N` is N zero bytes.
fn bytes_of(rt: &impl Abort, alloc: Global, content: &str) -> Blob {
    let bytes = match content.strip_prefix("zeros:") {
        Some(count) => vec![in alloc; 0u8; count.parse::<usize>().unwrap_or(0)],
        None => {
            let lines = content.replace(alloc, "|", "\n").expect(rt, "memory");
            Vec::from_slice(alloc, lines.as_bytes())
        }
    };
    Blob::from_vec(bytes.expect(rt, "memory"))
}

/// Parses a row of a tree: `dir PATH`, `link PATH TEXT`, or the permission bits of a file, its path
/// and its content as in `bytes_of`.
fn tree_row(rt: &impl Abort, alloc: Global, row: &str) -> TreeRow {
    let (kind, rest) = row.split_once(' ').unwrap_or((row, ""));
    let (place, content) = rest.split_once(' ').unwrap_or((rest, ""));
    let path = path(rt, alloc, place);
    match kind {
        "dir" => TreeRow::Dir(path),
        "link" => TreeRow::Link {
            path,
            target: text(rt, alloc, content),
        },
        bits => TreeRow::File {
            path,
            mode: u32::from_str_radix(bits, 8).unwrap_or(0),
            bytes: bytes_of(rt, alloc, content),
        },
    }
}

/// Builds the commit of a tree with these rows.
pub fn commit_of(rt: &(impl Abort + Threads + Sync), alloc: Global, rows: &str) -> Built {
    let mut tree = Vec::new(alloc);
    for row in rows.lines() {
        tree.push(tree_row(rt, alloc, row)).expect(rt, "memory");
    }
    let name = app(rt, alloc);
    commit_tree(rt, alloc, &tree, &name, "subject", 1_700_000_000).expect(rt, "a commit")
}

/// Returns the ref to which the commits are bound.
pub fn app(rt: &impl Abort, alloc: Global) -> RefName {
    RefName::parse(alloc, b"app/org.example.App/x86_64/stable").expect(rt, "a ref")
}

/// The rows of two files with the same content, a symlink, an empty directory, and `metadata`.
pub const FEW: &str = "\
644 metadata [Application]|name=org.example.App|runtime=org.example.Platform/x86_64/1|
755 files/bin/run #!/bin/sh|
755 files/bin/again #!/bin/sh|
link files/link bin/run
dir empty
";

/// Returns the rows of 300 files and symlinks in 40 directories, and of `metadata`.
pub fn many(rt: &impl Abort, alloc: Global) -> String {
    let metadata = FEW.lines().next().unwrap_or("");
    let mut rows = [metadata, "\n"].concat(alloc).expect(rt, "memory");
    for i in 0usize..300 {
        let place = format!(in alloc; "files/d{}/e{}/f{i}", i % 8, i % 5).expect(rt, "memory");
        let bits = if i % 3 == 0 { 755 } else { 644 };
        let row = if i % 10 == 9 {
            format!(in alloc; "link {place} f{}\n", i % 70)
        } else {
            format!(in alloc; "{bits} {place} text {}|\n", i % 130)
        };
        rows.push_str(&row.expect(rt, "memory"))
            .expect(rt, "memory");
    }
    rows
}

/// Puts a node at the path of the remote with this URL.
pub fn put(rt: &impl Abort, remotes: &mut MemRemotes, url: &str, place: &Path, node: MemNode) {
    assert!(rt; remotes.can_put(url, place, &node));
    remotes.put(url, place, node).expect(rt, "memory");
}

/// Returns the path of an object on the remote.
pub fn place(rt: &impl Abort, alloc: Global, digest: &Digest, kind: ObjKind) -> Path {
    path_of(alloc, &Path::root(alloc), digest, kind).expect(rt, "a path")
}

/// Returns the node of an object on a remote.
fn node_of(rt: &impl Abort, object: &Object) -> MemNode {
    match object {
        Object::Meta(bytes) => MemNode::File {
            mode: 0o644,
            bytes: bytes.copy().expect(rt, "memory"),
        },
        Object::File { mode, bytes } => MemNode::File {
            mode: *mode,
            bytes: bytes.copy().expect(rt, "memory"),
        },
        Object::Link(text) => MemNode::Link(text.copy().expect(rt, "memory")),
    }
}

/// Returns what a row has in place of this object, if anything.
///
/// A row is a list of words `OBJECT=WHAT`, one for each such object. WHAT is `nothing`,
/// `link:TEXT`, or a file by its permission bits and its bytes, such as `644:00ff` or
/// `644:zeros:N`. After `in/`, the object's path is a directory, and the node is below it.
fn instead_of<'a>(row: &'a str, digest: &Digest) -> Option<&'a str> {
    let digits = digest.digits();
    for word in row.split(' ') {
        let (object, what) = word.split_once('=').unwrap_or((word, "nothing"));
        if object.as_bytes().starts_with(digits.as_slice()) {
            return Some(what);
        }
    }
    None
}

/// Parses a node: a symlink, or a file with its permission bits.
fn node_by(rt: &impl Abort, alloc: Global, what: &str) -> MemNode {
    let (kind, content) = what.split_once(':').unwrap_or((what, ""));
    if kind == "link" {
        return MemNode::Link(text(rt, alloc, content));
    }
    let bytes = if content.starts_with("zeros:") {
        bytes_of(rt, alloc, content)
    } else {
        Blob::from_vec(hex::decode(alloc, content).expect(rt, "digits"))
    };
    let mode = u32::from_str_radix(kind, 8).unwrap_or(0);
    MemNode::File { mode, bytes }
}

/// Puts what a row has in place of an object on the remote.
fn put_instead(
    rt: &impl Abort,
    alloc: Global,
    remotes: &mut MemRemotes,
    url: &str,
    at: &Path,
    what: &str,
) {
    match what.strip_prefix("in/") {
        Some(what) => {
            let within = at.child("within").expect(rt, "a path");
            put(rt, remotes, url, &within, node_by(rt, alloc, what));
        }
        None if what == "nothing" => {}
        None => put(rt, remotes, url, at, node_by(rt, alloc, what)),
    }
}

/// Makes a remote with this URL that has the commit, except for what the row has in place of
/// objects.
pub fn offered(rt: &impl Abort, alloc: Global, url: &str, built: &Built, row: &str) -> MemRemotes {
    let mut remotes = MemRemotes::new(alloc).expect(rt, "memory");
    for object in built.objects.as_slice() {
        let at = place(rt, alloc, &object.digest, object.kind);
        match instead_of(row, &object.digest) {
            Some(what) => put_instead(rt, alloc, &mut remotes, url, &at, what),
            None => put(rt, &mut remotes, url, &at, node_of(rt, &object.object)),
        }
    }
    remotes
}
