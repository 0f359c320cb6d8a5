//! Commits of a remote that are too deep or have too many places.

use crate::offers::{URL, place, put, text};
use crate::pulls::pulled;
use crate::rows::agree;
use fp_base::{Blob, Items, ObjKind, Text};
use fp_memhost::{MemHost, MemNode, MemRemotes};
use fp_name::Digest;
use ost_content::{file_digest, meta_digest};
use ost_object::{
    Commit, DirEntry, DirMeta, DirTree, FileEntry, write_commit, write_dirmeta, write_dirtree,
};
use std::alloc::Global;
use std::panic::Expect;
use std::process::Abort;

/// Puts an object, a metadata object or the empty file, on the remote, and returns its digest.
fn put_object(
    rt: &impl Abort,
    alloc: Global,
    remotes: &mut MemRemotes,
    kind: ObjKind,
    bytes: Blob,
) -> Digest {
    let digest = match kind {
        ObjKind::File => file_digest(0o644, &[]),
        _ => meta_digest(bytes.as_slice()),
    };
    let at = place(rt, alloc, &digest, kind);
    put(rt, remotes, URL, &at, MemNode::File { mode: 0o644, bytes });
    digest
}

/// Returns the bytes of a dirtree with this number of files, each with this digest, and with a
/// directory of each name, all with this dirtree and dirmeta.
fn folder_of(
    rt: &impl Abort,
    alloc: Global,
    count: u32,
    digest: Digest,
    names: &[&str],
    tree: Digest,
    meta: Digest,
) -> Blob {
    let mut files = Items::new(alloc);
    for number in 0..count {
        let name = format!(in alloc; "{number:04}").expect(rt, "memory");
        let name = Text::from_string(name);
        files.push(FileEntry { name, digest }).expect(rt, "memory");
    }
    let mut dirs = Items::new(alloc);
    for name in names {
        let name = text(rt, alloc, name);
        dirs.push(DirEntry { name, tree, meta })
            .expect(rt, "memory");
    }
    write_dirtree(alloc, &DirTree { files, dirs }).expect(rt, "a dirtree")
}

/// Returns the bytes of the commit with this root.
fn commit_at(rt: &impl Abort, alloc: Global, tree: Digest, meta: Digest) -> Blob {
    let commit = Commit {
        metadata: Blob::from_vec(Vec::new(alloc)),
        parent: None,
        related: Blob::from_vec(Vec::new(alloc)),
        subject: text(rt, alloc, ""),
        body: text(rt, alloc, ""),
        timestamp: 0,
        tree,
        meta,
    };
    write_commit(alloc, &commit).expect(rt, "a commit")
}

/// Puts a commit with this number of levels below the root on the remote, and returns its digest.
/// In each level all names are the same directory, and the last level has the files.
fn put_levels(
    rt: &impl Abort,
    alloc: Global,
    remotes: &mut MemRemotes,
    names: &[&str],
    levels: u32,
    files: u32,
) -> Digest {
    let none = Blob::from_vec(Vec::new(alloc));
    let file = put_object(rt, alloc, remotes, ObjKind::File, none);
    let meta = write_dirmeta(alloc, &DirMeta { mode: 0o40755 }).expect(rt, "a dirmeta");
    let meta = put_object(rt, alloc, remotes, ObjKind::DirMeta, meta);
    let last = folder_of(rt, alloc, files, file, &[], meta, meta);
    let mut tree = put_object(rt, alloc, remotes, ObjKind::DirTree, last);
    for _ in 0..levels {
        let upper = folder_of(rt, alloc, 0, file, names, tree, meta);
        tree = put_object(rt, alloc, remotes, ObjKind::DirTree, upper);
    }
    let commit = commit_at(rt, alloc, tree, meta);
    put_object(rt, alloc, remotes, ObjKind::Commit, commit)
}

/// The names in each directory, the number of levels, the number of files in the last one, the
/// refusal of a pull, and the number of lines of the refusal and the stored objects. Ten levels of
/// two names, with 1,024 files in each directory of the last one, are 2^20 places.
const LEVELS: &[(&[&str], u32, u32, &str, usize)] = &[
    (&["a"], 64, 1, "", 68),
    (&["a"], 65, 1, "error: limit depth 65\n", 1),
    (&["a", "b"], 10, 1024, "error: limit objects 200001\n", 1),
];

#[test]
fn levels_and_places_have_limits(rt: HostRuntime) {
    let alloc = rt.alloc();
    for (names, levels, files, line, count) in LEVELS {
        let mut host = MemHost::new(alloc).expect(&rt, "memory");
        let mut remotes = MemRemotes::new(alloc).expect(&rt, "memory");
        let commit = put_levels(&rt, alloc, &mut remotes, names, *levels, *files);
        let lines = pulled(&rt, alloc, &mut host, &mut remotes, URL, &commit);
        let is_so = lines.starts_with(line) && lines.lines().count() == *count;
        agree(&rt, line, is_so);
    }
}
