//! A pull, and `fsck` over the store that it filled: the objects of a batch are hashed by
//! several threads, of which the test sees two at once.

use crate::meeting::MeetingGate;
use fl_top::run_gated;
use fp_base::{Blob, Items};
use fp_host::{Host, Path, Remotes};
use fp_memhost::{MemHost, MemNode, MemRemotes, MemSource};
use fp_name::{Digest, RefName};
use ost_commit::{Built, BuiltObject, TreeRow, commit_tree};
use ost_model::Object;
use ost_pull::laws::pulls_can_be_done;
use ost_pull::pull_gated;
use ost_store::path_of;
use par_digest::Gate;
use std::alloc::{AllocError, Global};
use std::panic::Expect;
use std::process::Abort;
use std::thread::Threads;

/// The URL of the remote.
const URL: &str = "file:///srv/lab";

/// Makes a file in the root directory, with its number in decimal as its name and its content.
fn file(rt: &impl Abort, alloc: Global, number: u32) -> TreeRow {
    let digits = format!(in alloc; "{number}").expect(rt, "memory");
    TreeRow::File {
        path: Path::parse(alloc, &digits).expect(rt, "a path"),
        mode: 0o644,
        bytes: Blob::from_slice(alloc, digits.as_bytes()).expect(rt, "memory"),
    }
}

/// Makes 40 files, of one or two bytes each.
fn files(rt: &impl Abort, alloc: Global) -> Vec<TreeRow> {
    let mut rows = Vec::new(alloc);
    for number in 0..40 {
        rows.push(file(rt, alloc, number)).expect(rt, "memory");
    }
    rows
}

/// Builds the commit of the 40 files.
fn built_commit<T: Threads + Sync + Abort>(rt: &T, alloc: Global) -> Built {
    let name = RefName::parse(alloc, b"app/org.example.App/x86_64/stable").expect(rt, "a ref");
    commit_tree(rt, alloc, &files(rt, alloc), &name, "subject", 7).expect(rt, "a commit")
}

/// Returns the remote's node for an object.
fn node_of(object: &Object) -> Result<MemNode, AllocError> {
    match object {
        Object::Meta(bytes) => Ok(MemNode::File {
            mode: 0o644,
            bytes: bytes.copy()?,
        }),
        Object::File { mode, bytes } => Ok(MemNode::File {
            mode: *mode,
            bytes: bytes.copy()?,
        }),
        Object::Link(text) => Ok(MemNode::Link(text.copy()?)),
    }
}

/// Puts an object into the remote, if the node can be put there.
fn put(rt: &impl Abort, alloc: Global, remotes: &mut MemRemotes, made: &BuiltObject) {
    let root = Path::root(alloc);
    let path = path_of(alloc, &root, &made.digest, made.kind).expect(rt, "memory");
    let node = node_of(&made.object).expect(rt, "memory");
    if remotes.can_put(URL, &path, &node) {
        remotes.put(URL, &path, node).expect(rt, "memory");
    }
}

/// Makes a remote that has the commit's objects.
fn remote_of(rt: &impl Abort, alloc: Global, built: &Built) -> MemRemotes {
    let mut remotes = MemRemotes::new(alloc).expect(rt, "memory");
    for made in built.objects.as_slice() {
        put(rt, alloc, &mut remotes, made);
    }
    remotes
}

/// Pulls the commit into the store at `repo` with a gate, and returns whether that succeeded.
fn is_pulled<G: Gate + Sync>(
    rt: &(impl Threads + Sync + Abort),
    alloc: Global,
    host: &mut MemHost,
    remotes: &mut MemRemotes,
    commit: &Digest,
    gate: &G,
) -> bool {
    pulls_can_be_done();
    let root = Path::root(alloc).child("repo").expect(rt, "a path");
    let tmp = root.child("tmp").expect(rt, "a path");
    let work = tmp.child("pull").expect(rt, "a path");
    pull_gated(rt, alloc, host, remotes, &root, URL, commit, &work, gate).is_ok()
}

/// Returns the digests of the commit's objects.
fn names_of(rt: &impl Abort, alloc: Global, built: &Built) -> Items<Digest> {
    let mut names = Vec::new(alloc);
    for made in built.objects.as_slice() {
        names.push(made.digest).expect(rt, "memory");
    }
    Items::from_vec(names)
}

/// Runs `fsck` with a gate, and returns its exit status.
fn fsck_status<T: Threads + Sync + Abort, H: Host, R: Remotes, G: Gate + Sync>(
    rt: &T,
    alloc: Global,
    host: &mut H,
    remotes: &mut R,
    gate: &G,
) -> u8 {
    let word = String::from_str(alloc, "fsck").expect(rt, "memory");
    let words = vec![in alloc; word].expect(rt, "memory");
    let input = Blob::from_slice(alloc, b"").expect(rt, "memory");
    let mut input = MemSource::new(input, 1, None);
    run_gated(rt, alloc, &words, &mut input, host, remotes, gate)
}

/// The commit, its dirtree, its dirmeta and 40 files are 43 objects. They are one batch, of the
/// pull and of `fsck`. Each half of it sees the other at work, and the gate is shown all digests.
#[test]
fn both_halves_are_at_work(rt: HostRuntime) {
    let alloc = rt.alloc();
    let built = built_commit(&rt, alloc);
    let mut remotes = remote_of(&rt, alloc, &built);
    let mut host = MemHost::new(alloc).expect(&rt, "memory");
    let gate = MeetingGate::new(names_of(&rt, alloc, &built));
    assert!(rt; is_pulled(&rt, alloc, &mut host, &mut remotes, &built.commit, &gate));
    assert!(rt; gate.have_met());
    let gate = MeetingGate::new(names_of(&rt, alloc, &built));
    let status = fsck_status(&rt, alloc, &mut host, &mut remotes, &gate);
    assert!(rt; status == 0 && gate.have_met());
    assert!(rt; host.printed() == b"fsck 43 objects, 0 bad\n".as_slice());
}
