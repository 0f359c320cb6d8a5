//! Walks over commits: their order, what is at a path, and the objects that they use.

use crate::offers::{FEW, URL, commit_of, offered, path, place, text};
use crate::pulls::{end_line, pulled};
use crate::rows::agree;
use fp_base::{Items, ObjKind, Text};
use fp_host::Path;
use fp_memhost::MemHost;
use fp_name::Digest;
use ost_prune::prune;
use ost_store::remove;
use ost_walk::{Found, Places, PullEnd, WalkEnd, look, order, used};
use std::alloc::Global;
use std::panic::Expect;
use std::process::Abort;
use std::thread::Threads;

/// The order of the commit of no file.
const BARE_ORDER: &str = "\
objects/4b/43e027542fd8edb531495544d85d31b4688e08dfb2fab6db04967d810ea9ff.commit
objects/6e/340b9cffb37a989ca544e6bb780a2c78901d3fb33738768511a30617afa01d.dirtree
objects/44/6a0ef11b7cc167f3b603e585c7eeeeb675faa412d5ec73f62988eb0b6c5488.dirmeta
";

/// The order of the commit of a few files, as `ostree ls` lists them. Each directory has its
/// dirmeta.
const FEW_ORDER: &str = "\
objects/27/087435aa0e61882d62d6ff85ecabf67a078e17662b4542ba9fa777e0daf792.commit
objects/64/12d82eda03520124dc6fe3354925c66cd12bc42c4a4f67c874b252859800d8.dirtree
objects/44/6a0ef11b7cc167f3b603e585c7eeeeb675faa412d5ec73f62988eb0b6c5488.dirmeta
objects/99/a024be1d26a754338667712506aec165851fcef90b2793d8e540034c02a72f.file
objects/6e/340b9cffb37a989ca544e6bb780a2c78901d3fb33738768511a30617afa01d.dirtree
objects/44/6a0ef11b7cc167f3b603e585c7eeeeb675faa412d5ec73f62988eb0b6c5488.dirmeta
objects/82/12608941e8922146c7ab064a948c86a6b25e843bd89412393269ffd0647bfb.dirtree
objects/44/6a0ef11b7cc167f3b603e585c7eeeeb675faa412d5ec73f62988eb0b6c5488.dirmeta
objects/9a/66a8ed7bf66427f5f2716c2f1fae391371f0d9939557f33ade986c45844bef.file
objects/67/0dc22badc52fc3c023a81d5f51ec581f3cfa88d82a4b5f218af8bf779cb92e.dirtree
objects/44/6a0ef11b7cc167f3b603e585c7eeeeb675faa412d5ec73f62988eb0b6c5488.dirmeta
objects/60/599fdf7cf9cb8925354cd74476b5ded7850eca9b6a120998125a578b6a4d4c.file
objects/60/599fdf7cf9cb8925354cd74476b5ded7850eca9b6a120998125a578b6a4d4c.file
";

/// The objects that the commit of no file uses.
const BARE_USED: &str = "\
objects/44/6a0ef11b7cc167f3b603e585c7eeeeb675faa412d5ec73f62988eb0b6c5488.dirmeta
objects/4b/43e027542fd8edb531495544d85d31b4688e08dfb2fab6db04967d810ea9ff.commit
objects/6e/340b9cffb37a989ca544e6bb780a2c78901d3fb33738768511a30617afa01d.dirtree
";

/// Returns the result of a walk: the paths of the objects on a remote, one on each line, or the
/// line of the refusal.
fn told(rt: &impl Abort, alloc: Global, walked: Result<Items<(Digest, ObjKind)>, WalkEnd>) -> Text {
    let objects = match walked {
        Ok(objects) => objects,
        Err(end) => return end_line(rt, alloc, PullEnd::from(end)),
    };
    let mut lines = String::new(alloc);
    for (digest, kind) in objects.as_slice() {
        let at = place(rt, alloc, digest, *kind);
        lines.push_str(at.text()).expect(rt, "memory");
        lines.push('\n').expect(rt, "memory");
    }
    Text::from_string(lines)
}

/// Returns a file's digest as hexadecimal digits, or a word for a directory or nothing.
fn named(rt: &impl Abort, alloc: Global, found: &Found) -> Text {
    match found {
        Found::Dir => text(rt, alloc, "a folder"),
        Found::File(digest) => digest.write(alloc).expect(rt, "memory"),
        Found::Nothing => text(rt, alloc, "nothing"),
    }
}

/// Returns the result of a look at a path, as `named` prints it, or the line of the refusal.
fn seen(rt: &impl Abort, alloc: Global, looked: Result<Found, WalkEnd>) -> Text {
    match looked {
        Ok(found) => named(rt, alloc, &found),
        Err(end) => end_line(rt, alloc, PullEnd::from(end)),
    }
}

/// Returns the order of a commit that a remote has, with an empty store, or what is at a path of
/// it. The empty path is that of the root.
fn walked(rt: &(impl Abort + Threads + Sync), alloc: Global, rows: &str, at: Option<&str>) -> Text {
    let built = commit_of(rt, alloc, rows);
    let mut host = MemHost::new(alloc).expect(rt, "memory");
    let mut remotes = offered(rt, alloc, URL, &built, "");
    let places = Places {
        root: path(rt, alloc, "repo"),
        url: Some(text(rt, alloc, URL)),
    };
    let at = match at {
        None => {
            let found = order(alloc, &mut host, &mut remotes, &places, &built.commit);
            return told(rt, alloc, found);
        }
        Some("") => Path::root(alloc),
        Some(at) => path(rt, alloc, at),
    };
    let found = look(alloc, &mut host, &mut remotes, &places, &built.commit, &at);
    seen(rt, alloc, found)
}

/// Paths in the commit of no file, and what is there.
const BARE_PATHS: &[(&str, &str)] = &[("", "a folder"), ("a", "nothing")];

/// Paths in the commit of a few files, and what is there.
const FEW_PATHS: &[(&str, &str)] = &[
    ("", "a folder"),
    ("empty", "a folder"),
    ("files/bin", "a folder"),
    (
        "metadata",
        "99a024be1d26a754338667712506aec165851fcef90b2793d8e540034c02a72f",
    ),
    (
        "files/link",
        "9a66a8ed7bf66427f5f2716c2f1fae391371f0d9939557f33ade986c45844bef",
    ),
    (
        "files/bin/run",
        "60599fdf7cf9cb8925354cd74476b5ded7850eca9b6a120998125a578b6a4d4c",
    ),
    ("files/link/run", "nothing"),
    ("files/bin/run/x", "nothing"),
    ("bin/run", "nothing"),
];

#[test]
fn orders_and_looks_follow_a_commit(rt: HostRuntime) {
    let alloc = rt.alloc();
    assert!(rt;
        walked(&rt, alloc, "", None).as_str() == BARE_ORDER
            && walked(&rt, alloc, FEW, None).as_str() == FEW_ORDER
    );
    for (at, want) in BARE_PATHS {
        agree(&rt, at, walked(&rt, alloc, "", Some(*at)).as_str() == *want);
    }
    for (at, want) in FEW_PATHS {
        agree(
            &rt,
            at,
            walked(&rt, alloc, FEW, Some(*at)).as_str() == *want,
        );
    }
}

/// Removes the dirtree of an empty directory from the store.
fn take_root(rt: &impl Abort, alloc: Global, host: &mut MemHost, root: &Path) {
    let digits = b"6e340b9cffb37a989ca544e6bb780a2c78901d3fb33738768511a30617afa01d";
    let digest = Digest::parse(digits).expect(rt, "a digest");
    remove(alloc, host, root, &digest, ObjKind::DirTree).expect(rt, "an object");
}

/// Returns the objects that the commit of no file uses, named this many times, in a store that has
/// the commit, or in one that lacks the dirtree of its root. Checks that pruning with the commit
/// kept, named this many times, removes no object.
fn used_by(
    rt: &(impl Abort + Threads + Sync),
    alloc: Global,
    times: usize,
    lacks_root: bool,
) -> Text {
    let (built, root) = (commit_of(rt, alloc, ""), path(rt, alloc, "repo"));
    let mut host = MemHost::new(alloc).expect(rt, "memory");
    let mut remotes = offered(rt, alloc, URL, &built, "");
    let lines = pulled(rt, alloc, &mut host, &mut remotes, URL, &built.commit);
    assert!(rt; lines.lines().count() == 3);
    let commits = vec![in alloc; built.commit; times].expect(rt, "memory");
    assert!(rt; prune(alloc, &mut host, &root, &commits) == Ok(Some(0)));
    if lacks_root {
        take_root(rt, alloc, &mut host, &root);
    }
    told(rt, alloc, used(alloc, &mut host, &root, &commits))
}

/// The refusal if the dirtree of the root is absent.
const NO_ROOT: &str =
    "error: missing object 6e340b9cffb37a989ca544e6bb780a2c78901d3fb33738768511a30617afa01d.dirtree\n";

#[test]
fn used_objects_are_those_of_the_order(rt: HostRuntime) {
    let alloc = rt.alloc();
    assert!(rt;
        used_by(&rt, alloc, 1, false).as_str() == BARE_USED
            && used_by(&rt, alloc, 1, true).as_str() == NO_ROOT
            && used_by(&rt, alloc, 1_100, false).as_str() == BARE_USED
    );
}
