//! Pulls into an empty store.

use crate::made_breaks::BREAKS;
use crate::odd::Odd;
use crate::offers::{FEW, URL, commit_of, many, offered, path, text};
use crate::rows::agree;
use fl_lines::refusal_line;
use fp_base::Text;
use fp_host::{Host, Path, Remotes, Stat};
use fp_memhost::{MemHost, MemRemotes};
use fp_name::Digest;
use ost_commit::Built;
use ost_content::meta_digest;
use ost_pull::laws::pulls_can_be_done;
use ost_pull::pull;
use ost_store::names;
use ost_walk::PullEnd;
use std::alloc::Global;
use std::panic::Expect;
use std::process::Abort;
use std::thread::Threads;

/// The files below `objects` of the repository that `ostree commit` makes of the few files.
pub const FEW_OBJECTS: &str = "\
repo/objects/27/087435aa0e61882d62d6ff85ecabf67a078e17662b4542ba9fa777e0daf792.commit
repo/objects/44/6a0ef11b7cc167f3b603e585c7eeeeb675faa412d5ec73f62988eb0b6c5488.dirmeta
repo/objects/60/599fdf7cf9cb8925354cd74476b5ded7850eca9b6a120998125a578b6a4d4c.file
repo/objects/64/12d82eda03520124dc6fe3354925c66cd12bc42c4a4f67c874b252859800d8.dirtree
repo/objects/67/0dc22badc52fc3c023a81d5f51ec581f3cfa88d82a4b5f218af8bf779cb92e.dirtree
repo/objects/6e/340b9cffb37a989ca544e6bb780a2c78901d3fb33738768511a30617afa01d.dirtree
repo/objects/82/12608941e8922146c7ab064a948c86a6b25e843bd89412393269ffd0647bfb.dirtree
repo/objects/99/a024be1d26a754338667712506aec165851fcef90b2793d8e540034c02a72f.file
repo/objects/9a/66a8ed7bf66427f5f2716c2f1fae391371f0d9939557f33ade986c45844bef.file
";

/// The SHA-256 digest of the list of the many files' objects, which has 267 lines.
const MANY_OBJECTS: &[u8; 64] = b"71ceec0db1d292fcb5a5000d2525d209252885618c75d03f06bdf29b363730f8";

/// Returns the line that is printed for an end.
pub fn end_line(rt: &impl Abort, alloc: Global, end: PullEnd) -> Text {
    let line = match end {
        PullEnd::Refused(refusal) => refusal_line(alloc, &refusal),
        PullEnd::HostFault => Text::from_str(alloc, "the host failed\n"),
        PullEnd::RemoteFault => Text::from_str(alloc, "the remote failed\n"),
        PullEnd::NoMemory => Text::from_str(alloc, "out of memory\n"),
    };
    line.expect(rt, "memory")
}

/// Pulls the commit from this URL, and returns the line of the end, or nothing if the pull was
/// done. Checks that the work directory of the pull is absent again.
fn pull_end<R: Remotes>(
    rt: &(impl Abort + Threads + Sync),
    alloc: Global,
    host: &mut MemHost,
    remotes: &mut R,
    url: &str,
    commit: &Digest,
) -> Text {
    pulls_can_be_done();
    let root = Path::root(alloc).child("repo").expect(rt, "a path");
    let tmp = root.child("tmp").expect(rt, "a path");
    let work = tmp.child("pull").expect(rt, "a path");
    let pulled = pull(rt, alloc, host, remotes, &root, url, commit, &work);
    assert!(rt; host.stat(&work).expect(rt, "an answer") == Stat::Absent);
    match pulled {
        Ok(()) => text(rt, alloc, ""),
        Err(end) => end_line(rt, alloc, end),
    }
}

/// Pulls the commit from this URL, and returns the line of the end, if the pull wasn't done, and a
/// line for each file and symlink that the store then has below `objects`.
pub fn pulled<R: Remotes>(
    rt: &(impl Abort + Threads + Sync),
    alloc: Global,
    host: &mut MemHost,
    remotes: &mut R,
    url: &str,
    commit: &Digest,
) -> String {
    let mut lines = pull_end(rt, alloc, host, remotes, url, commit).into_string();
    let paths = names(alloc, host, &path(rt, alloc, "repo")).expect(rt, "names");
    for path in paths.as_slice() {
        lines.push_str(path.text()).expect(rt, "memory");
        lines.push('\n').expect(rt, "memory");
    }
    lines
}

/// Pulls the commit of a tree with these rows into an empty host, from a remote with this URL which
/// has the commit, except for what `harms` has in place of objects. Returns lines as `pulled` does.
pub fn pulled_from(
    rt: &(impl Abort + Threads + Sync),
    alloc: Global,
    url: &str,
    rows: &str,
    harms: &str,
) -> String {
    let built = commit_of(rt, alloc, rows);
    let mut host = MemHost::new(alloc).expect(rt, "memory");
    let mut remotes = offered(rt, alloc, url, &built, harms);
    pulled(rt, alloc, &mut host, &mut remotes, url, &built.commit)
}

/// Pulls from a URL of 1,100 bytes: the few files, and a file in pieces together with the three
/// objects that it needs.
#[test]
fn a_long_url_is_pulled_from(rt: HostRuntime) {
    let alloc = rt.alloc();
    let url = "u".repeat(alloc, 1_100).expect(&rt, "memory");
    let few = pulled_from(&rt, alloc, &url, FEW, "");
    let big = pulled_from(&rt, alloc, &url, "644 big zeros:300000", "");
    assert!(rt; few.as_str() == FEW_OBJECTS && big.lines().count() == 4);
}

/// The files below `objects` of the repository that `ostree commit` makes of a file of 67,108,865
/// zero bytes.
const BIG_OBJECTS: &str = "\
repo/objects/08/4d42639e534fc2582a92fe3a14608d69c66c347070d760e04fe696af57eb09.commit
repo/objects/44/6a0ef11b7cc167f3b603e585c7eeeeb675faa412d5ec73f62988eb0b6c5488.dirmeta
repo/objects/5f/4ba503a062ccd6ed75d6ac733128287822312300714a7a87305f53dde0bc4f.file
repo/objects/be/9b4ef1f308291239fa0567b6dda1fd80611f43e21c9bb2ee0be0b0ac0e61a4.dirtree
";

#[test]
fn a_store_has_what_a_repository_has(rt: HostRuntime) {
    let alloc = rt.alloc();
    let few = pulled_from(&rt, alloc, URL, FEW, "");
    let many = pulled_from(&rt, alloc, URL, &many(&rt, alloc), "");
    let big = pulled_from(&rt, alloc, URL, "644 big zeros:67108865", "");
    assert!(rt;
        few.as_str() == FEW_OBJECTS
            && meta_digest(many.as_bytes()).digits() == *MANY_OBJECTS
            && big.as_str() == BIG_OBJECTS
    );
}

/// What a remote has in place of objects of the few files, and the refusal. The objects are the
/// file `metadata` (99a0..), the symlink (9a66..), the file `files/bin/run` (6059..), and the
/// dirtree of the directory `files` (8212..). This is their order in the commit, except that the
/// dirtree of `files` comes before the symlink. The dirmeta (446a..) is the third object of the
/// commit, and the dirtree of the empty directory (6e34..) is the fifth.
const HARMS: &str = "\
99a024be1d26a754338667712506aec165851fcef90b2793d8e540034c02a72f=in/644:77697468696e => \
    error: missing object 99a024be1d26a754338667712506aec165851fcef90b2793d8e540034c02a72f.file
8212608941e8922146c7ab064a948c86a6b25e843bd89412393269ffd0647bfb=in/644:77697468696e => \
    error: missing object 8212608941e8922146c7ab064a948c86a6b25e843bd89412393269ffd0647bfb.dirtree
8212608941e8922146c7ab064a948c86a6b25e843bd89412393269ffd0647bfb=link:other => \
    error: missing object 8212608941e8922146c7ab064a948c86a6b25e843bd89412393269ffd0647bfb.dirtree
446a0ef11b7cc167f3b603e585c7eeeeb675faa412d5ec73f62988eb0b6c5488=644:000000000000000000000000 6e340b9cffb37a989ca544e6bb780a2c78901d3fb33738768511a30617afa01d=nothing => \
    error: corrupt object 446a0ef11b7cc167f3b603e585c7eeeeb675faa412d5ec73f62988eb0b6c5488.dirmeta 15ec7bf0b50732b49f8228e07d24365338f9e3ab994b00af08e5a3bffe55fd8b
60599fdf7cf9cb8925354cd74476b5ded7850eca9b6a120998125a578b6a4d4c=1755:23212f62696e2f73680a => \
    error: mode refused 60599fdf7cf9cb8925354cd74476b5ded7850eca9b6a120998125a578b6a4d4c.file 1755
9a66a8ed7bf66427f5f2716c2f1fae391371f0d9939557f33ade986c45844bef=link:other => \
    error: corrupt object 9a66a8ed7bf66427f5f2716c2f1fae391371f0d9939557f33ade986c45844bef.file 7980e3dd3c9b09cd95740ad7c9b7c19c0a28da67c56e9b2e6f7927f11eccf96c
9a66a8ed7bf66427f5f2716c2f1fae391371f0d9939557f33ade986c45844bef=nothing 60599fdf7cf9cb8925354cd74476b5ded7850eca9b6a120998125a578b6a4d4c=link:other => \
    error: missing object 9a66a8ed7bf66427f5f2716c2f1fae391371f0d9939557f33ade986c45844bef.file
9a66a8ed7bf66427f5f2716c2f1fae391371f0d9939557f33ade986c45844bef=link:other 60599fdf7cf9cb8925354cd74476b5ded7850eca9b6a120998125a578b6a4d4c=nothing => \
    error: corrupt object 9a66a8ed7bf66427f5f2716c2f1fae391371f0d9939557f33ade986c45844bef.file 7980e3dd3c9b09cd95740ad7c9b7c19c0a28da67c56e9b2e6f7927f11eccf96c
";

/// A symlink of one letter whose text is cut, and the refusal.
const CUT_LETTER: &str = "\
43f338adeb68637b721d7ba4c39b7677a4fbb87e3adf4a363a3d50c9de9a35ed=link: => \
    error: missing object 43f338adeb68637b721d7ba4c39b7677a4fbb87e3adf4a363a3d50c9de9a35ed.file
";

/// Pulls a tree once for each row, with what the row has in place of objects. Ends the test at the
/// first row whose pull isn't refused with exactly the row's line.
fn agree_on_harms(rt: &(impl Abort + Threads + Sync), alloc: Global, tree: &str, rows: &str) {
    for row in rows.lines() {
        let (harms, line) = row.split_once(" => ").unwrap_or((row, ""));
        let lines = pulled_from(rt, alloc, URL, tree, harms);
        agree(rt, row, lines.strip_suffix('\n') == Some(line));
    }
}

#[test]
fn what_is_harmed_is_refused(rt: HostRuntime) {
    agree_on_harms(&rt, rt.alloc(), FEW, HARMS);
    agree_on_harms(&rt, rt.alloc(), FEW, BREAKS);
    agree_on_harms(&rt, rt.alloc(), "link l f", CUT_LETTER);
}

/// Files of three pieces and of five, what a remote has in their place without the last byte, and
/// the refusals.
const CUT: &[(&str, &str, &str)] = &[
    (
        "644 big zeros:196608",
        "2fcd9d67ec2d9827cf2a5407bb4c7cada346c788ba1e9edb1c57ed8ea99f5384=644:zeros:196607",
        "error: corrupt object 2fcd9d67ec2d9827cf2a5407bb4c7cada346c788ba1e9edb1c57ed8ea99f5384.file a5b6ec0a43f2ccf831fd75ee03f1ef70654c3d42eacd26342430234d8f227b18\n",
    ),
    (
        "644 big zeros:327680",
        "bba3ab9f413692d64215202e2e7d116374842f34c1eb93c54a4d587121c62dfc=644:zeros:327679",
        "error: corrupt object bba3ab9f413692d64215202e2e7d116374842f34c1eb93c54a4d587121c62dfc.file a16a46dd2b9678189a5f8e497589d447ea1cd5243ab4c21a532cb33cde8eceea\n",
    ),
];

#[test]
fn a_file_of_several_pieces_that_is_cut_is_refused(rt: HostRuntime) {
    for (tree, harms, want) in CUT {
        let lines = pulled_from(&rt, rt.alloc(), URL, tree, harms);
        agree(&rt, want, lines.as_str() == *want);
    }
}

/// Pulls the commit from a remote that reports the file at a path as too large, and whose reads
/// change as the bits of `changed` say. Returns lines as `pulled` does.
fn pulled_oddly(
    rt: &(impl Abort + Threads + Sync),
    alloc: Global,
    host: &mut MemHost,
    built: &Built,
    large: &str,
    changed: u64,
) -> String {
    let mut remotes = Odd {
        held: offered(rt, alloc, URL, built, ""),
        large: path(rt, alloc, large),
        changed,
    };
    pulled(rt, alloc, host, &mut remotes, URL, &built.commit)
}

/// The path of the file `metadata` of the few files.
const METADATA: &str =
    "objects/99/a024be1d26a754338667712506aec165851fcef90b2793d8e540034c02a72f.file";

#[test]
fn a_file_that_is_said_to_have_a_byte_more_than_a_gibibyte_is_refused(rt: HostRuntime) {
    let alloc = rt.alloc();
    let built = commit_of(&rt, alloc, FEW);
    let mut host = MemHost::new(alloc).expect(&rt, "memory");
    let lines = pulled_oddly(&rt, alloc, &mut host, &built, METADATA, 0);
    assert!(rt; lines.as_str() == "error: limit object 1073741825\n");
}

/// Returns whether a pull from a remote whose reads change either stores all of the few files, and
/// each matches its digest, or is refused and stores nothing.
fn does_no_harm(
    rt: &(impl Abort + Threads + Sync),
    alloc: Global,
    built: &Built,
    changed: u64,
) -> bool {
    let mut host = MemHost::new(alloc).expect(rt, "memory");
    let lines = pulled_oddly(rt, alloc, &mut host, built, "none", changed);
    if lines.starts_with("error: corrupt object ") {
        return lines.lines().count() == 1;
    }
    // A second pull checks each stored object, since its remote has none.
    let mut none = MemRemotes::new(alloc).expect(rt, "memory");
    let again = pulled(rt, alloc, &mut host, &mut none, URL, &built.commit);
    lines.as_str() == FEW_OBJECTS && again.as_str() == FEW_OBJECTS
}

#[test]
fn a_remote_that_changes_its_answers_does_no_harm(rt: HostRuntime) {
    let alloc = rt.alloc();
    let built = commit_of(&rt, alloc, FEW);
    for read in 0u32..48 {
        let one = 1u64 << read;
        for changed in [one, !0 << read, !one, 0x5555_5555_5555_5555 << read] {
            assert!(rt; does_no_harm(&rt, alloc, &built, changed), "read {read}");
        }
    }
}

/// Pulls the commit of no file and then another one, during which this call of the remote fails.
/// Returns lines as `pulled` does.
fn pulled_with_fault(
    rt: &(impl Abort + Threads + Sync),
    alloc: Global,
    built: &Built,
    call: u64,
) -> String {
    let mut host = MemHost::new(alloc).expect(rt, "memory");
    let bare = commit_of(rt, alloc, "");
    let mut remotes = offered(rt, alloc, URL, &bare, "");
    let begun = pulled(rt, alloc, &mut host, &mut remotes, URL, &bare.commit);
    assert!(rt; begun.lines().count() == 3);
    let mut remotes = offered(rt, alloc, URL, built, "");
    remotes.fail_calls(&[call]).expect(rt, "memory");
    pulled(rt, alloc, &mut host, &mut remotes, URL, &built.commit)
}

/// Checks that each call of the remote that fails, from the first one on, ends the pull and leaves
/// the store with its three objects. If the call isn't one of the pull, the store has ten objects,
/// since two of the nine of the few files were there already.
#[test]
fn each_call_of_the_remote_that_fails_ends_a_pull(rt: HostRuntime) {
    let alloc = rt.alloc();
    let built = commit_of(&rt, alloc, FEW);
    let mut failed = 0u64;
    for call in 0..1_000u64 {
        if failed == call {
            let lines = pulled_with_fault(&rt, alloc, &built, call);
            let has_failed = lines.starts_with("the remote failed\n");
            assert!(rt; lines.lines().count() == if has_failed { 4 } else { 10 });
            failed = failed.saturating_add(has_failed as u64);
        }
    }
    assert!(rt; failed > 2 && failed < 1_000);
}
