//! Heads with a file `metadata` that is as long as its limit, or longer.

use crate::offers::{FEW, URL, app, commit_of, offered};
use crate::pulls::end_line;
use crate::rows::agree;
use fp_base::Text;
use fp_memhost::MemHost;
use fp_name::{RemoteName, RemoteUrl};
use fp_small::RemoteRow;
use ost_commit::Built;
use ost_head::read_head;
use std::alloc::Global;
use std::panic::Expect;
use std::process::Abort;
use std::thread::Threads;

/// The text before the content in the row of a file `metadata`.
const START: &str = "644 metadata ";

/// Returns the row of a file `metadata` of this many bytes, most of which are a comment.
fn row_of(rt: &impl Abort, alloc: Global, count: usize) -> String {
    let lines = FEW.lines().next().unwrap_or("");
    let more = count
        .saturating_add(START.len())
        .saturating_sub(lines.len());
    let comment = "#".repeat(alloc, more).expect(rt, "memory");
    [lines, comment.as_str()].concat(alloc).expect(rt, "memory")
}

/// Reads the head of the commit, and returns a line with the number of bytes of its file
/// `metadata`, or the line of the refusal. The remote has what the row says in place of objects,
/// and this call of the remote fails.
fn head_line(rt: &impl Abort, alloc: Global, built: &Built, harm: &str, call: u64) -> Text {
    let mut host = MemHost::new(alloc).expect(rt, "memory");
    let mut remotes = offered(rt, alloc, URL, built, harm);
    remotes.fail_calls(&[call]).expect(rt, "memory");
    let lab = RemoteRow {
        name: RemoteName::parse(alloc, b"lab").expect(rt, "a name"),
        url: RemoteUrl::parse(alloc, URL.as_bytes()).expect(rt, "a url"),
    };
    let name = app(rt, alloc);
    let commit = &built.commit;
    let head = read_head(alloc, &mut host, &mut remotes, &lab, &name, commit, None);
    match head {
        Ok(head) => {
            let line = format!(in alloc; "{} bytes\n", head.metadata.len());
            Text::from_string(line.expect(rt, "memory"))
        }
        Err(end) => end_line(rt, alloc, end),
    }
}

/// A number that no call has.
const NONE: u64 = 1_000;

/// What the remote of a commit with a `metadata` that is one byte too long has in place of objects,
/// the call of the remote that fails, counted from 0, and the wanted line. The first six calls are
/// for the commit and for the dirtree and the dirmeta of its root, and the next one asks for the
/// kind of `metadata`. Then come 17 pieces.
const LONGER: &[(&str, u64, &str)] = &[
    ("", NONE, "error: limit metadata-file 1048577\n"),
    (
        "49637c569ed39d8c2fce534b1a5474a931ee9d6c1a3df864775094898cecb9c1.file=644:zeros:1048577",
        NONE,
        "error: corrupt object 49637c569ed39d8c2fce534b1a5474a931ee9d6c1a3df864775094898cecb9c1.file 063cfe94a88c77c9c75c4592ddba9dab4f1e96d14b16a24eae6bb7588ca8b4d1\n",
    ),
    ("", 9, "the remote failed\n"),
    ("", 23, "the remote failed\n"),
    ("", 24, "error: limit metadata-file 1048577\n"),
];

/// Builds the commit of one file, a `metadata` of this many bytes.
fn commit_with(rt: &(impl Abort + Threads + Sync), alloc: Global, count: usize) -> Built {
    commit_of(rt, alloc, &row_of(rt, alloc, count))
}

#[test]
fn metadata_as_long_as_its_limit_is_read(rt: HostRuntime) {
    let alloc = rt.alloc();
    let built = commit_with(&rt, alloc, 1_048_576);
    let line = head_line(&rt, alloc, &built, "", NONE);
    agree(&rt, line.as_str(), line.as_str() == "1048576 bytes\n");
}

#[test]
fn metadata_above_its_limit_is_hashed_before_it_is_refused(rt: HostRuntime) {
    let alloc = rt.alloc();
    let built = commit_with(&rt, alloc, 1_048_577);
    for (harm, call, want) in LONGER {
        let line = head_line(&rt, alloc, &built, harm, *call);
        agree(&rt, line.as_str(), line.as_str() == *want);
    }
}
