//! Refs of a store.

use crate::steps::{Content, Place, Said, Step, calls_after, tell_all};

/// A ref of the store itself.
const HEAD: Place = ("", "app/org.x.Editor/x86_64/stable");

/// A ref of the remote `lab`.
const REMOTE: Place = ("lab", "app/org.x.Editor/x86_64/stable");

/// The path of the file of the store's own ref.
const FILE: &str = "repo/refs/heads/app/org.x.Editor/x86_64/stable";

/// The first paths that are listed, ascending.
const LISTED: &[&str] = &[
    "repo/refs/heads/app/org.x.Editor-2/x86_64/stable",
    "repo/refs/heads/app/org.x.Editor/x86_64/stable",
    "repo/refs/remotes/lab-2/app/org.x.Editor/x86_64/stable",
    "repo/refs/remotes/lab/app/org.x.Editor/x86_64/stable",
    "repo/refs/remotes/lab/runtime/org.x.Platform/x86_64/1",
];

/// The name of each story, and its steps.
const STORIES: &[(&str, &[Step])] = &[
    (
        "a ref reads as it is written, and its file is its digest and a newline",
        &[
            Step::Ref(REMOTE, Said::Absent),
            Step::RefWrite(REMOTE),
            Step::Ref(REMOTE, Said::Written),
            Step::Bytes(
                "repo/refs/remotes/lab/app/org.x.Editor/x86_64/stable",
                b"0123456789abcdef0123456789abcdef0123456789abcdef0123456789abcdef\n",
            ),
        ],
    ),
    (
        "a ref is absent after it is dropped, as often as it is, and a stop leaves that",
        &[
            Step::RefDrop(HEAD),
            Step::RefWrite(HEAD),
            Step::RefDrop(HEAD),
            Step::Ref(HEAD, Said::Absent),
            Step::RefDrop(HEAD),
            Step::Settled(true),
        ],
    ),
    (
        "a file of 64 digits and a newline is a ref",
        &[
            Step::File(
                FILE,
                0o644,
                Content::Bytes(
                    b"0123456789abcdef0123456789abcdef0123456789abcdef0123456789abcdef\n",
                ),
            ),
            Step::Ref(HEAD, Said::Written),
        ],
    ),
    (
        "one without a newline is none",
        &[
            Step::File(
                FILE,
                0o644,
                Content::Bytes(b"0123456789abcdef0123456789abcdef0123456789abcdef0123456789abcdef"),
            ),
            Step::Ref(HEAD, Said::Bad),
        ],
    ),
    (
        "one with two is none",
        &[
            Step::File(
                FILE,
                0o644,
                Content::Bytes(
                    b"0123456789abcdef0123456789abcdef0123456789abcdef0123456789abcdef\n\n",
                ),
            ),
            Step::Ref(HEAD, Said::Bad),
        ],
    ),
    (
        "one with a space is none",
        &[
            Step::File(
                FILE,
                0o644,
                Content::Bytes(
                    b"0123456789abcdef0123456789abcdef0123456789abcdef0123456789abcdef ",
                ),
            ),
            Step::Ref(HEAD, Said::Bad),
        ],
    ),
    (
        "an empty one is none",
        &[
            Step::File(FILE, 0o644, Content::Bytes(b"")),
            Step::Ref(HEAD, Said::Bad),
        ],
    ),
    (
        "one with capital letters is none",
        &[
            Step::File(
                FILE,
                0o644,
                Content::Bytes(
                    b"0123456789ABCDEF0123456789abcdef0123456789abcdef0123456789abcdef\n",
                ),
            ),
            Step::Ref(HEAD, Said::Bad),
        ],
    ),
    (
        "one of a mebibyte is none",
        &[
            Step::File(FILE, 0o644, Content::Times(b'a', 1 << 20)),
            Step::Ref(HEAD, Said::Bad),
        ],
    ),
    (
        "a folder with a ref's name is none",
        &[
            Step::File(
                "repo/refs/heads/app/org.x.Editor/x86_64/stable/x",
                0o644,
                Content::Bytes(b""),
            ),
            Step::Ref(HEAD, Said::Bad),
        ],
    ),
    (
        "refs are listed in the order of their paths",
        &[
            Step::RefsListed(0, &[]),
            Step::File(
                "repo/refs/remotes/lab/app/org.x.Editor/x86_64/stable",
                0o644,
                Content::Bytes(b""),
            ),
            Step::File(
                "repo/refs/remotes/lab-2/app/org.x.Editor/x86_64/stable",
                0o644,
                Content::Bytes(b""),
            ),
            Step::File(
                "repo/refs/remotes/lab/runtime/org.x.Platform/x86_64/1",
                0o644,
                Content::Bytes(b""),
            ),
            Step::File(
                "repo/refs/remotes/-lab/app/org.x.Editor/x86_64/stable",
                0o644,
                Content::Bytes(b""),
            ),
            Step::File(
                "repo/refs/remotes/app/org.x.Editor/x86_64/stable",
                0o644,
                Content::Bytes(b""),
            ),
            Step::File(
                "repo/refs/heads/app/org.x.Editor/x86_64/stable",
                0o644,
                Content::Bytes(b""),
            ),
            Step::File(
                "repo/refs/heads/app/org.x.Editor-2/x86_64/stable",
                0o644,
                Content::Bytes(b""),
            ),
            Step::File(
                "repo/refs/heads/app/Editor/x86_64/stable",
                0o644,
                Content::Bytes(b""),
            ),
            Step::File("repo/refs/heads/ostree/1/1/0", 0o644, Content::Bytes(b"")),
            Step::File(
                "repo/refs/heads/app/org.x.Editor/aarch64/stable/x",
                0o644,
                Content::Bytes(b""),
            ),
            Step::RefsListed(5, LISTED),
        ],
    ),
    (
        "many branches of a name are listed",
        &[
            Step::Many("repo/refs/heads/app/org.x.Editor/x86_64/", 1_100, ""),
            Step::RefsListed(1_100, &[]),
        ],
    ),
];

#[test]
fn refs_of_a_store(rt: HostRuntime) {
    tell_all(&rt, rt.alloc(), STORIES);
}

/// Steps that write a ref of the store and one of the remote, and make an empty directory as a
/// branch beside each.
const FLAT: &[Step] = &[
    Step::RefWrite(HEAD),
    Step::RefWrite(REMOTE),
    Step::Folder("repo/refs/heads/app/org.x.Editor/x86_64/beta"),
    Step::Folder("repo/refs/remotes/lab/app/org.x.Editor/x86_64/beta"),
];

/// Steps that write a ref of the store and one of the remote, and make a branch beside each with
/// three directories and a file below.
const DEEP: &[Step] = &[
    Step::RefWrite(HEAD),
    Step::RefWrite(REMOTE),
    Step::File(
        "repo/refs/heads/app/org.x.Editor/x86_64/beta/a/b/c/d",
        0o644,
        Content::Bytes(b""),
    ),
    Step::File(
        "repo/refs/remotes/lab/app/org.x.Editor/x86_64/beta/a/b/c/d",
        0o644,
        Content::Bytes(b""),
    ),
];

/// Steps that write a ref of the store and one of the remote, and make a file as a branch beside
/// each.
const FILES: &[Step] = &[
    Step::RefWrite(HEAD),
    Step::RefWrite(REMOTE),
    Step::File(
        "repo/refs/heads/app/org.x.Editor/x86_64/beta",
        0o644,
        Content::Bytes(b""),
    ),
    Step::File(
        "repo/refs/remotes/lab/app/org.x.Editor/x86_64/beta",
        0o644,
        Content::Bytes(b""),
    ),
];

/// Checks that a list doesn't look below a branch: what is there needs no call, and a branch that
/// is a directory needs no more calls than one that is a file.
#[test]
fn what_is_below_a_branch_takes_no_call(rt: HostRuntime) {
    let calls = calls_after(&rt, rt.alloc(), FLAT);
    assert!(rt; calls > 0 && calls == calls_after(&rt, rt.alloc(), DEEP));
    assert!(rt; calls == calls_after(&rt, rt.alloc(), FILES));
}
