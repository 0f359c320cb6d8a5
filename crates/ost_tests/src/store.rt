//! Objects of a store, with the digests that the `ostree` command gave them
//! (`scripts/ostree_objects.sh`).

use crate::steps::{Content, DONE, FAULT, Made, Step, Want, tell_all};
use fp_base::ObjKind;
use fp_host::HostEnd;

/// The digest of the dirtree of an empty directory, which is one zero byte.
const TREE: &str = "6e340b9cffb37a989ca544e6bb780a2c78901d3fb33738768511a30617afa01d";

/// The digest of the dirmeta of a directory with the mode 0755.
const META: &str = "446a0ef11b7cc167f3b603e585c7eeeeb675faa412d5ec73f62988eb0b6c5488";

/// The digest of a file with the permission bits 0755 and the content `hello`, with a newline.
const HELLO: &str = "d6f58149fd47ec2be3fafef4fe767915f195e7ae67b9a0c090b842b156cd07f3";

/// The digest of a symlink with the text `bin/hello`.
const LINK: &str = "bf7bf926bc1720359e8bf6b1bce135704d4dddc84c7fc84a029b24a8b75a36ef";

/// The bytes of the dirmeta of a directory with the mode 0755.
const META_BYTES: &[u8] = b"\0\0\0\0\0\0\0\0\0\0\x41\xed";

/// The staging path of objects.
const TMP: &str = "repo/tmp/new0";

/// The paths of the objects `META`, `TREE`, `LINK` and `HELLO`.
const LISTED: &[&str] = &[
    "repo/objects/44/6a0ef11b7cc167f3b603e585c7eeeeb675faa412d5ec73f62988eb0b6c5488.dirmeta",
    "repo/objects/6e/340b9cffb37a989ca544e6bb780a2c78901d3fb33738768511a30617afa01d.dirtree",
    "repo/objects/bf/7bf926bc1720359e8bf6b1bce135704d4dddc84c7fc84a029b24a8b75a36ef.file",
    "repo/objects/d6/f58149fd47ec2be3fafef4fe767915f195e7ae67b9a0c090b842b156cd07f3.file",
];

/// Paths that aren't those of objects, ascending.
const STRAYS: &[&str] = &[
    "repo/objects/d6-",
    "repo/objects/d6/f5-",
    "repo/objects/d6/f5/deep",
    "repo/objects/d6/f5/deeper/still/one",
];

/// A path of 128 elements in the store at the root.
const ROOT_128: &str = "\
    objects/x/x/x/x/x/x/x/x/x/x/x/x/x/x/x/x/x/x/x/x/x/x/x/x/x/x/x/x/x/x/x/x/x/x/x/x/x/x/x/x/x/x/\
    x/x/x/x/x/x/x/x/x/x/x/x/x/x/x/x/x/x/x/x/x/x/x/x/x/x/x/x/x/x/x/x/x/x/x/x/x/x/x/x/x/x/x/x/x/x/\
    x/x/x/x/x/x/x/x/x/x/x/x/x/x/x/x/x/x/x/x/x/x/x/x/x/x/x/x/x/x/x/x/x/x/x/x/x/x/x";

/// A path of 129 elements in the store at the root.
const ROOT_129: &str = "\
    objects/x/x/x/x/x/x/x/x/x/x/x/x/x/x/x/x/x/x/x/x/x/x/x/x/x/x/x/x/x/x/x/x/x/x/x/x/x/x/x/x/x/x/\
    x/x/x/x/x/x/x/x/x/x/x/x/x/x/x/x/x/x/x/x/x/x/x/x/x/x/x/x/x/x/x/x/x/x/x/x/x/x/x/x/x/x/x/x/x/x/\
    x/x/x/x/x/x/x/x/x/x/x/x/x/x/x/x/x/x/x/x/x/x/x/x/x/x/x/x/x/x/x/x/x/x/x/x/x/x/x/x";

/// A path of 128 elements in the store at `repo`.
const REPO_128: &str = "\
    repo/objects/x/x/x/x/x/x/x/x/x/x/x/x/x/x/x/x/x/x/x/x/x/x/x/x/x/x/x/x/x/x/x/x/x/x/x/x/x/x/x/x\
    /x/x/x/x/x/x/x/x/x/x/x/x/x/x/x/x/x/x/x/x/x/x/x/x/x/x/x/x/x/x/x/x/x/x/x/x/x/x/x/x/x/x/x/x/x/x\
    /x/x/x/x/x/x/x/x/x/x/x/x/x/x/x/x/x/x/x/x/x/x/x/x/x/x/x/x/x/x/x/x/x/x/x/x/x/x/x/x";

/// A path of 129 elements in the store at `repo`.
const REPO_129: &str = "\
    repo/objects/x/x/x/x/x/x/x/x/x/x/x/x/x/x/x/x/x/x/x/x/x/x/x/x/x/x/x/x/x/x/x/x/x/x/x/x/x/x/x/x\
    /x/x/x/x/x/x/x/x/x/x/x/x/x/x/x/x/x/x/x/x/x/x/x/x/x/x/x/x/x/x/x/x/x/x/x/x/x/x/x/x/x/x/x/x/x/x\
    /x/x/x/x/x/x/x/x/x/x/x/x/x/x/x/x/x/x/x/x/x/x/x/x/x/x/x/x/x/x/x/x/x/x/x/x/x/x/x/x/x";

/// A path of 130 elements in the store at `repo`.
const REPO_130: &str = "\
    repo/objects/x/x/x/x/x/x/x/x/x/x/x/x/x/x/x/x/x/x/x/x/x/x/x/x/x/x/x/x/x/x/x/x/x/x/x/x/x/x/x/x\
    /x/x/x/x/x/x/x/x/x/x/x/x/x/x/x/x/x/x/x/x/x/x/x/x/x/x/x/x/x/x/x/x/x/x/x/x/x/x/x/x/x/x/x/x/x/x\
    /x/x/x/x/x/x/x/x/x/x/x/x/x/x/x/x/x/x/x/x/x/x/x/x/x/x/x/x/x/x/x/x/x/x/x/x/x/x/x/x/x/x";

/// The name of each story, and its steps.
const STORIES: &[(&str, &[Step])] = &[
    (
        "objects have the names that ostree gives them, and are got as they were put",
        &[
            Step::Stage(Made::Meta(Content::Bytes(b"\0")), DONE),
            Step::Sync,
            Step::Place((ObjKind::DirTree, TREE), DONE),
            Step::Sync,
            Step::Stage(Made::Meta(Content::Bytes(META_BYTES)), DONE),
            Step::Sync,
            Step::Place((ObjKind::DirMeta, META), DONE),
            Step::Sync,
            Step::Stage(Made::File(0o755, Content::Bytes(b"hello\n")), DONE),
            Step::Sync,
            Step::Place((ObjKind::File, HELLO), DONE),
            Step::Sync,
            Step::Stage(Made::Link(Content::Bytes(b"bin/hello")), DONE),
            Step::Sync,
            Step::Place((ObjKind::File, LINK), DONE),
            Step::Sync,
            Step::Listed(Ok(4), LISTED),
            Step::Settled(true),
            Step::Has((ObjKind::DirTree, TREE), true),
            Step::Has((ObjKind::Commit, TREE), false),
            Step::Has((ObjKind::DirMeta, META), true),
            Step::Has((ObjKind::Commit, META), false),
            Step::Has((ObjKind::File, HELLO), true),
            Step::Has((ObjKind::Commit, HELLO), false),
            Step::Has((ObjKind::File, LINK), true),
            Step::Has((ObjKind::Commit, LINK), false),
            Step::Mode(
                "repo/objects/6e/340b9cffb37a989ca544e6bb780a2c78901d3fb33738768511a30617afa01d.dirtree",
                0o644,
            ),
            Step::Mode(
                "repo/objects/d6/f58149fd47ec2be3fafef4fe767915f195e7ae67b9a0c090b842b156cd07f3.file",
                0o755,
            ),
            Step::Get(
                (ObjKind::DirMeta, META),
                12,
                Want::Made(Made::Meta(Content::Bytes(META_BYTES))),
            ),
            Step::Get(
                (ObjKind::File, LINK),
                0,
                Want::Made(Made::Link(Content::Bytes(b"bin/hello"))),
            ),
            Step::Get(
                (ObjKind::File, HELLO),
                6,
                Want::Made(Made::File(0o755, Content::Bytes(b"hello\n"))),
            ),
            Step::Get((ObjKind::File, HELLO), 5, Want::TooLong(6)),
            Step::Get((ObjKind::DirMeta, META), 11, Want::TooLong(12)),
            Step::Get((ObjKind::File, META), 0, Want::Absent),
            Step::NoFile((ObjKind::File, LINK)),
            Step::NoFile((ObjKind::DirTree, TREE)),
            Step::Remove((ObjKind::File, LINK), DONE),
            Step::Settled(false),
        ],
    ),
    (
        "a removed object is absent",
        &[
            Step::Stage(Made::File(0o755, Content::Bytes(b"hello\n")), DONE),
            Step::Sync,
            Step::Place((ObjKind::File, HELLO), DONE),
            Step::Sync,
            Step::Stage(Made::Link(Content::Bytes(b"bin/hello")), DONE),
            Step::Sync,
            Step::Place((ObjKind::File, LINK), DONE),
            Step::Sync,
            Step::Remove((ObjKind::File, HELLO), DONE),
            Step::Has((ObjKind::File, HELLO), false),
            Step::Has((ObjKind::File, LINK), true),
            Step::Remove((ObjKind::File, LINK), DONE),
            Step::Has((ObjKind::File, LINK), false),
        ],
    ),
    (
        "a link that has a commit's name is no object",
        &[
            Step::Stage(Made::Link(Content::Bytes(b"bin/hello")), DONE),
            Step::Sync,
            Step::Place((ObjKind::Commit, TREE), DONE),
            Step::Sync,
            Step::Has((ObjKind::Commit, TREE), false),
            Step::Get((ObjKind::Commit, TREE), 99, Want::Absent),
        ],
    ),
    (
        "a folder that has a file's name is no object",
        &[
            Step::Stage(Made::Meta(Content::Bytes(b"\0")), DONE),
            Step::Sync,
            Step::Place((ObjKind::DirTree, TREE), DONE),
            Step::Sync,
            Step::Folder(
                "repo/objects/6e/340b9cffb37a989ca544e6bb780a2c78901d3fb33738768511a30617afa01d.file",
            ),
            Step::Has((ObjKind::File, TREE), false),
        ],
    ),
    (
        "a file is staged and read in pieces",
        &[
            Step::File(TMP, 0o755, Content::Bytes(b"")),
            Step::Piece(Content::Bytes(b"hel")),
            Step::Piece(Content::Bytes(b"lo\n")),
            Step::Sync,
            Step::Place((ObjKind::File, HELLO), DONE),
            Step::Sync,
            Step::Read((ObjKind::File, HELLO), 1, 4, Content::Bytes(b"ello")),
            Step::Read((ObjKind::File, HELLO), 4, 4, Content::Bytes(b"o\n")),
            Step::Read((ObjKind::File, HELLO), 6, 4, Content::Bytes(b"")),
            Step::Gone(TMP),
        ],
    ),
    (
        "an object isn't staged over a file, which stays as it is",
        &[
            Step::File(TMP, 0o755, Content::Bytes(b"old")),
            Step::Stage(Made::File(0o755, Content::Bytes(b"hello\n")), FAULT),
            Step::Bytes(TMP, b"old"),
        ],
    ),
    (
        "a stop may still undo the staging and the placing, until the host is synced",
        &[
            Step::Stage(Made::Link(Content::Bytes(b"bin/hello")), DONE),
            Step::Settled(false),
            Step::Sync,
            Step::Place((ObjKind::File, LINK), DONE),
            Step::Settled(false),
        ],
    ),
    (
        "what is no object is listed too",
        &[
            Step::Listed(Ok(0), &[]),
            Step::File("repo/objects/d6/f5-", 0, Content::Bytes(b"")),
            Step::File("repo/objects/d6/f5/deep", 0, Content::Bytes(b"")),
            Step::File(
                "repo/objects/d6/f5/deeper/still/one",
                0,
                Content::Bytes(b""),
            ),
            Step::File("repo/objects/d6-", 0, Content::Bytes(b"")),
            Step::File("repo/object", 0, Content::Bytes(b"")),
            Step::Listed(Ok(4), STRAYS),
        ],
    ),
    (
        "a path of 128 elements is listed in the root's store",
        &[
            Step::File(ROOT_128, 0, Content::Bytes(b"")),
            Step::ListedInRoot(Ok(1)),
        ],
    ),
    (
        "a longer one is a fault",
        &[
            Step::File(ROOT_129, 0, Content::Bytes(b"")),
            Step::ListedInRoot(Err(HostEnd::Fault)),
        ],
    ),
    (
        "a path of 128 elements is listed in a folder's store",
        &[
            Step::File(REPO_128, 0, Content::Bytes(b"")),
            Step::Listed(Ok(1), &[REPO_128]),
        ],
    ),
    (
        "one of 129 is, too",
        &[
            Step::File(REPO_129, 0, Content::Bytes(b"")),
            Step::Listed(Ok(1), &[REPO_129]),
        ],
    ),
    (
        "a longer one is a fault there",
        &[
            Step::File(REPO_130, 0, Content::Bytes(b"")),
            Step::Listed(Err(HostEnd::Fault), &[]),
        ],
    ),
    (
        "nothing is placed where nothing was staged, and what isn't there isn't removed",
        &[
            Step::Place((ObjKind::File, HELLO), FAULT),
            Step::Has((ObjKind::File, HELLO), false),
            Step::Remove((ObjKind::File, HELLO), FAULT),
        ],
    ),
    (
        "metadata of a mebibyte is kept",
        &[
            Step::Stage(Made::Meta(Content::Times(7, 1 << 20)), DONE),
            Step::Sync,
            Step::Place((ObjKind::Commit, TREE), DONE),
            Step::Sync,
            Step::Get(
                (ObjKind::Commit, TREE),
                1 << 20,
                Want::Made(Made::Meta(Content::Times(7, 1 << 20))),
            ),
        ],
    ),
    (
        "a file of two mebibytes, one at once and one as a piece, is read at once",
        &[
            Step::Stage(Made::File(0o644, Content::Times(7, 1 << 20)), DONE),
            Step::Piece(Content::Times(7, 1 << 20)),
            Step::Sync,
            Step::Place((ObjKind::File, HELLO), DONE),
            Step::Sync,
            Step::Read(
                (ObjKind::File, HELLO),
                0,
                2 << 20,
                Content::Times(7, 2 << 20),
            ),
        ],
    ),
    (
        "a link with the longest text is kept",
        &[
            Step::Stage(Made::Link(Content::Times(b'n', 4_095)), DONE),
            Step::Sync,
            Step::Place((ObjKind::File, LINK), DONE),
            Step::Sync,
            Step::Get(
                (ObjKind::File, LINK),
                0,
                Want::Made(Made::Link(Content::Times(b'n', 4_095))),
            ),
        ],
    ),
    (
        "many files are listed",
        &[
            Step::Many("repo/objects/00/", 1_100, ".file"),
            Step::Listed(Ok(1_100), &[]),
        ],
    ),
];

#[test]
fn objects_of_a_store(rt: HostRuntime) {
    tell_all(&rt, rt.alloc(), STORIES);
}
