//! Metadata objects: reading, the first rule that they break, and writing.

use crate::long_objects;
use crate::long_objects::{
    COMMIT_PIECES, EMPTY_ATTRIBUTES, EMPTY_FILES, Piece, ROWS, TREE_PIECES, bytes_of_pieces,
};
use crate::made_objects::OBJECTS;
use crate::parsed::{bytes_of_digits, digest_of, kind_of};
use crate::rows::{agree, agree_at};
use crate::shown_objects::SHOWN;
use fp_base::{Blob, Items, ObjKind, Rule, Text};
use fp_name::Digest;
use ost_content::meta_digest;
use ost_object::{
    Commit, DirEntry, DirMeta, DirTree, FileEntry, ObjectError, binding, commit_root, read_commit,
    read_dirmeta, read_dirtree, write_commit, write_dirmeta, write_dirtree,
};
use std::alloc::Global;
use std::panic::Expect;
use std::process::Abort;

/// Returns the rule with which a call erred, or `None` if it succeeded.
fn rule_of<T: Drop>(rt: &impl Abort, done: Result<T, ObjectError>) -> Option<Rule> {
    match done {
        Ok(_object) => None,
        Err(ObjectError::Malformed(rule)) => Some(rule),
        Err(ObjectError::NoMemory) => rt.abort(),
    }
}

/// A call that is tried.
enum Tried {
    /// Reading an object of this kind, given in hexadecimal digits as GLib encodes it.
    Read(ObjKind, &'static str),
    /// Writing a dirtree with files of these names and the directory `d`.
    Names(&'static [&'static str]),
    /// Writing a dirmeta with this mode.
    Mode(u32),
    /// Writing a commit with this subject and nothing else.
    Subject(&'static str),
}

/// Calls, and the first rule that is broken, if any.
const RULES: &[(Tried, Option<Rule>)] = &[
    (
        Tried::Read(
            ObjKind::Commit,
            "0000000000000000000000000000000001010101010101010101010101010101010101010101010101010101010101010101010101010101010101010101010101010101010101010101010101010101300201000000",
        ),
        None,
    ),
    (
        Tried::Read(
            ObjKind::Commit,
            "01010101010101010101010101010101010101010101010101010101010101010000000000000000000000000000000001010101010101010101010101010101010101010101010101010101010101010101010101010101010101010101010101010101010101010101010101010101502221202000",
        ),
        None,
    ),
    (
        Tried::Read(
            ObjKind::Commit,
            "0101010101010101010101010101010101010101010101010101010101010100000000000000000000000000000000000101010101010101010101010101010101010101010101010101010101010101010101010101010101010101010101010101010101010101010101010101014f21201f1f00",
        ),
        Some(Rule::Parent),
    ),
    (
        Tried::Read(
            ObjKind::Commit,
            "00000000000000000000000000000000010101010101010101010101010101010101010101010101010101010101010101010101010101010101010101010101010101010101010101010101010101012f0201000000",
        ),
        Some(Rule::Tree),
    ),
    (
        Tried::Read(
            ObjKind::Commit,
            "000000000000000000000000000000000101010101010101010101010101010101010101010101010101010101010101300201000000",
        ),
        Some(Rule::Meta),
    ),
    // No bytes.
    (Tried::Read(ObjKind::DirTree, ""), Some(Rule::Value)),
    (
        Tried::Read(
            ObjKind::DirTree,
            "42000101010101010101010101010101010101010101010101010101010101010101026100010101010101010101010101010101010101010101010101010101010101010102234643000101010101010101010101010101010101010101010101010101010101010101010101010101010101010101010101010101010101010101010101010101010122024448",
        ),
        None,
    ),
    (
        Tried::Read(
            ObjKind::DirTree,
            "61000101010101010101010101010101010101010101010101010101010101010101026100010101010101010101010101010101010101010101010101010101010101010102234648",
        ),
        Some(Rule::Order),
    ),
    (
        Tried::Read(
            ObjKind::DirTree,
            "61000101010101010101010101010101010101010101010101010101010101010101024200010101010101010101010101010101010101010101010101010101010101010102234648",
        ),
        Some(Rule::Order),
    ),
    (
        Tried::Read(
            ObjKind::DirTree,
            "62000101010101010101010101010101010101010101010101010101010101010101010101010101010101010101010101010101010101010101010101010101010122026100010101010101010101010101010101010101010101010101010101010101010101010101010101010101010101010101010101010101010101010101010101012202448800",
        ),
        Some(Rule::Order),
    ),
    (
        Tried::Read(
            ObjKind::DirTree,
            "61000101010101010101010101010101010101010101010101010101010101010101026200010101010101010101010101010101010101010101010101010101010101010102234662000101010101010101010101010101010101010101010101010101010101010101010101010101010101010101010101010101010101010101010101010101010122024448",
        ),
        Some(Rule::Both),
    ),
    (
        Tried::Read(
            ObjKind::DirTree,
            "61000101010101010101010101010101010101010101010101010101010101010102222e2e000101010101010101010101010101010101010101010101010101010101010101010101010101010101010101010101010101010101010101010101010101010123034523",
        ),
        Some(Rule::Digest),
    ),
    (
        Tried::Read(
            ObjKind::DirTree,
            "6100010101010101010101010101010101010101010101010101010101010101010102236200010101010101010101010101010101010101010101010101010101010101010101010101010101010101010101010101010101010101010101010101010101010122024524",
        ),
        Some(Rule::Digest),
    ),
    (
        Tried::Read(
            ObjKind::DirTree,
            "612f620001010101010101010101010101010101010101010101010101010101010101010425612f62000101010101010101010101010101010101010101010101010101010101010101010101010101010101010101010101010101010101010101010101010101010124044626",
        ),
        Some(Rule::Name),
    ),
    (
        Tried::Read(
            ObjKind::DirTree,
            "000101010101010101010101010101010101010101010101010101010101010101010101010101010101010101010101010101010101010101010101010101010121014300",
        ),
        Some(Rule::Name),
    ),
    (
        Tried::Read(ObjKind::DirMeta, "0000000000000000000041ed"),
        None,
    ),
    (
        Tried::Read(ObjKind::DirMeta, "0000000000000001000081a461620103"),
        Some(Rule::Owner),
    ),
    (
        Tried::Read(ObjKind::DirMeta, "0000000000000000000081a461620103"),
        Some(Rule::Xattrs),
    ),
    (
        Tried::Read(ObjKind::DirMeta, "0000000000000000000081a4"),
        Some(Rule::Kind),
    ),
    (Tried::Names(&["a", "b"]), None),
    (Tried::Names(&["a/b"]), Some(Rule::Name)),
    (Tried::Names(&["b", "a"]), Some(Rule::Order)),
    (Tried::Names(&["d"]), Some(Rule::Both)),
    (Tried::Mode(0o40755), None),
    (Tried::Mode(0o100755), Some(Rule::Kind)),
    (Tried::Subject("a subject"), None),
    (Tried::Subject("a\0b"), Some(Rule::Value)),
];

/// Returns the rule that bytes break as an object of this kind, if any.
fn rule_of_bytes(rt: &impl Abort, alloc: Global, kind: ObjKind, bytes: &[u8]) -> Option<Rule> {
    match kind {
        ObjKind::Commit => rule_of(rt, read_commit(alloc, bytes)),
        ObjKind::DirTree => rule_of(rt, read_dirtree(alloc, bytes)),
        _ => rule_of(rt, read_dirmeta(alloc, bytes)),
    }
}

/// Returns the rule that a call finds broken, if any.
fn broken_rule(rt: &impl Abort, alloc: Global, tried: &Tried) -> Option<Rule> {
    match tried {
        Tried::Read(kind, digits) => rule_of_bytes(
            rt,
            alloc,
            *kind,
            &bytes_of_digits(rt, alloc, digits),
        ),
        Tried::Names(names) => rule_of(rt, written_tree(rt, alloc, names)),
        Tried::Mode(mode) => rule_of(rt, write_dirmeta(alloc, &DirMeta { mode: *mode })),
        Tried::Subject(subject) => rule_of(rt, written_commit(rt, alloc, subject)),
    }
}

#[test]
fn objects_break_rules(rt: HostRuntime) {
    for (row, (tried, rule)) in RULES.iter().enumerate() {
        agree_at(&rt, row, broken_rule(&rt, rt.alloc(), tried) == *rule);
    }
}

/// Returns whether the commit has this timestamp, and a subject and a body of these lengths.
fn has_lengths(commit: &Commit, lengths: (u64, usize, usize)) -> bool {
    commit.timestamp == lengths.0
        && commit.subject.as_str().len() == lengths.1
        && commit.body.as_str().len() == lengths.2
}

/// Returns the texts, each with a newline.
fn lines_of(rt: &impl Abort, alloc: Global, texts: &[Text]) -> String {
    let mut lines = String::new(alloc);
    for text in texts {
        lines.push_str(text.as_str()).expect(rt, "memory");
        lines.push('\n').expect(rt, "memory");
    }
    lines
}

/// Returns the refs that a commit is bound to, each with a newline.
fn refs_of(rt: &impl Abort, alloc: Global, commit: &Commit) -> String {
    match binding(alloc, commit).expect(rt, "memory") {
        Some(texts) => lines_of(rt, alloc, texts.as_slice()),
        None => String::new(alloc),
    }
}

/// Returns whether the digits are those of a commit with this timestamp and these lengths, bound to
/// these refs.
fn is_read_as(
    rt: &impl Abort,
    alloc: Global,
    digits: &str,
    lengths: (u64, usize, usize),
    refs: &str,
) -> bool {
    let commit = read_commit(alloc, &bytes_of_digits(rt, alloc, digits)).expect(rt, "a commit");
    has_lengths(&commit, lengths) && refs_of(rt, alloc, &commit).as_str() == refs
}

/// Commits that GLib encoded with two bindings, and the refs that each is bound to: the last
/// binding decides, and one of type `s` binds to nothing.
const BOUND: &[(&str, &str)] = &[
    (
        "6f73747265652e7265662d62696e64696e6700000000000061000200617313006f73747265652e7265662d62696e64696e67000000000000620002006173131f3f00000000000000000000000000000001010101010101010101010101010101010101010101010101010101010101010101010101010101010101010101010101010101010101010101010101010101704342414141",
        "b\n",
    ),
    (
        "6f73747265652e7265662d62696e64696e6700000000000062000200617313006f73747265652e7265662d62696e64696e67000000000000610002006173131f3f00000000000000000000000000000001010101010101010101010101010101010101010101010101010101010101010101010101010101010101010101010101010101010101010101010101010101704342414141",
        "a\n",
    ),
    (
        "6f73747265652e7265662d62696e64696e6700000000000062000200617313006f73747265652e7265662d62696e64696e6700000000000062000073131f3d0000000000000000000000000000000000010101010101010101010101010101010101010101010101010101010101010101010101010101010101010101010101010101010101010101010101010101017041403f3f3f",
        "",
    ),
];

#[test]
fn the_last_binding_decides(rt: HostRuntime) {
    for (row, (digits, refs)) in BOUND.iter().enumerate() {
        agree_at(
            &rt,
            row,
            is_read_as(&rt, rt.alloc(), digits, (0, 0, 0), refs),
        );
    }
}

/// The ref to which the two commits of the repository are bound.
const APP: &str = "app/org.x.App/x86_64/stable\n";

#[test]
fn reads_real_commits(rt: HostRuntime) {
    let alloc = rt.alloc();
    assert!(rt;
        is_read_as(&rt, alloc, OBJECTS[0].1, (1_000_000_000, 9, 0), APP)
            && is_read_as(&rt, alloc, OBJECTS[10].1, (1_700_000_000, 18, 19), APP)
    );
}

/// Returns whether the bytes are a dirtree with these numbers of files and directories.
fn has_counts(rt: &impl Abort, alloc: Global, bytes: &[u8], files: usize, dirs: usize) -> bool {
    let tree = read_dirtree(alloc, bytes).expect(rt, "a dirtree");
    tree.files.len() == files && tree.dirs.len() == dirs
}

/// Returns the mode of the dirmeta with these bytes.
fn mode_of(rt: &impl Abort, alloc: Global, bytes: &[u8]) -> u32 {
    read_dirmeta(alloc, bytes).expect(rt, "a dirmeta").mode
}

#[test]
fn reads_small_objects(rt: HostRuntime) {
    let alloc = rt.alloc();
    assert!(rt;
        has_counts(&rt, alloc, b"\0", 0, 0)
            && mode_of(&rt, alloc, b"\0\0\0\0\0\0\0\0\0\0\x41\xed") == 0o40755
    );
}

/// Reads a commit and writes it again.
fn commit_again(rt: &impl Abort, alloc: Global, bytes: &[u8]) -> Blob {
    let commit = read_commit(alloc, bytes).expect(rt, "a commit");
    write_commit(alloc, &commit).expect(rt, "written")
}

/// Reads a dirtree and writes it again.
fn tree_again(rt: &impl Abort, alloc: Global, bytes: &[u8]) -> Blob {
    let tree = read_dirtree(alloc, bytes).expect(rt, "a dirtree");
    write_dirtree(alloc, &tree).expect(rt, "written")
}

/// Reads a dirmeta and writes it again.
fn meta_again(rt: &impl Abort, alloc: Global, bytes: &[u8]) -> Blob {
    let meta = read_dirmeta(alloc, bytes).expect(rt, "a dirmeta");
    write_dirmeta(alloc, &meta).expect(rt, "written")
}

/// Returns whether an object is written as it was read.
fn is_written_back(rt: &impl Abort, alloc: Global, kind: ObjKind, bytes: &[u8]) -> bool {
    let again = match kind {
        ObjKind::Commit => commit_again(rt, alloc, bytes),
        ObjKind::DirTree => tree_again(rt, alloc, bytes),
        _ => meta_again(rt, alloc, bytes),
    };
    again.as_slice() == bytes
}

/// Returns whether the bytes have the digest in this name, and are written as they were read.
fn has_name(rt: &impl Abort, alloc: Global, name: &str, bytes: &[u8]) -> bool {
    let (digits, _) = name.split_once('.').unwrap_or((name, ""));
    meta_digest(bytes) == digest_of(rt, digits) && is_written_back(rt, alloc, kind_of(name), bytes)
}

/// Returns whether the bytes in these digits have the digest in this name, and are written as they
/// were read.
fn is_unchanged(rt: &impl Abort, alloc: Global, name: &str, digits: &str) -> bool {
    has_name(rt, alloc, name, &bytes_of_digits(rt, alloc, digits))
}

#[test]
fn writes_objects_back(rt: HostRuntime) {
    for (name, digits) in &OBJECTS {
        agree(&rt, name, is_unchanged(&rt, rt.alloc(), name, digits));
    }
    for (name, digits) in SHOWN {
        agree(&rt, name, is_unchanged(&rt, rt.alloc(), name, digits));
    }
}

/// Makes a text.
fn text_of(rt: &impl Abort, alloc: Global, text: &str) -> Text {
    Text::from_str(alloc, text).expect(rt, "memory")
}

/// Returns the digest of objects that are only named.
fn some_digest() -> Digest {
    Digest::from_bytes([1; 32])
}

/// Makes the entry of a file with this name.
fn file_entry(name: Text) -> FileEntry {
    FileEntry {
        name,
        digest: some_digest(),
    }
}

/// Makes the entry of a directory with this name.
fn dir_entry(name: Text) -> DirEntry {
    DirEntry {
        name,
        tree: some_digest(),
        meta: some_digest(),
    }
}

/// Makes the entries of files with these names.
fn files_named(rt: &impl Abort, alloc: Global, names: &[&str]) -> Items<FileEntry> {
    let mut files = Items::new(alloc);
    for name in names {
        let file = file_entry(text_of(rt, alloc, name));
        files.push(file).expect(rt, "memory");
    }
    files
}

/// Makes the entries with just one directory, `d`.
fn one_dir(rt: &impl Abort, alloc: Global) -> Items<DirEntry> {
    let dirs = vec![in alloc; dir_entry(text_of(rt, alloc, "d"))];
    Items::from_vec(dirs.expect(rt, "memory"))
}

/// Writes a dirtree of files with these names and the directory `d`.
fn written_tree(rt: &impl Abort, alloc: Global, names: &[&str]) -> Result<Blob, ObjectError> {
    let files = files_named(rt, alloc, names);
    let dirs = one_dir(rt, alloc);
    write_dirtree(alloc, &DirTree { files, dirs })
}

/// Makes a commit with nothing but its subject.
fn bare_commit(rt: &impl Abort, alloc: Global, subject: &str) -> Commit {
    Commit {
        metadata: Blob::from_vec(Vec::new(alloc)),
        parent: None,
        related: Blob::from_vec(Vec::new(alloc)),
        subject: text_of(rt, alloc, subject),
        body: Text::from_string(String::new(alloc)),
        timestamp: 0,
        tree: some_digest(),
        meta: some_digest(),
    }
}

/// Writes a commit with nothing but its subject.
fn written_commit(rt: &impl Abort, alloc: Global, subject: &str) -> Result<Blob, ObjectError> {
    let commit = bare_commit(rt, alloc, subject);
    write_commit(alloc, &commit)
}

/// Returns whether a commit without a subject is written as these digits.
fn is_bare(rt: &impl Abort, alloc: Global, digits: &str) -> bool {
    let written = written_commit(rt, alloc, "").expect(rt, "written");
    written.as_slice() == bytes_of_digits(rt, alloc, digits).as_slice()
}

/// The bytes of that commit in hexadecimal digits, as GLib encodes it.
const BARE: &str =
    "0000000000000000000000000000000001010101010101010101010101010101010101010101010101010101010101010101010101010101010101010101010101010101010101010101010101010101300201000000";

#[test]
fn writes_a_bare_commit(rt: HostRuntime) {
    assert!(rt; is_bare(&rt, rt.alloc(), BARE));
}

/// Returns whether the bytes are a commit that is bound to as many refs as there are rows, has its
/// digest, and is written as it was read.
fn is_long_commit(rt: &impl Abort, alloc: Global, bytes: &[u8]) -> bool {
    let commit = read_commit(alloc, bytes).expect(rt, "a commit");
    refs_of(rt, alloc, &commit).lines().count() == ROWS as usize
        && has_name(rt, alloc, long_objects::COMMIT, bytes)
}

/// Returns whether a commit's root has the dirtree whose digest is 32 bytes 3, and the dirmeta
/// whose digest is 32 bytes 4.
fn has_root(rt: &impl Abort, alloc: Global, bytes: &[u8]) -> bool {
    let root = commit_root(alloc, bytes).expect(rt, "a commit");
    root.tree == Digest::from_bytes([3; 32]) && root.meta == Digest::from_bytes([4; 32])
}

#[test]
fn a_long_commit_is_written_back(rt: HostRuntime) {
    let bytes = bytes_of_pieces(&rt, rt.alloc(), COMMIT_PIECES);
    assert!(rt; is_long_commit(&rt, rt.alloc(), &bytes) && has_root(&rt, rt.alloc(), &bytes));
}

/// Returns whether the bytes are a dirtree with as many files and directories as there are rows,
/// has its digest, and is written as it was read.
fn is_long_tree(rt: &impl Abort, alloc: Global, bytes: &[u8]) -> bool {
    has_counts(rt, alloc, bytes, ROWS as usize, ROWS as usize)
        && has_name(rt, alloc, long_objects::TREE, bytes)
}

#[test]
fn a_long_dirtree_is_written_back(rt: HostRuntime) {
    let bytes = bytes_of_pieces(&rt, rt.alloc(), TREE_PIECES);
    assert!(rt; is_long_tree(&rt, rt.alloc(), &bytes));
}

/// Checks that 100 KiB of zero bytes are refused as a dirmeta: the mode wouldn't be that of a
/// directory.
#[test]
fn a_long_dirmeta_is_refused(rt: HostRuntime) {
    let bytes = vec![in rt.alloc(); b'\0'; 100 << 10].expect(&rt, "memory");
    assert!(rt; rule_of(&rt, read_dirmeta(rt.alloc(), &bytes)).is_some());
}

/// Returns whether an object of these pieces breaks this rule first.
fn breaks(rt: &impl Abort, alloc: Global, kind: ObjKind, pieces: &[Piece], rule: Rule) -> bool {
    let bytes = bytes_of_pieces(rt, alloc, pieces);
    rule_of_bytes(rt, alloc, kind, &bytes) == Some(rule)
}

/// Checks that 100,000 rows without a byte of a name are refused by the first rule after `Value`.
#[test]
fn a_hundred_thousand_empty_rows_are_refused(rt: HostRuntime) {
    let alloc = rt.alloc();
    assert!(rt; breaks(&rt, alloc, ObjKind::DirTree, EMPTY_FILES, Rule::Digest));
    assert!(rt; breaks(&rt, alloc, ObjKind::DirMeta, EMPTY_ATTRIBUTES, Rule::Xattrs));
}
