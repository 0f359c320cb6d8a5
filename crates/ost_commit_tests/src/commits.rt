//! Commits that are built of rows, compared to those that the `ostree` command makes of the same
//! tree.

use fp_base::{Blob, Text};
use fp_host::Path;
use fp_name::RefName;
use ost_commit::{BuildError, Built, TreeRow, commit_tree};
use std::alloc::Global;
use std::ops::Range;
use std::panic::Expect;
use std::process::Abort;
use std::thread::Threads;

/// Returns the path of a text.
fn path_of(rt: &impl Abort, alloc: Global, text: &str) -> Path {
    Path::parse(alloc, text).expect(rt, "a path")
}

fn file(rt: &impl Abort, alloc: Global, path: &str, mode: u32, text: &[u8]) -> TreeRow {
    TreeRow::File {
        path: path_of(rt, alloc, path),
        mode,
        bytes: Blob::from_slice(alloc, text).expect(rt, "memory"),
    }
}

fn link(rt: &impl Abort, alloc: Global, path: &str, target: &str) -> TreeRow {
    TreeRow::Link {
        path: path_of(rt, alloc, path),
        target: Text::from_str(alloc, target).expect(rt, "memory"),
    }
}

fn push(rt: &impl Abort, rows: &mut Vec<TreeRow>, row: TreeRow) {
    rows.push(row).expect(rt, "memory");
}

/// The metadata of the application.
const METADATA: &[u8] = b"[Application]\nname=org.example.App\n";

/// Returns the rows of a file two directories below the root, a file at the root, a symlink, and an
/// empty directory.
fn rows(rt: &impl Abort, alloc: Global) -> Vec<TreeRow> {
    let mut rows = Vec::new(alloc);
    let run = file(rt, alloc, "files/bin/run", 0o755, b"#!/bin/sh\n");
    push(rt, &mut rows, run);
    push(rt, &mut rows, file(rt, alloc, "metadata", 0o644, METADATA));
    push(rt, &mut rows, link(rt, alloc, "files/link", "bin/run"));
    push(rt, &mut rows, TreeRow::Dir(path_of(rt, alloc, "empty")));
    rows
}

/// Returns the rows of a symlink and of a file below it.
fn bad_rows(rt: &impl Abort, alloc: Global) -> Vec<TreeRow> {
    let mut rows = Vec::new(alloc);
    push(rt, &mut rows, link(rt, alloc, "a", "b"));
    push(rt, &mut rows, file(rt, alloc, "a/b", 0o644, b""));
    rows
}

/// Returns the digest of a commit that was built, as hexadecimal digits, or the error.
fn digits_of(built: &Result<Built, BuildError>) -> Result<[u8; 64], BuildError> {
    match built {
        Ok(built) => Ok(built.commit.digits()),
        Err(error) => Err(*error),
    }
}

/// Builds a commit of these rows with this subject, and returns its digest as hexadecimal digits,
/// or the error.
fn digits_with(
    rt: &(impl Abort + Threads + Sync),
    alloc: Global,
    rows: &[TreeRow],
    subject: &str,
) -> Result<[u8; 64], BuildError> {
    let name = RefName::parse(alloc, b"app/org.example.App/x86_64/stable").expect(rt, "a ref");
    let built = commit_tree(rt, alloc, rows, &name, subject, 1_700_000_000);
    let digits = digits_of(&built);
    drop(built);
    digits
}

/// Builds a commit of these rows, and returns its digest as hexadecimal digits, or the error.
fn digits(
    rt: &(impl Abort + Threads + Sync),
    alloc: Global,
    rows: &[TreeRow],
) -> Result<[u8; 64], BuildError> {
    digits_with(rt, alloc, rows, "subject")
}

/// Checks the digest that `ostree commit --no-xattrs --owner-uid=0 --owner-gid=0
/// --timestamp=@1700000000` gives.
#[test]
fn as_ostree(rt: HostRuntime) {
    let found = digits(&rt, rt.alloc(), &rows(&rt, rt.alloc()));
    assert!(rt; found == Ok(*b"6a9c63939657b099e13480c81b59c39977f1b660cd41bd1e0e2adb60c706027f"));
}

/// The digest of the commit that the `ostree` command makes of a tree of 1,100 files in a directory
/// `files`: their names are the numbers from 1000 on, and the content of each is its name.
pub const MANY: [u8; 64] = *b"83d18e69cbeb79ab908981967b6e54a9b8e16d9aeb59ddccb46409d0af7de04e";

/// The numbers that are the names of the 1,100 files.
pub const NAMES: Range<u32> = 1_000..2_100;

/// Makes the row of a file whose content is its name.
fn numbered(rt: &impl Abort, alloc: Global, number: u32) -> TreeRow {
    let name = number.to_string(alloc).expect(rt, "memory");
    let path = ["files/", &name].concat(alloc).expect(rt, "memory");
    file(rt, alloc, &path, 0o644, name.as_bytes())
}

fn many_rows(rt: &impl Abort, alloc: Global) -> Vec<TreeRow> {
    let mut rows = Vec::new(alloc);
    for number in NAMES {
        push(rt, &mut rows, numbered(rt, alloc, number));
    }
    rows
}

#[test]
fn many_as_ostree(rt: HostRuntime) {
    let found = digits(&rt, rt.alloc(), &many_rows(&rt, rt.alloc()));
    assert!(rt; found == Ok(MANY));
}

/// Checks the digest of the commit of no file with a subject of 100 KiB of the letter `s`, encoded
/// by the format of OSTree's objects.
#[test]
fn long_subject(rt: HostRuntime) {
    let subject = "s".repeat(rt.alloc(), 100 << 10).expect(&rt, "memory");
    let found = digits_with(&rt, rt.alloc(), &[], &subject);
    assert!(rt; found == Ok(*b"d41cbb9c9e826cb838eb0066f695c818d6e67016ce718fb26fd06350065180e4"));
}

#[test]
fn second_row(rt: HostRuntime) {
    let found = digits(&rt, rt.alloc(), &bad_rows(&rt, rt.alloc()));
    assert!(rt; found == Err(BuildError::Row(2)));
}
