//! Commits of descriptions, compared to those that the `ostree` command makes of the same tree.

use crate::commits::{MANY, NAMES};
use fp_name::RefName;
use ost_commit::Built;
use ost_description::{DescriptionError, commit_description};
use std::alloc::{AllocError, Global};
use std::panic::Expect;
use std::process::Abort;
use std::thread::Threads;

/// Returns the digest of a commit that was built, as hexadecimal digits, or the error.
fn digits_of(built: &Result<Built, DescriptionError>) -> Result<[u8; 64], DescriptionError> {
    match built {
        Ok(built) => Ok(built.commit.digits()),
        Err(error) => Err(*error),
    }
}

/// Builds the commit of this description, and returns its digest as hexadecimal digits, or the
/// error.
fn digits(
    rt: &(impl Abort + Threads + Sync),
    alloc: Global,
    bytes: &[u8],
) -> Result<[u8; 64], DescriptionError> {
    let name = RefName::parse(alloc, b"app/org.example.App/x86_64/stable").expect(rt, "a ref");
    let built = commit_description(rt, alloc, bytes, &name);
    let digits = digits_of(&built);
    drop(built);
    digits
}

/// The description of a file two directories below the root, a file at the root, a symlink, and an
/// empty directory.
const TREE: &[u8] = b"timestamp 1700000000
subject subject
file files/bin/run 755 23212f62696e2f73680a
file metadata 644 5b4170706c69636174696f6e5d0a6e616d653d6f72672e6578616d706c652e4170700a
link files/link bin/run
dir empty
";

/// Checks the digest that `ostree commit --no-xattrs --owner-uid=0 --owner-gid=0
/// --timestamp=@1700000000` gives.
#[test]
fn described_as_ostree(rt: HostRuntime) {
    let found = digits(&rt, rt.alloc(), TREE);
    assert!(rt; found == Ok(*b"6a9c63939657b099e13480c81b59c39977f1b660cd41bd1e0e2adb60c706027f"));
}

/// Appends the line of a file whose content is its name.
fn put_file(alloc: Global, text: &mut String, number: u32) -> Result<(), AllocError> {
    let name = number.to_string(alloc)?;
    let digits = hex::encode(alloc, name.as_bytes())?;
    write!(text, "file files/{name} 644 {digits}\n")
}

/// Returns the description of the tree of 1,100 files.
fn many_files(rt: &impl Abort, alloc: Global) -> String {
    let heading = "timestamp 1700000000\nsubject subject\n";
    let mut text = String::from_str(alloc, heading).expect(rt, "memory");
    for number in NAMES {
        put_file(alloc, &mut text, number).expect(rt, "memory");
    }
    text
}

#[test]
fn many_described_as_ostree(rt: HostRuntime) {
    let tree = many_files(&rt, rt.alloc());
    assert!(rt; digits(&rt, rt.alloc(), tree.as_bytes()) == Ok(MANY));
}

/// Descriptions, and the number of the first bad line of each.
const BAD: &[(&[u8], u64)] = &[
    (b"", 1),
    (b"timestamp 0\n", 2),
    (b"timestamp 0\nblob x\n", 2),
    (b"timestamp 00\nsubject s\n", 1),
    (b"timestamp 18446744073709551616\nsubject s\n", 1),
    (b"timestamp 0\nsubject s", 2),
    (b"timestamp 0\nsubject a\tb\n", 2),
    (b"timestamp 0\nsubject s\n\n", 3),
    (b"timestamp 0\nsubject s\ndir a", 3),
    (b"timestamp 0\nsubject s\ndir a b\n", 3),
    (b"timestamp 0\nsubject s\nfile a 776 -\n", 3),
    (b"timestamp 0\nsubject s\nfile a 644 \n", 3),
    (b"timestamp 0\nsubject s\nfile a 644 F0\n", 3),
    (b"timestamp 0\nsubject s\nlink a \n", 3),
    (b"timestamp 0\nsubject s\ndir a\nlink a x\nbad\n", 4),
    (b"timestamp 0\nsubject s\ndir a\nbad\nlink a x\n", 4),
    (
        b"timestamp 0\nsubject s\ndir a\ndir a\nlink b x\ndir b/c\n",
        6,
    ),
];

/// Ends the test and prints the row's number, unless the row is right.
fn agree_at(rt: &impl Abort, row: usize, is_so: bool) {
    assert!(rt; is_so, "row {row}");
}

#[test]
fn bad_lines(rt: HostRuntime) {
    for (at, (bytes, line)) in BAD.iter().enumerate() {
        let found = digits(&rt, rt.alloc(), bytes);
        agree_at(&rt, at, found == Err(DescriptionError::Record(*line)));
    }
}
