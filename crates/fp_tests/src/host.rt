//! Paths and their elements, texts of symlinks, copies of texts and bytes, and remotes that are
//! empty.

use crate::many;
use crate::parsed::path;
use crate::rows::agree;
use fp_base::{Blob, Text};
use fp_host::{NoRemotes, Node, Path, PathError, Remotes, is_element, is_link_text};
use std::alloc::Global;
use std::panic::Expect;
use std::process::Abort;

/// Texts, whether each is an element of a path, and whether it is a symlink's text.
const TEXTS: [(&str, bool, bool); 16] = [
    ("config", true, true),
    ("...", true, true),
    (".x", true, true),
    ("a b", true, true),
    ("\u{e9}", true, true),
    ("\n", true, true),
    ("a", true, true),
    ("\u{e4} b", true, true),
    (".", false, true),
    ("..", false, true),
    ("a/b", false, true),
    ("/", false, true),
    ("", false, false),
    ("a\0", false, false),
    ("a\0b", false, false),
    ("\0", false, false),
];

/// Numbers of letters, whether a text of that length is an element, and whether it is a symlink's
/// text.
const LENGTHS: [(usize, bool, bool); 4] = [
    (255, true, true),
    (256, false, true),
    (4_095, false, true),
    (4_096, false, false),
];

/// Returns whether the text is an element and a symlink's text, as given.
fn are(text: &str, element: bool, link: bool) -> bool {
    is_element(text) == element && is_link_text(text) == link
}

#[test]
fn elements_and_link_texts(rt: HostRuntime) {
    for (text, element, link) in &TEXTS {
        agree(&rt, text, are(text, *element, *link));
    }
    for (count, element, link) in &LENGTHS {
        let text = "x".repeat(rt.alloc(), *count).expect(&rt, "memory");
        agree(&rt, &text, are(&text, *element, *link));
    }
}

/// Texts that are no paths.
const NO_PATHS: [&str; 9] = ["", "/", "/a", "a/", "a//b", "./a", "a/..", "a/./b", "a\0/b"];

/// Paths, and whether the first is a proper ancestor of the second.
const ABOVE: [(&str, &str, bool); 4] = [
    ("rep", "repo/objects/ab", false),
    ("repo/objects/ab", "repo/objects/ab", false),
    ("repo", "repo/objects/ab", true),
    ("repo/objects/ab", "repo", false),
];

/// Returns whether the first path is a proper ancestor of the second.
fn is_above(rt: &impl Abort, alloc: Global, upper: &str, lower: &str) -> bool {
    path(rt, alloc, upper).is_above(&path(rt, alloc, lower))
}

#[test]
fn paths(rt: HostRuntime) {
    for text in &NO_PATHS {
        let parsed = Path::parse(rt.alloc(), text);
        agree(&rt, text, parsed.err() == Some(PathError::Bad));
    }
    for (upper, lower, are_above) in &ABOVE {
        let is_so = is_above(&rt, rt.alloc(), upper, lower) == *are_above;
        agree(&rt, lower, is_so);
    }
}

/// Returns whether a text of this many letters and this many bytes can be copied.
fn are_copied(rt: &impl Abort, alloc: Global, count: usize) -> bool {
    let text = Text::from_string("a".repeat(alloc, count).expect(rt, "memory"));
    let copied = text.copy().expect(rt, "memory");
    let blob = Blob::from_vec(many::bytes(rt, alloc, count));
    let bytes = blob.copy().expect(rt, "memory");
    copied.as_str() == text.as_str()
        && copied.as_str().len() == count
        && bytes.as_slice() == blob.as_slice()
}

/// Returns whether the ancestor 551 levels above a path of 1,101 elements has 550 elements.
fn has_middle(rt: &impl Abort, below: &Path) -> bool {
    below.len() == 1_101 && below.folder(551).expect(rt, "memory").len() == 550
}

/// Returns whether the path, of 1,100 elements, is below the root, and can be copied, extended and
/// cut.
fn goes_deep(rt: &impl Abort, alloc: Global, path: &Path) -> bool {
    let copy = path.copy().expect(rt, "memory");
    let below = copy.join("x").expect(rt, "an element");
    let child = path.child("x").expect(rt, "memory");
    has_middle(rt, &below)
        && path.is_above(&below)
        && child.is(&below)
        && Path::root(alloc).is_above(path)
        && path.join("..").err() == Some(PathError::Bad)
}

/// A text and bytes of 1 MiB, and a path of 1,100 elements of 250 letters each.
#[test]
fn long_texts_and_paths(rt: HostRuntime) {
    let alloc = rt.alloc();
    assert!(rt; are_copied(&rt, alloc, 1 << 20));
    let element = "e".repeat(alloc, 250).expect(&rt, "memory");
    let text = [element.as_str(); 1_100]
        .join(alloc, "/")
        .expect(&rt, "memory");
    assert!(rt; goes_deep(&rt, alloc, &path(&rt, alloc, &text)));
}

/// `NoRemotes` reports that nothing is at a path, and a read there returns no bytes.
#[test]
fn no_remotes(rt: HostRuntime) {
    let config = path(&rt, rt.alloc(), "config");
    let node = NoRemotes
        .node(rt.alloc(), "file:///srv", &config)
        .expect(&rt, "a node");
    let is_absent = matches!(&node, Node::Absent);
    drop(node);
    let mut into = [7u8; 4];
    let read = NoRemotes.read_at("file:///srv", &config, 0, &mut into);
    assert!(rt; is_absent && read == Ok(0) && into == [7u8; 4]);
}
