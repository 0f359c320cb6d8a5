//! Names of applications, runtimes and remotes, refs, patterns and digests.

use crate::parsed::pattern_of;
use crate::rows::agree;
use fp_name::{
    AppId, Digest, NameError, PinPattern, RefKind, RefName, RemoteName, RemoteUrl, is_arch,
    is_branch, is_id, is_pin, is_ref, is_remote_name, is_url,
};
use std::alloc::Global;
use std::panic::Expect;
use std::process::Abort;

/// Returns whether the text is what the letter stands for: `i` an ID, `a` an architecture, `b` a
/// branch, `n` a remote's name, `u` a remote's URL, `r` a ref, `p` a pattern, any other letter a
/// digest.
fn is_of(kind: u8, text: &str) -> bool {
    match kind {
        b'i' => is_id(text),
        b'a' => is_arch(text),
        b'b' => is_branch(text),
        b'n' => is_remote_name(text),
        b'u' => is_url(text),
        b'r' => is_ref(text),
        b'p' => is_pin(text),
        _ => Digest::parse(text.as_bytes()).is_ok(),
    }
}

/// Texts, and whether each is an ID of an application or runtime.
const IDS: [(&str, bool); 34] = [
    ("org.gnome.Maps", true),
    ("a.b.c", true),
    ("_._._", true),
    ("A.b2.c_3", true),
    ("com.example.App_1", true),
    ("org.x.Y-z", true),
    ("org.x.Y-", true),
    ("org.x.Y--9", true),
    ("org.freedesktop.Platform.GL.nvidia-550", true),
    ("", false),
    ("org", false),
    ("org.x", false),
    ("org.x.", false),
    (".org.x.Y", false),
    ("org..x.Y", false),
    ("...", false),
    ("org.x.-Y", false),
    ("org.x-y.Z", false),
    ("o-rg.x.Y", false),
    ("1org.x.Y", false),
    ("org.1x.Y", false),
    ("org.x.1Y", false),
    ("org.x.Y z", false),
    (" org.x.Y", false),
    ("org.x.Y\n", false),
    ("org.x.Y\u{1f}", false),
    ("org.x.Y\u{7f}", false),
    ("org.x.Y\0", false),
    ("org.x.Y/z", false),
    ("org.x.Y+z", false),
    ("org.x.Y*", false),
    ("org.x.\u{e9}", false),
    ("org.x.Y@", false),
    ("org.x.Y[", false),
];

/// Texts, and whether each is the name of a remote.
const REMOTES: [(&str, bool); 15] = [
    ("flathub", true),
    ("0", true),
    ("_x", true),
    ("a-b.c", true),
    ("f.", true),
    ("9-", true),
    ("", false),
    ("-x", false),
    (".x", false),
    ("a b", false),
    ("a/b", false),
    ("a\n", false),
    ("a\u{7f}", false),
    ("\u{e9}", false),
    ("a\"b", false),
];

/// Texts, and whether each is the URL of a remote.
const URLS: [(&str, bool); 18] = [
    ("file:///", true),
    ("file:///srv/repo", true),
    ("file:///!~", true),
    ("file:////", true),
    ("", false),
    ("file://", false),
    ("file:/srv", false),
    ("File:///srv", false),
    ("http:///srv", false),
    (" file:///srv", false),
    ("file:///a b", false),
    ("file:///srv ", false),
    ("file:///a\u{7f}", false),
    ("file:///a\u{1f}", false),
    ("file:///a\n", false),
    ("file:///a\0", false),
    ("file:///\u{e9}", false),
    ("file//:/", false),
];

/// Texts, and whether each is a digest.
const DIGESTS: [(&str, bool); 13] = [
    (EMPTY, true),
    ("", false),
    ("e3", false),
    (
        "e3b0c44298fc1c149afbf4c8996fb92427ae41e4649b934ca495991b7852b85",
        false,
    ),
    (
        "e3b0c44298fc1c149afbf4c8996fb92427ae41e4649b934ca495991b7852b8555",
        false,
    ),
    (
        "E3b0c44298fc1c149afbf4c8996fb92427ae41e4649b934ca495991b7852b855",
        false,
    ),
    (
        "e3b0c44298fc1c149afbf4c8996fb92427ae41e4649b934ca495991b7852b85F",
        false,
    ),
    (
        "g3b0c44298fc1c149afbf4c8996fb92427ae41e4649b934ca495991b7852b855",
        false,
    ),
    (
        "e3b0c44298fc1c149afbf4c8996fb92427ae41e4649b934ca495991b7852b85\n",
        false,
    ),
    (
        "e3b0c44298fc1c149afbf4c8996fb92427ae41e4649b934ca495991b7852b8\u{e9}",
        false,
    ),
    (
        "e3b0c44298fc1c149afbf4c8996fb92427ae41e4649b934ca495991b7852b85/",
        false,
    ),
    (
        "e3b0c44298fc1c149afbf4c8996fb92427ae41e4649b934ca495991b7852b85:",
        false,
    ),
    (
        "e3b0c44298fc1c149afbf4c8996fb92427ae41e4649b934ca495991b7852b85`",
        false,
    ),
];

/// Texts, whether each is an architecture, and whether it is a branch.
const ARCHS_AND_BRANCHES: [(&str, bool, bool); 27] = [
    ("x86_64", true, true),
    ("aarch64", true, true),
    ("_", true, true),
    ("0", true, true),
    ("Z9", true, true),
    ("stable", true, true),
    ("22.08", false, true),
    ("-", false, true),
    ("1-", false, true),
    ("a.", false, true),
    ("a..b", false, true),
    ("5.15-22.08", false, true),
    ("", false, false),
    (".", false, false),
    ("..", false, false),
    (".stable", false, false),
    ("a/b", false, false),
    ("1/2", false, false),
    ("a b", false, false),
    ("a+b", false, false),
    ("a\t", false, false),
    ("a\u{7f}", false, false),
    ("a\0", false, false),
    ("\u{e9}", false, false),
    ("*", false, false),
    ("a:b", false, false),
    ("a,b", false, false),
];

/// Texts, whether each is a ref, and whether it is a pattern of refs.
const REFS_AND_PATTERNS: [(&str, bool, bool); 34] = [
    ("app/org.x.App/x86_64/stable", true, true),
    ("runtime/org.x.Y-z/x86_64/22.08", true, true),
    ("app/a.b.c/_/-", true, true),
    ("app/org.x/x86_64/stable", false, false),
    ("runtime/org.x-y.Z/x86_64/1", false, false),
    ("", false, false),
    ("app", false, false),
    ("app/", false, false),
    ("app/org.x.App", false, false),
    ("app/org.x.App/x86_64", false, false),
    ("app/org.x.App/x86_64/", false, false),
    ("app/org.x.App//stable", false, false),
    ("app//x86_64/stable", false, false),
    ("/org.x.App/x86_64/stable", false, false),
    ("app/org.x.App/x86_64/stable/", false, false),
    ("app/org.x.App/x86_64/sta/ble", false, false),
    ("App/org.x.App/x86_64/stable", false, false),
    ("apps/org.x.App/x86_64/stable", false, false),
    ("extension/org.x.App/x86_64/stable", false, false),
    ("app/org.x.App/x86-64/stable", false, false),
    ("app/org.x.App/x86_64/.stable", false, false),
    ("app/org.x.App/x86_64/stable\n", false, false),
    ("app/org.x.Y/x86_64", false, false),
    ("app/org.x.Y/x86_64/1/2", false, false),
    ("app/org.x/x86_64/1", false, false),
    ("app/a.b.c/a/.1", false, false),
    ("app/*/*/*", false, true),
    ("app/org.x.App/*/stable", false, true),
    ("runtime/*/x86_64/22.08", false, true),
    ("*/org.x.App/x86_64/stable", false, false),
    ("app/org.x.*/x86_64/stable", false, false),
    ("app/**/x86_64/stable", false, false),
    ("app/*/*", false, false),
    ("app/*/*/*/*", false, false),
];

/// Ends the test at the first row that is wrong for this kind of text.
fn agree_on(rt: &impl Abort, kind: u8, rows: &[(&str, bool)]) {
    for (text, good) in rows {
        agree(rt, text, is_of(kind, text) == *good);
    }
}

/// Ends the test at the first row that is wrong for one of these two kinds of text.
fn agree_on_two(rt: &impl Abort, first: u8, second: u8, rows: &[(&str, bool, bool)]) {
    for (text, one, other) in rows {
        let is_so = is_of(first, text) == *one && is_of(second, text) == *other;
        agree(rt, text, is_so);
    }
}

/// Returns the front, filled up to `length` bytes with the letter `a`. A longer front stays as it
/// is.
fn filled_text(rt: &impl Abort, alloc: Global, front: &str, length: usize) -> String {
    let count = length.saturating_sub(front.len());
    let letters = "a".repeat(alloc, count).expect(rt, "memory");
    [front, &letters].concat(alloc).expect(rt, "memory")
}

/// A kind of text, the front and the length in bytes of one, and whether it is of this kind.
const LENGTHS: [(u8, &str, usize, bool); 12] = [
    (b'i', "org.x.", 255, true),
    (b'i', "org.x.", 256, false),
    (b'a', "", 1, true),
    (b'a', "", 255, true),
    (b'a', "", 256, false),
    (b'b', "", 1, true),
    (b'b', "", 255, true),
    (b'b', "", 256, false),
    (b'n', "a", 64, true),
    (b'n', "a", 65, false),
    (b'u', "file:///", 1024, true),
    (b'u', "file:///", 1025, false),
];

#[test]
fn texts_of_each_kind(rt: HostRuntime) {
    agree_on(&rt, b'i', &IDS);
    agree_on(&rt, b'n', &REMOTES);
    agree_on(&rt, b'u', &URLS);
    agree_on(&rt, b'd', &DIGESTS);
    agree_on_two(&rt, b'a', b'b', &ARCHS_AND_BRANCHES);
    agree_on_two(&rt, b'r', b'p', &REFS_AND_PATTERNS);
    for (kind, front, length, good) in &LENGTHS {
        let text = filled_text(&rt, rt.alloc(), front, *length);
        agree(&rt, &text, is_of(*kind, &text) == *good);
    }
}

#[test]
fn bytes_that_are_no_text(rt: HostRuntime) {
    let alloc = rt.alloc();
    let no_ref = b"app/org.x.App/x86_64/\xfe";
    assert!(rt;
        AppId::parse(alloc, b"org.x.\xff").err() == Some(NameError::Bad)
            && RemoteName::parse(alloc, b"a\x80").err() == Some(NameError::Bad)
            && RemoteUrl::parse(alloc, b"file:///\xc3").err() == Some(NameError::Bad)
            && RefName::parse(alloc, no_ref).err() == Some(NameError::Bad)
            && PinPattern::parse(alloc, no_ref).err() == Some(NameError::Bad)
    );
}

/// Parses a ref.
fn ref_of(rt: &impl Abort, alloc: Global, text: &str) -> RefName {
    RefName::parse(alloc, text.as_bytes()).expect(rt, "a ref")
}

/// Refs, of which the left one comes first by the bytes of their texts. By their parts, the refs of
/// the first two rows would have the opposite order, since `-` and `.` come before `/`.
const ORDERED: [(&str, &str); 10] = [
    ("app/org.x.A-b/x86_64/1", "app/org.x.A/x86_64/1"),
    ("app/org.x.A.b/x86_64/1", "app/org.x.A/x86_64/1"),
    ("app/org.x.A-b/x86_64/1", "app/org.x.A.b/x86_64/1"),
    ("app/org.x.A/x86_64/2", "app/org.x.A_/x86_64/1"),
    ("app/org.x.A/x86_64/2", "app/org.x.A/x86_64_v3/1"),
    ("app/org.x.A/x86_64/1", "app/org.x.A/x86_64/1-"),
    ("app/org.x.A/x86_64/1-0", "app/org.x.A/x86_64/1.0"),
    ("app/org.x.B/x86_64/1", "app/org.x.a/x86_64/1"),
    ("app/org.x.Z/x86_64/9", "runtime/a.b.c/a/0"),
    ("app/org.x.A/x86_64/10", "app/org.x.A/x86_64/9"),
];

/// Returns whether the left ref comes before the right one.
fn ascend(rt: &impl Abort, alloc: Global, left: &str, right: &str) -> bool {
    ref_of(rt, alloc, left) < ref_of(rt, alloc, right)
}

/// Patterns, and whether each matches `app/org.x.App/x86_64/stable`.
const PATTERNS: [(&str, bool); 16] = [
    ("app/org.x.App/x86_64/stable", true),
    ("app/*/*/*", true),
    ("app/org.x.App/*/*", true),
    ("app/*/x86_64/*", true),
    ("app/*/*/stable", true),
    ("runtime/org.x.App/x86_64/stable", false),
    ("runtime/*/*/*", false),
    ("app/org.x.Ap/*/*", false),
    ("app/org.x.App2/*/*", false),
    ("app/org.x.app/*/*", false),
    ("app/*/x86/*", false),
    ("app/*/x86_64_v3/*", false),
    ("app/*/*/stabl", false),
    ("app/*/*/stable2", false),
    ("app/org.x.Other/*/*", false),
    ("app/*/aarch64/stable", false),
];

#[test]
fn refs_and_patterns(rt: HostRuntime) {
    let alloc = rt.alloc();
    for (left, right) in &ORDERED {
        agree(&rt, left, ascend(&rt, alloc, left, right));
    }
    let name = ref_of(&rt, alloc, "app/org.x.App/x86_64/stable");
    for (text, matches) in &PATTERNS {
        let is_so = pattern_of(&rt, alloc, text).matches(&name) == *matches;
        agree(&rt, text, is_so);
    }
    let name = ref_of(&rt, alloc, "runtime/org.x.Y-z/x86_64/22.08");
    assert!(rt; name.kind() == RefKind::Runtime && name.id() == "org.x.Y-z");
    assert!(rt; name.arch() == "x86_64" && name.branch() == "22.08");
}

/// The SHA-256 digest of no bytes, in hexadecimal.
const EMPTY: &str = "e3b0c44298fc1c149afbf4c8996fb92427ae41e4649b934ca495991b7852b855";

/// The SHA-256 digest of no bytes.
const EMPTY_BYTES: [u8; 32] = [
    0xe3, 0xb0, 0xc4, 0x42, 0x98, 0xfc, 0x1c, 0x14, 0x9a, 0xfb, 0xf4, 0xc8, 0x99, 0x6f, 0xb9, 0x24,
    0x27, 0xae, 0x41, 0xe4, 0x64, 0x9b, 0x93, 0x4c, 0xa4, 0x95, 0x99, 0x1b, 0x78, 0x52, 0xb8, 0x55,
];

#[test]
fn digest(rt: HostRuntime) {
    let digest = Digest::from_bytes(EMPTY_BYTES);
    assert!(rt;
        digest.digits().as_slice() == EMPTY.as_bytes()
            && digest.write(rt.alloc()).is_ok()
            && Digest::parse(EMPTY.as_bytes()) == Ok(digest)
    );
}

/// Returns whether the longest ID, remote's name and URL can be written and copied.
fn keeps_names(rt: &impl Abort, alloc: Global) -> bool {
    let id = filled_text(rt, alloc, "org.x.", 255);
    let id = AppId::parse(alloc, id.as_bytes()).expect(rt, "an ID");
    let name = filled_text(rt, alloc, "", 64);
    let name = RemoteName::parse(alloc, name.as_bytes()).expect(rt, "a name");
    let url = filled_text(rt, alloc, "file:///", 1024);
    let url = RemoteUrl::parse(alloc, url.as_bytes()).expect(rt, "a url");
    id.write().is_ok()
        && id.copy().is_ok()
        && name.write().is_ok()
        && name.copy().is_ok()
        && url.write().is_ok()
        && url.copy().is_ok()
}

/// Returns whether the text is a ref that can be written, copied and made from its parts.
fn keeps_ref(rt: &impl Abort, alloc: Global, text: &str) -> bool {
    let name = ref_of(rt, alloc, text);
    let (_, rest) = text.split_once('/').unwrap_or((text, ""));
    name.write().is_ok()
        && name.path().is_ok()
        && name.copy().is_ok()
        && name.app_id().is_ok()
        && RefName::new(alloc, name.kind(), name.id(), name.arch(), name.branch()).is_ok()
        && RefName::of_kind(alloc, name.kind(), rest).is_ok()
}

/// Returns whether the text is a pattern that can be written and copied, and matches the ref with
/// this text.
fn keeps_pattern(rt: &impl Abort, alloc: Global, text: &str) -> bool {
    let pattern = pattern_of(rt, alloc, text);
    pattern.write().is_ok() && pattern.copy().is_ok() && pattern.matches(&ref_of(rt, alloc, text))
}

/// The longest names, and the longest ref: its ID, architecture and branch have 255 bytes each.
#[test]
fn longest_names(rt: HostRuntime) {
    let alloc = rt.alloc();
    assert!(rt; keeps_names(&rt, alloc));
    let id = filled_text(&rt, alloc, "org.x.", 255);
    let part = filled_text(&rt, alloc, "", 255);
    let text = ["runtime", &id, &part, &part]
        .join(alloc, "/")
        .expect(&rt, "memory");
    assert!(rt; keeps_ref(&rt, alloc, &text) && keeps_pattern(&rt, alloc, &text));
}
