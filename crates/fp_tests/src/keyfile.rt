//! Key files, and the texts that are written for them, worked out by hand from the rules.

use crate::many;
use crate::rows::agree;
use fp_base::KeyRule;
use fp_keyfile::{
    KeyError, KeyFault, KeyFile, is_group_name, is_pair_key, is_pair_value, trim_front,
};
use std::alloc::Global;
use std::panic::Expect;
use std::process::Abort;

/// Key files, and the text that is written for each.
const FILES: [(&str, &str); 44] = [
    // no groups
    ("", ""),
    ("\n", ""),
    ("\n\n\n", ""),
    (" \t \n", ""),
    ("\r\r\n", ""),
    ("# c", ""),
    ("#[g]\n#a=1\n", ""),
    // groups
    ("[g]", "[g]\n"),
    ("[g]\n", "[g]\n"),
    ("[a] \t\nk=v\n", "[a]\nk=v\n"),
    ("[ a ]\n", "[ a ]\n"),
    ("[a=b]\n", "[a=b]\n"),
    ("[#]\n", "[#]\n"),
    ("[a]\n[b]\n[a]\n", "[a]\n[b]\n"),
    // carriage returns
    ("[g]\r\na=1\r\n", "[g]\na=1\n"),
    ("[g]\r\r\r\na=1\r\r\n", "[g]\na=1\n"),
    ("[g]\na=1\r", "[g]\na=1\n"),
    ("[g] \r\na=\r\r\n", "[g]\na=\n"),
    ("[g]\na=x\ry\n", "[g]\na=x\ry\n"),
    ("[g]\na=x\r \n", "[g]\na=x\r \n"),
    // spaces and tabs around the first `=`
    ("[g]\na = 1\n", "[g]\na=1\n"),
    ("[g]\na \t = \t 1 \t\n", "[g]\na=1 \t\n"),
    ("[g]\na=\n", "[g]\na=\n"),
    ("[g]\na= \t\n", "[g]\na=\n"),
    ("[g]\né =1\n", "[g]\né=1\n"),
    ("[g]\na=\u{a0}x\n", "[g]\na=\u{a0}x\n"),
    // special characters in keys and values
    ("[g]\na=b=c\n", "[g]\na=b=c\n"),
    ("[g]\na==\n", "[g]\na==\n"),
    ("[g]\na=[x]\n", "[g]\na=[x]\n"),
    ("[g]\na=#b;c#d\n", "[g]\na=#b;c#d\n"),
    ("[g]\na b=1\n", "[g]\na b=1\n"),
    ("[g]\na]b[c#d=1\n", "[g]\na]b[c#d=1\n"),
    ("[g]\na='1'\\n\n", "[g]\na='1'\\n\n"),
    // other bytes
    ("[ä]\nö=ü€𝄞\n", "[ä]\nö=ü€𝄞\n"),
    ("[g]\na=\u{1}\u{7f}b\tc\n", "[g]\na=\u{1}\u{7f}b\tc\n"),
    // repeated groups and keys
    ("[g]\na = 1\na=2", "[g]\na=2\n"),
    ("[a]\nx=1\ny=2\nx=3\n", "[a]\nx=3\ny=2\n"),
    (
        "[a]\nx=1\n[b]\ny=2\n[a]\nz=3\n",
        "[a]\nx=1\nz=3\n[b]\ny=2\n",
    ),
    ("[a]\nx=1\n[b]\nx=2\n[a]\nx=3\n", "[a]\nx=3\n[b]\nx=2\n"),
    ("[a]\nx=1\n[A]\nX=2\n", "[a]\nx=1\n[A]\nX=2\n"),
    // blank lines and comments between others
    ("# x\n\n[g]\n# y\na=1\n\n# z", "[g]\na=1\n"),
    ("[g]\n\n \t\na=1\n\n\n", "[g]\na=1\n"),
    // the order of pairs
    ("[g]\nb=1\na=2\nc=3\n", "[g]\nb=1\na=2\nc=3\n"),
    ("[b]\n[a]\nk=\n", "[b]\n[a]\nk=\n"),
];

/// Returns whether a copy of the file is written as this text.
fn is_now(rt: &impl Abort, file: &KeyFile, text: &str) -> bool {
    let copy = file.copy().expect(rt, "memory");
    copy.write().expect(rt, "memory").as_str() == text
}

/// Returns whether the key file with the first text is written as the second.
fn is_written(rt: &impl Abort, alloc: Global, text: &str, want: &str) -> bool {
    let file = KeyFile::parse(alloc, text.as_bytes()).expect(rt, "a key file");
    is_now(rt, &file, want)
}

/// The text that is written for a key file is read and written again without a change. That holds
/// for a value of 1 MiB, and for 1,100 groups of more than 1 MiB in all.
#[test]
fn reads_and_writes(rt: HostRuntime) {
    let alloc = rt.alloc();
    for (text, want) in &FILES {
        agree(&rt, text, is_written(&rt, alloc, text, want));
        agree(&rt, want, is_written(&rt, alloc, want, want));
    }
    for (count, length) in [(1, 1 << 20), (1_100, 1_000)] {
        let value = "v".repeat(alloc, length).expect(&rt, "memory");
        let group = ["[g#]\nk=", &value, "\n"]
            .concat(alloc)
            .expect(&rt, "memory");
        let text = many::numbered(&rt, alloc, &group, count);
        assert!(rt; is_written(&rt, alloc, &text, &text));
    }
}

/// Bytes that are no key file, the number of the first bad line, and the rule that it breaks.
const FAULTS: [(&[u8], u64, KeyRule); 42] = [
    (b"a=1", 1, KeyRule::NoGroup),
    (b"\n\n# c\na=1\n[g]", 4, KeyRule::NoGroup),
    (b"x", 1, KeyRule::Line),
    (b"[g]\nx\n", 2, KeyRule::Line),
    (b"[g]\nkey\r\n", 2, KeyRule::Line),
    (b"[g]\n  [h]\n", 2, KeyRule::Line),
    (b" # c", 1, KeyRule::Line),
    (b"\r \n", 1, KeyRule::Line),
    (b"\xef\xbb\xbf[g]\n", 1, KeyRule::Line),
    (b"[]", 1, KeyRule::Group),
    (b"[a", 1, KeyRule::Group),
    (b"[", 1, KeyRule::Group),
    (b"[a[b]", 1, KeyRule::Group),
    (b"[a]b]", 1, KeyRule::Group),
    (b"[a]x", 1, KeyRule::Group),
    (b"[a]=1", 1, KeyRule::Group),
    (b"[a] #", 1, KeyRule::Group),
    (b"[a\tb]", 1, KeyRule::Group),
    (b"[a\x7f]", 1, KeyRule::Group),
    (b"[a]\r \n", 1, KeyRule::Group),
    (b"[g]\n=1", 2, KeyRule::Key),
    (b"[g]\n \t=1", 2, KeyRule::Key),
    (b"[g]\n a=1", 2, KeyRule::Key),
    (b"[g]\n\ta=1", 2, KeyRule::Key),
    (b"[g]\na\tb=1", 2, KeyRule::Key),
    (b"[g]\na\x01=1", 2, KeyRule::Key),
    (b"[g]\na\x7f=1", 2, KeyRule::Key),
    // several broken rules in a line, and several bad lines
    (b"=1", 1, KeyRule::Key),
    (b" #c=1", 1, KeyRule::Key),
    (b"x\n[", 1, KeyRule::Line),
    (b"[g]\na=1\n[\nx\n", 3, KeyRule::Group),
    (b"[g]\na=1\nb=2\nc\n[x", 4, KeyRule::Line),
    (b"[g]\n[\x00", 2, KeyRule::Text),
    (b"#\x00", 1, KeyRule::Text),
    (b"[g]\na=\x00", 2, KeyRule::Text),
    (b"\x00\n[", 1, KeyRule::Text),
    // a value with a byte that begins no character
    (b"\x5b\x67\x5d\x0a\x61\x3d\xff", 2, KeyRule::Text),
    // a comment that ends within a character
    (b"\x23\x20\x20\x20\x20\x20\xc3", 1, KeyRule::Text),
    // a newline within a character
    (b"\x23\xc3\x0a\xa4\x0a\x0a\x0a", 1, KeyRule::Text),
    // an overlong encoding of zero
    (b"\x0a\x0a\x23\xc0\x80\x0a\x0a", 3, KeyRule::Text),
    // a surrogate
    (b"\x0a\x23\xed\xa0\x80\x0a\x0a", 2, KeyRule::Text),
    // a code point above U+10FFFF
    (b"\x23\xf4\x90\x80\x80\x0a\x0a", 1, KeyRule::Text),
];

#[test]
fn names_the_first_fault(rt: HostRuntime) {
    for (bytes, line, rule) in &FAULTS {
        let (line, rule) = (*line, *rule);
        let fault = KeyFile::parse(rt.alloc(), bytes).err();
        let is_so = fault == Some(KeyError::Fault(KeyFault { line, rule }));
        agree(&rt, str::from_utf8(bytes).unwrap_or("no text"), is_so);
    }
}

/// A group, a key, its new value (none removes the pair), and the text of the file after that
/// change. Each row changes the file of the previous one.
const CHANGES: [(&str, &str, Option<&str>, &str); 12] = [
    ("g", "a", Some("1"), "[g]\na=1\n"),
    ("g", "b c", Some("2 = [x]"), "[g]\na=1\nb c=2 = [x]\n"),
    ("h", "a", Some(""), "[g]\na=1\nb c=2 = [x]\n[h]\na=\n"),
    ("g", "a", Some("3"), "[g]\na=3\nb c=2 = [x]\n[h]\na=\n"),
    ("i", "a", None, "[g]\na=3\nb c=2 = [x]\n[h]\na=\n"),
    ("h", "b c", None, "[g]\na=3\nb c=2 = [x]\n[h]\na=\n"),
    ("g", "a", None, "[g]\nb c=2 = [x]\n[h]\na=\n"),
    ("g", "a", Some("4"), "[g]\nb c=2 = [x]\na=4\n[h]\na=\n"),
    ("g", "b c", None, "[g]\na=4\n[h]\na=\n"),
    ("g", "a", None, "[h]\na=\n"),
    ("g", "a", Some("5"), "[h]\na=\n[g]\na=5\n"),
    ("h", "a", None, "[g]\na=5\n"),
];

/// Sets a pair if its parts are valid. Without a value, removes it.
fn change(rt: &impl Abort, file: &mut KeyFile, group: &str, key: &str, value: Option<&str>) {
    match value {
        None => {
            let _ = file.remove(group, key);
        }
        Some(value) => {
            if is_group_name(group) && is_pair_key(key) && is_pair_value(value) {
                file.set(group, key, value).expect(rt, "memory");
            }
        }
    }
}

#[test]
fn changes(rt: HostRuntime) {
    let mut file = KeyFile::new(rt.alloc());
    for (group, key, value, text) in &CHANGES {
        change(&rt, &mut file, group, key, *value);
        let is_so = is_now(&rt, &file, text) && file.get(group, key) == *value;
        agree(&rt, text, is_so);
    }
}

/// 1,100 pairs are set in one group, and 1,100 groups are added.
#[test]
fn many_pairs_are_set(rt: HostRuntime) {
    let alloc = rt.alloc();
    let mut file = KeyFile::new(alloc);
    for number in 0..1_100 {
        let name = format!(in alloc; "n{number:04}").expect(&rt, "memory");
        change(&rt, &mut file, "g", &name, Some("v"));
        change(&rt, &mut file, &name, "k", Some("v"));
    }
    let pairs = many::numbered(&rt, alloc, "n#=v\n", 1_100);
    let groups = many::numbered(&rt, alloc, "[n#]\nk=v\n", 1_100);
    let text = ["[g]\n", &pairs, &groups]
        .concat(alloc)
        .expect(&rt, "memory");
    assert!(rt; is_now(&rt, &file, &text));
}

/// Texts, whether each is a group's name, whether it is a key, and whether it is a value.
const PARTS: [(&str, bool, bool, bool); 17] = [
    ("a b", true, true, true),
    ("", false, false, true),
    ("a]", false, true, true),
    ("[a", false, false, true),
    ("a[#]", false, true, true),
    ("#a", true, false, true),
    ("a=", true, false, true),
    (" a", true, false, false),
    ("a ", true, false, true),
    ("\ta", false, false, false),
    ("a\tb", false, false, true),
    ("a\u{7f}", false, false, true),
    ("a\u{0}", false, false, false),
    ("a\nb", false, false, false),
    ("a\r", false, false, false),
    ("a \r b\t", false, false, true),
    ("\u{e9}", true, true, true),
];

/// Returns whether the text is a group's name, a key and a value, as given.
fn are_parts(text: &str, name: bool, key: bool, value: bool) -> bool {
    is_group_name(text) == name && is_pair_key(text) == key && is_pair_value(text) == value
}

#[test]
fn parts(rt: HostRuntime) {
    for (text, name, key, value) in &PARTS {
        agree(&rt, text, are_parts(text, *name, *key, *value));
    }
    assert!(rt; trim_front(" \t a ") == "a ");
}
