//! The lines that commands print.

use crate::rows::lined;
use fl_lines::{
    info_text, op_line, pins_text, refs_text, refusal_line, remotes_text, skipped_line,
};
use fp_base::{Items, ObjKind, Rule, Text, What};
use fp_host::Path;
use fp_name::{Digest, PinPattern, RefName, RemoteName, RemoteUrl};
use fp_small::{Op, Previous, RefRow, Refusal, RemoteRow};
use std::alloc::Global;
use std::panic::Expect;
use std::process::Abort;

fn pattern(rt: &impl Abort, alloc: Global, text: &str) -> PinPattern {
    PinPattern::parse(alloc, text.as_bytes()).expect(rt, "a pattern")
}

/// Returns the SHA-256 digest of no bytes.
fn empty_digest(rt: &impl Abort) -> Digest {
    let digits = b"e3b0c44298fc1c149afbf4c8996fb92427ae41e4649b934ca495991b7852b855";
    Digest::parse(digits).expect(rt, "a digest")
}

fn ref_name(rt: &impl Abort, alloc: Global, text: &str) -> RefName {
    RefName::parse(alloc, text.as_bytes()).expect(rt, "a ref")
}

/// Returns the refusal that a text stands for: its kind, a space, and what is refused.
fn refusal_of(rt: &impl Abort, alloc: Global, text: &str) -> Refusal {
    let (kind, rest) = text.split_once(' ').unwrap_or((text, ""));
    let number = rest.parse::<u64>().unwrap_or(0);
    match kind {
        "damaged" => Refusal::Damaged {
            path: Path::parse(alloc, &lined(rt, alloc, rest)).expect(rt, "a path"),
        },
        "words" => Refusal::BadWords { index: number },
        "record" => Refusal::BadRecord { line: number },
        "pins" => Refusal::Limit {
            what: What::Pins,
            number,
        },
        "input" => Refusal::Limit {
            what: What::Input,
            number,
        },
        "dirtree" => Refusal::MalformedObject {
            digest: Digest::parse(rest.as_bytes()).expect(rt, "a digest"),
            kind: ObjKind::DirTree,
            rule: Rule::Value,
        },
        "exists" => Refusal::PinExists {
            pin: pattern(rt, alloc, rest),
        },
        _ => Refusal::NoSuchPin {
            pin: pattern(rt, alloc, rest),
        },
    }
}

/// Returns the line of the refusal that a text stands for.
pub fn printed_refusal(rt: &impl Abort, alloc: Global, text: &str) -> Text {
    refusal_line(alloc, &refusal_of(rt, alloc, text)).expect(rt, "memory")
}

/// Refusals and their lines.
pub const REFUSALS: &str = "\
words 0=> error: words 0|
words 18446744073709551615=> error: words 18446744073709551615|
record 2=> error: record 2|
pins 1025=> error: limit pins 1025|
input 67108865=> error: limit input 67108865|
dirtree e3b0c44298fc1c149afbf4c8996fb92427ae41e4649b934ca495991b7852b855=> \
    error: malformed object e3b0c44298fc1c149afbf4c8996fb92427ae41e4649b934ca495991b7852b855.dirtree value|
exists app/*/*/*=> error: pin exists app/*/*/*|
absent runtime/org.x.Y/*/1.0=> error: no pin runtime/org.x.Y/*/1.0|
";

/// Damaged paths, and the lines of their refusals. The last path has 1,100 elements, each of one
/// character that is escaped.
pub const DAMAGED: &str = "\
damaged config=> error: damaged config|
damaged repo/refs/heads=> error: damaged repo/refs/heads|
damaged a|b=> error: damaged a\\0ab|
damaged a\\b/\u{1f}\u{7f}=> error: damaged a\\5cb/\\1f\\7f|
damaged  !~[]\"'=> error: damaged  !~[]\"'|
damaged \u{e9}\u{80}\u{1f600}\\=> error: damaged \u{e9}\u{80}\u{1f600}\\5c|
damaged <|/*1099>|=> error: damaged <\\0a/*1099>\\0a|
";

/// A text of 100 KiB, each byte of which is escaped.
pub const ESCAPED: &str = "<\\*102400>=> <\\5c*102400>";

/// Returns the line of an operation on a pin or the layout, or of a skipped ref.
pub fn printed_operation(rt: &impl Abort, alloc: Global, text: &str) -> Text {
    let (kind, rest) = text.split_once(' ').unwrap_or((text, ""));
    let line = match kind {
        "pin" => op_line(alloc, &Op::AddPin(pattern(rt, alloc, rest))),
        "unpin" => op_line(alloc, &Op::DropPin(pattern(rt, alloc, rest))),
        "migrate" => op_line(alloc, &Op::Migrate),
        _ => skipped_line(alloc, &ref_name(rt, alloc, rest)),
    };
    line.expect(rt, "memory")
}

/// Operations and a skipped ref, and their lines.
pub const OPERATIONS: &str = "\
pin app/*/*/*=> pinned app/*/*/*|
unpin app/org.x.Y/*/*=> unpinned app/org.x.Y/*/*|
migrate=> migrated layout 2|
skip app/org.x.App/x86_64/stable=> skipped app/org.x.App/x86_64/stable|
";

/// Returns the lines of pins.
pub fn printed_pins(rt: &impl Abort, alloc: Global, patterns: &str) -> Text {
    let mut pins = Items::new(alloc);
    for text in patterns.split_terminator('|') {
        pins.push(pattern(rt, alloc, text)).expect(rt, "memory");
    }
    pins_text(alloc, pins.as_slice()).expect(rt, "memory")
}

/// Returns the remote that a text stands for: a name, a space and a URL.
fn remote_row(rt: &impl Abort, alloc: Global, text: &str) -> RemoteRow {
    let (name, url) = text.split_once(' ').unwrap_or((text, ""));
    RemoteRow {
        name: RemoteName::parse(alloc, name.as_bytes()).expect(rt, "a name"),
        url: RemoteUrl::parse(alloc, url.as_bytes()).expect(rt, "a url"),
    }
}

/// Returns the lines of remotes.
pub fn printed_remotes(rt: &impl Abort, alloc: Global, remotes: &str) -> Text {
    let mut rows = Items::new(alloc);
    for text in remotes.split_terminator('|') {
        rows.push(remote_row(rt, alloc, text)).expect(rt, "memory");
    }
    remotes_text(alloc, rows.as_slice()).expect(rt, "memory")
}

/// Returns the row of a deployed ref, which has a previous commit if it was updated.
fn deployed_row(rt: &impl Abort, alloc: Global, name: &str, is_updated: bool) -> RefRow {
    let commit = empty_digest(rt);
    let timestamp = 0;
    let before = Previous { commit, timestamp };
    RefRow {
        name: ref_name(rt, alloc, name),
        origin: RemoteName::parse(alloc, b"hub").expect(rt, "a remote"),
        commit,
        timestamp: u64::MAX,
        previous: is_updated.then_some(before),
    }
}

/// Returns the lines of deployed refs.
pub fn printed_refs(rt: &impl Abort, alloc: Global, names: &str) -> Text {
    let mut rows = Items::new(alloc);
    for name in names.split_terminator('|') {
        let row = deployed_row(rt, alloc, name, false);
        rows.push(row).expect(rt, "memory");
    }
    refs_text(alloc, rows.as_slice()).expect(rt, "memory")
}

/// Returns the names of extensions in a text.
fn extensions(rt: &impl Abort, alloc: Global, names: &str) -> Items<Text> {
    let mut extensions = Items::new(alloc);
    for name in names.split_terminator('|') {
        let name = Text::from_str(alloc, name).expect(rt, "memory");
        extensions.push(name).expect(rt, "memory");
    }
    extensions
}

/// Returns the lines of `info` about an application with these extensions. A whole one has a
/// runtime and a previous commit.
pub fn info(rt: &impl Abort, alloc: Global, names: &str, is_whole: bool) -> Text {
    let row = deployed_row(rt, alloc, "app/org.x.App/x86_64/stable", is_whole);
    let runtime = ref_name(rt, alloc, "runtime/org.x.Platform/x86_64/1");
    let runtime = if is_whole { Some(&runtime) } else { None };
    let extensions = extensions(rt, alloc, names);
    info_text(alloc, &row, runtime, extensions.as_slice()).expect(rt, "memory")
}

/// Two pins, and 1,024.
pub const PINS: &str = "\
runtime/*/*/*|app/*/*/*|=> runtime/*/*/*|app/*/*/*|
<app/*/*/*|*1024>=> <app/*/*/*|*1024>
";

/// Two remotes, and 256.
pub const REMOTES: &str = "\
art file:///art|lab file:///lab|=> art file:///art|lab file:///lab|
<remote file:///r|*256>=> <remote file:///r|*256>
";

/// One ref, and 4,096.
pub const REFS: &str = "\
app/org.x.App/x86_64/stable|=> app/org.x.App/x86_64/stable \
    e3b0c44298fc1c149afbf4c8996fb92427ae41e4649b934ca495991b7852b855 hub|
<app/org.x.App/x86_64/stable|*4096>=> <app/org.x.App/x86_64/stable \
    e3b0c44298fc1c149afbf4c8996fb92427ae41e4649b934ca495991b7852b855 hub|*4096>
";

/// An application without an extension, and one with 1,100.
pub const INFO: &str = "\
=> ref app/org.x.App/x86_64/stable|\
    commit e3b0c44298fc1c149afbf4c8996fb92427ae41e4649b934ca495991b7852b855|\
    origin hub|timestamp 18446744073709551615|
<org.x.E|*1100>=> ref app/org.x.App/x86_64/stable|\
    commit e3b0c44298fc1c149afbf4c8996fb92427ae41e4649b934ca495991b7852b855|\
    origin hub|timestamp 18446744073709551615|<extension org.x.E|*1100>
";

/// An application with two extensions, a runtime and a previous commit.
pub const WHOLE_INFO: &str = "\
a\\b|org.x.App.Locale|=> ref app/org.x.App/x86_64/stable|\
    commit e3b0c44298fc1c149afbf4c8996fb92427ae41e4649b934ca495991b7852b855|\
    origin hub|timestamp 18446744073709551615|\
    previous e3b0c44298fc1c149afbf4c8996fb92427ae41e4649b934ca495991b7852b855|\
    runtime runtime/org.x.Platform/x86_64/1|\
    extension a\\5cb|extension org.x.App.Locale|
";
