//! The small files of an installation: `config`, and `remotes.conf` and `pins` of the old layout.

use crate::many;
use crate::parsed::{path, pattern_of};
use crate::rows::agree;
use fp_host::{Host, Path, Stat};
use fp_memhost::MemHost;
use fp_small::{
    ConfigError, Loaded, clear, clear_below, has_pin, has_remote, insert_pin, insert_remote, load,
    make_above, read_config, read_pins, read_remotes, remove_pin, remove_remote, replace,
    take_away, write_config,
};
use std::alloc::Global;
use std::panic::Expect;
use std::process::Abort;

/// The text of a `remotes.conf`, and its remotes, each followed by a space.
const OLD_REMOTES: [(&str, &str); 4] = [
    ("", ""),
    ("# none\n\n", ""),
    ("[remote \"lab\"]\nurl=file:///lab", "lab=file:///lab "),
    (
        "[remote \"b\"]\nurl=file:///b\n[remote \"a\"]\nurl=file:///a\n",
        "a=file:///a b=file:///b ",
    ),
];

/// The text of a `pins`, and its patterns, each followed by a space.
const OLD_PINS: [(&str, &str); 3] = [
    ("", ""),
    ("app/*/*/*\n", "app/*/*/* "),
    (
        "app/*/*/*\nruntime/org.x.Platform/*/*\n",
        "app/*/*/* runtime/org.x.Platform/*/* ",
    ),
];

/// Returns whether a `remotes.conf` contains these remotes.
fn remotes_say(rt: &impl Abort, alloc: Global, text: &str, want: &str) -> bool {
    let remotes = read_remotes(alloc, text.as_bytes()).expect(rt, "a remotes.conf");
    let mut said = String::new(alloc);
    for row in remotes.as_slice() {
        for part in [row.name.as_str(), "=", row.url.as_str(), " "] {
            said.push_str(part).expect(rt, "memory");
        }
    }
    said.as_str() == want
}

/// Returns whether a `pins` contains these patterns.
fn pins_say(rt: &impl Abort, alloc: Global, text: &str, want: &str) -> bool {
    let pins = read_pins(alloc, text.as_bytes()).expect(rt, "a pins");
    let mut said = String::new(alloc);
    for pin in pins.as_slice() {
        said.push_str(pin.as_str()).expect(rt, "memory");
        said.push(' ').expect(rt, "memory");
    }
    said.as_str() == want
}

#[test]
fn said_by_old_files(rt: HostRuntime) {
    for (text, want) in &OLD_REMOTES {
        agree(&rt, text, remotes_say(&rt, rt.alloc(), text, want));
    }
    for (text, want) in &OLD_PINS {
        agree(&rt, text, pins_say(&rt, rt.alloc(), text, want));
    }
}

/// The name of a small file, and a text that is refused for it.
const BAD: [(&str, &str); 31] = [
    ("config", ""),
    ("config", "[pins]\n"),
    ("config", "[installation]\n"),
    ("config", "[installation]\nlayout=1\n"),
    ("config", "[installation]\nlayout=2 \nmore=1\n"),
    ("config", "[installation]\nlayout=2\n[other]\n"),
    (
        "config",
        "[installation]\nlayout=2\n[pins]\nruntime/org.x.Platform/*/*=false\n",
    ),
    (
        "config",
        "[installation]\nlayout=2\n[pins]\nruntime/org.x.Platform/*=true\n",
    ),
    ("config", "[installation]\nlayout=2\n[remote \"lab\"]\n"),
    (
        "config",
        "[installation]\nlayout=2\n[remote \"lab\"]\nurl=file:///lab\nmore=1\n",
    ),
    (
        "config",
        "[installation]\nlayout=2\n[remote \"lab\"]\nurl=lab\n",
    ),
    (
        "config",
        "[installation]\nlayout=2\n[remote \"\"]\nurl=file:///lab\n",
    ),
    (
        "config",
        "[installation]\nlayout=2\n[remote lab]\nurl=file:///lab\n",
    ),
    ("config", "[installation]\nlayout=2\n[pins]\nx\n"),
    ("remotes.conf", "url=file:///lab\n"),
    ("remotes.conf", "[installation]\nlayout=2\n"),
    ("remotes.conf", "[pins]\n"),
    ("remotes.conf", "[remote \"lab\"]\n"),
    ("remotes.conf", "[remote \"lab\"]\nurl=lab\n"),
    (
        "remotes.conf",
        "[remote \"lab\"]\nurl=file:///lab\nmore=1\n",
    ),
    ("remotes.conf", "[remote \"\"]\nurl=file:///lab\n"),
    ("remotes.conf", "[remote lab]\nurl=file:///lab\n"),
    (
        "remotes.conf",
        "[remote \"lab\"]\nurl=file:///lab\n[other]\n",
    ),
    ("pins", "app/*/*/*"),
    ("pins", "\n"),
    ("pins", "app/*/*/*\n\n"),
    ("pins", "app/*/*/*\r\n"),
    ("pins", "app/*/*/*\napp/*/*/*\n"),
    ("pins", "runtime/org.x.Platform/*/*\napp/*/*/*\n"),
    ("pins", "app/*/*/*\nruntime/org.x.Platform/*/*"),
    ("pins", "app/*/*\n"),
];

/// Returns whether the text is refused for the file with this name.
fn is_bad(alloc: Global, file: &str, text: &str) -> bool {
    let bytes = text.as_bytes();
    let fault = match file {
        "config" => read_config(alloc, bytes).err(),
        "pins" => read_pins(alloc, bytes).err(),
        _ => read_remotes(alloc, bytes).err(),
    };
    fault == Some(ConfigError::Bad)
}

/// The text of a `config`, and the text that is written for its settings.
const WRITTEN: [(&str, &str); 6] = [
    ("[installation]\nlayout=2\n", "[installation]\nlayout=2\n"),
    (
        "[installation]\nlayout=2\n[pins]\n",
        "[installation]\nlayout=2\n",
    ),
    (
        "[installation]\nlayout=2\n[pins]\nruntime/org.x.Platform/*/*=true\n",
        "[installation]\nlayout=2\n[pins]\nruntime/org.x.Platform/*/*=true\n",
    ),
    (
        "[pins]\nruntime/org.x.B/*/*=true\nruntime/org.x.A/*/*=true\n[installation]\nlayout=2\n",
        "[installation]\nlayout=2\n[pins]\nruntime/org.x.A/*/*=true\nruntime/org.x.B/*/*=true\n",
    ),
    (
        "[remote \"lab\"]\nurl=file:///lab\n[installation]\nlayout=2\n",
        "[installation]\nlayout=2\n[remote \"lab\"]\nurl=file:///lab\n",
    ),
    (
        "# ours\n[installation]\nlayout=2\n[remote \"b\"]\nurl=file:///b\n[remote \"a\"]\nurl=file:///a\n",
        "[installation]\nlayout=2\n[remote \"a\"]\nurl=file:///a\n[remote \"b\"]\nurl=file:///b\n",
    ),
];

/// Returns whether the settings in the first text are written as the second.
fn is_written(rt: &impl Abort, alloc: Global, text: &str, want: &str) -> bool {
    let settings = read_config(alloc, text.as_bytes()).expect(rt, "a config");
    let written = write_config(alloc, settings.remotes.as_slice(), settings.pins.as_slice());
    drop(settings);
    written.expect(rt, "memory").as_str() == want
}

#[test]
fn good_and_bad_files(rt: HostRuntime) {
    for (text, want) in &WRITTEN {
        agree(&rt, text, is_written(&rt, rt.alloc(), text, want));
    }
    for (file, text) in &BAD {
        agree(&rt, text, is_bad(rt.alloc(), file, text));
    }
}

/// A remote, with a number in place of `#`.
const REMOTE: &str = "[remote \"r#\"]\nurl=file:///r\n";

const PIN: &str = "app/org.x.A#/*/*\n";

/// A `remotes.conf` has at most 256 remotes, and a `pins` at most 1,024 patterns. A `config` with
/// that many of both is written as it was read.
#[test]
fn longest_files(rt: HostRuntime) {
    let alloc = rt.alloc();
    let remotes = many::numbered(&rt, alloc, REMOTE, 256);
    let more = many::numbered(&rt, alloc, REMOTE, 257);
    let said = many::numbered(&rt, alloc, "r#=file:///r ", 256);
    assert!(rt; remotes_say(&rt, alloc, &remotes, &said) && is_bad(alloc, "remotes.conf", &more));
    let pins = many::numbered(&rt, alloc, PIN, 1_024);
    let more = many::numbered(&rt, alloc, PIN, 1_025);
    let said = many::numbered(&rt, alloc, "app/org.x.A#/*/* ", 1_024);
    assert!(rt; pins_say(&rt, alloc, &pins, &said) && is_bad(alloc, "pins", &more));
    let pins = many::numbered(&rt, alloc, "app/org.x.A#/*/*=true\n", 1_024);
    let text = ["[installation]\nlayout=2\n", &remotes, "[pins]\n", &pins].concat(alloc);
    let text = text.expect(&rt, "memory");
    assert!(rt; is_written(&rt, alloc, &text, &text));
}

/// Returns whether 256 remotes can be inserted, and one of them removed.
fn remotes_come_and_go(rt: &impl Abort, alloc: Global) -> bool {
    let text = many::numbered(rt, alloc, REMOTE, 256);
    let rows = read_remotes(alloc, text.as_bytes()).expect(rt, "a remotes.conf");
    let mut remotes = Vec::new(alloc);
    for row in rows.as_slice() {
        let copy = row.copy().expect(rt, "memory");
        insert_remote(&mut remotes, copy).expect(rt, "memory");
    }
    let Some(row) = rows.as_slice().first() else {
        return false;
    };
    let was_there = has_remote(&remotes, &row.name) && remotes.len() == 256;
    remove_remote(&mut remotes, &row.name);
    was_there && !has_remote(&remotes, &row.name) && remotes.len() == 255
}

/// Returns whether 1,024 pins can be inserted, and one of them removed.
fn pins_come_and_go(rt: &impl Abort, alloc: Global) -> bool {
    let text = many::numbered(rt, alloc, PIN, 1_024);
    let rows = read_pins(alloc, text.as_bytes()).expect(rt, "a pins");
    let mut pins = Vec::new(alloc);
    for pin in rows.as_slice() {
        let copy = pin.copy().expect(rt, "memory");
        insert_pin(&mut pins, copy).expect(rt, "memory");
    }
    let last = pattern_of(rt, alloc, "app/org.x.A1023/*/*");
    let was_there = has_pin(&pins, &last) && pins.len() == 1_024;
    remove_pin(&mut pins, &last);
    was_there && !has_pin(&pins, &last) && pins.len() == 1_023
}

#[test]
fn many_remotes_and_pins_come_and_go(rt: HostRuntime) {
    assert!(rt; remotes_come_and_go(&rt, rt.alloc()) && pins_come_and_go(&rt, rt.alloc()));
}

/// Returns whether a file is replaced by one with these bytes.
fn are_put(rt: &impl Abort, alloc: Global, bytes: &[u8]) -> bool {
    let mut host = MemHost::new(alloc).expect(rt, "memory");
    let path = path(rt, alloc, "etc/config");
    replace(alloc, &mut host, &path, b"short").expect(rt, "replaced");
    replace(alloc, &mut host, &path, bytes).expect(rt, "replaced");
    match load(alloc, &mut host, &path, 1 << 20).expect(rt, "a file") {
        Loaded::Bytes(found) => found.as_slice() == bytes,
        _ => false,
    }
}

/// A file is replaced by one of 1 MiB.
#[test]
fn much_is_replaced(rt: HostRuntime) {
    assert!(rt; are_put(&rt, rt.alloc(), &many::bytes(&rt, rt.alloc(), 1 << 20)));
}

/// Creates 1,100 files, removes one, and removes the others. Returns whether each step leaves the
/// right number.
fn are_cleared(rt: &impl Abort, alloc: Global, host: &mut MemHost, folder: &Path) -> bool {
    many::fill(rt, alloc, host, folder);
    take_away(host, &many::path(rt, alloc, folder, 0)).expect(rt, "taken");
    let left = many::count(rt, alloc, host, folder);
    clear_below(alloc, host, folder).expect(rt, "cleared");
    left == 1_099 && many::count(rt, alloc, host, folder) == 0
}

/// A directory below 125 others is filled with 1,100 files, loses one, and is emptied. It is filled
/// again, and the outermost directory is removed with everything below it.
#[test]
fn many_files_are_cleared(rt: HostRuntime) {
    let alloc = rt.alloc();
    let mut host = MemHost::new(alloc).expect(&rt, "memory");
    let folder = ["e"; 126].join(alloc, "/").expect(&rt, "memory");
    let (folder, top) = (path(&rt, alloc, &folder), path(&rt, alloc, "e"));
    make_above(alloc, &mut host, &folder).expect(&rt, "folders");
    host.make_dir(&folder).expect(&rt, "a folder");
    assert!(rt; are_cleared(&rt, alloc, &mut host, &folder));
    many::fill(&rt, alloc, &mut host, &folder);
    clear(alloc, &mut host, &top).expect(&rt, "cleared");
    assert!(rt; host.stat(&top) == Ok(Stat::Absent));
    drop(host);
}
