//! Batches of commands, one in each line.

use crate::words::told_change;
use fl_words::{BatchError, Change, WordsError, batch_reason, read_batch};
use fp_base::Text;
use std::alloc::Global;
use std::panic::Expect;
use std::process::Abort;

/// Returns the bytes that the characters of a text stand for: a newline for `|`, and for each other
/// one up to U+00FF the byte of its number.
pub fn bytes_of(rt: &impl Abort, alloc: Global, text: &str) -> Vec<u8> {
    let mut bytes = Vec::new(alloc);
    for letter in text.chars() {
        let byte = u8::try_from(letter as u32).unwrap_or(b'?');
        let byte = if byte == b'|' { b'\n' } else { byte };
        bytes.push(byte).expect(rt, "memory");
    }
    bytes
}

/// Returns why a line of a batch asks for no change, or `nothing` if each line asks for one.
pub fn line_reason(rt: &impl Abort, alloc: Global, bytes: &[u8]) -> Text {
    match batch_reason(alloc, bytes).expect(rt, "memory") {
        Some(said) => said,
        None => Text::from_str(alloc, "nothing").expect(rt, "memory"),
    }
}

/// Returns the changes as text, each with a newline after it.
fn told_changes(rt: &impl Abort, alloc: Global, changes: &[Change]) -> String {
    let mut text = String::new(alloc);
    for change in changes {
        text.push_str(&told_change(rt, alloc, change))
            .expect(rt, "memory");
        text.push('\n').expect(rt, "memory");
    }
    text
}

/// Returns the changes that bytes are read as, or the error, as text.
pub fn told_batch(rt: &impl Abort, alloc: Global, bytes: &[u8]) -> String {
    match read_batch(alloc, bytes) {
        Ok(changes) => told_changes(rt, alloc, changes.as_slice()),
        Err(error) => format!(in alloc; "{error}").expect(rt, "memory"),
    }
}

/// Batches, and the changes that they ask for.
pub const BATCHES: &str = "\
=>
pin app/*/*/*|=> Pin app/*/*/*|
pin app/*/*/*=> Pin app/*/*/*|
unpin app/*/*/*|=> Unpin app/*/*/*|
pin runtime/org.x.Platform/*/*|pin runtime/org.x.Platform/*/*|=> \
    Pin runtime/org.x.Platform/*/*|\
    Pin runtime/org.x.Platform/*/*|
remote-add lab file:///lab|remote-modify lab file:///l|=> \
    RemoteAdd lab file:///lab|\
    RemoteModify lab file:///l|
remote-delete lab|unpin app/*/*/*=> RemoteDelete lab|Unpin app/*/*/*|
remote-add lab file:///=> RemoteAdd lab file:///|
remote-delete 0|=> RemoteDelete 0|
install hub app/org.x.App/x86_64/stable|update|update app/org.x.App/x86_64/stable=> \
    Install hub app/org.x.App/x86_64/stable|\
    UpdateAll|\
    UpdateOne app/org.x.App/x86_64/stable|
rollback app/org.x.App/x86_64/stable|uninstall app/org.x.App/x86_64/stable|uninstall --unused|=> \
    Rollback app/org.x.App/x86_64/stable|\
    Uninstall app/org.x.App/x86_64/stable|\
    UninstallUnused|
override --reset|override --reset org.x.App|=> OverrideReset global|OverrideReset org.x.App|
override --share=ipc --unshare=network --env=A=1|override --nosocket=x11 org.x.App|=> \
    OverrideChange global --share=ipc --unshare=network --env=A=1|\
    OverrideChange org.x.App --nosocket=x11|
";

/// Batches with a bad line, and its number.
pub const BAD_LINES: &str = "\
override --share=ipc --share|=> bad record at 1
override --share=ipc  org.x.App|=> bad record at 1
update|launch app/org.x.App/x86_64/stable|=> bad record at 2
filter --see=org.x|=> bad record at 1
update|override --show|=> bad record at 2
info app/org.x.App/x86_64/stable|=> bad record at 1
|=> bad record at 1
||=> bad record at 1
 => bad record at 1
pin=> bad record at 1
list=> bad record at 1
pin runtime/org.x.Platform/*/*|list|=> bad record at 2
pin app/*/*/*|list --pins|=> bad record at 2
pin app/*/*/*|list --remotes|pin x|=> bad record at 2
pin app/*/*/*|pin app/*/*/*|batch=> bad record at 3
pin app/*/*/*||=> bad record at 2
pin app/*/*/*||pin app/*/*/*|=> bad record at 2
pin  app/*/*/*|=> bad record at 1
 pin app/*/*/*|=> bad record at 1
pin app/*/*/* |=> bad record at 1
pin app/*/*/*|unpin app/*/*/* => bad record at 2
pin\tapp/*/*/*|=> bad record at 1
pin app/*/*/*\r|=> bad record at 1
pin app/*/*/*\u{0}|=> bad record at 1
pin app/*/*/\u{ff}|=> bad record at 1
unpin app/*/*/*|\u{c3}(|=> bad record at 2
remote-add lab file:///\u{ff}|=> bad record at 1
remote-add lab file:///\u{c3}\u{a9}|=> bad record at 1
remote-add lab file:///lab x|=> bad record at 1
";

/// A batch of 1,100 lines; one with a bad line after 1,100 others; and one with a line of 1 MiB,
/// which is bad.
pub const LONG_BATCHES: &str = "\
<pin app/*/*/*|*1100>=> <Pin app/*/*/*|*1100>
<pin app/*/*/*|*1100>x=> bad record at 1101
<pin *262144>=> bad record at 1
";

#[test]
fn errors_are_told(rt: HostRuntime) {
    let text = format!(in rt.alloc(); "{}, {}", BatchError::NoMemory, WordsError::NoMemory);
    assert!(rt; text.expect(&rt, "memory").as_str() == "out of memory, out of memory");
}
