//! Words of command lines, and the commands that they are.

use fl_words::{Change, Command, Listing, PolicySource, Shown, read_words};
use fp_base::Text;
use std::alloc::Global;
use std::panic::Expect;
use std::process::Abort;

/// Returns the words of a text, each of which ends with `|`.
pub fn words_of(rt: &impl Abort, alloc: Global, text: &str) -> Vec<String> {
    let mut words = Vec::new(alloc);
    for word in text.split_terminator('|') {
        let word = String::from_str(alloc, word).expect(rt, "memory");
        words.push(word).expect(rt, "memory");
    }
    words
}

/// Returns the name of a change and the words for what it changes. Missing ones are empty.
fn change_words(change: &Change) -> [&str; 3] {
    match change {
        Change::Pin(pin) => ["Pin", pin.as_str(), ""],
        Change::Unpin(pin) => ["Unpin", pin.as_str(), ""],
        Change::RemoteAdd(row) => ["RemoteAdd", row.name.as_str(), row.url.as_str()],
        Change::RemoteModify(row) => ["RemoteModify", row.name.as_str(), row.url.as_str()],
        Change::RemoteDelete(name) => ["RemoteDelete", name.as_str(), ""],
        Change::Install { remote, name } => ["Install", remote.as_str(), name.as_str()],
        Change::UpdateAll => ["UpdateAll", "", ""],
        Change::UpdateOne(name) => ["UpdateOne", name.as_str(), ""],
        Change::Uninstall(name) => ["Uninstall", name.as_str(), ""],
        Change::UninstallUnused => ["UninstallUnused", "", ""],
        Change::Rollback(name) => ["Rollback", name.as_str(), ""],
        Change::OverrideChange { name, .. } => ["OverrideChange", name.as_text().as_str(), ""],
        Change::OverrideReset { name } => ["OverrideReset", name.as_text().as_str(), ""],
    }
}

/// Returns the options of a change.
fn change_options(change: &Change) -> &[Text] {
    match change {
        Change::OverrideChange { options, .. } => options.as_slice(),
        _ => &[],
    }
}

/// Returns the name of a command and the words for what it is about. Missing ones are empty.
fn command_words(command: &Command) -> [&str; 3] {
    match command {
        Command::Change(change) => change_words(change),
        Command::List(Listing::Refs) => ["ListRefs", "", ""],
        Command::List(Listing::Remotes) => ["ListRemotes", "", ""],
        Command::List(Listing::Pins) => ["ListPins", "", ""],
        Command::List(Listing::Exports) => ["ListExports", "", ""],
        Command::List(Listing::Info(name)) => ["Info", name.as_str(), ""],
        Command::List(Listing::Launch { name, .. }) => ["Launch", name.as_str(), ""],
        Command::List(Listing::OverrideShow { name }) => ["OverrideShow", name.as_str(), ""],
        Command::Show(Shown::Commit) => ["ShowCommit", "", ""],
        Command::Show(Shown::DirTree) => ["ShowDirTree", "", ""],
        Command::Show(Shown::DirMeta) => ["ShowDirMeta", "", ""],
        Command::Show(Shown::Value(_)) => ["ShowValue", "", ""],
        Command::Filter(PolicySource::Rules(_)) => ["Filter", "rules", ""],
        Command::Filter(PolicySource::Session(name)) => ["Filter", "session", name.as_str()],
        Command::Filter(PolicySource::System(name)) => ["Filter", "system", name.as_str()],
        Command::Batch => ["Batch", "", ""],
        Command::Fsck => ["Fsck", "", ""],
        Command::Export { remote, name } => ["Export", remote.as_str(), name.as_str()],
        Command::Exercise(_) => ["Exercise", "", ""],
    }
}

/// Returns the options or rules of a command.
fn command_options(command: &Command) -> &[Text] {
    match command {
        Command::Change(change) => change_options(change),
        Command::List(Listing::Launch { options, .. }) => options.as_slice(),
        Command::Filter(PolicySource::Rules(rules)) => rules.as_slice(),
        _ => &[],
    }
}

/// Returns the words that aren't empty, and options, as one text.
fn words_as_text(rt: &impl Abort, alloc: Global, words: [&str; 3], options: &[Text]) -> String {
    let words = words.join(alloc, " ").expect(rt, "memory");
    let mut text = String::from_str(alloc, words.trim_end()).expect(rt, "memory");
    for option in options {
        text.push(' ').expect(rt, "memory");
        text.push_str(option.as_str()).expect(rt, "memory");
    }
    text
}

/// Returns a change as text.
pub fn told_change(rt: &impl Abort, alloc: Global, change: &Change) -> String {
    words_as_text(rt, alloc, change_words(change), change_options(change))
}

/// Returns a command as text.
fn told_command(rt: &impl Abort, alloc: Global, command: &Command) -> String {
    let words = words_as_text(rt, alloc, command_words(command), command_options(command));
    match command {
        Command::Show(Shown::Value(of)) => {
            format!(in alloc; "{words} {:?}", of.as_type()).expect(rt, "memory")
        }
        Command::Exercise(apps) => {
            format!(in alloc; "{words} {}", apps.number()).expect(rt, "memory")
        }
        _ => words,
    }
}

/// Returns the command that words are read as, or the error, as text.
pub fn told_words(rt: &impl Abort, alloc: Global, words: &[String]) -> String {
    match read_words(alloc, words) {
        Ok(command) => told_command(rt, alloc, &command),
        Err(error) => format!(in alloc; "{error}").expect(rt, "memory"),
    }
}

/// Words, and the command that they are, or the index of the first bad one. The rows are about
/// remotes, pins, lists, batches, checks, exports, exercises and objects.
pub const WORDS: &str = "\
remote-add|lab|file:///lab|=> RemoteAdd lab file:///lab
remote-modify|lab|file:///l|=> RemoteModify lab file:///l
remote-delete|lab|=> RemoteDelete lab
list|--remotes|=> ListRemotes
remote-add|=> bad words at 1
remote-add||=> bad words at 1
remote-add|a/b|file:///lab|=> bad words at 1
remote-add|lab|=> bad words at 2
remote-modify|lab|lab|=> bad words at 2
remote-modify|lab|file:///l|x|=> bad words at 3
remote-delete|=> bad words at 1
remote-delete|a b|=> bad words at 1
remote-delete|lab|file:///lab|=> bad words at 2
remote-remove|lab|=> bad words at 0
list|--remote|=> bad words at 1
batch|=> Batch
batch||=> bad words at 1
batch|pin|app/*/*/*|=> bad words at 1
batches|=> bad words at 0
fsck|=> Fsck
fsck|file|=> bad words at 1
export|lab|app/org.x.App/x86_64/stable|=> Export lab app/org.x.App/x86_64/stable
export|=> bad words at 1
export|lab|=> bad words at 2
export|lab|org.x.App|=> bad words at 2
export|lab|app/org.x.App/x86_64/stable|tree|=> bad words at 3
exercise|1|=> Exercise 1
exercise|9|=> Exercise 9
exercise|10|=> Exercise 10
exercise|64|=> Exercise 64
exercise|=> bad words at 1
exercise|0|=> bad words at 1
exercise|65|=> bad words at 1
exercise|01|=> bad words at 1
exercise|+1|=> bad words at 1
exercise|4294967297|=> bad words at 1
exercise||=> bad words at 1
exercise|4|4|=> bad words at 2
pin|app/*/*/*|=> Pin app/*/*/*
pin|runtime/org.x.Y/x86_64/1.0|=> Pin runtime/org.x.Y/x86_64/1.0
unpin|app/*/*/*|=> Unpin app/*/*/*
list|--pins|=> ListPins
list|--exports|=> ListExports
=> bad words at 0
|=> bad words at 0
|x|=> bad words at 0
pins|=> bad words at 0
Pin|app/*/*/*|=> bad words at 0
pin |app/*/*/*|=> bad words at 0
app/*/*/*|=> bad words at 0
\u{e9}|=> bad words at 0
pin|=> bad words at 1
pin|x|=> bad words at 1
pin||=> bad words at 1
pin|x|y|=> bad words at 1
pin|app/*/*|=> bad words at 1
pin|*/*/*/*|=> bad words at 1
pin|--pins|=> bad words at 1
pin|app/*/*/*|x|=> bad words at 2
pin|app/*/*/*||=> bad words at 2
pin|app/*/*/*|app/*/*/*|x|=> bad words at 2
unpin|=> bad words at 1
unpin|x|=> bad words at 1
unpin|app/*/*/*|x|=> bad words at 2
list||=> bad words at 1
list|--pin|=> bad words at 1
list|pins|=> bad words at 1
list|--pins=|=> bad words at 1
list|--pins||=> bad words at 2
list|--pins|--pins|=> bad words at 2
show|commit|=> ShowCommit
show|dirtree|=> ShowDirTree
show|dirmeta|=> ShowDirMeta
show|value|s|=> ShowValue Str
show|value|ms|=> ShowValue Maybe(Str)
show|=> bad words at 1
show||=> bad words at 1
show|file|=> bad words at 1
show|Commit|=> bad words at 1
show|commit||=> bad words at 2
show|dirtree|dirmeta|=> bad words at 2
show|value|=> bad words at 2
show|value||=> bad words at 2
show|value|si|=> bad words at 2
show|value|a{vs}|=> bad words at 2
show|value|s|s|=> bad words at 3
";

/// Words, and the command that they are, or the index of the first bad one. The rows are about refs
/// and overrides.
pub const REF_WORDS: &str = "\
install|hub|app/org.x.App/x86_64/stable|=> Install hub app/org.x.App/x86_64/stable
install|hub|runtime/org.x.Y/x/1|=> Install hub runtime/org.x.Y/x/1
update|=> UpdateAll
update|app/org.x.App/x86_64/stable|=> UpdateOne app/org.x.App/x86_64/stable
uninstall|runtime/org.x.Y/x/1|=> Uninstall runtime/org.x.Y/x/1
uninstall|--unused|=> UninstallUnused
rollback|app/org.x.App/x86_64/stable|=> Rollback app/org.x.App/x86_64/stable
install|=> bad words at 1
install|a/b|app/org.x.App/x86_64/stable|=> bad words at 1
install|app/org.x.App/x86_64/stable|=> bad words at 1
install|hub|=> bad words at 2
install|hub|org.x.App|=> bad words at 2
install|hub|app/*/*/*|=> bad words at 2
install|hub|app/org.x.App/x86_64/stable||=> bad words at 3
update||=> bad words at 1
update|org.x.App|=> bad words at 1
update|app/org.x.App/x86_64|=> bad words at 1
update|--unused|=> bad words at 1
update|app/org.x.App/x86_64/stable|x|=> bad words at 2
uninstall|=> bad words at 1
uninstall|--unuse|=> bad words at 1
uninstall|app/x/x/x|=> bad words at 1
uninstall|--unused|app/org.x.App/x86_64/stable|=> bad words at 2
uninstall|app/org.x.App/x86_64/stable|--unused|=> bad words at 2
rollback|=> bad words at 1
rollback|app/org.x.App/x86_64/stable/|=> bad words at 1
rollback|app/org.x.App/x86_64/stable|x|=> bad words at 2
list|=> ListRefs
info|app/org.x.App/x86_64/stable|=> Info app/org.x.App/x86_64/stable
override|--reset|=> OverrideReset global
override|--reset|org.x.App|=> OverrideReset org.x.App
override|--show|=> OverrideShow global
override|--show|org.x.App|=> OverrideShow org.x.App
info|=> bad words at 1
info|org.x.App|=> bad words at 1
info|app/org.x.App/x86_64/stable|x|=> bad words at 2
override|=> bad words at 1
override|org.x.App|=> bad words at 1
override|--res|=> bad words at 1
override|--reset|global|=> bad words at 2
override|--reset|app/org.x.App/x86_64/stable|=> bad words at 2
override|--show||=> bad words at 2
override|--show|org.x.App|org.x.App|=> bad words at 3
override|--show|--reset|=> bad words at 2
";

/// Words of filters and launches, and options of overrides and launches.
pub const OPTION_WORDS: &str = "\
filter|=> Filter rules
filter|--see=org.x.*|--call=org.bar=org.bar.I.*@/p/*|=> Filter rules --see=org.x.* --call=org.bar=org.bar.I.*@/p/*
filter|--from=app/org.x.App/x86_64/stable|=> Filter session app/org.x.App/x86_64/stable
filter|--system|--from=app/org.x.App/x86_64/stable|=> Filter system app/org.x.App/x86_64/stable
filter|--call=org.bar=|=> bad words at 1
filter|--talk=org.bar|--own|=> bad words at 2
filter|--talk=org.bar|--system|=> bad words at 2
filter|--system|--talk=org.bar|=> bad words at 2
filter|--from=runtime/org.x.App/x86_64/stable|=> bad words at 1
filter|--from=app/org.x.App/x86_64/stable|--see=org.x|=> bad words at 2
filter|--system|=> bad words at 2
override|--unshare=network|=> OverrideChange global --unshare=network
override|--env=A=1|--env=A=2|org.x.App|=> OverrideChange org.x.App --env=A=1 --env=A=2
override|--filesystem=a b|--talk-name=org.x.*|=> OverrideChange global --filesystem=a b --talk-name=org.x.*
override|--filesystem=:ro|=> bad words at 1
override|--nofilesystem=:ro|=> bad words at 1
override|--share=|=> bad words at 1
override|--share=!network|=> bad words at 1
override|--env=1=a|=> bad words at 1
override|--talk-name=org|=> bad words at 1
override|--command=sh|=> bad words at 1
override|org.x.App|--share=ipc|=> bad words at 1
override|--share=ipc|global|=> bad words at 2
override|--share=ipc|--reset|=> bad words at 2
override|--share=ipc|org.x.App|--share=ipc|=> bad words at 3
launch|app/org.x.App/x86_64/stable|=> Launch app/org.x.App/x86_64/stable
launch|app/org.x.App/x86_64/stable|--command=sh|--unshare=network|=> Launch app/org.x.App/x86_64/stable --command=sh --unshare=network
launch|=> bad words at 1
launch|--command=sh|=> bad words at 1
launch|runtime/org.x.App/x86_64/stable|=> bad words at 1
launch|app/org.x.App/x86_64/stable|x|=> bad words at 2
launch|app/org.x.App/x86_64/stable|--command=|=> bad words at 2
";

/// Long words: the longest pin, with parts of 255 bytes; the longest remote, with a name of 64
/// bytes and a URL of 1,024; bad words of 1 MiB, at different places; 1,100 words; a type of 100 Ki
/// nested arrays, which is bad; and 3,000 options.
pub const LONG_WORDS: &str = "\
pin|app/org.x.<a*249>/<a*255>/<a*255>|=> Pin app/org.x.<a*249>/<a*255>/<a*255>
remote-add|<r*64>|file:///<u*1016>|=> RemoteAdd <r*64> file:///<u*1016>
pin|<a*1048576>|=> bad words at 1
exercise|<a*1048576>|=> bad words at 1
uninstall|<a*1048576>|=> bad words at 1
remote-delete|<a*1048576>|=> bad words at 1
override|<a*1048576>|=> bad words at 1
remote-add|lab|<a*1048576>|=> bad words at 2
<list|*1100>=> bad words at 1
show|value|<a*102400>|=> bad words at 2
override|<--share=ipc|*3000>org.x.App|=> OverrideChange org.x.App< --share=ipc*3000>
";
