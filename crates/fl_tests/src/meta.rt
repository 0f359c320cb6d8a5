//! Metadata files and the permissions that they mention, worked out by hand from the rules.

use crate::rows::agree;
use fl_meta::{
    Layer, Mention, Meta, MetaError, MetaKind, PermList, Permission, Source, Value, is_pattern,
    mentions_of,
};
use fp_base::{MetaRule, Text};
use fp_keyfile::KeyFile;
use std::alloc::{AllocError, Global};
use std::panic::Expect;
use std::process::Abort;

/// Returns the name of a list in these tables.
fn list_word(list: PermList) -> &'static str {
    match list {
        PermList::Shared => "shared",
        PermList::Sockets => "sockets",
        PermList::Devices => "devices",
        PermList::Features => "features",
        PermList::Filesystems => "files",
        PermList::Persistent => "persistent",
        PermList::Environment => "env",
        PermList::SessionBus => "session",
        PermList::SystemBus => "system",
        PermList::UnknownShared => "?shared",
        PermList::UnknownSockets => "?sockets",
        PermList::UnknownDevices => "?devices",
        PermList::UnknownFeatures => "?features",
        PermList::UnknownSessionBus => "?session",
        PermList::UnknownSystemBus => "?system",
    }
}

/// Returns the name of a value in these tables.
pub fn value_word(value: &Value) -> &str {
    match value {
        Value::Off => "off",
        Value::On => "on",
        Value::Ro => "ro",
        Value::Rw => "rw",
        Value::Create => "create",
        Value::Text(text) => text.as_str(),
        Value::NoBus => "none",
        Value::See => "see",
        Value::Talk => "talk",
        Value::Own => "own",
    }
}

/// Appends `LIST<NAME>VALUE` and a space.
fn push_mention(out: &mut String, mention: &Mention) -> Result<(), AllocError> {
    let list = list_word(mention.permission.list);
    let name = mention.permission.name.as_str();
    write!(out, "{list}<{name}>{} ", value_word(&mention.value))
}

/// Returns mentions as text.
fn mentions_as_text(rt: &impl Abort, alloc: Global, mentions: &[Mention]) -> String {
    let mut out = String::new(alloc);
    for mention in mentions {
        push_mention(&mut out, mention).expect(rt, "memory");
    }
    out
}

/// Parses a text as a key file.
pub fn key_file(rt: &impl Abort, alloc: Global, text: &str) -> KeyFile {
    KeyFile::parse(alloc, text.as_bytes()).expect(rt, "a key file")
}

/// Returns what a key file mentions.
pub fn mentions(rt: &impl Abort, alloc: Global, text: &str, source: Source) -> Layer {
    mentions_of(alloc, &key_file(rt, alloc, text), source).expect(rt, "memory")
}

/// Returns whether a key file mentions this, as text.
fn is_mentioned(rt: &impl Abort, alloc: Global, text: &str, source: Source, want: &str) -> bool {
    are_shown(
        rt,
        alloc,
        mentions(rt, alloc, text, source).as_slice(),
        want,
    )
}

/// Returns whether mentions, as text, are this.
fn are_shown(rt: &impl Abort, alloc: Global, mentions: &[Mention], want: &str) -> bool {
    mentions_as_text(rt, alloc, mentions).as_str() == want
}

/// Pairs of the group `Context`, and what they mention.
const LISTS: [(&str, &str); 61] = [
    // Separators, blanks and empty entries.
    ("shared=network;ipc;", "shared<network>on shared<ipc>on "),
    ("shared=network;ipc", "shared<network>on shared<ipc>on "),
    ("shared=", ""),
    ("shared=;", ""),
    ("shared= ; \t;", ""),
    ("shared=;;network;;", "shared<network>on "),
    (
        "shared= network; \tipc;",
        "shared<network>on shared<ipc>on ",
    ),
    ("shared=network ;ipc", "?shared<network >on shared<ipc>on "),
    (
        "shared=ipc;network;ipc",
        "shared<ipc>on shared<network>on shared<ipc>on ",
    ),
    // A `;` after an odd number of backslashes belongs to the entry.
    ("filesystems=!/srv/a\\;home", "files</srv/a\\;home>off "),
    (
        "filesystems=/srv/a\\\\;home;",
        "files</srv/a\\\\>rw files<home>rw ",
    ),
    (
        "shared=a\\;\\\\\\;b;network;",
        "?shared<a\\;\\\\\\;b>on shared<network>on ",
    ),
    ("persistent= \\; a;", "persistent<\\; a>on "),
    // An entry is left out if its name ends in an odd number of backslashes.
    ("persistent=.a;.b\\", "persistent<.a>on "),
    ("filesystems=/a\\/;!/b\\:ro;/c;", "files</c>rw "),
    // Denials, with `!`.
    ("shared=!network;", "shared<network>off "),
    (
        "shared=!network;network;",
        "shared<network>off shared<network>on ",
    ),
    ("shared=!!network;", "?shared<!network>off "),
    ("shared=! network;", "?shared< network>off "),
    ("shared= !network;", "shared<network>off "),
    ("shared=!;", ""),
    ("shared=! ;", "?shared< >off "),
    ("shared=network!;", "?shared<network!>on "),
    // Names that a list doesn't know.
    (
        "shared=gizmo;network;",
        "?shared<gizmo>on shared<network>on ",
    ),
    ("shared=!gizmo;", "?shared<gizmo>off "),
    ("shared=Network;", "?shared<Network>on "),
    ("shared=x11;", "?shared<x11>on "),
    (
        "sockets=x11;wayland;fallback-x11;",
        "sockets<x11>on sockets<wayland>on sockets<fallback-x11>on ",
    ),
    (
        "sockets=pulseaudio;ssh-auth;pcsc;",
        "sockets<pulseaudio>on sockets<ssh-auth>on sockets<pcsc>on ",
    ),
    (
        "sockets=session-bus;!system-bus;cups",
        "sockets<session-bus>on sockets<system-bus>off sockets<cups>on ",
    ),
    (
        "sockets=wayland;gizmo;",
        "sockets<wayland>on ?sockets<gizmo>on ",
    ),
    ("sockets=x11:ro", "?sockets<x11:ro>on "),
    (
        "devices=dri;kvm;shm;all;",
        "devices<dri>on devices<kvm>on devices<shm>on devices<all>on ",
    ),
    ("devices=!dri;usb;", "devices<dri>off ?devices<usb>on "),
    (
        "features=devel;multiarch;bluetooth;",
        "features<devel>on features<multiarch>on features<bluetooth>on ",
    ),
    (
        "features=canbus;per-app-dev-shm;!x",
        "features<canbus>on features<per-app-dev-shm>on ?features<x>off ",
    ),
    // Endings of filesystems.
    ("filesystems=~/x;host", "files<~/x>rw files<host>rw "),
    ("filesystems=~/x:ro;", "files<~/x>ro "),
    ("filesystems=~/x:rw;", "files<~/x>rw "),
    ("filesystems=~/x:create;", "files<~/x>create "),
    ("filesystems=~/x:ro:rw;", "files<~/x>rw "),
    ("filesystems=~/x:rw:ro;", "files<~/x>ro "),
    ("filesystems=~/x:ro:ro:create;", "files<~/x>create "),
    (
        "filesystems=~/x:ro;~/x:rw;~/x:ro;",
        "files<~/x>ro files<~/x>rw files<~/x>ro ",
    ),
    (
        "filesystems=!~/x;!~/y:ro:rw",
        "files<~/x>off files<~/y>off ",
    ),
    ("filesystems=~/x::ro;", "files<~/x:>ro "),
    ("filesystems=~/x:;", "files<~/x:>rw "),
    ("filesystems=:ro;:ro:rw;!:create;", ""),
    ("filesystems=:ro:x;", "files<:ro:x>rw "),
    ("filesystems=~/x:ro ;", "files<~/x:ro >rw "),
    ("filesystems=~/x:RO;ro;", "files<~/x:RO>rw files<ro>rw "),
    (
        "filesystems= \t~/a b:ro;!!x:ro",
        "files<~/a b>ro files<!x>off ",
    ),
    ("filesystems=a:ro/b;", "files<a:ro/b>rw "),
    // One place with several spellings.
    (
        "filesystems=/opt/data/;!/opt//data;/opt/./data/.:ro;",
        "files</opt/data>rw files</opt/data>off files</opt/data>ro ",
    ),
    (
        "filesystems=/opt/data:ro/;~/x/:ro/:create;/opt/..data;a/../b/;",
        "files</opt/data>rw files<~/x>create files</opt/..data>rw files<a/../b>rw ",
    ),
    (
        "filesystems=home/;host//;~/.;xdg-download//é/;//;/.:ro;./x;:ro/;",
        "files<home>rw files<host>rw files<~>rw files<xdg-download/é>rw files</>rw files</>ro files<./x>rw ",
    ),
    // Persistent directories.
    (
        "persistent=.a;!.b; .c:ro;;",
        "persistent<.a>on persistent<.b>off persistent<.c:ro>on ",
    ),
    ("persistent=!;", ""),
    // Other keys.
    ("unknown-shared=x", ""),
    ("Shared=network", ""),
    ("devices=a=b;", "?devices<a=b>on "),
];

/// Returns the group `Context` with this pair.
fn context_of(rt: &impl Abort, alloc: Global, pair: &str) -> String {
    format!(in alloc; "[Context]\n{pair}\n").expect(rt, "memory")
}

#[test]
fn lists(rt: HostRuntime) {
    for (pair, want) in &LISTS {
        let text = context_of(&rt, rt.alloc(), pair);
        let is_so = is_mentioned(&rt, rt.alloc(), &text, Source::Metadata, want);
        agree(&rt, pair, is_so);
    }
}

/// Overrides, and what they mention.
const OVERRIDES: [(&str, &str); 20] = [
    ("", ""),
    ("[Other]\nshared=network\n", ""),
    ("[Environment]\nA=b c\nA b=\n", "env<A>b c env<A b> "),
    ("[Environment]\nA=1\nA=2\n", "env<A>2 "),
    (
        "[Session Bus Policy]\norg.foo=talk\n",
        "session<org.foo>talk ",
    ),
    (
        "[Session Bus Policy]\norg.foo.*=own\na.b=see\n",
        "session<org.foo.*>own session<a.b>see ",
    ),
    (
        "[System Bus Policy]\norg.foo=none\n",
        "system<org.foo>none ",
    ),
    (
        "[Session Bus Policy]\norg.foo=Talk\n",
        "?session<org.foo=Talk>on ",
    ),
    ("[Session Bus Policy]\norg.foo=\n", "?session<org.foo=>on "),
    ("[System Bus Policy]\nfoo=talk\n", "?system<foo=talk>on "),
    ("[System Bus Policy]\n:1.5=talk\n", "?system<:1.5=talk>on "),
    ("[Session Bus Policy]\norg.foo=ta;lk\n", ""),
    ("[Session Bus Policy]\n!org.foo=talk\n", ""),
    ("[Session Bus Policy]\norg;foo=talk\n", ""),
    ("[Session Bus Policy]\norg.foo=talk\\\n", ""),
    (
        "[Session Bus Policy]\norg.foo=talk\\\\\n",
        "?session<org.foo=talk\\\\>on ",
    ),
    (
        "[Context]\nunknown-shared=x;!network\n",
        "?shared<x>on ?shared<network>off ",
    ),
    (
        "[Context]\nunknown-session-bus=a=b;!c=d;\n",
        "?session<a=b>on ?session<c=d>off ",
    ),
    (
        "[Context]\nunknown-sockets=a\nunknown-devices=b\nunknown-features=c\nunknown-system-bus=d=e\n",
        "?sockets<a>on ?devices<b>on ?features<c>on ?system<d=e>on ",
    ),
    (
        "[Context]\nshared=ipc\n[Environment]\nA=1\n[Context]\nshared=network\nsockets=x11\n",
        "shared<network>on sockets<x11>on env<A>1 ",
    ),
];

#[test]
fn overrides(rt: HostRuntime) {
    for (text, want) in &OVERRIDES {
        let is_so = is_mentioned(&rt, rt.alloc(), text, Source::Override, want);
        agree(&rt, text, is_so);
    }
}

/// An application's metadata of the usual kind.
const USUAL: &str =
    "[Application]\nname=org.x.App\nruntime=org.x.Platform/x86_64/1\nsdk=org.x.Sdk/x86_64/1\ncommand=run\n\n[Context]\nshared=network;ipc;\nsockets=wayland;gizmo;\ndevices=dri;\nfilesystems=~/x:ro;~/x:rw;~/x:ro;\n\n[Session Bus Policy]\norg.foo.*=talk\n\n[Environment]\nA=b c\n\n[Extension org.x.App.Locale]\ndirectory=share/locale\n\n[Build]\nbuilt-extensions=org.x.App.Locale;\n";

/// The mentions of the usual metadata, as text.
const USUAL_MENTIONS: &str =
    "shared<network>on shared<ipc>on sockets<wayland>on ?sockets<gizmo>on devices<dri>on files<~/x>ro files<~/x>rw files<~/x>ro session<org.foo.*>talk env<A>b c ";

/// Reads a text as metadata of this kind.
fn meta_of(rt: &impl Abort, alloc: Global, text: &str, kind: MetaKind) -> Meta {
    Meta::read(alloc, &key_file(rt, alloc, text), kind).expect(rt, "metadata")
}

fn put_text(out: &mut String, text: &Text) -> Result<(), AllocError> {
    write!(out, " {}", text.as_str())
}

/// Appends each text, with a space before it.
fn put_texts(rt: &impl Abort, out: &mut String, texts: &[Text]) {
    for text in texts {
        put_text(out, text).expect(rt, "memory");
    }
}

/// Appends the runtime and the command, with a space between them. A missing one is `none`.
fn put_parts(out: &mut String, meta: &Meta) -> Result<(), AllocError> {
    let runtime = match &meta.runtime {
        Some(name) => name.as_str(),
        None => "none",
    };
    let command = match &meta.command {
        Some(text) => text.as_str(),
        None => "none",
    };
    write!(out, "{runtime} {command}")
}

/// Returns whether metadata has this runtime, this command and these extensions.
fn are_parts(rt: &impl Abort, alloc: Global, meta: &Meta, want: &str) -> bool {
    let mut out = String::new(alloc);
    put_parts(&mut out, meta).expect(rt, "memory");
    put_texts(rt, &mut out, meta.extensions.as_slice());
    out.as_str() == want
}

/// Returns whether a text, read as metadata, has this runtime, this command and these extensions.
fn has_parts(rt: &impl Abort, alloc: Global, text: &str, kind: MetaKind, want: &str) -> bool {
    let meta = meta_of(rt, alloc, text, kind);
    let is_so = are_parts(rt, alloc, &meta, want);
    drop(meta);
    is_so
}

/// Returns whether the metadata of an application mentions this.
fn has_mentions(rt: &impl Abort, alloc: Global, text: &str, want: &str) -> bool {
    let meta = meta_of(rt, alloc, text, MetaKind::App);
    let is_so = are_shown(rt, alloc, meta.mentions.as_slice(), want);
    drop(meta);
    is_so
}

/// A runtime's metadata.
const RUNTIME: &str = "[Runtime]\ncommand=x\n[Extension ]\n[Extension a]\n[Extensions]";

#[test]
fn usual_metadata(rt: HostRuntime) {
    let alloc = rt.alloc();
    let want = "runtime/org.x.Platform/x86_64/1 run org.x.App.Locale";
    assert!(rt;
        has_mentions(&rt, alloc, USUAL, USUAL_MENTIONS)
            && has_parts(&rt, alloc, USUAL, MetaKind::App, want)
            && has_parts(&rt, alloc, RUNTIME, MetaKind::Runtime, "none none a")
    );
}

/// Texts that are no metadata of this kind, and the first rule that each breaks.
const FAULTS: [(&str, MetaKind, MetaRule); 8] = [
    ("", MetaKind::App, MetaRule::Group),
    ("[Runtime]", MetaKind::App, MetaRule::Group),
    (
        "[Application]\nruntime=org.x.P/x86_64/1",
        MetaKind::Runtime,
        MetaRule::Group,
    ),
    (
        "[application]\nruntime=org.x.P/x86_64/1",
        MetaKind::App,
        MetaRule::Group,
    ),
    ("[Application]", MetaKind::App, MetaRule::Runtime),
    (
        "[Application]\nname=org.x.App",
        MetaKind::App,
        MetaRule::Runtime,
    ),
    (
        "[Application]\nruntime=org.x.P/x86_64",
        MetaKind::App,
        MetaRule::Runtime,
    ),
    (
        "[Application]\nruntime=runtime/org.x.P/x86_64/1",
        MetaKind::App,
        MetaRule::Runtime,
    ),
];

/// Returns whether a text, read as metadata of this kind, breaks this rule.
fn breaks(rt: &impl Abort, alloc: Global, text: &str, kind: MetaKind, rule: MetaRule) -> bool {
    let read = Meta::read(alloc, &key_file(rt, alloc, text), kind);
    read.err() == Some(MetaError::Rule(rule))
}

#[test]
fn faults(rt: HostRuntime) {
    for (text, kind, rule) in &FAULTS {
        agree(&rt, text, breaks(&rt, rt.alloc(), text, *kind, *rule));
    }
}

/// Checks that a name of 100 KiB isn't taken for a runtime.
#[test]
fn long_runtime(rt: HostRuntime) {
    let name = long_name(&rt, rt.alloc(), 100 << 10, "/x86_64/1");
    let text = ["[Application]\nruntime=", &name].concat(rt.alloc());
    let text = text.expect(&rt, "memory");
    let is_so = breaks(&rt, rt.alloc(), &text, MetaKind::App, MetaRule::Runtime);
    assert!(rt; is_so);
}

/// Texts, and whether each is a pattern of bus names.
const PATTERNS: [(&str, bool); 28] = [
    ("org.foo", true),
    ("org.foo.*", true),
    ("org.*", true),
    ("a.b", true),
    ("_a._b2.c-d", true),
    ("-a.b", true),
    ("org.foo-bar.Baz_1", true),
    ("", false),
    ("*", false),
    (".*", false),
    ("org", false),
    ("org.", false),
    (".org.foo", false),
    ("org..foo", false),
    ("org.*.foo", false),
    ("org.foo*", false),
    ("org.foo.*.*", false),
    ("org.foo.**", false),
    (":1.5", false),
    (":1.5.*", false),
    ("1org.foo", false),
    ("org.1foo", false),
    ("org.1foo.*", false),
    ("org.foo ", false),
    ("org foo.bar", false),
    ("org.\u{e9}", false),
    ("org..*", false),
    ("org.foo/bar", false),
];

/// Returns a name of this many bytes with this text after it.
fn long_name(rt: &impl Abort, alloc: Global, length: usize, end: &str) -> String {
    let letters = "b"
        .repeat(alloc, length.saturating_sub(2))
        .expect(rt, "memory");
    ["a.", &letters, end].concat(alloc).expect(rt, "memory")
}

/// Returns whether a name of this many bytes with this text after it is a pattern.
fn is_long_pattern(rt: &impl Abort, alloc: Global, length: usize, end: &str) -> bool {
    is_pattern(&long_name(rt, alloc, length, end))
}

#[test]
fn patterns(rt: HostRuntime) {
    for (text, good) in &PATTERNS {
        agree(&rt, text, is_pattern(text) == *good);
    }
    assert!(rt;
        is_long_pattern(&rt, rt.alloc(), 255, "")
            && !is_long_pattern(&rt, rt.alloc(), 256, "")
            && is_long_pattern(&rt, rt.alloc(), 300, ".*")
    );
}

/// Copies mentions.
fn copies(rt: &impl Abort, alloc: Global, mentions: &[Mention]) -> Layer {
    let mut copies = Layer::new(alloc);
    for mention in mentions {
        let copy = mention.copy().expect(rt, "memory");
        copies.push(copy).expect(rt, "memory");
    }
    copies
}

/// Returns whether copies of mentions are equal to them, as text.
fn are_copied(rt: &impl Abort, alloc: Global, mentions: &[Mention]) -> bool {
    let want = mentions_as_text(rt, alloc, mentions);
    are_shown(rt, alloc, copies(rt, alloc, mentions).as_slice(), &want)
}

/// Returns whether the mentions of an application's metadata are copied.
fn copies_mentions(rt: &impl Abort, alloc: Global, text: &str) -> bool {
    let meta = meta_of(rt, alloc, text, MetaKind::App);
    let is_so = are_copied(rt, alloc, meta.mentions.as_slice());
    drop(meta);
    is_so
}

/// Returns the permission of the list `shared` with this name.
fn permission(rt: &impl Abort, alloc: Global, name: &str) -> Permission {
    Permission::new(alloc, PermList::Shared, name).expect(rt, "memory")
}

fn is_copied(rt: &impl Abort, permission: &Permission) -> bool {
    *permission == permission.copy().expect(rt, "memory")
}

/// Returns whether one permission is before another one and differs from it, and whether its copy
/// is equal to it.
fn comes_before(rt: &impl Abort, left: &Permission, right: &Permission) -> bool {
    left < right && left != right && is_copied(rt, left)
}

/// Returns whether the permission with one name is before that with the other.
fn is_before(rt: &impl Abort, alloc: Global, left: &str, right: &str) -> bool {
    let left = permission(rt, alloc, left);
    comes_before(rt, &left, &permission(rt, alloc, right))
}

#[test]
fn permissions(rt: HostRuntime) {
    assert!(rt;
        copies_mentions(&rt, rt.alloc(), USUAL)
            && is_before(&rt, rt.alloc(), "a", "b")
            && !is_before(&rt, rt.alloc(), "b", "a")
    );
}

/// Returns metadata with a persistent directory of this name.
fn metadata_with_folder(rt: &impl Abort, alloc: Global, name: &str) -> String {
    let head = "[Application]\nruntime=org.x.Platform/x86_64/1\n[Context]\npersistent=";
    [head, name, "\n"].concat(alloc).expect(rt, "memory")
}

/// Checks a permission whose name has 100 KiB.
#[test]
fn long_permission(rt: HostRuntime) {
    let name = long_name(&rt, rt.alloc(), 100 << 10, "");
    let text = metadata_with_folder(&rt, rt.alloc(), &name);
    assert!(rt; is_before(&rt, rt.alloc(), &name, "b") && copies_mentions(&rt, rt.alloc(), &text));
}

/// Appends each number from 0 on, this many, with a head before it and a tail after it.
fn put_many(rt: &impl Abort, text: &mut String, count: usize, head: &str, tail: &str) {
    for number in 0..count {
        put_numbered(text, number, head, tail).expect(rt, "memory");
    }
}

fn put_numbered(
    text: &mut String,
    number: usize,
    head: &str,
    tail: &str,
) -> Result<(), AllocError> {
    write!(text, "{head}{number}{tail}")
}

fn put(rt: &impl Abort, text: &mut String, more: &str) {
    text.push_str(more).expect(rt, "memory");
}

/// Returns a name of 90 bytes between these texts.
fn name_between(rt: &impl Abort, alloc: Global, before: &str, after: &str) -> String {
    let name = "n".repeat(alloc, 90).expect(rt, "memory");
    [before, &name, after].concat(alloc).expect(rt, "memory")
}

/// Appends two lists with this number of names each.
fn put_lists(rt: &impl Abort, alloc: Global, text: &mut String, count: usize) {
    put(
        rt,
        text,
        "[Application]\nruntime=org.x.Platform/x86_64/1\n[Context]\nfilesystems=",
    );
    put_many(rt, text, count, &name_between(rt, alloc, "~/", ""), ":ro;");
    put(rt, text, "\npersistent=");
    put_many(rt, text, count, &name_between(rt, alloc, ".", ""), ";");
}

/// Appends this number of variables and of extensions.
fn put_groups(rt: &impl Abort, alloc: Global, text: &mut String, count: usize) {
    put(rt, text, "\n[Environment]\n");
    put_many(rt, text, count, "V", &name_between(rt, alloc, "=", "\n"));
    let tail = name_between(rt, alloc, "]\ndirectory=", "\n");
    put_many(rt, text, count, "[Extension org.x.E", &tail);
}

/// Returns metadata with this number of names in each of two lists, of variables and of extensions.
/// Each has 90 bytes or more.
fn long_metadata(rt: &impl Abort, alloc: Global, count: usize) -> String {
    let mut text = String::new(alloc);
    put_lists(rt, alloc, &mut text, count);
    put_groups(rt, alloc, &mut text, count);
    text
}

/// Returns the numbers of mentions and of extensions in metadata.
fn part_counts(rt: &impl Abort, alloc: Global, text: &str) -> (usize, usize) {
    let meta = meta_of(rt, alloc, text, MetaKind::App);
    let counts = (meta.mentions.len(), meta.extensions.as_slice().len());
    drop(meta);
    counts
}

/// Returns whether a text of more than 100 KiB is read as metadata with 900 mentions and 300
/// extensions, and its mentions are copied.
fn is_long(rt: &impl Abort, alloc: Global, text: &str) -> bool {
    text.len() > 100 << 10
        && part_counts(rt, alloc, text) == (900, 300)
        && copies_mentions(rt, alloc, text)
}

#[test]
fn long_files(rt: HostRuntime) {
    assert!(rt; is_long(&rt, rt.alloc(), &long_metadata(&rt, rt.alloc(), 300)));
}
