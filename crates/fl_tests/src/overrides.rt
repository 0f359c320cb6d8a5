//! Overrides that are read, changed and written, worked out by hand.

use crate::context::many_variables;
use crate::meta::key_file;
use crate::rows::agree;
use fl_override::OverrideSet;
use std::alloc::Global;
use std::panic::Expect;
use std::process::Abort;

/// Returns the set of an override's text.
fn set_of(rt: &impl Abort, alloc: Global, text: &str) -> OverrideSet {
    OverrideSet::from_keyfile(alloc, &key_file(rt, alloc, text)).expect(rt, "memory")
}

/// Returns whether a set is written as this text.
fn is_text(rt: &impl Abort, alloc: Global, set: &OverrideSet, want: &str) -> bool {
    let file = set.to_keyfile(alloc).expect(rt, "memory");
    file.write().expect(rt, "memory").as_str() == want
}

/// Returns whether an override, once read, is written as this text.
fn is_written(rt: &impl Abort, alloc: Global, text: &str, want: &str) -> bool {
    is_text(rt, alloc, &set_of(rt, alloc, text), want)
}

/// Overrides, and the texts as which they are written.
const FILES: [(&str, &str); 25] = [
    ("", ""),
    ("[Context]\nshared=\n", ""),
    (
        "[Context]\nshared=!network\n",
        "[Context]\nshared=!network;\n",
    ),
    (
        "[Context]\nshared= network;ipc;;!network\n",
        "[Context]\nshared=ipc;!network;\n",
    ),
    (
        "[Context]\nsockets=x11;wayland;!cups",
        "[Context]\nsockets=!cups;wayland;x11;\n",
    ),
    // Names that aren't known.
    (
        "[Context]\nsockets=gizmo;x11",
        "[Context]\nsockets=x11;\nunknown-sockets=gizmo;\n",
    ),
    ("[Context]\nshared=!q\n", "[Context]\nunknown-shared=!q;\n"),
    (
        "[Context]\nunknown-shared=network;!!q;\n",
        "[Context]\nunknown-shared=!!q;network;\n",
    ),
    (
        "[Context]\nunknown-devices=a b\nunknown-features=!c\n",
        "[Context]\nunknown-devices=a b;\nunknown-features=!c;\n",
    ),
    // Filesystems.
    (
        "[Context]\nfilesystems=~/x:rw;~/y:ro;~/z:create;!host:ro\n",
        "[Context]\nfilesystems=!host;~/x;~/y:ro;~/z:create;\n",
    ),
    (
        "[Context]\nfilesystems=~/x::ro;a:ro:rw;b:rw:ro;c:\n",
        "[Context]\nfilesystems=a;b:ro;c:;~/x::ro;\n",
    ),
    (
        "[Context]\nfilesystems=!!x;! y\n",
        "[Context]\nfilesystems=! y;!!x;\n",
    ),
    (
        "[Context]\npersistent=.b;!.a\n",
        "[Context]\npersistent=!.a;.b;\n",
    ),
    // Backslashes.
    (
        "[Context]\nfilesystems=!/srv/a\\;home;/b\\\\:ro\n",
        "[Context]\nfilesystems=/b\\\\:ro;!/srv/a\\;home;\n",
    ),
    (
        "[Context]\npersistent=a\\;b;c\\\n",
        "[Context]\npersistent=a\\;b;\n",
    ),
    (
        "[Context]\nunknown-session-bus=a=\\;b\n[Session Bus Policy]\na.b=c\\\n",
        "[Context]\nunknown-session-bus=a=\\;b;\n",
    ),
    // Variables and bus policies.
    (
        "[Environment]\nB=x;y\nA= 1 \n",
        "[Environment]\nA=1 \nB=x;y\n",
    ),
    (
        "[Session Bus Policy]\norg.foo=own\norg.bar.*=none\n",
        "[Session Bus Policy]\norg.bar.*=none\norg.foo=own\n",
    ),
    (
        "[System Bus Policy]\na.b=see\n[Session Bus Policy]\na.b=talk\n",
        "[Session Bus Policy]\na.b=talk\n[System Bus Policy]\na.b=see\n",
    ),
    (
        "[Session Bus Policy]\norg.foo=Own\nfoo=talk\n",
        "[Context]\nunknown-session-bus=foo=talk;org.foo=Own;\n",
    ),
    (
        "[System Bus Policy]\nfoo==\na.b=c;d\n!a.b=see\n",
        "[Context]\nunknown-system-bus=foo==;\n",
    ),
    (
        "[Context]\nunknown-session-bus=a=b;!c\n",
        "[Context]\nunknown-session-bus=a=b;!c;\n",
    ),
    // Groups and keys without a meaning in overrides, which are left out.
    (
        "[Application]\nname=x\n[Context]\nfoo=bar\n[Other]\na=b\n",
        "",
    ),
    // The order of groups and keys.
    (
        "[System Bus Policy]\na.b=own\n[Environment]\nA=1\n[Session Bus Policy]\na.b=see\n[Context]\npersistent=p\nfilesystems=f\nfeatures=devel\ndevices=all\nsockets=x11\nshared=ipc\n",
        "[Context]\nshared=ipc;\nsockets=x11;\ndevices=all;\nfeatures=devel;\nfilesystems=f;\npersistent=p;\n[Environment]\nA=1\n[Session Bus Policy]\na.b=see\n[System Bus Policy]\na.b=own\n",
    ),
    (
        "[Context]\nshared=a;\n[Environment]\nX=\n[Context]\nsockets=b\n",
        "[Context]\nunknown-shared=a;\nunknown-sockets=b;\n[Environment]\nX=\n",
    ),
];

#[test]
fn files(rt: HostRuntime) {
    for (text, want) in &FILES {
        agree(&rt, text, is_written(&rt, rt.alloc(), text, want));
        agree(&rt, want, is_written(&rt, rt.alloc(), want, want));
    }
}

/// Changes a set by the mentions of another.
fn change(rt: &impl Abort, alloc: Global, set: &mut OverrideSet, options: &OverrideSet) {
    set.change(alloc, options.as_layer()).expect(rt, "memory");
}

/// Returns whether an override that is changed by the mentions of another is written as this text.
fn is_changed(rt: &impl Abort, alloc: Global, old: &str, options: &str, want: &str) -> bool {
    let mut set = set_of(rt, alloc, old);
    change(rt, alloc, &mut set, &set_of(rt, alloc, options));
    is_text(rt, alloc, &set, want)
}

/// Overrides, options, and the texts of the changed overrides.
const CHANGES: [(&str, &str, &str); 7] = [
    ("", "[Environment]\nA=2\n", "[Environment]\nA=2\n"),
    (
        "[Environment]\nA=1\n",
        "[Environment]\nA=2\n",
        "[Environment]\nA=2\n",
    ),
    (
        "",
        "[Context]\nshared=!network",
        "[Context]\nshared=!network;\n",
    ),
    (
        "[Context]\nshared=!network",
        "[Context]\nshared=network",
        "[Context]\nshared=network;\n",
    ),
    (
        "[Context]\nshared=!network\nsockets=gizmo\n",
        "[Context]\nshared=ipc",
        "[Context]\nshared=ipc;!network;\nunknown-sockets=gizmo;\n",
    ),
    (
        "[Context]\nfilesystems=~/x:ro",
        "[Context]\nfilesystems=!~/x;~/a:create",
        "[Context]\nfilesystems=~/a:create;!~/x;\n",
    ),
    (
        "[Context]\nfoo=bar\n[Session Bus Policy]\na.b=own",
        "[Session Bus Policy]\na.b=none",
        "[Session Bus Policy]\na.b=none\n",
    ),
];

#[test]
fn changes(rt: HostRuntime) {
    for (old, options, want) in &CHANGES {
        let is_so = is_changed(&rt, rt.alloc(), old, options, want);
        agree(&rt, options, is_so);
    }
}

/// Returns whether an override is written as it was read, and is changed into another one by it.
fn is_kept(rt: &impl Abort, alloc: Global, old: &str, new: &str) -> bool {
    is_written(rt, alloc, old, old) && is_changed(rt, alloc, old, new, new)
}

#[test]
fn many_are_changed(rt: HostRuntime) {
    let old = many_variables(&rt, rt.alloc(), 1_100, "1");
    let new = many_variables(&rt, rt.alloc(), 1_100, "2");
    assert!(rt; is_kept(&rt, rt.alloc(), &old, &new));
}

/// Checks a persistent directory and a filesystem with names of 100 KiB, and a variable with a
/// value of 100 KiB.
#[test]
fn long_texts_are_kept(rt: HostRuntime) {
    let long = "n".repeat(rt.alloc(), 100 << 10).expect(&rt, "memory");
    let lines = [
        "[Context]\nfilesystems=/",
        &long,
        ";\npersistent=",
        &long,
        ";\n[Environment]\nA=",
        &long,
        "\n",
    ];
    let text = lines.concat(rt.alloc()).expect(&rt, "memory");
    assert!(rt; is_kept(&rt, rt.alloc(), &text, &text));
}
