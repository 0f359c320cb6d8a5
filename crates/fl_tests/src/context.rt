//! Layers and what they grant, worked out by hand.

use crate::meta::{mentions, value_word};
use crate::rows::agree;
use fl_context::{Grants, fold, is_granted};
use fl_meta::{Layer, Mention, PermList, Permission, Source, Value};
use std::alloc::{AllocError, Global};
use std::panic::Expect;
use std::process::Abort;

/// Appends `NAME=VALUE`, a `+` if the permission is granted, and a space.
fn push_mention(out: &mut String, mention: &Mention) -> Result<(), AllocError> {
    let name = mention.permission.name.as_str();
    let mark = if is_granted(&mention.value) { "+" } else { "" };
    write!(out, "{name}={}{mark} ", value_word(&mention.value))
}

/// Returns grants as text, in their order.
fn grants_as_text(rt: &impl Abort, alloc: Global, grants: &[Mention]) -> String {
    let mut out = String::new(alloc);
    for mention in grants {
        push_mention(&mut out, mention).expect(rt, "memory");
    }
    out
}

/// Returns the mentions of an override.
fn layer_of(rt: &impl Abort, alloc: Global, text: &str) -> Layer {
    mentions(rt, alloc, text, Source::Override)
}

/// Returns what layers grant.
fn grants(rt: &impl Abort, alloc: Global, layers: &[&Layer]) -> Grants {
    fold(alloc, layers).expect(rt, "memory")
}

/// Returns what layers grant, as text.
fn grants_of_layers(rt: &impl Abort, alloc: Global, layers: &[&Layer]) -> String {
    grants_as_text(rt, alloc, grants(rt, alloc, layers).as_slice())
}

/// Returns what three layers grant, as text.
fn grants_of_three(
    rt: &impl Abort,
    alloc: Global,
    first: &str,
    second: &str,
    third: &str,
) -> String {
    let first = layer_of(rt, alloc, first);
    let second = layer_of(rt, alloc, second);
    let third = layer_of(rt, alloc, third);
    grants_of_layers(rt, alloc, &[&first, &second, &third])
}

/// Three layers, and what they grant.
const LAYERS: [(&str, &str, &str, &str); 10] = [
    ("", "", "", ""),
    // An application's metadata, the override for all applications, and the application's own
    // override.
    (
        "[Context]\nshared=network;ipc;",
        "[Context]\nshared=!network;",
        "[Context]\nshared=network;",
        "ipc=on+ network=on+ ",
    ),
    (
        "[Context]\nshared=network;ipc;",
        "[Context]\nshared=!network;",
        "",
        "ipc=on+ network=off ",
    ),
    (
        "[Context]\nshared=network;!network;network;",
        "",
        "",
        "network=on+ ",
    ),
    // Lists are in their order, and the names in a list in that of their bytes.
    (
        "[System Bus Policy]\na.b=own\n[Session Bus Policy]\na.b=none\na.B=see\n[Environment]\nB=1\nA=2\n",
        "[Context]\npersistent=z;\nfilesystems=b;a:ro;a-b:create\nfeatures=devel\ndevices=dri\nsockets=x11\nshared=ipc",
        "",
        "ipc=on+ x11=on+ dri=on+ devel=on+ a=ro+ a-b=create+ b=rw+ z=on+ A=2+ B=1+ a.B=see+ a.b=none a.b=own+ ",
    ),
    (
        "[Context]\nfilesystems=~/x:ro;",
        "[Context]\nfilesystems=!~/x;",
        "[Context]\nfilesystems=~/x",
        "~/x=rw+ ",
    ),
    (
        "[Context]\nfilesystems=/opt/data:ro;~/x/;",
        "[Context]\nfilesystems=!/opt//data/;",
        "[Context]\nfilesystems=!~/./x",
        "/opt/data=off ~/x=off ",
    ),
    (
        "[Session Bus Policy]\na.b=own",
        "[Session Bus Policy]\na.b=none",
        "",
        "a.b=none ",
    ),
    // A name that isn't known is a permission of its own, apart from the known one.
    (
        "[Context]\nshared=x;network",
        "[Context]\nunknown-shared=network",
        "[Context]\nunknown-shared=!x",
        "network=on+ network=on+ x=off ",
    ),
    (
        "[Environment]\nA=1",
        "[Environment]\nA=",
        "[Environment]\nB=A",
        "A=+ B=A+ ",
    ),
];

#[test]
fn layers(rt: HostRuntime) {
    for (first, second, third, want) in &LAYERS {
        let text = grants_of_three(&rt, rt.alloc(), first, second, third);
        agree(&rt, want, text.as_str() == *want);
    }
}

/// Returns what one layer grants.
fn grants_of(rt: &impl Abort, alloc: Global, text: &str) -> Grants {
    grants(rt, alloc, &[&layer_of(rt, alloc, text)])
}

/// Returns whether a value has this word. The word for no value is `nothing`.
fn is_word(value: Option<&Value>, want: &str) -> bool {
    match value {
        Some(value) => value_word(value) == want,
        None => want == "nothing",
    }
}

/// Returns whether grants give a permission this value.
fn gives(
    rt: &impl Abort,
    alloc: Global,
    grants: &Grants,
    list: PermList,
    name: &str,
    want: &str,
) -> bool {
    let permission = Permission::new(alloc, list, name).expect(rt, "memory");
    is_word(grants.value(&permission), want)
}

/// Permissions, and their values in `LAYER`.
const VALUES: [(PermList, &str, &str); 5] = [
    (PermList::Shared, "network", "off"),
    (PermList::Sockets, "x11", "on"),
    (PermList::Sockets, "network", "nothing"),
    (PermList::UnknownSockets, "network", "on"),
    (PermList::Environment, "network", "nothing"),
];

/// A layer that has the same name in two lists.
const LAYER: &str = "[Context]\nshared=!network;\nsockets=network;x11\n";

#[test]
fn values(rt: HostRuntime) {
    let grants = grants_of(&rt, rt.alloc(), LAYER);
    for (list, name, want) in &VALUES {
        let is_so = gives(&rt, rt.alloc(), &grants, *list, name, want);
        agree(&rt, want, is_so);
    }
}

/// Returns the number of permissions in the grants of a text, after they went through a layer.
fn count(rt: &impl Abort, alloc: Global, text: &str) -> usize {
    let layer = grants_of(rt, alloc, text).into_layer();
    Grants::from_layer(layer).as_layer().len()
}

#[test]
fn counts(rt: HostRuntime) {
    assert!(rt; count(&rt, rt.alloc(), LAYER) == 3);
}

/// Appends the variable with this number.
fn put_variable(text: &mut String, number: usize, value: &str) -> Result<(), AllocError> {
    write!(text, "V{number:04}={value}\n")
}

/// Returns an override with this number of variables, each with this value.
pub fn many_variables(rt: &impl Abort, alloc: Global, count: usize, value: &str) -> String {
    let mut text = String::from_str(alloc, "[Environment]\n").expect(rt, "memory");
    for number in 0..count {
        put_variable(&mut text, number, value).expect(rt, "memory");
    }
    text
}

/// Returns the layer with this number of variables, each with this value.
fn long_layer(rt: &impl Abort, alloc: Global, count: usize, value: &str) -> Layer {
    layer_of(rt, alloc, &many_variables(rt, alloc, count, value))
}

/// Returns the number of mentions with this value.
fn count_values(mentions: &[Mention], value: &str) -> usize {
    let mut count = 0usize;
    for mention in mentions {
        if value_word(&mention.value) == value {
            count = count.saturating_add(1);
        }
    }
    count
}

/// Returns whether 20 layers grant this number of permissions, all with the value of the last
/// layer. The other layers give them another value.
fn are_folded(rt: &impl Abort, alloc: Global, count: usize) -> bool {
    let first = long_layer(rt, alloc, count, "1");
    let last = long_layer(rt, alloc, count, "2");
    let layers = [
        &first, &first, &first, &first, &first, &first, &first, &first, &first, &first, &first,
        &first, &first, &first, &first, &first, &first, &first, &first, &last,
    ];
    let grants = grants(rt, alloc, &layers);
    grants.as_slice().len() == count && count_values(grants.as_slice(), "2") == count
}

#[test]
fn many_layers(rt: HostRuntime) {
    assert!(rt; are_folded(&rt, rt.alloc(), 300));
}

/// Returns the number of permissions that this number of equal layers grant, each with one
/// variable.
fn count_of_layers(rt: &impl Abort, alloc: Global, layers: usize) -> usize {
    let layer = long_layer(rt, alloc, 1, "1");
    let many = vec![in alloc; &layer; layers].expect(rt, "memory");
    grants(rt, alloc, &many).as_slice().len()
}

#[test]
fn a_layer_of_many(rt: HostRuntime) {
    assert!(rt; count_of_layers(&rt, rt.alloc(), 1_100) == 1);
}
