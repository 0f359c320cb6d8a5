//! Launches worked out by hand from the rules: their texts and policies.

ghost use Rattle.std.specs.Prelude.{IsTrue, IsSome};

use crate::extension::{many, many_groups};
use crate::given::{key_file, ref_name, row_of};
use crate::rows::agree;
use bus_policy::{Grant, Level, Policy, PolicyRule};
use fl_extension::{Point, points};
use fl_launch::{LaunchText, launch, launch_extended, policy_of, policy_of_system};
use fl_meta::{Layer, Meta, MetaKind};
use fl_options::layer_of;
use fp_base::{Items, Text};
use fp_name::{AppId, RefName};
use fp_small::{Layout, OverrideRow, RefRow, State};
use std::alloc::Global;
use std::panic::Expect;
use std::process::Abort;

/// The application that is launched.
const APP: &str = "app/org.x.App/x86_64/stable";

/// The runtime of the application.
const RUNTIME: &str = "runtime/org.x.Platform/x86_64/1";

/// Typical metadata of an application.
const USUAL: &str =
    "[Application]\nname=org.x.App\nruntime=org.x.Platform/x86_64/1\nsdk=org.x.Sdk/x86_64/1\ncommand=run\n\n[Context]\nshared=network;ipc;\nsockets=wayland;gizmo;\ndevices=dri;\nfilesystems=~/x:ro;~/x:rw;~/x:ro;\n\n[Session Bus Policy]\norg.foo.*=talk\n\n[Environment]\nA=b c\n\n[Extension org.x.App.Locale]\ndirectory=share/locale\n\n[Build]\nbuilt-extensions=org.x.App.Locale;\n";

/// The metadata of the runtime.
const PLATFORM: &str = "[Runtime]\nname=org.x.Platform\n";

/// The text of the launch, up to the branch.
const HEADING: &str =
    "[Application]\nname=org.x.App\nruntime=runtime/org.x.Platform/x86_64/1\ncommand=run\n[Instance]\napp-commit=0101010101010101010101010101010101010101010101010101010101010101\nruntime-commit=0202020202020202020202020202020202020202020202020202020202020202\narch=x86_64\nbranch=stable\n";

/// The input of a launch: the metadata of the runtime and of the application, the global override
/// and the application's, the options, and the extensions that are installed. The last two are
/// lists that are separated by spaces.
#[derive(Clone, Copy)]
struct Given<'a> {
    runtime: &'a str,
    app: &'a str,
    global: &'a str,
    own: &'a str,
    options: &'a str,
    installed: &'a str,
}

/// The typical application, and nothing else.
const BARE: Given<'static> = Given {
    runtime: PLATFORM,
    app: USUAL,
    global: "",
    own: "",
    options: "",
    installed: "",
};

/// The typical application with an installed extension.
const WITH_LOCALE: Given<'static> = Given {
    installed: "runtime/org.x.App.Locale/x86_64/stable",
    ..BARE
};

/// Appends the rows of refs that are separated by spaces.
fn push_rows(rt: &impl Abort, alloc: Global, rows: &mut Vec<RefRow>, names: &str, byte: u8) {
    for name in names.split(' ') {
        if !name.is_empty() {
            rows.push(row_of(rt, alloc, name, byte))
                .expect(rt, "memory");
        }
    }
}

/// Returns the rows of the application, the extensions and the runtime.
fn rows_of(rt: &impl Abort, alloc: Global, installed: &str) -> Vec<RefRow> {
    let mut rows = Vec::new(alloc);
    push_rows(rt, alloc, &mut rows, APP, 1);
    push_rows(rt, alloc, &mut rows, installed, 3);
    push_rows(rt, alloc, &mut rows, RUNTIME, 2);
    rows
}

/// Appends an override with this name.
fn push_override(
    rt: &impl Abort,
    alloc: Global,
    rows: &mut Items<OverrideRow>,
    name: &str,
    text: &str,
) {
    let name = Text::from_str(alloc, name).expect(rt, "memory");
    let file = key_file(rt, alloc, text);
    rows.push(OverrideRow { name, file }).expect(rt, "memory");
}

/// Returns the given overrides, and one of an application that isn't launched.
fn overrides_of(rt: &impl Abort, alloc: Global, given: &Given<'_>) -> Items<OverrideRow> {
    let mut rows = Items::new(alloc);
    push_override(rt, alloc, &mut rows, "global", given.global);
    push_override(rt, alloc, &mut rows, "org.x.App", given.own);
    let other = "[Context]\nshared=!ipc\n";
    push_override(rt, alloc, &mut rows, "org.x.Other", other);
    rows
}

/// Returns the state with the given refs and overrides.
fn state_of(rt: &impl Abort, alloc: Global, given: &Given<'_>) -> State {
    State {
        layout: Layout::Two,
        refs: Items::from_vec(rows_of(rt, alloc, given.installed)),
        remotes: Items::new(alloc),
        pins: Items::new(alloc),
        overrides: overrides_of(rt, alloc, given),
    }
}

/// The metadata of a ref, with its extension points.
#[derive(Drop)]
struct Said {
    meta: Meta,
    points: Items<Point>,
}

/// Parses the metadata of a ref.
fn read(rt: &impl Abort, alloc: Global, text: &str, kind: MetaKind, of: &RefName) -> Said {
    let file = key_file(rt, alloc, text);
    Said {
        meta: Meta::read(alloc, &file, kind).expect(rt, "metadata"),
        points: points(alloc, &file, of).expect(rt, "memory"),
    }
}

/// Appends the words of a text, which are separated by spaces.
fn push_words(rt: &impl Abort, alloc: Global, words: &mut Vec<Text>, text: &str) {
    for word in text.split(' ') {
        let word = Text::from_str(alloc, word).expect(rt, "memory");
        words.push(word).expect(rt, "memory");
    }
}

/// Returns the mentions of options that are separated by spaces.
fn options_of(rt: &impl Abort, alloc: Global, options: &str) -> Layer {
    let mut words = Vec::new(alloc);
    push_words(rt, alloc, &mut words, options);
    layer_of(alloc, &words).expect(rt, "memory")
}

/// Returns whether the metadata names a runtime.
fn names_runtime(app: &Meta) -> bool
    ensures { IsTrue result → IsSome app.now.runtime }
{
    match &app.runtime {
        Some(_) => true,
        None => false,
    }
}

/// Returns the launch, if the metadata names a runtime.
fn launch_on_runtime(
    rt: &impl Abort,
    alloc: Global,
    state: &State,
    name: &RefName,
    app: &Said,
    runtime: &Said,
    words: &Layer,
) -> Option<LaunchText> {
    if !names_runtime(&app.meta) {
        return None;
    }
    let (at, under) = (&app.points, &runtime.points);
    let launch = launch_extended(
        alloc,
        state,
        name,
        &app.meta,
        &runtime.meta,
        at,
        under,
        words,
        None,
    );
    Some(launch.expect(rt, "memory"))
}

/// Returns the launch of the input in a state, if the metadata names a runtime.
fn launch_in(
    rt: &impl Abort,
    alloc: Global,
    given: &Given<'_>,
    state: &State,
) -> Option<LaunchText> {
    let name = ref_name(rt, alloc, APP);
    let app = read(rt, alloc, given.app, MetaKind::App, &name);
    let under = ref_name(rt, alloc, RUNTIME);
    let runtime = read(rt, alloc, given.runtime, MetaKind::Runtime, &under);
    let words = options_of(rt, alloc, given.options);
    let launch = launch_on_runtime(rt, alloc, state, &name, &app, &runtime, &words);
    drop(app);
    drop(runtime);
    launch
}

/// Returns the launch of the input.
fn launch_of(rt: &impl Abort, alloc: Global, given: &Given<'_>) -> LaunchText {
    let state = state_of(rt, alloc, given);
    let launch = launch_in(rt, alloc, given, &state);
    drop(state);
    launch.expect(rt, "a runtime")
}

/// Returns whether the text of the launch is the heading and these lines.
fn has_lines(rt: &impl Abort, alloc: Global, given: &Given<'_>, lines: &str) -> bool {
    let launch = launch_of(rt, alloc, given);
    let is_so = launch.text.as_str().strip_prefix(HEADING) == Some(lines);
    drop(launch);
    is_so
}

/// The lines of the typical launch after the heading.
const LINES: &str =
    "session-bus-proxy=true\n[Context]\nshared=ipc;network;\nsockets=wayland;\ndevices=dri;\nfilesystems=~/x:ro;\n[Environment]\nA=b c\n[Session Bus Policy]\norg.foo.*=talk\n[Unknown]\nsockets=gizmo;\n";

/// The lines of the typical launch after the heading, with the socket of the session bus.
const LINES_WITH_BUS: &str =
    "session-bus-proxy=false\n[Context]\nshared=ipc;network;\nsockets=session-bus;wayland;\ndevices=dri;\nfilesystems=~/x:ro;\n[Environment]\nA=b c\n[Session Bus Policy]\norg.foo.*=talk\n[Unknown]\nsockets=gizmo;\n";

/// The lines of the typical launch after the heading, with the extension.
const LINES_WITH_LOCALE: &str =
    "app-extensions=org.x.App.Locale=0303030303030303030303030303030303030303030303030303030303030303;\nsession-bus-proxy=true\n[Context]\nshared=ipc;network;\nsockets=wayland;\ndevices=dri;\nfilesystems=~/x:ro;\n[Environment]\nA=b c\n[Session Bus Policy]\norg.foo.*=talk\n[Unknown]\nsockets=gizmo;\n[Mounts]\n/app/share/locale=runtime/org.x.App.Locale/x86_64/stable\n";

/// A large input: each layer but the first revokes something that the previous ones grant, the
/// application has several points, and the point of the runtime has several candidates. In the
/// output, extensions ascend by name, but mounts by whole lines, in which a space is less than `=`,
/// and a letter is greater.
const MUCH: Given<'static> = Given {
    runtime: "[Runtime]\n[Context]\nshared=network;ipc\nfeatures=f;devel\n[Environment]\nC=3\nA=0\n[Session Bus Policy]\norg.foo=own\norg.bar=see\n[Extension org.x.P]\ndirectory=a\nversions=3;2;1\n",
    app: "[Application]\nname=org.x.App\nruntime=org.x.Platform/x86_64/1\ncommand=run\n[Context]\nshared=!network\nsockets=x11;session-bus\nfilesystems=~/y:create;host;!home;~/x:ro\npersistent=.b;.a\n[Environment]\nB=2\nA=1\n[System Bus Policy]\norg.c.d=talk\norg.e=Own\n[Extension org.x.c]\ndirectory=z b\n[Extension org.x.b]\ndirectory=z\n[Extension org.x.a]\ndirectory=zz\n[Extension org.x.d]\ndirectory=d\n",
    global: "[Context]\nshared=network;!ipc\nsockets=!session-bus\ndevices=dri;kvm\n[System Bus Policy]\norg.c.d=none\n",
    own: "[Context]\nsockets=!x11\nunknown-features=!f\nunknown-shared=q\n[Environment]\nB=\n[Session Bus Policy]\norg.foo=none\n",
    options: "--share=ipc --nodevice=kvm --system-own-name=org.c.d --talk-name=org.g.* --filesystem=host:ro --env=D=a;b=c",
    installed: "runtime/org.x.P/x86_64/1 runtime/org.x.P/x86_64/2 runtime/org.x.a/x86_64/stable runtime/org.x.b/x86_64/stable runtime/org.x.c/x86_64/stable runtime/org.x.d/x86_64/1",
};

/// The lines of the launch of the large input after the heading.
const MUCH_LINES: &str =
    "app-extensions=org.x.a=0303030303030303030303030303030303030303030303030303030303030303;org.x.b=0303030303030303030303030303030303030303030303030303030303030303;org.x.c=0303030303030303030303030303030303030303030303030303030303030303;\nruntime-extensions=org.x.P=0303030303030303030303030303030303030303030303030303030303030303;\nsession-bus-proxy=true\n[Context]\nshared=ipc;network;\ndevices=dri;\nfeatures=devel;\nfilesystems=host:ro;~/x:ro;~/y:create;\npersistent=.a;.b;\n[Environment]\nA=1\nB=\nC=3\nD=a;b=c\n[Session Bus Policy]\norg.bar=see\norg.g.*=talk\n[System Bus Policy]\norg.c.d=own\n[Unknown]\nshared=q;\nsystem-bus=org.e=Own;\n[Mounts]\n/app/z b=runtime/org.x.c/x86_64/stable\n/app/z=runtime/org.x.b/x86_64/stable\n/app/zz=runtime/org.x.a/x86_64/stable\n/usr/a=runtime/org.x.P/x86_64/2\n";

/// The input of launches, and the lines after the heading.
const LAUNCHES: [(Given<'static>, &str); 4] = [
    (BARE, LINES),
    (
        Given {
            options: "--socket=session-bus",
            ..BARE
        },
        LINES_WITH_BUS,
    ),
    (WITH_LOCALE, LINES_WITH_LOCALE),
    (MUCH, MUCH_LINES),
];

#[test]
fn texts(rt: HostRuntime) {
    for (given, lines) in &LAUNCHES {
        agree(&rt, lines, has_lines(&rt, rt.alloc(), given, lines));
    }
}

/// Returns the text of a launch without extension points, with these options and another command.
fn plain_text(
    rt: &impl Abort,
    alloc: Global,
    state: &State,
    name: &RefName,
    app: &Meta,
    runtime: &Meta,
    words: &Layer,
    command: &str,
) -> Option<String> {
    if !names_runtime(app) {
        return None;
    }
    let launch = launch(alloc, state, name, app, runtime, words, Some(command));
    Some(launch.expect(rt, "memory").text.into_string())
}

/// Parses metadata without its extension points.
fn meta_of(rt: &impl Abort, alloc: Global, text: &str, kind: MetaKind) -> Meta {
    Meta::read(alloc, &key_file(rt, alloc, text), kind).expect(rt, "metadata")
}

/// Returns the text of the typical application's launch without extension points, with another
/// command. The options are separated by spaces.
fn text_without_points(
    rt: &impl Abort,
    alloc: Global,
    state: &State,
    options: &str,
    command: &str,
) -> Option<String> {
    let name = ref_name(rt, alloc, APP);
    let app = meta_of(rt, alloc, USUAL, MetaKind::App);
    let runtime = meta_of(rt, alloc, PLATFORM, MetaKind::Runtime);
    let words = options_of(rt, alloc, options);
    let text = plain_text(rt, alloc, state, &name, &app, &runtime, &words, command);
    drop(app);
    drop(runtime);
    text
}

/// Returns whether a launch has the given command, and no extensions, although one is installed.
fn is_plain(text: &str) -> bool {
    text.contains("\ncommand=sh\n") && text.ends_with(LINES)
}

#[test]
fn plain_launch(rt: HostRuntime) {
    let state = state_of(&rt, rt.alloc(), &WITH_LOCALE);
    let text = text_without_points(&rt, rt.alloc(), &state, "", "sh");
    drop(state);
    assert!(rt; is_plain(&text.expect(&rt, "a runtime")));
}

/// Returns whether a text has this number of lines, and contains these two texts.
fn has_among(text: &str, count: usize, first: &str, last: &str) -> bool {
    text.lines().count() == count && text.contains(first) && text.contains(last)
}

/// 1,100 variables are in the text, besides the 21 lines of the typical launch.
#[test]
fn many_variables(rt: HostRuntime) {
    let state = state_of(&rt, rt.alloc(), &BARE);
    let options = many(&rt, rt.alloc(), 1_100, "--env=V", "=x ");
    let text = text_without_points(&rt, rt.alloc(), &state, &options, "sh");
    let text = text.expect(&rt, "a runtime");
    drop(state);
    assert!(rt; has_among(&text, 1_121, "\nV0=x\n", "\nV1099=x\n"));
}

/// A command of 100 KiB is in the text.
#[test]
fn long_command(rt: HostRuntime) {
    let command = "c".repeat(rt.alloc(), 100 << 10).expect(&rt, "memory");
    let state = state_of(&rt, rt.alloc(), &BARE);
    let text = text_without_points(&rt, rt.alloc(), &state, "", &command);
    drop(state);
    assert!(rt; text.expect(&rt, "a runtime").contains(command.as_str()));
}

/// Returns whether the launch with these points and refs has this many lines, and mounts the
/// extensions of the first point and of the last.
fn are_mounted(
    rt: &impl Abort,
    alloc: Global,
    groups: &str,
    installed: &str,
    lines: usize,
) -> bool {
    let app = [USUAL, groups].concat(alloc).expect(rt, "memory");
    let given = Given {
        runtime: PLATFORM,
        app: &app,
        global: "",
        own: "",
        options: "",
        installed,
    };
    let launch = launch_of(rt, alloc, &given);
    let is_so = has_among(
        launch.text.as_str(),
        lines,
        "\n/app/e=runtime/org.x.E0/x86_64/stable\n",
        "\n/app/e=runtime/org.x.E1099/x86_64/stable\n",
    );
    drop(launch);
    is_so
}

/// 1,100 extensions are mounted, with a line each, besides the 21 lines of the typical launch, the
/// line of the extensions and the header of the mounts.
#[test]
fn many_mounts(rt: HostRuntime) {
    let groups = many_groups(&rt, rt.alloc(), 1_100);
    let installed = many(&rt, rt.alloc(), 1_100, "runtime/org.x.E", "/x86_64/stable ");
    assert!(rt; are_mounted(&rt, rt.alloc(), &groups, &installed, 1_123));
}

/// Returns the word of a level.
fn word_of(level: Level) -> &'static str {
    match level {
        Level::None => "none",
        Level::See => "see",
        Level::Talk => "talk",
        Level::Own => "own",
    }
}

/// Returns whether a rule is `PATTERN=LEVEL`.
pub fn is_rule(rule: &PolicyRule, want: &str) -> bool {
    match &rule.grant {
        Grant::Level(level) => {
            want.split_once('=') == Some((rule.pattern.as_str(), word_of(*level)))
        }
        Grant::Rule(_, _) => false,
    }
}

/// Returns whether these are the rules of a policy, in this order.
fn has_rules(policy: &Policy, want: &[&str]) -> bool {
    for (rule, want) in policy.rules().iter().zip(want) {
        if !is_rule(rule, want) {
            return false;
        }
    }
    policy.rules().len() == want.len()
}

/// The rules on the session bus of the launch of the large input.
const SESSION: [&str; 4] = [
    "org.x.App.*=own",
    "org.freedesktop.portal.*=talk",
    "org.bar=see",
    "org.g.*=talk",
];

/// The rules on the system bus of the launch of the large input.
const SYSTEM: [&str; 1] = ["org.c.d=own"];

/// Returns whether a launch has the rules `SESSION` on the session bus.
fn has_session(rt: &impl Abort, alloc: Global, launch: &LaunchText) -> bool {
    let id = AppId::parse(alloc, b"org.x.App").expect(rt, "an ID");
    let policy = policy_of(alloc, launch, &id).expect(rt, "memory");
    has_rules(&policy, &SESSION)
}

/// Returns whether a launch has the rules `SYSTEM` on the system bus.
fn has_system(rt: &impl Abort, alloc: Global, launch: &LaunchText) -> bool {
    let policy = policy_of_system(alloc, launch).expect(rt, "memory");
    has_rules(&policy, &SYSTEM)
}

#[test]
fn policies(rt: HostRuntime) {
    let launch = launch_of(&rt, rt.alloc(), &MUCH);
    assert!(rt; has_session(&rt, rt.alloc(), &launch) && has_system(&rt, rt.alloc(), &launch));
    drop(launch);
}

/// Returns the numbers of rules that a launch with these options has on the session bus and on the
/// system bus.
fn count_rules(rt: &impl Abort, alloc: Global, options: &str) -> (usize, usize) {
    let launch = launch_of(rt, alloc, &Given { options, ..BARE });
    let id = AppId::parse(alloc, b"org.x.App").expect(rt, "an ID");
    let session = policy_of(alloc, &launch, &id).expect(rt, "memory");
    let system = policy_of_system(alloc, &launch).expect(rt, "memory");
    drop(launch);
    (session.rules().len(), system.rules().len())
}

/// 1,100 names on each bus, besides the three rules of the typical launch on the session bus.
#[test]
fn many_policy_rules(rt: HostRuntime) {
    let session = many(&rt, rt.alloc(), 1_100, "--talk-name=org.x.N", " ");
    let system = many(&rt, rt.alloc(), 1_100, "--system-talk-name=org.x.N", " ");
    let options = [session.as_str(), system.as_str()].concat(rt.alloc());
    let options = options.expect(&rt, "memory");
    assert!(rt; count_rules(&rt, rt.alloc(), &options) == (1_103, 1_100));
}
