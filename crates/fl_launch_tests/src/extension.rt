//! Metadata files and their extension points, worked out by hand from the rules.

use crate::given::{key_file, ref_name, row_of};
use crate::rows::{agree, agree_at};
use fl_extension::{Point, found_place, points};
use fp_base::Items;
use fp_name::RefName;
use fp_small::{Layout, RefRow, State};
use std::alloc::{AllocError, Global};
use std::panic::Expect;
use std::process::Abort;

/// The ref that the metadata in the tables belongs to.
const OF: &str = "app/org.x.App/x86_64/stable";

/// Appends `NAME DIRECTORY auto: `, with `manual` for a point that isn't automatic.
fn put_front(out: &mut String, point: &Point) -> Result<(), AllocError> {
    let kind = if point.auto { "auto" } else { "manual" };
    let directory = point.directory.as_str();
    write!(out, "{} {directory} {kind}: ", point.name.as_str())
}

/// Appends a candidate and a space.
fn put_candidate(out: &mut String, candidate: &RefName) -> Result<(), AllocError> {
    write!(out, "{} ", candidate.as_str())
}

/// Appends the candidates, each followed by a space.
fn put_candidates(rt: &impl Abort, out: &mut String, candidates: &[RefName]) {
    for candidate in candidates {
        put_candidate(out, candidate).expect(rt, "memory");
    }
}

/// Appends `NAME DIRECTORY auto: CANDIDATE .. CANDIDATE |`, with `manual` for a point that isn't
/// automatic.
fn put_point(rt: &impl Abort, out: &mut String, point: &Point) {
    put_front(out, point).expect(rt, "memory");
    put_candidates(rt, out, point.candidates.as_slice());
    out.push('|').expect(rt, "memory");
}

/// Returns the extension points in the metadata of a ref.
fn points_of(rt: &impl Abort, alloc: Global, text: &str, of: &str) -> Items<Point> {
    let file = key_file(rt, alloc, text);
    points(alloc, &file, &ref_name(rt, alloc, of)).expect(rt, "memory")
}

/// Returns the points as text.
fn points_as_text(rt: &impl Abort, alloc: Global, points: &[Point]) -> String {
    let mut out = String::new(alloc);
    for point in points {
        put_point(rt, &mut out, point);
    }
    out
}

/// Returns whether the points have this text.
fn are_shown(rt: &impl Abort, alloc: Global, points: &[Point], want: &str) -> bool {
    points_as_text(rt, alloc, points).as_str() == want
}

/// Fails the test if the metadata of a ref has other points than these.
fn agree_on(rt: &impl Abort, alloc: Global, text: &str, of: &str, want: &str) {
    let points = points_of(rt, alloc, text, of);
    agree(rt, text, are_shown(rt, alloc, points.as_slice(), want));
}

/// A typical metadata file.
const USUAL: &str =
    "[Application]\nname=org.x.App\nruntime=org.x.Platform/x86_64/1\nsdk=org.x.Sdk/x86_64/1\ncommand=run\n\n[Context]\nshared=network;ipc;\n\n[Extension org.x.App.Locale]\ndirectory=share/locale\n\n[Build]\nbuilt-extensions=org.x.App.Locale;\n";

/// Metadata of an application, and its extension points.
const POINTS: [(&str, &str); 19] = [
    ("", ""),
    ("[Application]\ndirectory=share\nversion=1\n", ""),
    (
        USUAL,
        "org.x.App.Locale share/locale auto: runtime/org.x.App.Locale/x86_64/stable |",
    ),
    // names have to be IDs
    ("[Extension ]\ndirectory=share\n", ""),
    ("[Extension]\ndirectory=share\n", ""),
    ("[Extension org.x]\ndirectory=share\n", ""),
    ("[Extension  org.x.E]\ndirectory=share\n", ""),
    ("[Extension org.x.E ]\ndirectory=share\n", ""),
    ("[Extension org.x.2E]\ndirectory=share\n", ""),
    (
        "[ExtensionOf]\nref=app/org.x.E/x86_64/1\ndirectory=share\n",
        "",
    ),
    ("[extension org.x.E]\ndirectory=share\n", ""),
    // points are ordered by name, whatever the order of the groups
    (
        "[Extension org.x.c]\ndirectory=c\n[Extension org.x.B]\ndirectory=b\n[Extension org.x.c.a]\ndirectory=ca\n[Extension org.x.c-a]\ndirectory=d\n[Extension org.x.a]\ndirectory=a\n",
        "org.x.B b auto: runtime/org.x.B/x86_64/stable |org.x.a a auto: runtime/org.x.a/x86_64/stable |org.x.c c auto: runtime/org.x.c/x86_64/stable |org.x.c-a d auto: runtime/org.x.c-a/x86_64/stable |org.x.c.a ca auto: runtime/org.x.c.a/x86_64/stable |",
    ),
    // a group that isn't a point doesn't affect the others
    (
        "[Extension org.x.c]\ndirectory=c\n[Extension x]\ndirectory=x\n[Extension org.x.b]\n[Extension org.x.a]\ndirectory=a\n",
        "org.x.a a auto: runtime/org.x.a/x86_64/stable |org.x.c c auto: runtime/org.x.c/x86_64/stable |",
    ),
    // a repeated group is continued, and a repeated key has its last value
    (
        "[Extension org.x.E]\ndirectory=a\nversion=1\n[Other]\n[Extension org.x.E]\ndirectory=b\n",
        "org.x.E b auto: runtime/org.x.E/x86_64/1 |",
    ),
    // switches are on only with the value `true`
    (
        "[Extension org.x.E]\ndirectory=e\nno-autodownload=true\n",
        "org.x.E e manual: runtime/org.x.E/x86_64/stable |",
    ),
    (
        "[Extension org.x.E]\ndirectory=e\nno-autodownload=True\nsubdirectories=1\n",
        "org.x.E e auto: runtime/org.x.E/x86_64/stable |",
    ),
    (
        "[Extension org.x.E]\ndirectory=e\nautodelete=true\nno-autodownload=false\nsubdirectories=false\n",
        "org.x.E e auto: runtime/org.x.E/x86_64/stable |",
    ),
    (
        "[Extension org.x.E]\ndirectory=e\nsubdirectories=true\n",
        "",
    ),
    // keys of another group don't count
    (
        "[Extension org.x.E]\ndirectory=e\n[Other]\nsubdirectories=true\nversion=2\nno-autodownload=true\n",
        "org.x.E e auto: runtime/org.x.E/x86_64/stable |",
    ),
];

#[test]
fn points_of_metadata(rt: HostRuntime) {
    for (text, want) in &POINTS {
        agree_on(&rt, rt.alloc(), text, OF, want);
    }
    let text = "[Runtime]\nname=org.x.Platform\n[Extension org.x.Platform.GL]\ndirectory=lib/GL\n";
    let want = "org.x.Platform.GL lib/GL auto: runtime/org.x.Platform.GL/aarch64/1 |";
    let of = "runtime/org.x.Platform/aarch64/1";
    agree_on(&rt, rt.alloc(), text, of, want);
}

/// Values of the key `directory`, and whether a group with each is a point.
const DIRECTORIES: [(&str, bool); 26] = [
    ("share", true),
    ("share/locale", true),
    ("lib/x86_64-linux-gnu/GL", true),
    ("a b", true),
    (".a/..b/...", true),
    ("a;b", true),
    ("\u{e9}", true),
    ("\\s", true),
    ("  share", true),
    // the root, absolute paths, and paths with an empty element, `.` or `..`
    ("", false),
    ("/", false),
    ("/share", false),
    ("share/", false),
    ("share//locale", false),
    (".", false),
    ("..", false),
    ("./share", false),
    ("share/../locale", false),
    ("share/.", false),
    // characters that can't be in a key, or at its end
    ("share ", false),
    ("share/a\t", false),
    ("a=b", false),
    ("share/=", false),
    ("a\tb", false),
    ("a\u{7f}", false),
    ("\u{1}", false),
];

/// Concatenates texts.
fn joined_texts(rt: &impl Abort, alloc: Global, texts: &[&str]) -> String {
    texts.concat(alloc).expect(rt, "memory")
}

/// Returns the group of a point with these keys.
fn group_of(rt: &impl Abort, alloc: Global, keys: &str) -> String {
    joined_texts(rt, alloc, &["[Extension org.x.E]\n", keys, "\n"])
}

/// Returns the number of points that a group with these keys gives.
fn count_points(rt: &impl Abort, alloc: Global, keys: &str) -> usize {
    let text = group_of(rt, alloc, keys);
    points_of(rt, alloc, &text, OF).as_slice().len()
}

/// Returns whether a group with this directory is a point.
fn is_directory(rt: &impl Abort, alloc: Global, directory: &str) -> bool {
    count_points(
        rt,
        alloc,
        &joined_texts(rt, alloc, &["directory=", directory]),
    ) != 0
}

#[test]
fn directories(rt: HostRuntime) {
    for (directory, is_point) in &DIRECTORIES {
        let is_so = is_directory(&rt, rt.alloc(), directory) == *is_point;
        agree(&rt, directory, is_so);
    }
}

/// Keys of a point's group, and its candidates for an application with the branch `stable`.
const CANDIDATES: [(&str, &str); 19] = [
    ("", "runtime/org.x.E/x86_64/stable "),
    ("version=2", "runtime/org.x.E/x86_64/2 "),
    ("versions=2", "runtime/org.x.E/x86_64/2 "),
    (
        "versions=2;1",
        "runtime/org.x.E/x86_64/2 runtime/org.x.E/x86_64/1 ",
    ),
    (
        "versions=1;2;",
        "runtime/org.x.E/x86_64/1 runtime/org.x.E/x86_64/2 ",
    ),
    // `versions` takes precedence over `version`, in any order
    ("version=3\nversions=2", "runtime/org.x.E/x86_64/2 "),
    ("versions=2\nversion=3", "runtime/org.x.E/x86_64/2 "),
    // entries that aren't branches are left out, and nothing replaces them
    (
        "versions=;2;;.1;a/b;22.08",
        "runtime/org.x.E/x86_64/2 runtime/org.x.E/x86_64/22.08 ",
    ),
    ("versions=", ""),
    ("versions=;", ""),
    ("version=3\nversions=.1", ""),
    ("version=", ""),
    ("version=.1", ""),
    // `version` isn't a list
    ("version=2;1", ""),
    // spaces and tabs belong to their entries
    ("versions=1; 2;\t3;4 ", "runtime/org.x.E/x86_64/1 "),
    ("version= 2", "runtime/org.x.E/x86_64/2 "),
    // a repeated entry counts at its first place
    ("versions=1;1", "runtime/org.x.E/x86_64/1 "),
    (
        "versions=2;1;.3;2;.3;1;3",
        "runtime/org.x.E/x86_64/2 runtime/org.x.E/x86_64/1 runtime/org.x.E/x86_64/3 ",
    ),
    // a `;` after a backslash doesn't end an entry
    ("versions=1\\;2;3", "runtime/org.x.E/x86_64/3 "),
];

/// Returns whether a point with these keys and a directory has these candidates.
fn has_candidates(rt: &impl Abort, alloc: Global, keys: &str, want: &str) -> bool {
    let text = group_of(
        rt,
        alloc,
        &joined_texts(rt, alloc, &["directory=e\n", keys]),
    );
    let points = points_of(rt, alloc, &text, OF);
    let want = joined_texts(rt, alloc, &["org.x.E e auto: ", want, "|"]);
    are_shown(rt, alloc, points.as_slice(), &want)
}

#[test]
fn candidates(rt: HostRuntime) {
    for (keys, want) in &CANDIDATES {
        agree(&rt, keys, has_candidates(&rt, rt.alloc(), keys, want));
    }
}

/// Returns the rows of refs that are separated by spaces.
fn refs_of(rt: &impl Abort, alloc: Global, names: &str) -> Items<RefRow> {
    let mut refs = Items::new(alloc);
    for name in names.split(' ') {
        if !name.is_empty() {
            refs.push(row_of(rt, alloc, name, 7)).expect(rt, "memory");
        }
    }
    refs
}

/// Returns a state with these refs.
pub fn state_of(rt: &impl Abort, alloc: Global, names: &str) -> State {
    State {
        layout: Layout::Two,
        refs: refs_of(rt, alloc, names),
        remotes: Items::new(alloc),
        pins: Items::new(alloc),
        overrides: Items::new(alloc),
    }
}

/// Values of `versions`, the refs of a state, and the index of the candidate that is found.
const FOUND: [(&str, &str, Option<usize>); 9] = [
    ("2;1", "", None),
    ("2;1", "runtime/org.x.E/x86_64/1", Some(1)),
    ("2;1", "runtime/org.x.E/x86_64/2", Some(0)),
    (
        "2;1",
        "runtime/org.x.E/x86_64/1 runtime/org.x.E/x86_64/2",
        Some(0),
    ),
    (
        "3;1;2",
        "runtime/org.x.E/x86_64/1 runtime/org.x.E/x86_64/2",
        Some(1),
    ),
    ("2;1;2", "runtime/org.x.E/x86_64/2", Some(0)),
    (
        "2;1",
        "app/org.x.E/x86_64/1 runtime/org.x.E/aarch64/2 runtime/org.x.E/x86_64/3 runtime/org.x.E.F/x86_64/2",
        None,
    ),
    // indices count the candidates, not the entries
    (";.1;2;2;1", "runtime/org.x.E/x86_64/1", Some(1)),
    ("", "runtime/org.x.E/x86_64/stable", None),
];

/// Returns the index that is found for the only point. Errs with the number of points if there
/// isn't exactly one.
fn found_in(points: &[Point], state: &State) -> Result<Option<usize>, usize> {
    match points {
        [point] => Ok(found_place(point, state)),
        others => Err(others.len()),
    }
}

/// Returns the index of the candidate that is found for a point with these versions. Errs with the
/// number of points if the metadata doesn't have exactly one.
fn place_found(
    rt: &impl Abort,
    alloc: Global,
    versions: &str,
    state: &State,
) -> Result<Option<usize>, usize> {
    let keys = joined_texts(rt, alloc, &["directory=e\nversions=", versions]);
    let text = group_of(rt, alloc, &keys);
    found_in(points_of(rt, alloc, &text, OF).as_slice(), state)
}

/// Returns whether the candidate with this index is found in a state with these refs.
fn is_found(
    rt: &impl Abort,
    alloc: Global,
    versions: &str,
    refs: &str,
    want: Option<usize>,
) -> bool {
    let state = state_of(rt, alloc, refs);
    let place = place_found(rt, alloc, versions, &state);
    drop(state);
    place == Ok(want)
}

#[test]
fn found_candidates(rt: HostRuntime) {
    for (at, (versions, refs, want)) in FOUND.iter().enumerate() {
        agree_at(&rt, at, is_found(&rt, rt.alloc(), versions, refs, *want));
    }
}

/// Appends a number with a head and a tail.
fn put_numbered(text: &mut String, number: u32, head: &str, tail: &str) -> Result<(), AllocError> {
    write!(text, "{head}{number}{tail}")
}

/// Returns the numbers from 0 to `count` - 1 as one text, each with a head and a tail.
pub fn many(rt: &impl Abort, alloc: Global, count: u32, head: &str, tail: &str) -> String {
    let mut text = String::new(alloc);
    for number in 0..count {
        put_numbered(&mut text, number, head, tail).expect(rt, "memory");
    }
    text
}

/// A candidate is found among 300 in a state of 1,101 refs, of which only the last is a candidate.
#[test]
fn many_candidates(rt: HostRuntime) {
    let alloc = rt.alloc();
    let versions = many(&rt, alloc, 300, "v", ";");
    let refs = many(&rt, alloc, 1_100, "runtime/org.x.D", "/x86_64/1 ");
    let refs = joined_texts(&rt, alloc, &[&refs, "runtime/org.x.E/x86_64/v299"]);
    assert!(rt; is_found(&rt, alloc, &versions, &refs, Some(299)));
}

/// Returns the number of candidates of the only point; 0 if there isn't exactly one point.
fn candidate_count(points: &[Point]) -> usize {
    match points {
        [point] => point.candidates.as_slice().len(),
        _ => 0,
    }
}

/// 100,000 entries of `versions` with 10,000 distinct values. Comparing each entry to each other
/// one would take too long.
#[test]
fn many_equal_candidates(rt: HostRuntime) {
    let alloc = rt.alloc();
    let some = many(&rt, alloc, 10_000, "v", ";");
    let versions = some.repeat(alloc, 10).expect(&rt, "memory");
    let keys = joined_texts(&rt, alloc, &["directory=e\nversions=", &versions]);
    let text = group_of(&rt, alloc, &keys);
    assert!(rt; candidate_count(points_of(&rt, alloc, &text, OF).as_slice()) == 10_000);
}

/// A version of 100 KiB is left out, and the next one is found.
#[test]
fn long_version(rt: HostRuntime) {
    let version = "v".repeat(rt.alloc(), 100 << 10).expect(&rt, "memory");
    let versions = joined_texts(&rt, rt.alloc(), &[&version, ";1"]);
    let is_so = is_found(
        &rt,
        rt.alloc(),
        &versions,
        "runtime/org.x.E/x86_64/1",
        Some(0),
    );
    assert!(rt; is_so);
}

/// Returns the groups of this many points.
pub fn many_groups(rt: &impl Abort, alloc: Global, count: u32) -> String {
    many(rt, alloc, count, "[Extension org.x.E", "]\ndirectory=e\n")
}

#[test]
fn many_points(rt: HostRuntime) {
    let text = many_groups(&rt, rt.alloc(), 1_100);
    assert!(rt; points_of(&rt, rt.alloc(), &text, OF).as_slice().len() == 1_100);
}
