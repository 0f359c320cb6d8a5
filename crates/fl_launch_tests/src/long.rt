//! Metadata and a desktop file of more than 100 KiB, and states of 1,100 rows.

use crate::extension::{many, state_of};
use crate::given::{key_file, ref_name};
use dep_switch::put_override;
use fl_export::rewrite;
use fl_extension::Point;
use fl_installed::{meta_said, points_in, runtime_named};
use fl_meta::{Meta, MetaKind};
use fl_plan::{targets, unused, unused_extended};
use fp_base::{Blob, Items, Text};
use fp_name::RefName;
use fp_small::{OverrideRow, State};
use std::alloc::Global;
use std::panic::Expect;
use std::process::Abort;

/// The ref of the application.
const APP: &str = "app/org.x.App/x86_64/stable";

/// Returns the application's metadata, with 1,100 points whose directories have 70 bytes each.
fn metadata(rt: &impl Abort, alloc: Global) -> Blob {
    let directory = "d".repeat(alloc, 70).expect(rt, "memory");
    let tail = ["]\ndirectory=", directory.as_str(), "\n"].concat(alloc);
    let tail = tail.expect(rt, "memory");
    let groups = many(rt, alloc, 1_100, "[Extension org.x.E", &tail);
    let head = "[Application]\nruntime=org.x.Platform/x86_64/1\n";
    let text = [head, groups.as_str()].concat(alloc).expect(rt, "memory");
    Blob::from_slice(alloc, text.as_bytes()).expect(rt, "memory")
}

/// Returns the number of extensions that the metadata names; 0 if there is none.
fn extensions_of(meta: &Option<Meta>) -> usize {
    match meta {
        Some(meta) => meta.extensions.as_slice().len(),
        None => 0,
    }
}

/// Returns whether the metadata names all 1,100 extensions.
fn names_extensions(rt: &impl Abort, alloc: Global, name: &RefName, metadata: &Blob) -> bool {
    let meta = meta_said(alloc, name, metadata).expect(rt, "memory");
    let is_so = extensions_of(&meta) == 1_100;
    drop(meta);
    is_so
}

/// Returns whether the metadata names the runtime.
fn names_runtime(rt: &impl Abort, alloc: Global, name: &RefName, metadata: &Blob) -> bool {
    match runtime_named(alloc, name, metadata).expect(rt, "memory") {
        Some(runtime) => runtime.as_str() == "runtime/org.x.Platform/x86_64/1",
        None => false,
    }
}

/// Returns whether the metadata has all 1,100 points.
fn has_points(rt: &impl Abort, alloc: Global, name: &RefName, metadata: &Blob) -> bool {
    let points = points_in(alloc, name, metadata).expect(rt, "memory");
    points.as_slice().len() == 1_100
}

/// Returns whether the metadata has more than 100 KiB, and its runtime, extensions and points are
/// read from it.
fn is_read(rt: &impl Abort, alloc: Global, name: &RefName, metadata: &Blob) -> bool {
    metadata.len() > 100 << 10
        && names_extensions(rt, alloc, name, metadata)
        && names_runtime(rt, alloc, name, metadata)
        && has_points(rt, alloc, name, metadata)
}

#[test]
fn long_metadata(rt: HostRuntime) {
    let name = ref_name(&rt, rt.alloc(), APP);
    assert!(rt; is_read(&rt, rt.alloc(), &name, &metadata(&rt, rt.alloc())));
}

/// Returns a desktop file of 1,100 actions with names of 70 bytes and this command.
fn desktop(rt: &impl Abort, alloc: Global, command: &str) -> String {
    let name = "n".repeat(alloc, 70).expect(rt, "memory");
    let tail = ["]\nName=", &name, "\nExec=", command, "\n"].concat(alloc);
    let tail = tail.expect(rt, "memory");
    let actions = many(rt, alloc, 1_100, "[Desktop Action a", &tail);
    let head = ["[Desktop Entry]\nName=App\nExec=", command, "\n"].concat(alloc);
    let head = head.expect(rt, "memory");
    [head.as_str(), actions.as_str()]
        .concat(alloc)
        .expect(rt, "memory")
}

/// Returns whether a desktop file of more than 100 KiB is rewritten as the other one.
fn becomes(rt: &impl Abort, alloc: Global, text: &str, want: &str) -> bool {
    let rewritten = rewrite(alloc, text.as_bytes(), &ref_name(rt, alloc, APP));
    match rewritten.expect(rt, "memory") {
        Some(bytes) => text.len() > 100 << 10 && bytes.as_slice() == want.as_bytes(),
        None => false,
    }
}

/// Each command is replaced by the launch of the application, with the first word as its command.
#[test]
fn long_desktop_file(rt: HostRuntime) {
    let own = "fpk launch app/org.x.App/x86_64/stable --command=run";
    let want = desktop(&rt, rt.alloc(), own);
    assert!(rt; becomes(&rt, rt.alloc(), &desktop(&rt, rt.alloc(), "run %U"), &want));
}

/// Returns the metadata of this many applications, which need a runtime that isn't installed.
fn metas_of(rt: &impl Abort, alloc: Global, count: u32) -> Vec<(RefName, Meta)> {
    let file = key_file(rt, alloc, "[Application]\nruntime=org.x.Q/x86_64/1\n");
    let mut metas = Vec::new(alloc);
    for _ in 0..count {
        let meta = Meta::read(alloc, &file, MetaKind::App).expect(rt, "metadata");
        metas
            .push((ref_name(rt, alloc, APP), meta))
            .expect(rt, "memory");
    }
    metas
}

/// Returns a list of this many applications without points.
fn points_of(rt: &impl Abort, alloc: Global, count: u32) -> Vec<(RefName, Items<Point>)> {
    let mut points = Vec::new(alloc);
    for _ in 0..count {
        let none = (ref_name(rt, alloc, APP), Items::new(alloc));
        points.push(none).expect(rt, "memory");
    }
    points
}

/// Returns the number of unused runtimes without regard to points, their number with regard to
/// points, and the number of refs that an update of all includes.
fn counts(rt: &impl Abort, alloc: Global, state: &State, others: u32) -> [usize; 3] {
    let metas = metas_of(rt, alloc, others);
    let points = points_of(rt, alloc, others);
    let plain = unused(alloc, state, &metas).expect(rt, "memory");
    let extended = unused_extended(alloc, state, &metas, &points).expect(rt, "memory");
    let targets = targets(alloc, state, None).expect(rt, "memory");
    drop(metas);
    [
        plain.as_slice().len(),
        extended.as_slice().len(),
        targets.as_slice().len(),
    ]
}

/// Returns the counts for a state with these refs.
fn counts_of(rt: &impl Abort, alloc: Global, refs: &str, others: u32) -> [usize; 3] {
    let state = state_of(rt, alloc, refs);
    let counts = counts(rt, alloc, &state, others);
    drop(state);
    counts
}

#[test]
fn many_unused(rt: HostRuntime) {
    let refs = many(&rt, rt.alloc(), 1_100, "runtime/org.x.P", "/x86_64/1 ");
    assert!(rt; counts_of(&rt, rt.alloc(), &refs, 1_100) == [1_100; 3]);
}

/// Adds an override without permissions.
fn put_named(rt: &impl Abort, alloc: Global, rows: &mut Vec<OverrideRow>, name: String) {
    let row = OverrideRow {
        name: Text::from_string(name),
        file: key_file(rt, alloc, ""),
    };
    put_override(rows, row).expect(rt, "memory");
}

/// Returns the number of overrides after this many are added, each for another application.
fn count_put(rt: &impl Abort, alloc: Global, count: u32) -> usize {
    let mut rows = Vec::new(alloc);
    for number in 0..count {
        let name = format!(in alloc; "org.x.A{number}").expect(rt, "memory");
        put_named(rt, alloc, &mut rows, name);
    }
    rows.len()
}

#[test]
fn many_overrides(rt: HostRuntime) {
    assert!(rt; count_put(&rt, rt.alloc(), 1_100) == 1_100);
}
