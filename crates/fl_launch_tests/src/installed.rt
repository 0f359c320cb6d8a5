//! Functions over a state of 1,100 refs and a host without content: each ends.

use crate::extension::{many, state_of};
use crate::given::ref_name;
use dep_switch::RetirePlan;
use fl_export::{refresh, wanted};
use fl_gen::GenRemotes;
use fl_installed::{first_user, launch_in, metas, parts_in, points};
use fl_plan::{ops, resolve_runtime};
use fp_base::Text;
use fp_memhost::{MemHost, MemRemotes};
use fp_name::{RefName, RemoteName, RemoteUrl};
use fp_small::{RemoteRow, State, has_remote};
use std::alloc::Global;
use std::panic::Expect;
use std::process::Abort;
use std::thread::Threads;

/// The last of the refs.
const LAST: &str = "app/org.x.A1099/x86_64/1";

/// Returns a state of 1,100 applications.
fn many_applications(rt: &impl Abort, alloc: Global) -> State {
    let refs = many(rt, alloc, 1_100, "app/org.x.A", "/x86_64/1 ");
    state_of(rt, alloc, &refs)
}

/// Returns an empty host.
fn new_host(rt: &impl Abort, alloc: Global) -> MemHost {
    MemHost::new(alloc).expect(rt, "memory")
}

/// Returns the number of refs with metadata, the number of refs that are listed with their points,
/// and the number of exports.
fn counts(rt: &impl Abort, alloc: Global, host: &mut MemHost, state: &State) -> [usize; 3] {
    let metas = metas(alloc, host, state).expect(rt, "metadata");
    let points = points(alloc, host, state).expect(rt, "points");
    let rows = wanted(alloc, host, state).expect(rt, "exports");
    [
        metas.as_slice().len(),
        points.as_slice().len(),
        rows.as_slice().len(),
    ]
}

/// Refreshes the exports, and returns whether no deployed application needs the runtime `name`.
fn is_idle(
    rt: &impl Abort,
    alloc: Global,
    host: &mut MemHost,
    state: &State,
    name: &RefName,
) -> bool {
    let user = first_user(alloc, host, state, name).expect(rt, "an answer");
    refresh(alloc, host, state).expect(rt, "refreshed");
    user.is_none()
}

#[test]
fn nothing_is_found(rt: HostRuntime) {
    let alloc = rt.alloc();
    let state = many_applications(&rt, alloc);
    let mut host = new_host(&rt, alloc);
    let name = ref_name(&rt, alloc, LAST);
    let counts = counts(&rt, alloc, &mut host, &state);
    let is_idle = is_idle(&rt, alloc, &mut host, &state, &name);
    drop(state);
    drop(host);
    assert!(rt; counts == [0, 1_100, 0] && is_idle);
}

/// Returns 1,100 options.
fn options(rt: &impl Abort, alloc: Global) -> Vec<Text> {
    let mut words = Vec::new(alloc);
    for _ in 0..1_100 {
        let word = Text::from_str(alloc, "--share=ipc").expect(rt, "memory");
        words.push(word).expect(rt, "memory");
    }
    words
}

/// Returns whether an application whose commit is missing is refused, both by `launch_in` and by
/// `parts_in`.
fn is_refused(
    rt: &impl Abort,
    alloc: Global,
    host: &mut MemHost,
    state: &State,
    name: &RefName,
) -> bool {
    let options = options(rt, alloc);
    let launch = launch_in(alloc, host, state, name, &options).expect(rt, "an answer");
    let parts = parts_in(alloc, host, state, name).expect(rt, "an answer");
    let is_so = launch.is_err() && parts.is_err();
    drop(launch);
    drop(parts);
    is_so
}

#[test]
fn a_launch_is_refused(rt: HostRuntime) {
    let alloc = rt.alloc();
    let state = many_applications(&rt, alloc);
    let mut host = new_host(&rt, alloc);
    let name = ref_name(&rt, alloc, LAST);
    let is_so = is_refused(&rt, alloc, &mut host, &state, &name);
    drop(state);
    drop(host);
    assert!(rt; is_so);
}

/// Returns whether an installed ref needs no install.
fn is_there(rt: &impl Abort, alloc: Global, state: &State, name: &RefName) -> bool {
    let mut host = new_host(rt, alloc);
    let mut remotes = MemRemotes::new(alloc).expect(rt, "memory");
    let lab = RemoteName::parse(alloc, b"lab").expect(rt, "a remote");
    let op = resolve_runtime(alloc, &mut host, &mut remotes, state, &lab, name);
    let is_so = matches!(&op, Ok(None));
    drop(op);
    drop(host);
    drop(remotes);
    is_so
}

/// Returns whether an installed ref can be uninstalled.
fn can_go(alloc: Global, state: &State, name: &RefName) -> bool {
    let plan = RetirePlan::new(alloc, state, name);
    let is_so = plan.is_ok();
    drop(plan);
    is_so
}

#[test]
fn the_last_ref_is_there(rt: HostRuntime) {
    let state = many_applications(&rt, rt.alloc());
    let name = ref_name(&rt, rt.alloc(), LAST);
    let is_there = is_there(&rt, rt.alloc(), &state, &name);
    let can_go = can_go(rt.alloc(), &state, &name);
    drop(state);
    assert!(rt; is_there && can_go);
}

/// Returns the remote with this name and URL.
fn remote_row(rt: &impl Abort, alloc: Global, name: &str, url: &str) -> RemoteRow {
    RemoteRow {
        name: RemoteName::parse(alloc, name.as_bytes()).expect(rt, "a remote"),
        url: RemoteUrl::parse(alloc, url.as_bytes()).expect(rt, "a url"),
    }
}

/// Adds 1,099 remotes without content, and then one that offers generated applications.
fn add_remotes(rt: &impl Abort, alloc: Global, state: &mut State) {
    for number in 0..1_099 {
        let name = format!(in alloc; "r{number:04}").expect(rt, "memory");
        let row = remote_row(rt, alloc, &name, "file:///r");
        state.remotes.push(row).expect(rt, "memory");
    }
    let last = remote_row(rt, alloc, "tested", "file:///gen/1");
    state.remotes.push(last).expect(rt, "memory");
}

/// Returns the number of operations of an install from this remote; 0 if the remote isn't one of
/// the state's.
fn count_ops(
    rt: &(impl Abort + Threads + Sync),
    alloc: Global,
    state: &State,
    remote: &RemoteRow,
    name: &RefName,
) -> usize {
    if !has_remote(state.remotes.as_slice(), &remote.name) {
        return 0;
    }
    let mut host = new_host(rt, alloc);
    let mut remotes = GenRemotes::new(rt, alloc, 1).expect(rt, "memory");
    let ops = ops(alloc, &mut host, &mut remotes, state, remote, name);
    let count = ops.ok().expect(rt, "operations").len();
    drop(host);
    drop(remotes);
    count
}

/// Returns the number of operations of an install from the last remote of the state; 0 if there is
/// none.
fn count_ops_from_last(
    rt: &(impl Abort + Threads + Sync),
    alloc: Global,
    state: &State,
    name: &RefName,
) -> usize {
    match state.remotes.as_slice().last() {
        Some(remote) => count_ops(rt, alloc, state, remote, name),
        None => 0,
    }
}

/// An install into a state of 1,100 refs, from the last of 1,100 remotes, is that of a runtime and
/// an application.
#[test]
fn an_install_has_two_operations(rt: HostRuntime) {
    let alloc = rt.alloc();
    let mut state = many_applications(&rt, alloc);
    add_remotes(&rt, alloc, &mut state);
    let name = ref_name(&rt, alloc, "app/org.gen.App0/x86_64/1");
    let count = count_ops_from_last(&rt, alloc, &state, &name);
    drop(state);
    assert!(rt; count == 2);
}
