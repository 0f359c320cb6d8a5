//! Tests that an installation of 1,100 refs and 1,100 overrides is read and opened, and that the
//! first damaged path of as many is reported.

use crate::wide_host::{APPS, WideHost};
use dep_open::{OpenEnd, open, read_state};
use dep_states::DeployData;
use fp_base::Blob;
use fp_host::Path;
use fp_name::{Digest, RemoteName};
use fp_small::State;
use std::alloc::Global;
use std::panic::Expect;
use std::process::Abort;

/// Returns the commit at which each ref is deployed.
fn commit() -> Digest {
    Digest::from_bytes([7; 32])
}

/// Returns the bytes of the record `deploy` of each ref.
fn record(rt: &impl Abort, alloc: Global) -> Blob {
    let data = DeployData {
        origin: RemoteName::parse(alloc, b"lab").expect(rt, "a remote"),
        commit: commit(),
        timestamp: 1,
        previous: None,
    };
    data.write(alloc).expect(rt, "memory")
}

/// Returns a host with these bytes as each record.
fn host_with(rt: &impl Abort, alloc: Global, record: Blob) -> WideHost {
    WideHost {
        commit: commit().write(alloc).expect(rt, "memory"),
        record,
    }
}

/// Returns whether the last ref by its bytes is this one, deployed at the commit.
fn ends_with(state: &State, name: &str) -> bool {
    match state.refs.as_slice().last() {
        Some(row) => row.name.as_str() == name && row.commit == commit(),
        None => false,
    }
}

/// Returns whether the state has all refs and all overrides.
fn is_whole(state: &State) -> bool {
    state.refs.len() == APPS as usize
        && state.overrides.len() == APPS as usize
        && ends_with(state, "app/org.x.A999/x86_64/1")
}

#[test]
fn many_refs_are_read(rt: HostRuntime) {
    let mut host = host_with(&rt, rt.alloc(), record(&rt, rt.alloc()));
    let state = read_state(rt.alloc(), &mut host)
        .ok()
        .expect(&rt, "a state");
    let is_whole = is_whole(&state);
    drop(state);
    assert!(rt; is_whole);
}

#[test]
fn many_refs_are_opened(rt: HostRuntime) {
    let mut host = host_with(&rt, rt.alloc(), record(&rt, rt.alloc()));
    let opened = open(rt.alloc(), &mut host)
        .ok()
        .expect(&rt, "an installation");
    let is_whole = is_whole(opened.state());
    drop(opened);
    assert!(rt; is_whole);
}

/// Returns the damaged path, if that is the error.
fn damaged_path(end: OpenEnd) -> Option<Path> {
    match end {
        OpenEnd::Damaged(path) => Some(path),
        OpenEnd::Fault | OpenEnd::NoMemory => None,
    }
}

/// Returns whether the damaged path is that of the first application.
fn is_first(end: OpenEnd) -> bool {
    match damaged_path(end) {
        Some(path) => path.text() == "app/org.x.A0/x86_64/1/active",
        None => false,
    }
}

/// Each record is empty, and so is damaged.
#[test]
fn the_first_damage_is_told(rt: HostRuntime) {
    let mut host = host_with(&rt, rt.alloc(), Blob::from_vec(Vec::new(rt.alloc())));
    let end = open(rt.alloc(), &mut host).err().expect(&rt, "damage");
    assert!(rt; is_first(end));
}
