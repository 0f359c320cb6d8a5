//! Plays lines over a directory as a remote.
use crate::Log;
use crate::fixture::{bits_and_size, path, tells, told_of, url_of};
use crate::words::{number, pair};
use fp_host::{Node, Path, RemoteError, Remotes};
use fp_realinput::DirRemotes;
use std::alloc::Global;

/// The expected node of a path at which both calls of a remote fail.
const FAULT: &str = "a fault";

/// Plays the lines over the directory as a remote, and checks the number of failures and the last
/// error. The first line that doesn't hold is noted in the log.
pub(crate) fn ask_remote(rt: &HostRuntime, log: &Log<'_>, folder: &str, block: &str) {
    let url = url_of(rt, log, folder);
    let mut remotes = DirRemotes::new(rt, log.alloc);
    let (lines, told) = told_of(block);
    ask_lines(log, &mut remotes, &url, lines);
    let is_told = tells(log.alloc, remotes.faults(), remotes.last_error(), told);
    log.demand(is_told, 0, told);
}

fn ask_lines<M: Remotes>(log: &Log<'_>, remotes: &mut M, url: &str, lines: &str) {
    for (i, line) in lines.lines().enumerate() {
        log.demand(ask(log, remotes, url, line), i, line);
    }
}

/// Plays a line, and returns whether it holds. `node` has a path, the number of bytes from offset 6
/// on, and the expected node. `url` has a URL at whose root both calls have to fail. The first line
/// of the block, `remote`, always holds.
fn ask<M: Remotes>(log: &Log<'_>, remotes: &mut M, url: &str, line: &str) -> bool {
    let (verb, rest) = pair(line);
    match verb {
        "node" => ask_node(log, remotes, url, rest),
        "url" => is_there(log.alloc, remotes, rest, &Path::root(log.alloc), (0, FAULT)),
        _ => verb == "remote",
    }
}

fn ask_node<M: Remotes>(log: &Log<'_>, remotes: &mut M, url: &str, rest: &str) -> bool {
    let (at, rest) = pair(rest);
    let (count, want) = pair(rest);
    is_there(
        log.alloc,
        remotes,
        url,
        &path(log, at),
        (number(count), want),
    )
}

/// Returns whether the path has this node, and a read from offset 6 on returns this many bytes.
fn is_there<M: Remotes>(
    alloc: Global,
    remotes: &mut M,
    url: &str,
    at: &Path,
    want: (u64, &str),
) -> bool {
    let (count, shown) = want;
    is_node(alloc, remotes, url, at, shown) && gives(remotes, url, at, shown, count)
}

fn is_node<M: Remotes>(alloc: Global, remotes: &mut M, url: &str, at: &Path, want: &str) -> bool {
    match remotes.node(alloc, url, at) {
        Ok(node) => is_shown(alloc, &node, want),
        Err(error) => error == RemoteError::Failed && want == FAULT,
    }
}

/// Returns whether the node is the expected one: `absent`, `dir`, a file's permission bits and
/// size, or a symlink's text.
fn is_shown(alloc: Global, node: &Node, want: &str) -> bool {
    match node {
        Node::Absent => want == "absent",
        Node::Dir => want == "dir",
        Node::File { mode, size } => is_file(alloc, *mode, *size, want),
        Node::Link(text) => text.as_str() == want,
    }
}

fn is_file(alloc: Global, mode: u32, size: u64, want: &str) -> bool {
    match bits_and_size(alloc, mode, size) {
        Some(text) => text.as_str() == want,
        None => false,
    }
}

/// Returns whether a read of at most 8 bytes from offset 6 on returns this many, or fails if `want`
/// is `FAULT`.
fn gives<M: Remotes>(remotes: &mut M, url: &str, at: &Path, want: &str, count: u64) -> bool {
    match remotes.read_at(url, at, 6, &mut [0u8; 8]) {
        Ok(read) => read as u64 == count && want != FAULT,
        Err(error) => error == RemoteError::Failed && want == FAULT,
    }
}
