//! A host in memory that a case is played on.
use crate::counted_remotes::{CountedRemotes, RemoteCalls};
use crate::folder::is_for_folder;
use crate::noted_host::NotedHost;
use crate::program::Program;
use crate::stage::{Counts, Ending, PathState, find, give, unless_fault};
use fp_base::{Blob, Text};
use fp_host::{Host, Path};
use fp_memhost::{MemHost, MemNode, MemRemotes, MemSource};
use fpk_case_remotes::{Ware, Wares};
use fpk_case_text::{Action, Case, Command, Failing, Failure, Fixture};
use std::alloc::{AllocError, Global};
use std::thread::Threads;

/// The most steps of a case that is played in memory although it can be played over a directory. In
/// memory, each call looks through all earlier ones.
const MOST_STEPS: u64 = 1000;

/// Returns whether a case is played in memory: it has at most 1,000 steps, or can't be played over
/// a directory.
pub fn is_for_memory(case: &Case) -> bool {
    steps_of(case) <= MOST_STEPS || !is_for_folder(case)
}

/// Returns the number of steps. A step with a line `times` counts that many times.
fn steps_of(case: &Case) -> u64 {
    let mut count = 0u64;
    for step in &case.steps {
        let times = match &step.action {
            Action::Give(given) => given.times,
            _ => 1,
        };
        count = count.saturating_add(times);
    }
    count
}

/// Returns the input of a command. Unless the case says otherwise, an input of less than 64 KiB
/// comes in pieces of 7 bytes, so that something is split, and a longer one in pieces of 64 KiB.
pub fn input_of(
    alloc: Global,
    command: &Command,
    fails_at: Option<u64>,
) -> Result<MemSource, AllocError> {
    let bytes = Blob::from_vec(command.input.as_slice().to_vec(alloc)?);
    let size = match command.pieces {
        Some(pieces) => pieces.size,
        None if bytes.len() < 65_536 => 7,
        None => 65_536,
    };
    Ok(MemSource::new(bytes, size.max(1), fails_at))
}

/// Returns the remotes in memory.
fn remotes_of(alloc: Global, wares: &Wares) -> Result<MemRemotes, AllocError> {
    let mut remotes = MemRemotes::new(alloc)?;
    for row in wares.paths() {
        put_ware(alloc, &mut remotes, &row.url, &row.path, &row.ware)?;
    }
    Ok(remotes)
}

/// Puts something at the path of a remote. A directory gets a file, by which it exists.
fn put_ware(
    alloc: Global,
    remotes: &mut MemRemotes,
    url: &str,
    path: &str,
    ware: &Ware,
) -> Result<(), AllocError> {
    match ware {
        Ware::Nothing => Ok(()),
        Ware::Folder => {
            let within = format!(in alloc; "{path}/within")?;
            let bytes = Blob::from_slice(alloc, &[])?;
            put_node(
                alloc,
                remotes,
                url,
                &within,
                MemNode::File { mode: 0o644, bytes },
            )
        }
        Ware::Link { text } => {
            let text = Text::from_str(alloc, text)?;
            put_node(alloc, remotes, url, path, MemNode::Link(text))
        }
        Ware::File { mode, bytes } => {
            let mode = *mode;
            let bytes = Blob::from_slice(alloc, bytes)?;
            put_node(alloc, remotes, url, path, MemNode::File { mode, bytes })
        }
    }
}

/// Puts a node at the path of a remote, if it may be there. Else it does nothing.
fn put_node(
    alloc: Global,
    remotes: &mut MemRemotes,
    url: &str,
    path: &str,
    node: MemNode,
) -> Result<(), AllocError> {
    let Ok(path) = Path::parse(alloc, path) else {
        return Ok(());
    };
    if !remotes.can_put(url, &path, &node) {
        return Ok(());
    }
    remotes.put(url, &path, node)
}

/// The result of a command over a host and remotes in memory.
#[derive(Clone, Copy)]
pub struct Ran {
    /// The exit status.
    pub status: u8,
    /// The number of calls of the remotes.
    pub remote_calls: RemoteCalls,
}

/// Runs a command over a host and remotes in memory. Errs if memory runs out for the input or the
/// remotes.
pub fn run_in_memory<P: Program, T: Threads + Sync, H: Host>(
    program: &P,
    rt: &T,
    alloc: Global,
    host: &mut H,
    command: &Command,
    failing: Failing,
    wares: &Wares,
) -> Result<Ran, AllocError> {
    let mut input = input_of(alloc, command, failing.input)?;
    let mut held = remotes_of(alloc, wares)?;
    if let Some(call) = failing.remotes {
        held.fail_calls(&[call])?;
    }
    let mut remotes = CountedRemotes::new(held, failing.turned);
    let status = program.run(rt, alloc, &command.words, &mut input, host, &mut remotes);
    let remote_calls = remotes.calls();
    Ok(Ran {
        status,
        remote_calls,
    })
}

/// The host in memory that a case is played on.
#[derive(Drop)]
pub struct MemStage {
    alloc: Global,
    host: NotedHost,
}

/// Lets one call fail, counted from 0 at the next one, or none.
fn let_fail(host: &mut MemHost, failure: Option<Failure>) -> Result<(), AllocError> {
    match failure {
        Some(Failure { call, is_done }) => {
            let call = host.calls().saturating_add(call);
            host.fail_calls(&[(call, is_done)])
        }
        None => host.fail_calls(&[]),
    }
}

impl MemStage {
    /// Creates a stage with a new host.
    pub fn new(alloc: Global) -> Result<Self, AllocError> {
        let host = NotedHost::new(alloc, MemHost::new(alloc)?);
        Ok(MemStage { alloc, host })
    }

    /// Puts a file, directory or link into the installation, with the directories above it. Returns
    /// false if the host failed.
    pub fn give(&mut self, given: &Fixture, bytes: &[u8]) -> Result<bool, AllocError> {
        let answer = give(self.alloc, &mut self.host, given, bytes);
        Ok(unless_fault(answer)?.is_some())
    }

    /// Runs a command over these remotes, with the failing call that it names. `input_fails_at` is
    /// the call of the input that fails, counted from 0. Errs only if memory runs out.
    pub fn run<P: Program, T: Threads + Sync>(
        &mut self,
        program: &P,
        rt: &T,
        command: &Command,
        input_fails_at: Option<u64>,
        wares: &Wares,
    ) -> Result<Ending, AllocError> {
        let start = self.host.host.printed().len();
        let calls = self.host.host.calls();
        let_fail(&mut self.host.host, command.failure)?;
        self.host.begin(self.alloc);
        let host = &mut self.host;
        let mut failing = Failing::none();
        failing.input = input_fails_at;
        let ran = run_in_memory(program, rt, self.alloc, host, command, failing, wares)?;
        self.host.host.fail_calls(&[])?;
        ran_since(self.alloc, &self.host, ran.status, start, calls)
    }

    /// Returns what is at a path. Errs only if memory runs out.
    pub fn find(&mut self, path: &str) -> Result<PathState, AllocError> {
        let answer = find(self.alloc, &mut self.host, path);
        Ok(unless_fault(answer)?.unwrap_or(PathState::Other))
    }
}

/// Returns how a command ended, from the bytes that were printed and the calls that were made
/// before it. The files that it created are checked if its status is 0.
fn ran_since(
    alloc: Global,
    noted: &NotedHost,
    status: u8,
    start: usize,
    calls: u64,
) -> Result<Ending, AllocError> {
    let flaw = match status {
        0 => noted.flaw(alloc)?,
        _ => None,
    };
    let host = &noted.host;
    let printed = host.printed().get(start..).unwrap_or(&[]);
    Ok(Ending {
        status,
        printed: printed.to_vec(alloc)?,
        counts: Some(Counts {
            calls: host.calls().saturating_sub(calls),
            files: noted.files(),
            bytes: noted.bytes(),
        }),
        flaw,
    })
}
