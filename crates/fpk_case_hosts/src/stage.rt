//! The stage of a case, and functions over any host.
use crate::folder::FolderStage;
use crate::memory::MemStage;
use crate::program::Program;
use fp_host::{Host, HostEnd, Path, Stat};
use fpk_case_remotes::Wares;
use fpk_case_system::System;
use fpk_case_text::{Command, Fixture, FixtureKind};
use std::alloc::{AllocError, Global};
use std::rt::Files;
use std::thread::Threads;

/// The numbers of calls, files and bytes that a command asked of a host.
#[derive(Clone, Copy)]
pub struct Counts {
    /// The number of calls that it made.
    pub calls: u64,
    /// The number of files that it created.
    pub files: u64,
    /// The number of bytes that it appended to files.
    pub bytes: u64,
}

/// The result of a command.
#[derive(Drop)]
pub struct Ending {
    /// The exit status.
    pub status: u8,
    /// The printed bytes.
    pub printed: Vec<u8>,
    /// The counts of what it asked of the host, if these are counted.
    pub counts: Option<Counts>,
    /// The first flaw of the files that it created, if these are noted.
    pub flaw: Option<String>,
}

/// The state of a path.
#[derive(Drop)]
pub enum PathState {
    /// A file. Hard links of one file have the same id.
    File { id: u64, mode: u32, bytes: Vec<u8> },
    /// A directory, with any content.
    Folder,
    /// A symlink with this text.
    Link { text: String },
    /// Nothing, not even a symlink.
    Nothing,
    /// Something that can't be looked up.
    Other,
}

/// The stage that a case is played on.
pub enum Stage<'a, 'b, R: Files> {
    /// A host in memory.
    Memory(MemStage),
    /// A real directory.
    Folder(FolderStage<'a, 'b, R>),
}

impl<R: Files> Drop for Stage<'_, '_, R> {
    fn drop(self) {
        match self {
            Stage::Memory(_) => {}
            Stage::Folder(_) => {}
        }
    }
}

impl<R: System> Stage<'_, '_, R> {
    /// Puts a file, directory or link into the installation, with the directories above it. Returns
    /// false if the host failed.
    pub fn give(&mut self, fixture: &Fixture, bytes: &[u8]) -> Result<bool, AllocError> {
        match self {
            Stage::Memory(stage) => stage.give(fixture, bytes),
            Stage::Folder(stage) => stage.give(fixture, bytes),
        }
    }

    /// Runs a command over these remotes. `input_fails_at` is the call of the input that fails,
    /// counted from 0.
    pub fn run<P: Program, T: Threads + Sync>(
        &mut self,
        program: &P,
        rt: &T,
        command: &Command,
        input_fails_at: Option<u64>,
        wares: &Wares,
    ) -> Result<Ending, AllocError> {
        match self {
            Stage::Memory(stage) => stage.run(program, rt, command, input_fails_at, wares),
            Stage::Folder(stage) => stage.run(program, rt, command, input_fails_at, wares),
        }
    }

    /// Returns what is at a path.
    pub fn find(&mut self, path: &str) -> Result<PathState, AllocError> {
        match self {
            Stage::Memory(stage) => stage.find(path),
            Stage::Folder(stage) => stage.find(path),
        }
    }
}

/// Returns the value; none if the host failed. Errs if memory ran out.
pub fn unless_fault<T>(answer: Result<T, HostEnd>) -> Result<Option<T>, AllocError> {
    match answer {
        Ok(value) => Ok(Some(value)),
        Err(HostEnd::Fault) => Ok(None),
        Err(HostEnd::NoMemory) => Err(AllocError),
    }
}

/// Puts a file, directory or link into a host, as many times as its fixture says, with the
/// directories above it, and syncs. It replaces a file or symlink.
pub fn give<H: Host>(
    alloc: Global,
    host: &mut H,
    given: &Fixture,
    bytes: &[u8],
) -> Result<(), HostEnd> {
    for number in 0..given.times {
        let path = numbered_path(alloc, &given.path, number)?;
        make_folders(alloc, host, &path)?;
        let path = Path::parse(alloc, &path)?;
        take_away(host, &path)?;
        give_at(alloc, host, &path, &given.kind, bytes)?;
    }
    Ok(())
}

/// Returns the path with the number in place of `{number}`.
fn numbered_path(alloc: Global, path: &str, number: u64) -> Result<String, AllocError> {
    match path.split_once("{number}") {
        Some((front, back)) => format!(in alloc; "{front}{number}{back}"),
        None => String::from_str(alloc, path),
    }
}

/// Removes a file or symlink, if one is there.
fn take_away<H: Host>(host: &mut H, path: &Path) -> Result<(), HostEnd> {
    match host.stat(path)? {
        Stat::File { .. } | Stat::Link => host.unlink(path)?,
        _ => {}
    }
    Ok(())
}

fn give_at<H: Host>(
    alloc: Global,
    host: &mut H,
    path: &Path,
    kind: &FixtureKind,
    bytes: &[u8],
) -> Result<(), HostEnd> {
    match kind {
        FixtureKind::File { mode } => give_file(host, path, *mode, bytes)?,
        FixtureKind::Folder => host.make_dir(path)?,
        FixtureKind::Link { text } => host.symlink(text.as_str(), path)?,
        FixtureKind::HardLink { file } => host.link(&Path::parse(alloc, file)?, path)?,
    }
    host.sync()?;
    Ok(())
}

/// Creates a file with these bytes where nothing is, without a sync. Errs as the host does.
pub fn give_file<H: Host>(
    host: &mut H,
    path: &Path,
    mode: u32,
    bytes: &[u8],
) -> Result<(), HostEnd> {
    host.create(path, mode)?;
    host.append(path, bytes)?;
    Ok(())
}

/// Makes the directories above a path, if they are absent.
pub fn make_folders<H: Host>(alloc: Global, host: &mut H, path: &str) -> Result<(), HostEnd> {
    for (at, byte) in path.as_bytes().iter().enumerate() {
        if *byte == b'/' {
            make_folder(alloc, host, path.get(..at).unwrap_or(""))?;
        }
    }
    Ok(())
}

/// Makes a directory, if nothing is there.
fn make_folder<H: Host>(alloc: Global, host: &mut H, path: &str) -> Result<(), HostEnd> {
    let path = Path::parse(alloc, path)?;
    match host.stat(&path)? {
        Stat::Absent => host.make_dir(&path)?,
        _ => {}
    }
    Ok(())
}

/// Returns what is at a path of a host.
pub fn find<H: Host>(alloc: Global, host: &mut H, path: &str) -> Result<PathState, HostEnd> {
    let path = Path::parse(alloc, path)?;
    match host.stat(&path)? {
        Stat::Absent => Ok(PathState::Nothing),
        Stat::File { id, mode, size } => {
            let bytes = read_file(alloc, host, &path, size)?;
            Ok(PathState::File { id, mode, bytes })
        }
        Stat::Dir => Ok(PathState::Folder),
        Stat::Link => Ok(PathState::Link {
            text: host.read_link(alloc, &path)?.into_string(),
        }),
    }
}

fn read_file<H: Host>(
    alloc: Global,
    host: &mut H,
    path: &Path,
    size: u64,
) -> Result<Vec<u8>, HostEnd> {
    let mut bytes = vec![in alloc; 0u8; size as usize]?;
    let count = host.read_at(path, 0, &mut bytes)?;
    bytes.truncate(count);
    Ok(bytes)
}
