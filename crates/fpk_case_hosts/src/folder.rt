//! A real directory that a case is played on.
use crate::memory::input_of;
use crate::program::Program;
use crate::stage::{Ending, PathState, find, give, give_file, make_folders, unless_fault};
use fp_host::{Host, HostEnd, Path, Stat};
use fp_realhost::HostDir;
use fp_realroot::Access;
use fpk_case_remotes::{RemotePath, Ware, Wares};
use fpk_case_system::{Capture, OwnRemotes, System};
use fpk_case_text::{Action, Case, Command, Fixture};
use std::alloc::{AllocError, Global};
use std::rt::Files;
use std::thread::Threads;
use std::{env, fs, io};

/// The directory that contains everything of a case, while the case is played.
const FOLDER: &str = "cases.tmp";

/// The directory of the installation.
const INSTALLATION: &str = "cases.tmp/installation";

/// The length in bytes from which on an input isn't played a second time, over a directory.
const LONG_INPUT: usize = 1_048_576;

/// Returns whether a case is also played over a real directory: it has no `stops`, no failing call
/// of the host and no input of 1 MiB or more.
pub fn is_for_folder(case: &Case) -> bool {
    case.stops.is_none()
        && case
            .steps
            .iter()
            .all(|step| is_step_for_folder(&step.action))
}

fn is_step_for_folder(action: &Action) -> bool {
    match action {
        Action::Run(command) => command.failure.is_none() && command.input.len() < LONG_INPUT,
        _ => true,
    }
}

/// Removes the directory `cases.tmp` and everything below it, if it exists.
pub fn clear_folder<R: System>(rt: &R, alloc: Global) -> io::Result<()> {
    match fs::exists(rt, FOLDER)? {
        true => rt.remove_dir_all(alloc, FOLDER),
        false => Ok(()),
    }
}

/// Returns the absolute path of the directory.
fn own_folder<R: System>(rt: &R, alloc: Global) -> io::Result<String> {
    let here = env::current_dir(rt)?.into_string();
    Ok(format!(in alloc; "{here}/{FOLDER}")?)
}

/// The real directory that a case is played on, with an installation and its remotes.
pub struct FolderStage<'a, 'b, R: Files> {
    alloc: Global,
    capture: &'b Capture<'a, R>,
    host: HostDir<'b, Capture<'a, R>, R, Capture<'a, R>>,
    /// The host over the directory in which the remotes are.
    around: HostDir<'b, Capture<'a, R>, R, Capture<'a, R>>,
    remotes: OwnRemotes<'a, R>,
}

impl<R: Files> Drop for FolderStage<'_, '_, R> {
    fn drop(self) {
        let FolderStage {
            alloc: _,
            capture: _,
            host: _,
            around: _,
            remotes: _,
        } = self;
    }
}

impl<'a, 'b, R: System> FolderStage<'a, 'b, R> {
    /// Creates a stage with a new installation. Its output is captured, and nothing is synced to
    /// the disk.
    pub fn new(rt: &'a R, alloc: Global, capture: &'b Capture<'a, R>) -> io::Result<Self> {
        let folder = own_folder(rt, alloc)?;
        let remotes = OwnRemotes::new(rt, alloc, folder);
        let host = host_in(rt, alloc, capture, capture, INSTALLATION)?;
        let around = host_in(rt, alloc, capture, capture, FOLDER)?;
        Ok(FolderStage {
            alloc,
            capture,
            host,
            around,
            remotes,
        })
    }

    /// Puts a file, directory or link into the installation, with the directories above it. Returns
    /// false if the host failed.
    pub fn give(&mut self, given: &Fixture, bytes: &[u8]) -> Result<bool, AllocError> {
        let answer = give(self.alloc, &mut self.host, given, bytes);
        Ok(unless_fault(answer)?.is_some())
    }

    /// Runs a command over these remotes, whose files are first written beside the installation.
    /// `input_fails_at` is the call of the input that fails, counted from 0. Errs only if memory
    /// runs out.
    pub fn run<P: Program, T: Threads + Sync>(
        &mut self,
        program: &P,
        rt: &T,
        command: &Command,
        input_fails_at: Option<u64>,
        wares: &Wares,
    ) -> Result<Ending, AllocError> {
        unless_fault(lay(self.alloc, &mut self.around, wares))?;
        let mut input = input_of(self.alloc, command, input_fails_at)?;
        let status = program.run(
            rt,
            self.alloc,
            &command.words,
            &mut input,
            &mut self.host,
            &mut self.remotes,
        );
        Ok(Ending {
            status,
            printed: self.capture.take(),
            counts: None,
            flaw: None,
        })
    }

    /// Returns what is at a path. Errs only if memory runs out.
    pub fn find(&mut self, path: &str) -> Result<PathState, AllocError> {
        let answer = find(self.alloc, &mut self.host, path);
        Ok(unless_fault(answer)?.unwrap_or(PathState::Other))
    }
}

/// Creates a host that changes the directory at this path and prints to `out`.
fn host_in<'a, 'b, R: System>(
    rt: &R,
    alloc: Global,
    capture: &'b Capture<'a, R>,
    out: &'b Capture<'a, R>,
    root: &str,
) -> Result<HostDir<'b, Capture<'a, R>, R, Capture<'a, R>>, AllocError> {
    HostDir::new(capture, rt, out, alloc, root, Access::Change)
}

/// Writes the files of the remotes below a directory.
fn lay<H: Host>(alloc: Global, host: &mut H, wares: &Wares) -> Result<(), HostEnd> {
    for row in wares.paths() {
        lay_path(alloc, host, row)?;
    }
    if !wares.paths().is_empty() {
        host.sync()?;
    }
    Ok(())
}

/// Writes what is at a path of a remote with a `file:///` URL, and leaves other remotes out. A file
/// or symlink there is replaced, a directory stays.
fn lay_path<H: Host>(alloc: Global, host: &mut H, row: &RemotePath) -> Result<(), HostEnd> {
    let Some(folder) = row.url.strip_prefix("file:///") else {
        return Ok(());
    };
    let text = format!(in alloc; "{folder}/{}", row.path.as_str())?;
    let path = Path::parse(alloc, &text)?;
    match host.stat(&path)? {
        Stat::File { .. } | Stat::Link => host.unlink(&path)?,
        Stat::Dir => return Ok(()),
        Stat::Absent => make_folders(alloc, host, &text)?,
    }
    match &row.ware {
        Ware::File { mode, bytes } => give_file(host, &path, *mode, bytes),
        Ware::Link { text } => Ok(host.symlink(text, &path)?),
        Ware::Folder => Ok(host.make_dir(&path)?),
        Ware::Nothing => Ok(()),
    }
}
