//! What an installation shows when it is opened again.
use crate::next::{Next, command_of};
use fp_memhost::{Image, MemHost};
use fpk_case_hosts::{PathState, Program, find, present_image, run_in_memory, unless_fault};
use fpk_case_remotes::{Wares, offers_of, parts_of};
use fpk_case_text::Failing;
use std::alloc::{AllocError, Global};
use std::thread::Threads;

/// The commands that list what an installation has besides its refs.
const LISTS: [&[&str]; 2] = [&["list", "--pins"], &["list", "--remotes"]];

/// The content of an installation, as its commands and the files of its made remotes show it.
#[derive(PartialEq, Drop)]
pub struct Shown {
    /// The output of `list`, `list --pins` and `list --remotes`, one after another.
    pub lists: Vec<u8>,
    /// The output of `info` for each ref, and of `override --show` for each name with an override.
    pub details: Vec<u8>,
    /// The files of the refs of made remotes, each with its path.
    pub offers: Vec<u8>,
    /// Whether there is a file `config`, which the old layout lacks.
    pub has_config: bool,
}

/// The state of an installation.
#[derive(Drop)]
pub struct State {
    /// The content that it shows.
    pub shown: Shown,
    /// The content that it shows after the next command.
    pub next: Shown,
    /// The other files and symlinks of made remotes, each with its path.
    pub parts: Vec<Vec<u8>>,
}

/// A host that was opened on an image.
#[derive(Drop)]
pub struct Opened {
    host: MemHost,
    /// The names that have every directory above them, and the files.
    pub image: Image,
}

/// Opens a host on what a crash left; none if no host can start from it.
pub fn open(alloc: Global, image: Image) -> Result<Option<Opened>, AllocError> {
    if !image.is_good() {
        return Ok(None);
    }
    let host = MemHost::from_image(alloc, image)?;
    match present_image(alloc, &host, 0)? {
        Some(image) => Ok(Some(Opened { host, image })),
        None => Ok(None),
    }
}

/// Returns the state of what was opened; none if a command on it fails.
pub fn state_of<P: Program, R: Threads + Sync>(
    program: &P,
    rt: &R,
    alloc: Global,
    opened: Opened,
    next: &Next<'_>,
) -> Result<Option<State>, AllocError> {
    let Opened { mut host, image } = opened;
    let Some(shown) = shown_of(program, rt, alloc, &mut host, &image)? else {
        return Ok(None);
    };
    if !next.is_done(program, rt, alloc, &mut host)? {
        return Ok(None);
    }
    let parts = parts_of(alloc, &image)?;
    let Some(later) = present_image(alloc, &host, host.calls())? else {
        return Ok(None);
    };
    match shown_of(program, rt, alloc, &mut host, &later)? {
        Some(next) => Ok(Some(State { shown, next, parts })),
        None => Ok(None),
    }
}

/// Opens a host on what a crash left, and returns its state; none if that or a command on it fails.
pub fn reopen<P: Program, R: Threads + Sync>(
    program: &P,
    rt: &R,
    alloc: Global,
    image: Image,
    next: &Next<'_>,
) -> Result<Option<State>, AllocError> {
    match open(alloc, image)? {
        Some(opened) => state_of(program, rt, alloc, opened, next),
        None => Ok(None),
    }
}

/// Returns what a host with this image shows; none if a command that reads it fails.
fn shown_of<P: Program, R: Threads + Sync>(
    program: &P,
    rt: &R,
    alloc: Global,
    host: &mut MemHost,
    image: &Image,
) -> Result<Option<Shown>, AllocError> {
    let config = find(alloc, host, "config");
    let has_config = matches!(unless_fault(config)?, Some(PathState::File { .. }));
    let Some(mut lists) = said_of(program, rt, alloc, host, &["list"])? else {
        return Ok(None);
    };
    let Some(details) = details_of(program, rt, alloc, host, image, &lists)? else {
        return Ok(None);
    };
    for words in &LISTS {
        let Some(said) = said_of(program, rt, alloc, host, words)? else {
            return Ok(None);
        };
        lists.extend_from_slice(&said)?;
    }
    let offers = offers_of(alloc, image)?;
    Ok(Some(Shown {
        lists,
        details,
        offers,
        has_config,
    }))
}

/// Returns the output of a command with these words; none if its status isn't 0.
fn said_of<P: Program, R: Threads + Sync>(
    program: &P,
    rt: &R,
    alloc: Global,
    host: &mut MemHost,
    words: &[&str],
) -> Result<Option<Vec<u8>>, AllocError> {
    let start = host.printed().len();
    let command = command_of(alloc, words)?;
    let wares = Wares::new(alloc);
    let ran = run_in_memory(program, rt, alloc, host, &command, Failing::none(), &wares)?;
    match ran.status {
        0 => Ok(Some(host.printed().get(start..).unwrap_or(&[]).to_vec(alloc)?)),
        _ => Ok(None),
    }
}

/// Returns the output of `info` for the refs in these rows, and of `override --show` for each name;
/// none if one of them fails.
fn details_of<P: Program, R: Threads + Sync>(
    program: &P,
    rt: &R,
    alloc: Global,
    host: &mut MemHost,
    image: &Image,
    rows: &[u8],
) -> Result<Option<Vec<u8>>, AllocError> {
    let mut details = Vec::new(alloc);
    let are_told = add_refs(program, rt, alloc, host, rows, &mut details)?
        && add_overrides(program, rt, alloc, host, image, &mut details)?;
    match are_told {
        true => Ok(Some(details)),
        false => Ok(None),
    }
}

/// Appends the output of `info` for the refs in these rows. Returns whether all succeeded.
fn add_refs<P: Program, R: Threads + Sync>(
    program: &P,
    rt: &R,
    alloc: Global,
    host: &mut MemHost,
    rows: &[u8],
    details: &mut Vec<u8>,
) -> Result<bool, AllocError> {
    for row in str::from_utf8(rows).unwrap_or("").lines() {
        let name = row.split(' ').next().unwrap_or(row);
        match said_of(program, rt, alloc, host, &["info", name])? {
            Some(said) => details.extend_from_slice(&said)?,
            None => return Ok(false),
        }
    }
    Ok(true)
}

/// Appends the output of `override --show` for each name. Returns whether all succeeded.
fn add_overrides<P: Program, R: Threads + Sync>(
    program: &P,
    rt: &R,
    alloc: Global,
    host: &mut MemHost,
    image: &Image,
    details: &mut Vec<u8>,
) -> Result<bool, AllocError> {
    for (path, _entry) in image.names.as_slice() {
        if let Some(name) = path.text().strip_prefix("overrides/") {
            match said_of_override(program, rt, alloc, host, name)? {
                Some(said) => push_override(details, name, &said)?,
                None => return Ok(false),
            }
        }
    }
    Ok(true)
}

/// Returns the output of `override --show` for the override with this name.
fn said_of_override<P: Program, R: Threads + Sync>(
    program: &P,
    rt: &R,
    alloc: Global,
    host: &mut MemHost,
    name: &str,
) -> Result<Option<Vec<u8>>, AllocError> {
    match name {
        "global" => said_of(program, rt, alloc, host, &["override", "--show"]),
        _ => said_of(program, rt, alloc, host, &["override", "--show", name]),
    }
}

/// Appends an override with its name, if it isn't empty.
fn push_override(details: &mut Vec<u8>, name: &str, said: &[u8]) -> Result<(), AllocError> {
    if !said.is_empty() {
        details.extend_from_slice(b"override ")?;
        details.extend_from_slice(name.as_bytes())?;
        details.push(b'\n')?;
        details.extend_from_slice(said)?;
    }
    Ok(())
}
