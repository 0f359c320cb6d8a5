//! The directories above a path, none of which may be a symlink.
use crate::cause::Cause;
use crate::found::{Kind, kind_at};
use crate::path_map::PathMap;
use crate::paths::folder_of;
use std::alloc::Global;
use std::rt::Files;

/// A cache of directories that were looked up, by path. Each directory is looked up once and
/// remembered until it is removed; a symlink that another program puts in its place meanwhile is
/// followed. No symlink is above a remembered directory. An absent path is remembered too, until it
/// is forgotten or a directory is made there.
#[derive(Drop)]
pub struct Folders {
    // `true` for a directory, `false` for an absent path.
    known: PathMap<bool>,
}

impl Folders {
    /// Creates an empty cache.
    pub fn none(alloc: Global) -> Self {
        Folders {
            known: PathMap::new(alloc),
        }
    }

    /// Returns whether the path is remembered as a directory.
    pub fn has(&self, at: &str) -> bool {
        self.known.get(at) == Some(&true)
    }

    /// Remembers a directory above which there is no symlink, if there is memory to do so.
    pub fn add(&mut self, at: &str) {
        let _noted = self.known.put(at, true);
    }

    /// Forgets what is at the path: a directory was removed there, or something else was put there.
    pub fn forget(&mut self, at: &str) {
        self.known.remove(at);
    }

    /// Looks up each directory above the path, beginning at the byte offset `from` of its text, and
    /// stops at the first path that is no directory. Returns whether all of them are directories.
    /// Errs with `IsSymlink` at a symlink.
    pub fn look_above<R: Files>(&mut self, rt: &R, at: &str, from: usize) -> Result<bool, Cause> {
        if self.has(folder_of(at)) {
            return Ok(true);
        }
        for end in from..at.len() {
            match above_at(at, end) {
                Some(above) if !self.is_folder(rt, above)? => return Ok(false),
                _ => {}
            }
        }
        Ok(true)
    }

    /// Returns whether a directory is at the path. Errs with `IsSymlink` if a symlink is there.
    pub fn is_folder<R: Files>(&mut self, rt: &R, at: &str) -> Result<bool, Cause> {
        if let Some(is_there) = self.known.get(at) {
            return Ok(*is_there);
        }
        match kind_at(rt, at) {
            Ok(kind) => self.remember(at, kind),
            Err(e) => Err(e),
        }
    }

    /// Remembers a directory or an absent path, and returns whether it is a directory.
    fn remember(&mut self, at: &str, kind: Kind) -> Result<bool, Cause> {
        match kind {
            Kind::Dir => self.add(at),
            Kind::Absent => {
                let _noted = self.known.put(at, false);
            }
            Kind::Link => return Err(Cause::IsSymlink),
            Kind::File | Kind::Other => {}
        }
        Ok(kind == Kind::Dir)
    }
}

/// Returns the part of the path before this byte offset, if a slash is there.
fn above_at(at: &str, end: usize) -> Option<&str> {
    match at.split_at_checked(end) {
        Some((above, rest)) if rest.starts_with('/') => Some(above),
        _ => None,
    }
}
