//! Moving files and symlinks.
use crate::links::{find_leaf, is_leaf, leaf_kind};
use crate::writer::Writer;
use fp_realnotes::{Made, Notes};
use fp_system::{Cause, Found, Kind, known, look};
use std::fs;
use std::fs::OpenFile;
use std::io::Write;
use std::rt::Files;

/// A move that is allowed.
#[derive(Clone, Copy)]
pub struct Move {
    kind: Kind,
    /// Whether something at the second path is replaced.
    pub replaces: bool,
}

/// Moves a file or symlink, replaces one at the second path, and notes it. With `is_dated`, the
/// file gets the modification time 0 first.
pub fn rename<F: Write + OpenFile + Drop, R: Files<File = F>>(
    rt: &R,
    from: &str,
    to: &str,
    is_dated: bool,
    notes: &mut Notes,
    writer: &Writer<F>,
) -> Result<(), Cause> {
    let moved = if is_dated {
        rename_dated(rt, from, to, writer)
    } else {
        known(fs::rename(rt, from, to))
    };
    if moved.is_ok() {
        notes.add_moved(from, to);
    }
    moved
}

fn rename_dated<F: Write + OpenFile + Drop, R: Files<File = F>>(
    rt: &R,
    from: &str,
    to: &str,
    writer: &Writer<F>,
) -> Result<(), Cause> {
    match writer.date(rt, from) {
        Ok(()) => known(fs::rename(rt, from, to)),
        Err(e) => Err(e),
    }
}

impl Move {
    /// Checks a move. Errs with `NO_ENTRY` if nothing is at the first path, with `NoLeaf` if a
    /// directory is there, with `OneFile` if both paths are hard links of one file, and with
    /// `InTheWay` if a directory is at the second path.
    pub fn of<R: Files>(rt: &R, from: &str, to: &str, made: &Made) -> Result<Self, Cause> {
        if made.is_absent(to) {
            return Move::to_nothing(leaf_kind(rt, from, made));
        }
        match look(rt, to) {
            Ok(there) if there.kind == Kind::Absent => {
                Move::to_nothing(leaf_kind(rt, from, made))
            }
            Ok(there) => Move::onto(rt, from, &there),
            Err(e) => Err(e),
        }
    }

    fn to_nothing(kind: Result<Kind, Cause>) -> Result<Self, Cause> {
        match kind {
            Ok(kind) => Ok(Move {
                kind,
                replaces: false,
            }),
            Err(e) => Err(e),
        }
    }

    fn onto<R: Files>(rt: &R, from: &str, there: &Found) -> Result<Self, Cause> {
        match find_leaf(rt, from) {
            Ok(moved) if moved.is_one_with(there) => Err(Cause::OneFile),
            Ok(moved) if is_leaf(there) => Ok(Move {
                kind: moved.kind,
                replaces: true,
            }),
            Ok(_) => Err(Cause::InTheWay),
            Err(e) => Err(e),
        }
    }

    /// Returns whether a regular file is moved.
    pub fn is_of_file(&self) -> bool {
        self.kind == Kind::File
    }
}
