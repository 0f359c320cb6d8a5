//! Waiting for a lock, with messages on standard error.
use crate::holders::tell_holders;
use fp_realsync::{Access, System};
use fp_system::{Cause, known};

/// The seconds of waiting after which a second message names the processes that hold the lock.
const PATIENCE: u64 = 10;

/// A lock to take.
#[derive(Clone, Copy)]
pub struct Wanted<'a> {
    /// The path of the file or directory.
    pub at: &'a str,
    /// The kind of lock.
    pub access: Access,
    /// The verb in the message: what the process that holds the lock does.
    pub doing: &'a str,
    /// The path of the root directory.
    pub root: &'a str,
}

/// Takes the lock of an open file or directory. If it has to wait, prints a message on standard
/// error, and after ten seconds another that names the processes that hold the lock.
pub fn wait<R: System>(rt: &R, file: &R::File, wanted: Wanted<'_>) -> Result<(), Cause> {
    match known(rt.try_lock(file, wanted.access)) {
        Ok(true) => Ok(()),
        Ok(false) => wait_long(rt, file, wanted),
        Err(e) => Err(e),
    }
}

fn wait_long<R: System>(rt: &R, file: &R::File, wanted: Wanted<'_>) -> Result<(), Cause> {
    let Wanted {
        at,
        access,
        doing,
        root,
    } = wanted;
    let _said = eprintln!(rt; "fpk: waiting for another fpk that {doing} {root}");
    match known(rt.lock_within(file, access, PATIENCE)) {
        Ok(true) => Ok(()),
        Ok(false) => {
            tell_holders(rt, file, at);
            known(rt.lock(file, access))
        }
        Err(e) => Err(e),
    }
}
