//! The lock of the root directory, by which readers and the steps of a change exclude each other.
use crate::standing::leads_to;
use crate::waiting::{Wanted, wait};
use fp_realsync::{Access, System};
use fp_system::{Cause, has_folder, known};
use std::fs;
use std::io::ErrorKind;

/// The verb in the message of a reader that waits: another fpk changes the directory.
const WORKS: &str = "works on";

/// The verb in the message of a change that waits: another fpk reads the directory.
const LOOKS: &str = "looks at";

/// The result of a reader's attempt to lock the root directory.
pub enum Sight<F> {
    /// The directory doesn't exist.
    Absent,
    /// The directory can't be opened for lack of permission; it is read without a lock.
    Unlocked,
    /// The open directory, with a shared lock.
    Shared(F),
    /// The directory was removed or replaced meanwhile.
    Replaced,
}

impl<F: Drop> Drop for Sight<F> {
    fn drop(self) {
        match self {
            Sight::Absent | Sight::Unlocked | Sight::Replaced => {}
            Sight::Shared(_) => {}
        }
    }
}

impl<F: Drop> Sight<F> {
    /// Returns whether the directory doesn't exist.
    pub fn is_absent(&self) -> bool {
        matches!(self, Sight::Absent)
    }

    /// Returns whether the directory was removed or replaced meanwhile.
    pub fn is_replaced(&self) -> bool {
        matches!(self, Sight::Replaced)
    }

    /// Returns the locked directory, if there is one.
    pub fn take(self) -> Option<F> {
        match self {
            Sight::Shared(folder) => Some(folder),
            Sight::Absent | Sight::Unlocked | Sight::Replaced => None,
        }
    }
}

/// Takes a shared lock of the root directory, and waits while a change holds the exclusive one.
pub fn look_at<R: System>(rt: &R, root: &str) -> Result<Sight<R::File>, Cause> {
    match has_folder(rt, root) {
        Ok(true) => open_to_look(rt, root),
        Ok(false) => Ok(Sight::Absent),
        Err(e) => Err(e),
    }
}

fn open_to_look<R: System>(rt: &R, root: &str) -> Result<Sight<R::File>, Cause> {
    match known(fs::open(rt, root)) {
        Ok(folder) => share(rt, folder, root),
        Err(e) if e.is(ErrorKind::NotFound) => Ok(Sight::Replaced),
        Err(e) if e.is(ErrorKind::PermissionDenied) => Ok(Sight::Unlocked),
        Err(e) => Err(e),
    }
}

fn share<R: System>(rt: &R, folder: R::File, root: &str) -> Result<Sight<R::File>, Cause> {
    let wanted = Wanted {
        at: root,
        access: Access::Look,
        doing: WORKS,
        root,
    };
    wait(rt, &folder, wanted)?;
    match leads_to(rt, &folder, root) {
        Ok(true) => Ok(Sight::Shared(folder)),
        Ok(false) => Ok(Sight::Replaced),
        Err(e) => Err(e),
    }
}

/// Takes an exclusive lock of the root directory, and waits while others read.
pub fn hold_alone<R: System>(rt: &R, root: &str) -> Result<R::File, Cause> {
    let wanted = Wanted {
        at: root,
        access: Access::Change,
        doing: LOOKS,
        root,
    };
    match known(fs::open(rt, root)) {
        Ok(folder) => {
            wait(rt, &folder, wanted)?;
            Ok(folder)
        }
        Err(e) => Err(e),
    }
}
