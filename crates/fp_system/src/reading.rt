//! Reading bytes of files and texts of symlinks.
ghost use Rattle.std.specs.Prelude.{◌≤◌, length, IfOk};

use crate::cause::{Cause, known};
use fp_base::Text;
use std::alloc::Global;
use std::io::{ErrorKind, Read};
use std::rt::Files;

/// Reads until the buffer is full or the file ends. Returns the number of bytes read.
pub fn fill<F: Read>(file: &mut F, into: &mut [u8]) -> Result<usize, Cause>
    ensures { IfOk result (λ n. n ≤ length into.old) }
{
    let mut filled = 0;
    while filled < into.len() {
        let n = read_some(file, &mut into[filled..])?;
        if n == 0 {
            break;
        }
        filled += n;
    }
    Ok(filled)
}

/// Reads once, and retries if a signal interrupts the call. Returns the number of bytes read, 0 at
/// the end of the file.
pub fn read_some<F: Read>(file: &mut F, into: &mut [u8]) -> Result<usize, Cause>
    ensures { IfOk result (λ n. n ≤ length into.old) }
{
    for _ in 0..u64::MAX {
        match known(file.read(into)) {
            Err(e) if e.is(ErrorKind::Interrupted) => {}
            done => return done,
        }
    }
    Err(Cause::Kind(ErrorKind::Interrupted))
}

/// Returns the target text of the symlink at the path.
pub fn read_link<R: Files>(rt: &R, alloc: Global, at: &str) -> Result<Text, Cause> {
    match known(rt.read_link(alloc, at)) {
        Ok(text) => Ok(Text::from_string(text.into_string())),
        Err(e) => Err(e),
    }
}
