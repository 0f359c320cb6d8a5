//! Parsing of a key file, line by line.

ghost use Rattle.fp_keyfile.specs.KeyFile.{file_of, Gives};

use crate::draft::{Draft, LineError};
use crate::fault::{KeyError, KeyFault};
use crate::group::Group;
use crate::line::first_line;
use fp_base::Items;
use std::alloc::Global;

/// Parses the bytes of a key file to its groups. Errs with the first bad line and the first rule
/// that it breaks.
#[tactic(auto, unfolding(crate::specs::KeyFile::file_of))]
pub(crate) fn read_groups(alloc: Global, bytes: &[u8]) -> Result<Items<Group>, KeyError>
    ensures { Gives result (file_of bytes.now) }
{
    let mut draft = Draft::new(alloc);
    let mut rest = bytes;
    let mut number = 0u64;
    while !rest.is_empty() {
        let (line, after) = first_line(rest);
        number += 1;
        rest = after;
        match draft.take(line) {
            Ok(()) => {}
            Err(LineError::Rule(rule)) => {
                return Err(KeyError::Fault(KeyFault { line: number, rule }));
            }
            Err(LineError::NoMemory) => return Err(KeyError::NoMemory),
        }
    }
    Ok(draft.into_groups(alloc)?)
}
