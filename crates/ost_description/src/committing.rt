//! Building the commit of a description.

ghost use Rattle.std.specs.Prelude.{◌≡◌, ◌<◌, ◌+◌, ◌^◌, ℕ, None, IfOk, IfErr};
ghost use Rattle.fp_name.specs.Refs.{Ref};
ghost use Rattle.ost_commit.specs.declared.built.BuildError.TheVariants as errors;
ghost use Rattle.ost_commit.specs.Built.{IsBuildFault};
ghost use Rattle.ost_commit.specs.Refusals.{first_refused};
ghost use Rattle.ost_description.specs.declared.description.Description.{Description};
ghost use Rattle.ost_description.specs.Descriptions.{checked_description};
ghost use Rattle.ost_description.specs.Commits.{IsDescribed, IsDescriptionFault, IsFaultOf};

use crate::description::DescriptionError;
use crate::reading::draft_of;
use fp_name::RefName;
use ost_commit::{BuildError, Built, commit_tree};
use std::alloc::Global;
use std::thread::Threads;

/// Builds the commit of the tree that the bytes describe, bound to the ref.
///
/// A description is a list of lines, each ended by a newline: `timestamp T`, the time in seconds
/// since 1970, below 2^64; `subject TEXT`, at most 1,024 bytes of UTF-8 without control characters;
/// then any number of `dir PATH`, `file PATH MODE HEX` and `link PATH TARGET`. T is decimal without
/// a leading zero. PATH has no spaces. MODE is three octal digits. HEX is one byte or more in
/// lower-case hexadecimal, or a dash for no bytes. TARGET extends to the end of the line. `Record`
/// has the number, counted from 1, of the first line that is malformed or whose row `commit_tree`
/// refuses. A missing line and text after the last newline count as malformed lines.
pub fn commit_description(
    rt: &(impl Threads + Sync),
    alloc: Global,
    bytes: &[u8],
    name: &RefName,
) -> Result<Built, DescriptionError>
    // On success the bytes describe a tree, and the result is its commit.
    ensures built { IfOk result (IsDescribed bytes.now name.now) }
    // `Record` has the number of the first bad line. `TooLarge` and `Collision` come only with
    // their causes.
    ensures error { IfErr result (IsDescriptionFault name.now bytes.now) }
{
    let draft = draft_of(alloc, bytes)?;
    let tree = &draft.description;
    let rows = tree.rows.as_slice();
    match commit_tree(rt, alloc, rows, name, tree.subject.as_str(), tree.timestamp) {
        Ok(built) => match draft.unformed {
            Some(number) => Err(DescriptionError::Record(number)),
            None => Ok(built),
        },
        Err(error) => Err(refusal(error, draft.unformed)),
    }
}

/// Returns the error for a description whose rows make no commit for the reason `error`. `unformed`
/// is the number of the malformed line after the rows, if there is one.
fn refusal(error: BuildError, unformed: Option<u64>) -> DescriptionError
    requires small { (number : ℕ) → error ≡ errors.Row number → number + 2 < 2 ^ 64 }
    ensures { (d : Description) (r : Ref) → IsBuildFault d.rows r d.subject d.timestamp error
        → IsFaultOf r (checked_description d unformed (first_refused d.rows)) result }
{
    match error {
        BuildError::Row(number) => DescriptionError::Record(number + 2),
        BuildError::NoMemory => DescriptionError::NoMemory,
        BuildError::Collision => unformed_or(unformed, DescriptionError::Collision),
        BuildError::TooLarge => unformed_or(unformed, DescriptionError::TooLarge),
    }
}

/// Returns `Record` with the number of the malformed line if there is one, and otherwise the
/// reason.
fn unformed_or(unformed: Option<u64>, reason: DescriptionError) -> DescriptionError
    ensures { (d : Description) (r : Ref) → IsFaultOf r (checked_description d None None) reason
        → IsFaultOf r (checked_description d unformed None) result }
{
    match unformed {
        Some(number) => DescriptionError::Record(number),
        None => reason,
    }
}
