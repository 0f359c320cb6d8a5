//! Reading commits.
ghost use Rattle.std.specs.Prelude.{◌≡◌, IfOk};
ghost use Rattle.ost_model.specs.Readers.{commit_read};
ghost use Rattle.ost_object.specs.Answers.{Reads, mapped};
ghost use Rattle.ost_object.specs.Views.{commit_view, parts_view, digests_view, digests_in, root_view, root_in, text_at, time_at};

use crate::commit::{Commit, CommitRoot};
use crate::commit_parts::{CommitDigests, CommitParts, commit_digests, commit_parts};
use crate::error::ObjectError;
use crate::values::{text_of_bytes, time_of_bytes};
use fp_base::{Blob, Text};
use std::alloc::{AllocError, Global};

/// Reads a commit object. `Malformed` with the first of the rules `Value`, `Parent`, `Tree` and
/// `Meta` that the bytes break.
pub fn read_commit(alloc: Global, bytes: &[u8]) -> Result<Commit, ObjectError>
    ensures { Reads commit_view result (commit_read bytes.now) }
{
    let parts = commit_parts(alloc, bytes)?;
    let digests = commit_digests(&parts)?;
    Ok(whole_commit(alloc, &parts, digests)?)
}

/// Reads the root of a commit object, without copying anything. `Malformed` as for `read_commit`,
/// with the first of the rules `Value`, `Parent`, `Tree` and `Meta` that the bytes break.
pub fn commit_root(alloc: Global, bytes: &[u8]) -> Result<CommitRoot, ObjectError>
    ensures { Reads root_view result (mapped root_in (commit_read bytes.now)) }
{
    let parts = commit_parts(alloc, bytes)?;
    match commit_digests(&parts) {
        Ok(digests) => Ok(CommitRoot {
            tree: digests.tree,
            meta: digests.meta,
        }),
        Err(error) => Err(error),
    }
}

/// Returns the commit of these fields and digests.
fn whole_commit(
    alloc: Global,
    parts: &CommitParts<'_>,
    digests: CommitDigests,
) -> Result<Commit, AllocError>
    requires { digests_view digests ≡ digests_in (parts_view parts.now) }
    ensures { IfOk result (λ commit. commit_view commit ≡ parts_view parts.now) }
{
    let timestamp = time_of_bytes(alloc, parts.time)?;
    let (subject, body) = said_in(alloc, parts)?;
    let (metadata, related) = kept_of(alloc, parts)?;
    Ok(Commit {
        metadata,
        parent: digests.parent,
        related,
        subject,
        body,
        timestamp,
        tree: digests.tree,
        meta: digests.meta,
    })
}

/// Returns the subject and the body.
fn said_in(alloc: Global, parts: &CommitParts<'_>) -> Result<(Text, Text), AllocError>
    ensures { IfOk result (λ texts. (texts.0 ≡ text_at parts.now.subject.now) ×
        (texts.1 ≡ text_at parts.now.body.now)) }
{
    let subject = text_of_bytes(alloc, parts.subject)?;
    let body = text_of_bytes(alloc, parts.body)?;
    Ok((subject, body))
}

/// Returns copies of the bytes of the metadata and of the related objects.
fn kept_of(alloc: Global, parts: &CommitParts<'_>) -> Result<(Blob, Blob), AllocError>
    ensures { IfOk result (λ kept. (kept.0 ≡ parts.now.metadata.now) ×
        (kept.1 ≡ parts.now.related.now)) }
{
    let metadata = Blob::from_slice(alloc, parts.metadata)?;
    let related = Blob::from_slice(alloc, parts.related)?;
    Ok((metadata, related))
}
