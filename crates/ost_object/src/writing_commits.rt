//! Writing commits.
ghost use Rattle.std.specs.Prelude.{◌≡◌, ◌<◌, ◌^◌, true, None, ◌==◌, ◌||◌, length, IfOk, OnOk};
ghost use Rattle.gv_value.specs.Views.{plain};
ghost use Rattle.ost_model.specs.Readers.{commit_breaks, commit_read, is_long};
ghost use Rattle.ost_model.specs.Types.{commit_shape, dictionary_shape, related_shape};
ghost use Rattle.ost_object.specs.Decodes.{Decodes};
ghost use Rattle.ost_object.specs.Values.{bytes_value, commit_value, time_value};
ghost use Rattle.ost_model.specs.Fields.{text_value};
ghost use Rattle.ost_object.specs.Views.{commit_view, parent_bytes, tree_at};
ghost use Rattle.ost_object.specs.Writes.{Spells, Writes};

use crate::commit::Commit;
use crate::error::ObjectError;
use crate::field_values::{bytes_as_value, digest_as_value, text_as_value};
use crate::numbers::turned_u64;
use crate::spelling::spelled;
use crate::types::{commit_type, dictionary_type, related_type};
use crate::values::value_of;
use fp_base::Blob;
use fp_name::Digest;
use gv_value::GvValue;
use std::alloc::{AllocError, Global};

/// Returns the serialised form of a commit: the bytes that `read_commit` reads as this commit.
/// `Malformed` with the rule `Value` if and only if there are none: the metadata or the related
/// objects aren't values of their types, a text has a zero byte, or there would be more than 16
/// MiB.
pub fn write_commit(alloc: Global, commit: &Commit) -> Result<Blob, ObjectError>
    ensures { Writes commit_read commit_breaks result (commit_view commit.now) }
{
    let digests = digest_values(alloc, commit)?;
    match metadata_of(alloc, commit) {
        Ok(metadata) => with_metadata(alloc, commit, metadata, digests),
        Err(error) => Err(error),
    }
}

/// Writes a commit whose metadata and digests are already values.
fn with_metadata(
    alloc: Global,
    commit: &Commit,
    metadata: GvValue,
    digests: DigestValues,
) -> Result<Blob, ObjectError>
    requires good { commit_breaks (commit_view commit.now) ≡ None }
    requires metadata { plain metadata ≡ tree_at dictionary_shape commit.now.metadata }
    requires parent { plain digests.parent ≡ bytes_value (parent_bytes commit.now.parent) }
    requires tree { plain digests.tree ≡ bytes_value commit.now.tree }
    requires meta { plain digests.meta ≡ bytes_value commit.now.meta }
    ensures { Writes commit_read commit_breaks result (commit_view commit.now) }
{
    match related_of(alloc, commit) {
        Ok(related) => spelled_commit(alloc, commit, metadata, related, digests),
        Err(error) => Err(error),
    }
}

/// Decodes the metadata of a commit.
fn metadata_of(alloc: Global, commit: &Commit) -> Result<GvValue, ObjectError>
    ensures { Decodes result dictionary_shape (tree_at dictionary_shape commit.now.metadata) }
{
    let of = dictionary_type(alloc)?;
    value_of(alloc, &of, commit.metadata.as_slice())
}

/// Decodes the related objects of a commit.
fn related_of(alloc: Global, commit: &Commit) -> Result<GvValue, ObjectError>
    ensures { Decodes result related_shape (tree_at related_shape commit.now.related) }
{
    let of = related_type(alloc)?;
    value_of(alloc, &of, commit.related.as_slice())
}

/// The digests of a commit, as values of type `ay`.
#[derive(Drop)]
struct DigestValues {
    parent: GvValue,
    tree: GvValue,
    meta: GvValue,
}

/// Returns the digests of a commit as values. Each has a length that the rules allow.
#[tactic(auto, using(crate::proofs::Lengths::unbroken))]
fn digest_values(alloc: Global, commit: &Commit) -> Result<DigestValues, AllocError>
    ensures good { OnOk result (commit_breaks (commit_view commit.now) ≡ None) }
    ensures parent { IfOk result (λ values. plain values.parent ≡ bytes_value
        (parent_bytes commit.now.parent)) }
    ensures tree { IfOk result (λ values. plain values.tree ≡ bytes_value commit.now.tree) }
    ensures meta { IfOk result (λ values. plain values.meta ≡ bytes_value commit.now.meta) }
{
    let parent = parent_as_value(alloc, &commit.parent)?;
    let tree = digest_as_value(alloc, &commit.tree)?;
    let meta = digest_as_value(alloc, &commit.meta)?;
    Ok(DigestValues { parent, tree, meta })
}

/// Returns a parent's digest as a value of type `ay`, without bytes if there is no parent.
#[tactic(auto, using(crate::proofs::Lengths::or_long))]
fn parent_as_value(alloc: Global, parent: &Option<Digest>) -> Result<GvValue, AllocError>
    ensures value { IfOk result (λ value. plain value ≡ bytes_value (parent_bytes parent.now)) }
    ensures long { length (parent_bytes parent.now) == 0 || is_long (parent_bytes parent.now) ≡
        true }
{
    match parent {
        Some(digest) => digest_as_value(alloc, digest),
        None => bytes_as_value(alloc, &[]),
    }
}

/// Returns the serialised form of a commit, by the values of its metadata, its related objects and
/// its digests.
fn spelled_commit(
    alloc: Global,
    commit: &Commit,
    metadata: GvValue,
    related: GvValue,
    digests: DigestValues,
) -> Result<Blob, ObjectError>
    ensures spelled { Spells result commit_shape (commit_value (plain metadata)
        (plain digests.parent) (plain related) (text_value commit.now.subject)
        (text_value commit.now.body) (time_value commit.now.timestamp)
        (plain digests.tree) (plain digests.meta)) }
    ensures small { commit.now.timestamp < 2 ^ 64 }
{
    match said_values(alloc, commit) {
        Ok(said) => spelled_members(alloc, metadata, related, said, digests),
        Err(_error) => Err(ObjectError::NoMemory),
    }
}

/// The subject, the body and the time of a commit, as values.
#[derive(Drop)]
struct SaidValues {
    subject: GvValue,
    body: GvValue,
    time: GvValue,
}

/// Returns the subject, the body and the time of a commit as values.
fn said_values(alloc: Global, commit: &Commit) -> Result<SaidValues, AllocError>
    ensures subject { IfOk result (λ said. plain said.subject ≡ text_value commit.now.subject) }
    ensures body { IfOk result (λ said. plain said.body ≡ text_value commit.now.body) }
    ensures time { IfOk result (λ said. plain said.time ≡ time_value commit.now.timestamp) }
    ensures small { commit.now.timestamp < 2 ^ 64 }
{
    let time = time_as_value(commit.timestamp);
    let subject = text_as_value(alloc, commit.subject.as_str())?;
    let body = text_as_value(alloc, commit.body.as_str())?;
    Ok(SaidValues {
        subject,
        body,
        time,
    })
}

/// Returns the serialised form of a commit, by the values of its fields.
fn spelled_members(
    alloc: Global,
    metadata: GvValue,
    related: GvValue,
    said: SaidValues,
    digests: DigestValues,
) -> Result<Blob, ObjectError>
    ensures { Spells result commit_shape (commit_value (plain metadata)
        (plain digests.parent) (plain related) (plain said.subject) (plain said.body)
        (plain said.time) (plain digests.tree) (plain digests.meta)) }
{
    match commit_as_value(alloc, metadata, related, said, digests) {
        Ok(value) => spelled_value(alloc, &value),
        Err(_error) => Err(ObjectError::NoMemory),
    }
}

/// Returns the serialised form of a commit, by its value.
fn spelled_value(alloc: Global, value: &GvValue) -> Result<Blob, ObjectError>
    ensures { Spells result commit_shape (plain value.now) }
{
    let of = commit_type(alloc)?;
    spelled(alloc, &of, value)
}

/// Returns a time in seconds since 1970 as a value of type `t`, in big-endian order.
fn time_as_value(time: u64) -> GvValue
    ensures value { plain result ≡ time_value time }
    ensures small { time < 2 ^ 64 }
{
    GvValue::Uint64(turned_u64(time))
}

/// Returns the value of a commit, by the values of its fields.
fn commit_as_value(
    alloc: Global,
    metadata: GvValue,
    related: GvValue,
    said: SaidValues,
    digests: DigestValues,
) -> Result<GvValue, AllocError>
    ensures { IfOk result (λ value. plain value ≡ commit_value (plain metadata)
        (plain digests.parent) (plain related) (plain said.subject) (plain said.body)
        (plain said.time) (plain digests.tree) (plain digests.meta)) }
{
    Ok(GvValue::Tuple(vec![in alloc;
        metadata,
        digests.parent,
        related,
        said.subject,
        said.body,
        said.time,
        digests.tree,
        digests.meta,
    ]?))
}
