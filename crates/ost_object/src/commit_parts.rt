//! Parting a commit into the bytes of its fields.
ghost use Rattle.std.specs.Prelude.{◌≡◌, option_and_then};
ghost use Rattle.gv_value.specs.Reading.{value_of};
ghost use Rattle.gv_decode.specs.Decoded.{slices};
ghost use Rattle.ost_model.specs.Fields.{commit_in};
ghost use Rattle.ost_model.specs.Readers.{commit_breaks, kept};
ghost use Rattle.ost_model.specs.Types.{commit_shape};
ghost use Rattle.ost_object.specs.Answers.{Finds, Reads};
ghost use Rattle.ost_object.specs.Views.{part_list, if_eight, parts_view, digests_view, digests_in};

use crate::digests::{digest_of, parent_of};
use crate::error::ObjectError;
use crate::types::commit_type;
use crate::values::{check, children_of};
use fp_base::Rule;
use fp_name::Digest;
use std::alloc::Global;

/// The bytes of each field of a commit, each a value of the field's type.
#[derive(Clone, Copy)]
pub struct CommitParts<'a> {
    /// `a{sv}`: the metadata.
    pub metadata: &'a [u8],
    /// `ay`: the digest of the parent commit, or no bytes.
    pub parent: &'a [u8],
    /// `a(say)`: the related objects.
    pub related: &'a [u8],
    /// `s`: the subject.
    pub subject: &'a [u8],
    /// `s`: the body.
    pub body: &'a [u8],
    /// `t`: the time in seconds since 1970, big-endian.
    pub time: &'a [u8],
    /// `ay`: the digest of the root's dirtree.
    pub tree: &'a [u8],
    /// `ay`: the digest of the root's dirmeta.
    pub meta: &'a [u8],
}

/// The digests in a commit.
#[derive(Clone, Copy)]
pub struct CommitDigests {
    /// The digest of the parent commit, if there is one.
    pub parent: Option<Digest>,
    /// The digest of the root's dirtree.
    pub tree: Digest,
    /// The digest of the root's dirmeta.
    pub meta: Digest,
}

/// Returns the fields of a commit, by the bytes of the object. `Malformed` with the rule `Value` if
/// the bytes aren't a value of the commits' type in normal form.
pub fn commit_parts(alloc: Global, bytes: &[u8]) -> Result<CommitParts<'_>, ObjectError>
    ensures { Finds parts_view result (option_and_then commit_in
        (value_of commit_shape bytes.now)) }
{
    let of = commit_type(alloc)?;
    check(alloc, &of, bytes)?;
    let members = children_of(alloc, &of, bytes)?;
    eight_parts(&members)
}

/// Returns the fields of a commit, by its members. `Malformed` with the rule `Value` if there
/// aren't eight.
fn eight_parts<'a>(members: &[&'a [u8]]) -> Result<CommitParts<'a>, ObjectError>
    ensures { Finds part_list result (if_eight (slices members.now)) }
{
    match members {
        [metadata, parent, related, subject, body, time, tree, meta] => Ok(CommitParts {
            metadata,
            parent,
            related,
            subject,
            body,
            time,
            tree,
            meta,
        }),
        _ => Err(ObjectError::Malformed(Rule::Value)),
    }
}

/// Returns the digests of a commit. `Malformed` with the first of the rules `Parent`, `Tree` and
/// `Meta` that it breaks.
pub fn commit_digests(parts: &CommitParts<'_>) -> Result<CommitDigests, ObjectError>
    ensures { Reads digests_view result (kept (commit_breaks (parts_view parts.now))
        (digests_in (parts_view parts.now))) }
{
    let parent = parent_of(parts.parent)?;
    let tree = digest_of(parts.tree, Rule::Tree)?;
    let meta = digest_of(parts.meta, Rule::Meta)?;
    Ok(CommitDigests { parent, tree, meta })
}
