//! Reading digests in metadata objects.
ghost use Rattle.std.specs.Prelude.{◌≡◌, ◌==◌, ◌||◌, length, Some, None, if◌then◌else◌};
ghost use Rattle.ost_model.specs.Readers.{is_long};
ghost use Rattle.ost_object.specs.Answers.{Tries, as_is};
ghost use Rattle.ost_object.specs.Views.{parent_bytes};

use crate::error::ObjectError;
use fp_base::Rule;
use fp_name::Digest;

/// Returns the digest in 32 bytes. `Malformed` with the rule `broken` if there aren't 32.
pub fn digest_of(bytes: &[u8], broken: Rule) -> Result<Digest, ObjectError>
    ensures { Tries broken as_is result (if is_long bytes.now then Some bytes.now else None) }
{
    match Digest::from_slice(bytes) {
        Some(digest) => Ok(digest),
        None => Err(ObjectError::Malformed(broken)),
    }
}

/// Returns the digest of a commit's parent, or `None` if there are no bytes. `Malformed` with the
/// rule `Parent` if there are neither 0 nor 32 bytes.
pub fn parent_of(bytes: &[u8]) -> Result<Option<Digest>, ObjectError>
    ensures { Tries Rule.Parent parent_bytes result (if length bytes.now == 0 || is_long bytes.now
        then Some bytes.now else None) }
{
    if bytes.is_empty() {
        return Ok(None);
    }
    let digest = digest_of(bytes, Rule::Parent)?;
    Ok(Some(digest))
}
