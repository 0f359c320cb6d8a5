//! The checks of files and symlinks against their limits and digests.
ghost use Rattle.std.specs.Prelude.{◌≡◌, ℕ, List, length, IfOk, Some};
ghost use Rattle.fp_host.specs.Outcome.{points};
ghost use Rattle.fp_base.specs.declared.object.ObjKind.TheVariants as kinds;
ghost use Rattle.ost_model.specs.declared.object.Object.TheVariants as objects;
ghost use Rattle.ost_model.specs.Objects.{object_at, object_fault};
ghost use Rattle.ost_walk.specs.Ends.{EndsBy, IsFaultOf, NoFault, refusal};
ghost use Rattle.ost_head.specs.Contents.{IsGoodLink, IsWithinLimits};

use fp_base::ObjKind;
use fp_host::is_link_text;
use fp_name::Digest;
use ost_content::{is_permission, link_digest};
use ost_model::MOST_FILE_BYTES;
use ost_walk::{ObjectFault, WalkEnd, WalkFault};
use std::alloc::Global;

/// Returns the error that refuses a `file` object with a fault.
pub(crate) fn refused(digest: &Digest, fault: ObjectFault) -> WalkEnd
    ensures { result ≡ refusal digest.now kinds.File fault }
{
    WalkEnd::Refused(WalkFault {
        digest: *digest,
        kind: ObjKind::File,
        fault,
    })
}

/// Checks that a file has at most 1 GiB and permission bits within 0775. `Refused` with `TooLong`
/// or `RefusedMode`.
#[tactic(auto, using(crate::proofs::Checked::limits_long, crate::proofs::Checked::limits_moded))]
pub(crate) fn check_limits(digest: &Digest, mode: u32, size: u64) -> Result<(), WalkEnd>
    ensures fit { IfOk result (λ _. IsWithinLimits mode size) }
    ensures tells { (bytes : List ℕ) → length bytes ≡ size
        → EndsBy (λ _. IsWithinLimits mode size)
        (IsFaultOf digest.now kinds.File
        (object_fault digest.now kinds.File (Some (objects.File mode bytes)))) result }
    ensures faults { NoFault result }
{
    if size > MOST_FILE_BYTES {
        return Err(refused(digest, ObjectFault::TooLong(size)));
    }
    if !is_permission(mode) {
        return Err(refused(digest, ObjectFault::RefusedMode(mode)));
    }
    Ok(())
}

/// Checks that the text of a symlink is valid, and that the link matches its digest. `Refused` with
/// `Missing` or `Corrupt`.
#[tactic(auto, using(crate::proofs::Checked::link_missing, crate::proofs::Checked::link_good, crate::proofs::Checked::link_corrupt))]
pub(crate) fn check_link(alloc: Global, digest: &Digest, text: &str) -> Result<(), WalkEnd>
    ensures tells { EndsBy (λ _. IsGoodLink digest.now text.now) (IsFaultOf digest.now kinds.File
        (object_fault digest.now kinds.File (object_at kinds.File (points text.now)))) result }
    ensures faults { NoFault result }
{
    if !is_link_text(text) {
        return Err(refused(digest, ObjectFault::Missing));
    }
    let got = link_digest(alloc, text)?;
    if got == *digest {
        Ok(())
    } else {
        Err(refused(digest, ObjectFault::Corrupt(got)))
    }
}
