//! Tests of the conditions that the calls of this crate have.

ghost use Rattle.std.specs.Prelude.{◌≡◌};
ghost use Rattle.ost_model.specs.Contents.{is_permission as may_be_mode};

use ost_model::STORED_BITS;

/// Returns whether a file or a directory may have these permission bits: they are within 0775.
pub fn is_permission(mode: u32) -> bool
    ensures { result ≡ may_be_mode mode }
{
    mode & STORED_BITS == mode
}
