//! The serialised form of a value.
ghost use Rattle.std.specs.Prelude.{◌≡◌, ◌<◌, ◌↔◌, ◌⊎◌, IsTrue, IfOk, Err, false, length};
ghost use Rattle.gv_value.specs.declared.limits.TheConstants.{MOST_BYTES};
ghost use Rattle.gv_value.specs.Spelled.{Spelled};
ghost use Rattle.gv_value.specs.Spelling.{fits as is_of_type, spelling};
ghost use Rattle.gv_value.specs.Views.{shape_of, plain};

use crate::error::EncodeError;
use crate::writing::write;
use fp_base::Blob;
use gv_value::{GvType, GvValue, MOST_DEPTH, fits, plan_of};
use std::alloc::Global;

/// Serialises a value of a type, in the normal form of the GVariant specification. Errs with
/// `NotOfType` if the value isn't of the type, and with `TooLong` if its bytes are above 16 MiB.
pub fn encode(alloc: Global, of: &GvType, value: &GvValue) -> Result<Blob, EncodeError>
    ensures spelled { IfOk result (λ bytes. Spelled (shape_of of.now) (plain value.now) bytes) }
    ensures not_of_type { (result ≡ Err EncodeError.NotOfType)
        ↔ (is_of_type (shape_of of.now) (plain value.now) ≡ false) }
    ensures too_long { result ≡ Err EncodeError.TooLong
        → IsTrue (is_of_type (shape_of of.now) (plain value.now))
        × (MOST_BYTES < length (spelling (plain value.now) (shape_of of.now))) }

    // Memory may run out before the bytes are known to be too many.
    ensures long { IsTrue (is_of_type (shape_of of.now) (plain value.now))
        → MOST_BYTES < length (spelling (plain value.now) (shape_of of.now))
        → (result ≡ Err EncodeError.TooLong) ⊎ (result ≡ Err EncodeError.NoMemory) }
{
    if !fits(of, value) {
        return Err(EncodeError::NotOfType);
    }
    let plan = plan_of(alloc, of)?;
    let mut out = Vec::new(alloc);
    write(alloc, &mut out, &plan, value, MOST_DEPTH)?;
    Ok(Blob::from_vec(out))
}
