//! Making the GVariant values of fields.
ghost use Rattle.std.specs.Prelude.{◌≡◌, true, IfOk};
ghost use Rattle.gv_value.specs.Views.{plain};
ghost use Rattle.ost_model.specs.Readers.{is_long};
ghost use Rattle.ost_object.specs.Values.{bytes_value};
ghost use Rattle.ost_model.specs.Fields.{text_value};

use fp_base::{Blob, Text};
use fp_name::Digest;
use gv_value::GvValue;
use std::alloc::{AllocError, Global};

/// Returns a text as a value of type `s`.
pub fn text_as_value(alloc: Global, text: &str) -> Result<GvValue, AllocError>
    ensures { IfOk result (λ value. plain value ≡ text_value text.now) }
{
    Ok(GvValue::Str(Text::from_string(String::from_str(alloc, text)?)))
}

/// Returns bytes as a value of type `ay`.
pub fn bytes_as_value(alloc: Global, bytes: &[u8]) -> Result<GvValue, AllocError>
    ensures { IfOk result (λ value. plain value ≡ bytes_value bytes.now) }
{
    Ok(GvValue::Bytes(Blob::from_vec(Vec::from_slice(alloc, bytes)?)))
}

/// Returns a digest as a value of type `ay`.
#[tactic(auto, using(crate::proofs::OneTree::long_digest))]
pub fn digest_as_value(alloc: Global, digest: &Digest) -> Result<GvValue, AllocError>
    ensures value { IfOk result (λ value. plain value ≡ bytes_value digest.now) }
    ensures long { is_long digest.now ≡ true }
{
    bytes_as_value(alloc, digest.as_bytes())
}
