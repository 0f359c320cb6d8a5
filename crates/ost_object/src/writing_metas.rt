//! Writing dirmetas.
ghost use Rattle.std.specs.Prelude.{◌≡◌, ◌<◌, ◌^◌, IfOk};
ghost use Rattle.gv_value.specs.Views.{plain};
ghost use Rattle.ost_model.specs.Readers.{meta_breaks, meta_read};
ghost use Rattle.ost_object.specs.Writes.{Writes};
ghost use Rattle.ost_object.specs.Values.{meta_value};
ghost use Rattle.ost_object.specs.Views.{meta_view};

use crate::dirmeta::DirMeta;
use crate::error::ObjectError;
use crate::numbers::turned_u32;
use crate::spelling::spelled;
use crate::types::meta_type;
use fp_base::{Blob, Rule};
use gv_value::GvValue;
use ost_model::{DIRECTORY_TYPE, LOWEST_TYPE_BIT};
use std::alloc::{AllocError, Global};

/// Returns the serialised form of a dirmeta: the bytes that `read_dirmeta` reads as this dirmeta.
/// `Malformed` if and only if there are none, with the rule `Kind` if the mode isn't that of a
/// directory.
pub fn write_dirmeta(alloc: Global, meta: &DirMeta) -> Result<Blob, ObjectError>
    ensures { Writes meta_read meta_breaks result (meta_view meta.now) }
{
    let meta = *meta;
    if meta.mode / LOWEST_TYPE_BIT != DIRECTORY_TYPE {
        return Err(ObjectError::Malformed(Rule::Kind));
    }
    let of = meta_type(alloc)?;
    let value = value_of(alloc, meta)?;
    spelled(alloc, &of, &value)
}

/// Returns the value of a dirmeta: owner and group 0, the mode, and no extended attributes.
fn value_of(alloc: Global, meta: DirMeta) -> Result<GvValue, AllocError>
    ensures value { IfOk result (λ value. plain value ≡ meta_value (meta_view meta)) }
    ensures small { meta.mode < 2 ^ 32 }
{
    Ok(GvValue::Tuple(vec![in alloc;
        GvValue::Uint32(0),
        GvValue::Uint32(0),
        GvValue::Uint32(turned_u32(meta.mode)),
        GvValue::Array(Vec::new(alloc)),
    ]?))
}
