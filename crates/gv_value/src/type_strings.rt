//! The type strings of types.
ghost use Rattle.std.specs.Prelude.{◌≡◌, ◌++◌, IfOk, OnOk};
ghost use Rattle.gv_value.specs.TypeText.{type_text, type_texts};
ghost use Rattle.gv_value.specs.Views.{shape_of, shapes_of};

use crate::kind::Kind;
use crate::types::GvType;
use fp_base::Blob;
use std::alloc::{AllocError, Global};

impl GvType {
    /// Returns the type string of the type.
    pub fn text(&self, alloc: Global) -> Result<Blob, AllocError>
        ensures { IfOk result (λ text. text ≡ type_text (shape_of self.now)) }
    {
        let mut text = Vec::new(alloc);
        push_type(&mut text, self)?;
        Ok(Blob::from_vec(text))
    }
}

/// Appends the type string of a type. If memory runs out, the content of `text` is unspecified.
#[cycle(push)]
pub fn push_type(text: &mut Vec<u8>, of: &GvType) -> Result<(), AllocError>
    ensures { OnOk result (text.new.items ≡ text.old.items ++ type_text (shape_of of.now)) }
{
    match of.kind() {
        Kind::Basic(basic) => text.push(basic.letter())?,
        Kind::Variant => text.push(b'v')?,
        Kind::Array(element) => {
            text.push(b'a')?;
            push_type(text, element)?;
        }
        Kind::Maybe(child) => {
            text.push(b'm')?;
            push_type(text, child)?;
        }
        Kind::Tuple(members) => {
            text.push(b'(')?;
            push_types(text, members)?;
            text.push(b')')?;
        }
        Kind::Entry(key, value) => {
            text.push(b'{')?;
            push_type(text, key)?;
            push_type(text, value)?;
            text.push(b'}')?;
        }
    }
    Ok(())
}

/// Appends the type strings of members, one after the other. If memory runs out, the content of
/// `text` is unspecified.
#[cycle(push)]
fn push_types(text: &mut Vec<u8>, members: &[GvType]) -> Result<(), AllocError>
    ensures { OnOk result (text.new.items ≡ text.old.items ++ type_texts (shapes_of members.now)) }
{
    for member in members {
        push_type(text, member)?;
    }
    Ok(())
}
