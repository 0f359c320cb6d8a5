//! The type of a value that is to be shown.
ghost use Rattle.std.specs.Prelude.{◌≡◌, ◌↔◌, Some, true, false, IfOk, OnOk, IsErrOf};
ghost use Rattle.gv_value.specs.TypeText.{type_of};
ghost use Rattle.gv_value.specs.Views.{shape_of};
ghost use Rattle.fl_words.specs.Types.{is_type_text};

use fp_name::NameError;
use gv_value::{GvType, TypeError};
use std::alloc::Global;
use std::marker::Model;

/// A GVariant type. Contracts see its type string.
#[derive(Drop)]
pub struct ValueType {
    of: GvType,
}

impl Model for ValueType {
    ghost use Rattle.std.specs.Prelude.{◌≡◌, List, ℕ, true};
    ghost use Rattle.gv_value.specs.Shape.{is_type};
    ghost use Rattle.gv_value.specs.TypeText.{type_text};
    ghost use Rattle.gv_value.specs.Views.{shape_of};

    ghost Value = { List ℕ };

    ghost view = { λ t. type_text (shape_of t.of) };

    ghost invariant = { λ t. is_type (shape_of t.of) ≡ true };
}

impl ValueType {
    /// Parses a type string. Errs with `Bad` if it isn't that of one type, nested at most 64 deep.
    pub fn parse(alloc: Global, text: &[u8]) -> Result<ValueType, NameError>
        ensures ok { IfOk result (λ t. t ≡ text.now) }
        ensures good { OnOk result (is_type_text text.now ≡ true) }
        ensures bad { IsErrOf result NameError.Bad → is_type_text text.now ≡ false }
    {
        match GvType::parse(alloc, text) {
            Ok(of) => Ok(ValueType { of }),
            Err(TypeError::Bad) => Err(NameError::Bad),
            Err(TypeError::NoMemory) => Err(NameError::NoMemory),
        }
    }

    /// Returns the type.
    #[tactic(auto, using(gv_value::proofs::TypeLaws::type_back))]
    pub fn as_type(&self) -> &GvType
        ensures { type_of self.now ≡ Some (shape_of result.now) }
    {
        &self.of
    }
}
