//! Types by their form.
ghost use Rattle.std.specs.Prelude.{◌≡◌};
ghost use Rattle.gv_value.specs.Kinds.{kind_shape};
ghost use Rattle.gv_value.specs.Views.{shape_of};

use crate::basic::Basic;
use crate::types::GvType;

/// A type by its form, with references to the types that it contains.
#[derive(Clone, Copy)]
pub enum Kind<'a> {
    /// A basic type.
    Basic(Basic),
    /// `v`: a variant.
    Variant,
    /// An array, with the type of its elements.
    Array(&'a GvType),
    /// A maybe, with the type of the value that may be in it.
    Maybe(&'a GvType),
    /// A tuple, with the types of its members.
    Tuple(&'a [GvType]),
    /// A dictionary entry, with the types of its key and its value.
    Entry(&'a GvType, &'a GvType),
}

impl GvType {
    /// Returns the form of the type.
    pub fn kind(&self) -> Kind<'_>
        ensures { kind_shape result ≡ shape_of self.now }
    {
        match self {
            GvType::Bool => Kind::Basic(Basic::Bool),
            GvType::Byte => Kind::Basic(Basic::Byte),
            GvType::Int16 => Kind::Basic(Basic::Int16),
            GvType::Uint16 => Kind::Basic(Basic::Uint16),
            GvType::Int32 => Kind::Basic(Basic::Int32),
            GvType::Uint32 => Kind::Basic(Basic::Uint32),
            GvType::Int64 => Kind::Basic(Basic::Int64),
            GvType::Uint64 => Kind::Basic(Basic::Uint64),
            GvType::Handle => Kind::Basic(Basic::Handle),
            GvType::Double => Kind::Basic(Basic::Double),
            GvType::Str => Kind::Basic(Basic::Str),
            GvType::ObjectPath => Kind::Basic(Basic::ObjectPath),
            GvType::Signature => Kind::Basic(Basic::Signature),
            GvType::Variant => Kind::Variant,
            GvType::Array(element) => Kind::Array(element),
            GvType::Maybe(child) => Kind::Maybe(child),
            GvType::Tuple(members) => Kind::Tuple(members),
            GvType::Entry(key, value) => Kind::Entry(key, value),
        }
    }
}
