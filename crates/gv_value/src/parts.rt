//! Values by their form.
ghost use Rattle.std.specs.Prelude.{◌≡◌, length};
ghost use Rattle.gv_value.specs.Basics.{form_of};
ghost use Rattle.gv_value.specs.Tree.{array, leaf, byte_trees, number as number_content, integer as integer_content, eight as eight_content};
ghost use Rattle.gv_value.specs.Parts.{part_tree, IsHeld, IsHeldContent};
ghost use Rattle.gv_value.specs.Views.{plain};

use crate::basic::Basic;
use crate::types::GvType;
use crate::value::GvValue;

/// The content of a value of a basic type.
#[derive(Clone, Copy)]
pub enum Content<'a> {
    /// A boolean.
    Truth(bool),
    /// A byte or an unsigned integer.
    Number(u64),
    /// A signed integer or a handle.
    Integer(i64),
    /// A double: its eight bytes, in the order in which they are serialised.
    Eight(&'a [u8]),
    /// A string, an object path or a signature.
    Text(&'a str),
}

/// A value by its form, with references to the values that it contains.
#[derive(Clone, Copy)]
pub enum Parts<'a> {
    /// A value of a basic type.
    Basic(Basic, Content<'a>),
    /// A variant, with the type of its value.
    Variant(&'a GvType, &'a GvValue),
    /// An array, with its elements.
    Array(&'a [GvValue]),
    /// A maybe without a value.
    Nothing,
    /// A maybe with a value.
    Just(&'a GvValue),
    /// A tuple, with its members.
    Tuple(&'a [GvValue]),
    /// A dictionary entry, with its key and its value.
    Entry(&'a GvValue, &'a GvValue),
    /// An array of bytes.
    Bytes(&'a [u8]),
}

impl<'a> Parts<'a> {
    /// Returns the parts of a byte or an unsigned integer.
    fn of_number(of: Basic, number: u64) -> Parts<'a>
        requires { IsHeldContent (form_of of) (Content.Number number) }
        ensures tree { part_tree result ≡ leaf of (number_content number) }
        ensures held { IsHeld result }
    {
        Parts::Basic(of, Content::Number(number))
    }

    /// Returns the parts of a signed integer or a handle.
    fn of_integer(of: Basic, number: i64) -> Parts<'a>
        requires { IsHeldContent (form_of of) (Content.Integer number) }
        ensures tree { part_tree result ≡ leaf of (integer_content number) }
        ensures held { IsHeld result }
    {
        Parts::Basic(of, Content::Integer(number))
    }

    /// Returns the parts of an array of bytes.
    fn of_bytes(bytes: &'a [u8]) -> Parts<'a>
        ensures tree { part_tree result ≡ array (byte_trees bytes.now) }
        ensures held { IsHeld result }
    {
        Parts::Bytes(bytes)
    }

    /// Returns the parts of a double.
    fn of_double(eight: &'a [u8; 8]) -> Parts<'a>
        ensures tree { part_tree result ≡ leaf Basic.Double (eight_content eight.now) }
        ensures held { IsHeld result }
    {
        Parts::of_eight(eight)
    }

    /// Returns the parts of a double, by a slice of its eight bytes.
    fn of_eight(eight: &'a [u8]) -> Parts<'a>
        requires { length eight.now ≡ 8 }
        ensures tree { part_tree result ≡ leaf Basic.Double (eight_content eight.now) }
        ensures held { IsHeld result }
    {
        Parts::Basic(Basic::Double, Content::Eight(eight))
    }
}

impl GvValue {
    /// Returns the form of the value.
    pub fn parts(&self) -> Parts<'_>
        ensures tree { part_tree result ≡ plain self.now }
        ensures held { IsHeld result }
    {
        match self {
            GvValue::Bool(truth) => Parts::Basic(Basic::Bool, Content::Truth(*truth)),
            GvValue::Byte(number) => Parts::of_number(Basic::Byte, u64::from(*number)),
            GvValue::Int16(number) => Parts::of_integer(Basic::Int16, i64::from(*number)),
            GvValue::Uint16(number) => Parts::of_number(Basic::Uint16, u64::from(*number)),
            GvValue::Int32(number) => Parts::of_integer(Basic::Int32, i64::from(*number)),
            GvValue::Uint32(number) => Parts::of_number(Basic::Uint32, u64::from(*number)),
            GvValue::Int64(number) => Parts::of_integer(Basic::Int64, *number),
            GvValue::Uint64(number) => Parts::of_number(Basic::Uint64, *number),
            GvValue::Handle(number) => Parts::of_integer(Basic::Handle, i64::from(*number)),
            GvValue::Double(eight) => Parts::of_double(eight),
            GvValue::Str(text) => Parts::Basic(Basic::Str, Content::Text(text.as_str())),
            GvValue::ObjectPath(text) => Parts::Basic(
                Basic::ObjectPath,
                Content::Text(text.as_str()),
            ),
            GvValue::Signature(text) => Parts::Basic(
                Basic::Signature,
                Content::Text(text.as_str()),
            ),
            GvValue::Variant(of, child) => Parts::Variant(of, child),
            GvValue::Array(items) => Parts::Array(items),
            GvValue::Maybe(None) => Parts::Nothing,
            GvValue::Maybe(Some(child)) => Parts::Just(child),
            GvValue::Tuple(items) => Parts::Tuple(items),
            GvValue::Entry(key, value) => Parts::Entry(key, value),
            GvValue::Bytes(bytes) => Parts::of_bytes(bytes.as_slice()),
        }
    }
}
