//! The types and values of GVariant, GLib's format of typed data: their alignments and sizes, type
//! strings, and D-Bus signatures.
#![tactic(auto)]

mod basic;
mod error;
mod extent;
mod fitting;
mod kind;
mod law;
mod limits;
mod measuring;
mod nesting;
mod paddings;
mod parsing;
mod parts;
mod plan;
mod planning;
mod sign;
mod signatures;
mod texts;
mod type_strings;
mod types;
mod value;
mod widths;

pub use basic::Basic;
pub use error::TypeError;
pub use extent::Extent;
pub use fitting::fits;
pub use kind::Kind;
pub use law::{limits_as_numbers, one_spelling};
pub use limits::{MOST_BYTES, MOST_DEPTH, MOST_OPEN, MOST_SIGNATURE_BYTES, TOO_LARGE};
pub use measuring::{align_of, extent_of, size_of};
pub use nesting::is_type;
pub use paddings::padding;
pub use parts::{Content, Parts};
pub use plan::Plan;
pub use planning::plan_of;
pub use sign::Sign;
pub use signatures::is_signature;
pub use texts::{has_zero, is_object_path};
pub use type_strings::push_type;
pub use types::GvType;
pub use value::GvValue;
pub use widths::width;
