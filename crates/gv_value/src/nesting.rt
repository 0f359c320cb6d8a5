//! The limits on how types nest.
ghost use Rattle.std.specs.Prelude.{◌≡◌};
ghost use Rattle.gv_value.specs.Shape.{is_type as is_type_shape, nests_within as shape_nests_within, all_shapes, is_basic as is_basic_shape};
ghost use Rattle.gv_value.specs.Views.{shape_of, shapes_of};

use crate::kind::Kind;
use crate::limits::MOST_DEPTH;
use crate::types::GvType;

/// Returns whether a type is valid: it nests at most 64 deep, and the key of each dictionary entry
/// in it is basic.
pub fn is_type(of: &GvType) -> bool
    ensures { result ≡ is_type_shape (shape_of of.now) }
{
    nests_within(of, MOST_DEPTH)
}

/// Returns whether a type is valid and nests at most `room` deep.
#[cycle(nests)]
fn nests_within(of: &GvType, room: u32) -> bool
    ensures { result ≡ shape_nests_within room (shape_of of.now) }
{
    let kind = of.kind();
    if room == 0 {
        return matches!(kind, Kind::Basic(_));
    }
    match kind {
        Kind::Basic(_) => true,
        Kind::Variant => true,
        Kind::Array(element) => nests_within(element, room - 1),
        Kind::Maybe(child) => nests_within(child, room - 1),
        Kind::Tuple(members) => all_nest_within(members, room - 1),
        Kind::Entry(key, value) => is_basic(key) && nests_within(value, room - 1),
    }
}

/// Returns whether each of the members is a valid type that nests at most `room` deep.
#[cycle(nests)]
fn all_nest_within(members: &[GvType], room: u32) -> bool
    ensures { result ≡ all_shapes (shape_nests_within room) (shapes_of members.now) }
{
    for member in members {
        if !nests_within(member, room) {
            return false;
        }
    }
    true
}

/// Returns whether a type is basic.
fn is_basic(of: &GvType) -> bool
    ensures { result ≡ is_basic_shape (shape_of of.now) }
{
    match of.kind() {
        Kind::Basic(_) => true,
        _ => false,
    }
}
