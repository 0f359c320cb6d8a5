//! Alignments and sizes, computed from the type.
ghost use Rattle.std.specs.Prelude.{◌≡◌};
ghost use Rattle.gv_value.specs.Capped.{IsExtent, IsRun, small_size};
ghost use Rattle.gv_value.specs.Layout.{align_of as align_of_shape, greatest_align, end_of};
ghost use Rattle.gv_value.specs.Views.{shape_of, shapes_of};

use crate::extent::Extent;
use crate::kind::Kind;
use crate::limits::MOST_BYTES;
use crate::types::GvType;

/// Returns the size in bytes of each value of a type, or `None` if the size isn't fixed or is above
/// 16 MiB.
pub fn size_of(of: &GvType) -> Option<u64>
    ensures { result ≡ small_size (shape_of of.now) }
{
    match extent_of(of).size {
        Some(size) if size <= MOST_BYTES => Some(size),
        _ => None,
    }
}

/// Returns the alignment of a type, in bytes: 1, 2, 4 or 8.
pub fn align_of(of: &GvType) -> u64
    ensures { result ≡ align_of_shape (shape_of of.now) }
{
    extent_of(of).align
}

/// Returns the extent of a type.
#[cycle(measure)]
pub fn extent_of(of: &GvType) -> Extent
    ensures { IsExtent result (shape_of of.now) }
{
    match of.kind() {
        Kind::Basic(basic) => Extent::of_basic(basic),
        Kind::Variant => Extent::variant(),
        Kind::Array(element) => extent_of(element).open(),
        Kind::Maybe(child) => extent_of(child).open(),
        Kind::Tuple(members) => extent_of_members(members).filled(),
        Kind::Entry(key, value) => Extent::no_members()
            .with_member(extent_of(key))
            .with_member(extent_of(value))
            .filled(),
    }
}

/// Returns the extent of a run of members: their greatest alignment, and where the last one ends.
#[cycle(measure)]
fn extent_of_members(members: &[GvType]) -> Extent
    ensures { IsRun result (greatest_align (shapes_of members.now))
        (end_of 0 (shapes_of members.now)) }
{
    let mut run = Extent::no_members();
    for member in members {
        run = run.with_member(extent_of(member));
    }
    run
}
