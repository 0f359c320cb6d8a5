//! Types with the extent of each type in them.
use crate::basic::Basic;
use crate::extent::Extent;

/// A type with the extents of the types that it contains, computed once. Reading and writing many
/// values then computes no extent of a nested type again.
#[derive(Drop)]
pub enum Plan {
    /// The plan of a basic type.
    Basic(Basic),
    /// The plan of `v`.
    Variant,
    /// The plan of an array: the array's own extent, and the plan of its elements.
    Array(Extent, Box<Plan>),
    /// The plan of a maybe: the maybe's own extent, and the plan of its child.
    Maybe(Extent, Box<Plan>),
    /// The plan of a tuple: the extent of its members one after the other, without the padding at
    /// their end, and their plans.
    Tuple(Extent, Vec<Plan>),
    /// The plan of a dictionary entry: as that of a tuple with two members, the key and the value.
    Entry(Extent, Vec<Plan>),
}
