//! Alignments and sizes of types.
ghost use Rattle.std.specs.Prelude.{◌≡◌, ◌+◌, ◌<◌, ◌≤◌, max};
ghost use Rattle.std.specs.Option.{ForSome};
ghost use Rattle.gv_value.specs.declared.limits.TheConstants.{TOO_LARGE};

use crate::basic::Basic;
use crate::limits::TOO_LARGE;
use crate::paddings::padding;

/// The alignment of a type, and its size if the type has a fixed size.
#[derive(Clone, Copy)]
pub struct Extent {
    /// The alignment in bytes: each value starts at a multiple of it. It is 1, 2, 4 or 8.
    pub align: u64,
    /// The size in bytes if all values of the type have one size. A size above 16 MiB is
    /// `TOO_LARGE`.
    pub size: Option<u64>,
    ghost aligned: { (0 < align) × (align ≤ 8) },
    ghost bounded: { ForSome size (λ n. n ≤ TOO_LARGE) },
}

impl Extent {
    ghost use Rattle.gv_value.specs.Shape.{basic, variant};
    ghost use Rattle.gv_value.specs.Layout.{filled};
    ghost use Rattle.gv_value.specs.Capped.{capped, run_end, IsExtent};
    ghost use Rattle.std.specs.Prelude.{option_map};

    /// Returns the extent of a variant: the alignment 8, and no fixed size.
    pub fn variant() -> Extent
        ensures { IsExtent result variant }
    {
        Extent {
            align: 8,
            size: None,
        }
    }

    /// Returns the extent of a basic type.
    pub fn of_basic(of: Basic) -> Extent
        ensures { IsExtent result (basic of) }
    {
        let size = match of {
            Basic::Bool | Basic::Byte => 1,
            Basic::Int16 | Basic::Uint16 => 2,
            Basic::Int32 | Basic::Uint32 | Basic::Handle => 4,
            Basic::Int64 | Basic::Uint64 | Basic::Double => 8,
            Basic::Str | Basic::ObjectPath | Basic::Signature => {
                return Extent {
                    align: 1,
                    size: None,
                };
            }
        };
        Extent {
            align: size,
            size: Some(size),
        }
    }

    /// Returns the extent of an array or a maybe whose child has this extent: the child's
    /// alignment, and no fixed size.
    pub fn open(self) -> Extent
        ensures align { result.align ≡ self.align }
        ensures size { result.size ≡ None }
    {
        Extent {
            align: self.align,
            size: None,
        }
    }

    /// Returns the extent of an empty run of members, to be extended by `with_member`. The size of
    /// a run is where its last member ends.
    pub fn no_members() -> Extent
        ensures align { result.align ≡ 1 }
        ensures end { result.size ≡ Some 0 }
    {
        Extent {
            align: 1,
            size: Some(0),
        }
    }

    /// Returns the extent of a run of members with one more member after it: the greater alignment,
    /// and the end of the new member if all have fixed sizes.
    pub fn with_member(self, member: Extent) -> Extent
        ensures align { result.align ≡ max self.align member.align }
        ensures end { result.size ≡ run_end self.size member.align member.size }
    {
        let size = match (self.size, member.size) {
            (Some(at), Some(size)) => {
                Some((at + padding(at, member.align) + size).min(TOO_LARGE))
            }
            _ => None,
        };
        Extent {
            align: self.align.max(member.align),
            size,
        }
    }

    /// Returns the extent of the tuple with this run of members: the size is rounded up to a
    /// multiple of the alignment, and is 1 for a tuple without members.
    pub fn filled(self) -> Extent
        ensures align { result.align ≡ self.align }
        ensures size { result.size ≡ option_map (λ end. capped (filled self.align end)) self.size }
    {
        let size = match self.size {
            Some(end) => Some((end + padding(end, self.align)).max(1).min(TOO_LARGE)),
            None => None,
        };
        Extent {
            align: self.align,
            size,
        }
    }
}
