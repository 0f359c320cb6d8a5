//! The width of framing offsets.
ghost use Rattle.std.specs.Prelude.{◌≡◌, ◌+◌, ◌*◌, ◌<◌, ◌^◌};
ghost use Rattle.gv_value.specs.Framing.{width as width_of};

/// Returns the number of bytes that each framing offset of a container has, which is the smallest
/// of 1, 2, 4 and 8 that fits the whole container: `before` bytes and then `count` offsets
/// (GVariant specification, "Framing Offsets").
pub fn width(before: usize, count: usize) -> usize
    requires { before + 8 * count < 2 ^ 64 }
    ensures { result ≡ width_of before count }
{
    if before + count <= 0xFF {
        1
    } else if before + 2 * count <= 0xFFFF {
        2
    } else if before + 4 * count <= 0xFFFF_FFFF {
        4
    } else {
        8
    }
}
