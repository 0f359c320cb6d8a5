//! Padding to alignments.
ghost use Rattle.std.specs.Prelude.{◌≡◌, ◌<◌};
ghost use Rattle.gv_value.specs.Layout.{padding as padding_of};

/// Returns the number of bytes from a position to the next multiple of an alignment; 0 if the
/// position is one.
pub fn padding(at: u64, align: u64) -> u64
    requires { 0 < align }
    ensures value { result ≡ padding_of at align }
    ensures below { result < align }
{
    (align - at % align) % align
}
