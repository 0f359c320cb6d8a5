//! Control characters.
ghost use Rattle.std.specs.Prelude.{◌≡◌};
ghost use Rattle.fp_base.specs.Parts.{is_control};

/// Returns whether a byte is an ASCII control character: below 0x20, or 0x7f.
pub fn is_control(byte: u8) -> bool
    ensures { result ≡ is_control byte }
{
    byte < 0x20 || byte == 0x7f
}
