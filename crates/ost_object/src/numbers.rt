//! The order of the bytes of numbers: OSTree keeps them in big-endian order, in GVariant values,
//! which are in little-endian order.
ghost use Rattle.std.specs.Prelude.{◌≡◌};
ghost use Rattle.std.specs.Int.{w32, w64, swap_bytes};

use byteorder::{BigEndian, ByteOrder, LittleEndian};

/// Returns the number with its four bytes in reverse order. This turns a number into the one that a
/// value of type `u` keeps for it, and back.
pub fn turned_u32(number: u32) -> u32
    ensures { result ≡ swap_bytes w32 number }
{
    let mut bytes = [0; 4];
    LittleEndian::write_u32(&mut bytes, number);
    BigEndian::read_u32(&bytes)
}

/// Returns the number with its eight bytes in reverse order. This turns a number into the one that
/// a value of type `t` keeps for it, and back.
pub fn turned_u64(number: u64) -> u64
    ensures { result ≡ swap_bytes w64 number }
{
    let mut bytes = [0; 8];
    LittleEndian::write_u64(&mut bytes, number);
    BigEndian::read_u64(&bytes)
}
