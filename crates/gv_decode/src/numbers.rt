//! Reading numbers from bytes.
ghost use Rattle.std.specs.Prelude.{◌≡◌, ◌≤◌, ◌<◌, ◌^◌, length};
ghost use Rattle.gv_value.specs.Bytes.{le_value, all_zero as all_are_zero};

use byteorder::{ByteOrder, LittleEndian};

/// Returns the number in one to eight bytes, in little-endian order.
pub fn number(bytes: &[u8]) -> u64
    requires some { 0 < length bytes.now }
    requires few { length bytes.now ≤ 8 }
    ensures value { result ≡ le_value bytes.now }
    ensures below { result < 256 ^ length bytes.now }
{
    LittleEndian::read_uint(bytes, bytes.len())
}

/// Returns whether all bytes are zero.
pub fn all_zero(bytes: &[u8]) -> bool
    ensures { result ≡ all_are_zero bytes.now }
{
    for byte in bytes {
        if *byte != 0 {
            return false;
        }
    }
    true
}
