//! Appending bytes and numbers, up to the limit of 16 MiB.
ghost use Rattle.std.specs.Prelude.{◌≡◌, ◌≤◌, ◌+◌, vec_len};
ghost use Rattle.gv_value.specs.declared.limits.TheConstants.{MOST_BYTES};
ghost use Rattle.gv_value.specs.Bytes.{le_bytes, zeros};
ghost use Rattle.gv_encode.specs.Encoded.{Adds};

use crate::error::EncodeError;
use byteorder::{ByteOrder, LittleEndian};
use gv_value::MOST_BYTES;

/// Returns the number of bytes that may still be appended.
pub fn room_left(out: &Vec<u8>) -> usize
    requires { vec_len out.now ≤ MOST_BYTES }
    ensures { result + vec_len out.now ≡ MOST_BYTES }
{
    MOST_BYTES as usize - out.len()
}

/// Appends bytes. Errs with `TooLong` if the whole would be above 16 MiB.
pub fn append(out: &mut Vec<u8>, bytes: &[u8]) -> Result<(), EncodeError>
    requires { vec_len out.old ≤ MOST_BYTES }
    ensures { Adds result out.old.items out.new.items bytes.now }
{
    if bytes.len() > room_left(out) {
        return Err(EncodeError::TooLong);
    }
    out.extend_from_slice(bytes)?;
    Ok(())
}

/// Appends zero bytes. Errs with `TooLong` if the whole would be above 16 MiB.
pub fn append_zeros(out: &mut Vec<u8>, count: usize) -> Result<(), EncodeError>
    requires { vec_len out.old ≤ MOST_BYTES }
    ensures { Adds result out.old.items out.new.items (zeros count) }
{
    if count > room_left(out) {
        return Err(EncodeError::TooLong);
    }
    let end = out.len() + count;
    out.resize(end, 0)?;
    Ok(())
}

/// Appends the lowest `size` bytes of a number, in little-endian order. Errs with `TooLong` if the
/// whole would be above 16 MiB.
pub fn append_number(out: &mut Vec<u8>, number: u64, size: usize) -> Result<(), EncodeError>
    requires room { vec_len out.old ≤ MOST_BYTES }
    requires small { size ≤ 8 }
    ensures { Adds result out.old.items out.new.items (le_bytes size number) }
{
    let mut bytes = [0; 8];
    LittleEndian::write_u64(&mut bytes, number);
    append(out, &bytes[..size])
}
