//! The headers that digests of files and symlinks begin with: a GVariant of the type
//! `(uuuusa(ayay))` after its length.

ghost use Rattle.std.specs.Prelude.{◌≡◌, ◌<◌, ◌^◌, ◌++◌, true, take, IfOk};
ghost use Rattle.std.specs.Int.{w32, to_be_bytes};
ghost use Rattle.byteorder.specs.Endian.{little_bytes};
ghost use Rattle.gv_value.specs.Bytes.{zeros};
ghost use Rattle.fp_host.specs.Paths.{is_link_text};
ghost use Rattle.ost_model.specs.Contents.{header as file_header, link_header as header_of_link, is_permission};

use byteorder::{BigEndian, ByteOrder, LittleEndian};
use fp_base::Blob;
use gv_value::width;
use ost_model::{LINK_MODE, REGULAR_MODE};
use std::alloc::{AllocError, Global};

/// The size of a header's four numbers, in bytes.
const NUMBERS: usize = 16;

/// Returns a header's length, four zero bytes, and the header's four numbers, which are 0 except
/// for the mode. All are in big-endian order.
fn beginning(length: u32, mode: u32) -> [u8; 24]
    ensures { result ≡ to_be_bytes w32 length ++ (zeros 12 ++ (to_be_bytes w32 mode ++ zeros 4)) }
{
    let mut bytes = [0; 24];
    BigEndian::write_u32(&mut bytes[..4], length);
    BigEndian::write_u32(&mut bytes[16..20], mode);
    bytes
}

/// Returns the header of a file with these permission bits, which must be within 0775, after the
/// header's length. The digest is that of the header and then the content.
pub fn header(mode: u32) -> [u8; 26]
    requires { is_permission mode ≡ true }
    ensures { result ≡ file_header mode }
{
    let mut bytes = [0; 26];
    bytes[..24].copy_from_slice(&beginning(18, REGULAR_MODE + mode));
    bytes[25] = 17;
    bytes
}

/// Returns the header of a symlink with this text, which must have 1 to 4,095 bytes and no zero
/// byte, after the header's length. The digest is that of the header.
pub fn link_header(alloc: Global, target: &str) -> Result<Blob, AllocError>
    requires { is_link_text target.now ≡ true }
    ensures { IfOk result (λ bytes. bytes ≡ header_of_link target.now) }
{
    let end = NUMBERS + target.len() + 1;
    let size = width(end, 1);
    let mut offset = [0; 2];
    LittleEndian::write_u16(&mut offset, end as u16);
    let mut bytes = Vec::with_capacity(alloc, 8 + end + size)?;
    bytes.extend_from_slice(&beginning((end + size) as u32, LINK_MODE))?;
    bytes.extend_from_slice(target.as_bytes())?;
    bytes.push(0)?;
    bytes.extend_from_slice(&offset[..size])?;
    Ok(Blob::from_vec(bytes))
}
