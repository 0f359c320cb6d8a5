//! Copying of bytes into a buffer.
ghost use Rattle.std.specs.Prelude.{◌≡◌, ◌≤◌, ◌-◌, length, take, drop, min};

/// Copies bytes from the front of `from` to the front of `into`. Returns their number, the least of
/// both lengths and `most`.
pub fn copy_front(from: &[u8], most: usize, into: &mut [u8]) -> usize
    ensures many { result ≡ min (min (length from.now) (length into.old)) most }
    ensures same { take result into.new ≡ take result from.now }
    ensures len { length into.new ≡ length into.old }
{
    let many = from.len().min(into.len()).min(most);
    into[..many].copy_from_slice(&from[..many]);
    many
}

/// Copies bytes of `bytes` from the offset `at` on to the front of `into`: as many as fit or are
/// left. Returns their number, which is 0 if the offset is at or past the end.
pub fn copy_out(bytes: &[u8], at: u64, into: &mut [u8]) -> usize
    ensures many { result ≡ min (length into.old) (length bytes.now - at) }
    ensures same { take result into.new ≡ take result (drop at bytes.now) }
    ensures len { length into.new ≡ length into.old }
{
    let at = at as usize;
    if at >= bytes.len() {
        return 0;
    }
    copy_front(&bytes[at..], bytes.len(), into)
}
