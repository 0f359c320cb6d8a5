//! The permission bits that a file has on the disk, and the bits that a caller asked for.
ghost use Rattle.std.specs.Prelude.{ℕ, ◌≡◌, ◌≤◌, false};
ghost use Rattle.fp_host.specs.declared.limits.TheConstants.{PERMISSION_BITS};
ghost use Rattle.fp_system.specs.Bits.{asked, is_readable, is_sticky, kept};

/// The owner's read bit.
const READABLE: u32 = 0o400;

/// The sticky bit, which Linux ignores on a regular file.
const STICKY: u32 = 0o1000;

/// Returns whether the sticky bit is set.
pub fn is_sticky(bits: u32) -> bool
    ensures { result ≡ is_sticky bits }
{
    bits / STICKY % 2 == 1
}

fn is_readable(bits: u32) -> bool
    ensures { result ≡ is_readable bits }
{
    bits / READABLE % 2 == 1
}

/// Returns the bits that a file gets on the disk, from those that a caller asked for. The owner may
/// always read the file; if that wasn't asked for, the sticky bit marks it.
pub fn kept_bits(bits: u32) -> u32
    requires { bits ≤ PERMISSION_BITS }
    ensures { result ≡ kept bits }
{
    if is_readable(bits) {
        bits
    } else {
        bits + (READABLE + STICKY)
    }
}

/// Returns the bits that a caller asked for, from those on the disk.
pub fn asked_bits(bits: u32) -> u32
    ensures asked { result ≡ asked bits }
    ensures bound { result ≤ bits }
{
    if !is_sticky(bits) {
        return bits;
    }
    if is_readable(bits) {
        bits - (READABLE + STICKY)
    } else {
        bits - STICKY
    }
}

/// States that `asked_bits` undoes `kept_bits` for bits without the sticky bit. A file with the
/// bits 0, which nobody may read, has 0o1400 on the disk.
pub fn bits_come_back()
    ensures all { (bits : ℕ) → is_sticky bits ≡ false → asked (kept bits) ≡ bits }
    ensures unread { kept 0 ≡ 768 }
    ensures read { kept 420 ≡ 420 }
{}
