//! The text of a symlink.
ghost use Rattle.std.specs.Prelude.{◌≡◌, ◌==◌, not};
ghost use Rattle.std.specs.List.{list_all};
ghost use Rattle.fp_host.specs.Paths as spec;

use crate::limits::MOST_LINK_BYTES;

/// Returns whether the text may be a symlink's: 1 to 4,095 bytes, none of them zero.
pub fn is_link_text(text: &str) -> bool
    ensures { result ≡ spec.is_link_text text.now }
{
    let bytes = text.as_bytes();
    if bytes.is_empty() || bytes.len() > MOST_LINK_BYTES {
        return false;
    }
    has_no_zero(bytes)
}

/// Returns whether no byte is zero.
fn has_no_zero(bytes: &[u8]) -> bool
    ensures { result ≡ list_all (λ b. not (b == 0)) bytes.now }
{
    bytes.iter().all(|b| *b != 0)
}
