//! Reading of single bytes.

ghost use Rattle.bus_frame.specs.Steps.{first_of, remainder_byte};
ghost use Rattle.fp_base.specs.Steps.{Gives};

/// Returns the first byte and those after it, or `None` if there are no bytes.
pub fn first_byte(bytes: &[u8]) -> Option<(u8, &[u8])>
    ensures { Gives (λ b. (b.0, b.1.now)) result (first_of bytes.now) }
{
    match bytes {
        [first, rest @ ..] => Some((*first, rest)),
        [] => None,
    }
}

/// Returns the bytes after the first one, or `None` if the first one isn't `byte`.
pub fn after_byte(byte: u8, bytes: &[u8]) -> Option<&[u8]>
    ensures { Gives (λ rest. rest.now) result (remainder_byte byte bytes.now) }
{
    let (first, rest) = first_byte(bytes)?;
    if first != byte {
        return None;
    }
    Some(rest)
}
