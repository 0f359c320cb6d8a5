//! Reading the input of a command.
ghost use Rattle.std.specs.Prelude.{◌≡◌, ◌≤◌, ◌<◌, IfOk, IfErr, length};
ghost use Rattle.fl_top.specs.Input.{input_most, IsWhole, IsTaken, InputStops, Adds, StepStops};

use fp_base::Blob;
use fp_host::{PIECE_BYTES, Source, Taken};
use std::alloc::{AllocError, Global};

/// The error of reading the input.
#[derive(Clone, Copy, Debug, PartialEq, Eq)]
pub(crate) enum InputEnd {
    /// The input has more than 64 MiB.
    TooLong,
    /// The source failed.
    Fault,
    /// Memory ran out.
    NoMemory,
}

impl From<AllocError> for InputEnd {
    ghost use Rattle.std.specs.Prelude.{◌≡◌};
    ghost use Rattle.fl_top.specs.declared.input.InputEnd.TheVariants.{NoMemory};

    ghost from_gives = { λ _ end. end ≡ NoMemory };

    fn from(_: AllocError) -> InputEnd {
        InputEnd::NoMemory
    }
}

/// The maximum length of the input, in bytes.
const MOST_INPUT: usize = 64 * 1024 * 1024;

/// The number in the refusal of an input that is too long: the first one above the limit.
pub(crate) const TOO_LONG_INPUT: u64 = MOST_INPUT as u64 + 1;

/// Reads all bytes that are left, at most 64 MiB. Errs with `TooLong` only if there are more, and
/// with `Fault` only if the source failed.
pub(crate) fn read_input<I: Source>(alloc: Global, input: &mut I) -> Result<Blob, InputEnd>
    ensures ok { IfOk result (IsWhole (I.left input.old)) }
    ensures taken { IfOk result (λ bytes. IsTaken (I.left input.old) (I.left input.new)) }
    ensures stops { IfErr result (InputStops (I.left input.old)
        (I.faults input.old) (I.faults input.new)) }
    ensures later { I.faults input.old ≤ I.faults input.new }
{
    let mut buffer = vec![in alloc; 0; PIECE_BYTES]?;
    let mut bytes = Vec::new(alloc);
    loop {
        if !take_some(input, &mut buffer, &mut bytes)? {
            return Ok(Blob::from_vec(bytes));
        }
        if bytes.len() > MOST_INPUT {
            return Err(InputEnd::TooLong);
        }
    }
}

/// Takes the next bytes of the input, appends them, and returns whether there were any.
fn take_some<I: Source>(
    input: &mut I,
    buffer: &mut [u8],
    bytes: &mut Vec<u8>,
) -> Result<bool, InputEnd>
    requires { 0 < length buffer.old }
    ensures ok { IfOk result (Adds (I.left input.old) (I.left input.new) bytes.old.items
        bytes.new.items) }
    ensures stops { IfErr result (StepStops (I.faults input.old) (I.faults input.new)) }
    ensures later { I.faults input.old ≤ I.faults input.new }
{
    match input.take(buffer) {
        Taken::Took(0) | Taken::End => Ok(false),
        Taken::Took(count) => {
            bytes.extend_from_slice(&buffer[..count])?;
            Ok(true)
        }
        Taken::Failed => Err(InputEnd::Fault),
    }
}
