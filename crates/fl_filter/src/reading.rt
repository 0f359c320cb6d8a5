//! Reading of recordings.
ghost use Rattle.std.specs.Prelude.{IfOk, IsTrue};
ghost use Rattle.std.specs.Option.{ForSome};
ghost use Rattle.bus_frame.specs.Names.{is_unique};
ghost use Rattle.bus_stream.specs.Recordings.{recording_of as recording_in, AnswersRecording};

use bus_stream::{RecordError, Recording, read_recording};
use std::alloc::Global;

/// Reads a recording. Its lines are `client UNIQUE` at most once and `owner NAME UNIQUE`, then `c
/// HEX` and `b HEX`. Errs with the number of the first bad line, counted from 1, or if memory runs
/// out. The client's name is a unique bus name.
pub fn recording_of(alloc: Global, bytes: &[u8]) -> Result<Recording, RecordError>
    ensures read { AnswersRecording result (recording_in bytes.now) }
    ensures client { IfOk result (λ recording. ForSome recording.client (λ name. IsTrue
        (is_unique name))) }
{
    read_recording(alloc, bytes)
}
