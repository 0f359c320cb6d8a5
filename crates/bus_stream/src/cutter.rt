//! Streams of D-Bus messages that arrive in pieces.

ghost use Rattle.std.specs.Prelude.{◌≡◌, ◌↔◌, ℕ, List, [], ◌++◌, ◌<◌, ◌≤◌, slice_index, length, take, IfOk, OnOk, OnErr, IsErrOf};
ghost use Rattle.fp_base.specs.declared.frame_rule.FrameRule.{FrameRule};
ghost use Rattle.bus_frame.specs.Answers.{AnswersFrame, BeginsBroken, IfFrame};
ghost use Rattle.bus_frame.specs.Frame.{Frame};
ghost use Rattle.bus_frame.specs.Reading.{frame_of};
ghost use Rattle.bus_stream.specs.Stream.{Message, CutterAt, NothingYet};

use bus_frame::{FrameError, Header, ReadFrame, read_frame};
use bytes::{Bytes, BytesMut};
use std::alloc::{AllocError, Global};
use std::marker::Model;

/// The capacity of a new stream's buffer, in bytes.
const FIRST_ROOM: usize = 4_096;

/// The result of taking the next message from a stream.
#[derive(Drop)]
pub enum Cut {
    /// A whole message with its header. Its bytes are split off the stream's buffer without a copy.
    Message(Header, Bytes),
    /// The next message isn't whole, and no rule is broken yet.
    NotYet,
}

/// Reads the message at the front of some bytes. Its contract adds that each byte is below 256.
fn front(alloc: Global, bytes: &[u8]) -> Result<ReadFrame, FrameError>
    ensures exact { AnswersFrame result (frame_of bytes.now) }
    ensures message { IfFrame result (λ header len. (len ≤ length bytes.now) × Frame
        (take len bytes.now) header) }
    ensures bytes { (i : ℕ) → slice_index bytes.now i < 256 }
{
    read_frame(alloc, bytes)
}

/// A stream of messages that arrives in pieces. It contains only the bytes that aren't taken yet.
#[derive(Drop)]
pub struct Cutter {
    bytes: BytesMut,
}

impl Model for Cutter {
    ghost use Rattle.std.specs.Prelude.{List, ℕ};

    ghost Value = { List ℕ };

    ghost view = { λ c. c.bytes.items };
}

impl Cutter {
    ghost use Rattle.bus_stream.specs.Cuts.{AnswersCut, with_given, AreAll, IsNotYet};

    /// Creates a stream without bytes. Errs only if memory runs out.
    pub fn new(alloc: Global) -> Result<Self, AllocError>
        ensures nothing { IfOk result (λ c. c ≡ []) }
        ensures at { IfOk result (λ c. CutterAt c [] []) }
    {
        Ok(Cutter {
            bytes: BytesMut::with_capacity(alloc, FIRST_ROOM)?,
        })
    }

    /// Appends a piece. Errs only if memory runs out, and then nothing changes.
    pub fn feed(&mut self, piece: &[u8]) -> Result<(), AllocError>
        ensures ok { OnOk result (self.new ≡ self.old ++ piece.now) }
        ensures err { OnErr result (self.new ≡ self.old) }

        // Messages that were taken stay taken, and a broken rule stays broken.
        ensures at { (fed : List ℕ) (given : List Message) → CutterAt self.old fed given
            → OnOk result (CutterAt self.new (fed ++ piece.now) given) }
        ensures broken { (rule : FrameRule) → BeginsBroken self.old rule → BeginsBroken self.new
            rule }
    {
        self.bytes.extend_from_slice(piece)
    }

    /// Takes the next whole message off the front.
    ///
    /// Errs with `Bad` and the rule if the next bytes break one; each later call returns the same
    /// error, whatever is fed. Errs with `NoMemory` only if a message is whole. After an error and
    /// after `NotYet` nothing has changed.
    pub fn next(&mut self) -> Result<Cut, FrameError>
        ensures exact { AnswersCut result self.old self.new }
        ensures not_yet { IsNotYet result ↔ NothingYet self.old }
        ensures broken { (rule : FrameRule) → IsErrOf result (FrameError.Bad rule) ↔ BeginsBroken
            self.old rule }
        ensures err { OnErr result (self.new ≡ self.old) }

        // The messages taken are whole messages of what was fed, and in the end all of them, in
        // whatever pieces it was fed.
        ensures at { (fed : List ℕ) (given : List Message) → CutterAt self.old fed given
            → CutterAt self.new fed (with_given result given) }
        ensures all { (fed : List ℕ) (given : List Message) → CutterAt self.old fed given → AreAll
            result fed given }
    {
        self.take_message()
    }

    fn take_message(&mut self) -> Result<Cut, FrameError>
        ensures exact { AnswersCut result self.old self.new }
        ensures bytes { (i : ℕ) → slice_index self.old i < 256 }
    {
        let alloc = *self.bytes.allocator();
        match front(alloc, self.bytes.as_slice())? {
            ReadFrame::Need(_) => Ok(Cut::NotYet),
            ReadFrame::Frame(header, len) => {
                let message = self.bytes.freeze_to(len as usize)?;
                Ok(Cut::Message(header, message))
            }
        }
    }

    /// Returns the number of bytes that were fed and aren't taken yet.
    pub fn pending(&self) -> u64
        ensures { result ≡ length self.now }
    {
        self.bytes.len() as u64
    }
}
