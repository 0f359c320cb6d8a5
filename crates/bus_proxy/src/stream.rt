//! The stream of one side.

ghost use Rattle.std.specs.Prelude.{◌≡◌, ◌++◌, [], IfOk, OnOk};
ghost use Rattle.bus_proxy.specs.Streaming.{StreamAt, StreamGave};

use crate::error::FilterError;
use bus_frame::{FrameError, Header};
use bus_stream::{Cut, Cutter};
use bytes::Bytes;
use fp_base::Side;
use std::alloc::{AllocError, Global};

/// The next message of a side, if it is whole.
#[derive(Drop)]
pub enum Arrival {
    /// A message of a side, with its header.
    Message(Side, Header, Bytes),
    /// The next message isn't whole yet.
    NotYet,
}

/// A stream of messages, and the number of those that were taken.
#[derive(Drop)]
pub struct Stream {
    /// The bytes that were fed and aren't taken yet.
    pub cutter: Cutter,
    /// The number of messages that were taken; it stays at 2^64 - 1 once it gets there.
    pub count: u64,
}

impl Stream {
    /// Creates a stream without bytes. Errs only if memory runs out.
    pub fn new(alloc: Global) -> Result<Self, AllocError>
        ensures { IfOk result (λ s. (s.cutter ≡ []) × (s.count ≡ 0)) }
    {
        Ok(Stream {
            cutter: Cutter::new(alloc)?,
            count: 0,
        })
    }

    /// Appends a piece. Errs only if memory runs out.
    pub fn feed(&mut self, piece: &[u8]) -> Result<(), AllocError>
        ensures cutter { OnOk result (self.new.cutter ≡ self.old.cutter ++ piece.now) }
        ensures count { self.new.count ≡ self.old.count }
    {
        self.cutter.feed(piece)
    }

    /// Takes the next message of this stream, which belongs to `side`.
    pub fn next(&mut self, side: Side) -> Result<Arrival, FilterError>
        ensures { StreamGave result side self.old self.new }
    {
        match self.cutter.next() {
            Ok(Cut::Message(header, message)) => {
                self.count = self.count.saturating_add(1);
                Ok(Arrival::Message(side, header, message))
            }
            Ok(Cut::NotYet) => Ok(Arrival::NotYet),
            Err(FrameError::Bad(rule)) => Err(FilterError::Bad(side, self.count, rule)),
            Err(FrameError::NoMemory) => Err(FilterError::NoMemory),
        }
    }
}
