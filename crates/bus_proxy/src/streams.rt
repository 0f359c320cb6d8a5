//! The streams of both sides.

ghost use Rattle.std.specs.Prelude.{◌≡◌, ◌↔◌, ◌++◌, ◌<◌, [], nat_lt, IsTrue, IfOk, OnOk, length};
ghost use Rattle.bus_frame.specs.Reading.{whole, frame_of};
ghost use Rattle.bus_proxy.specs.Arrivals.{other_side};
ghost use Rattle.bus_proxy.specs.Streaming.{stream_of, StreamsAt, StreamsGave, IfArrived, unread_bytes, Fed, FirstRest};

use crate::error::FilterError;
use crate::stream::{Arrival, Stream};
use fp_base::Side;
use std::alloc::{AllocError, Global};

/// The streams of both sides, and the side that was fed last.
#[derive(Drop)]
pub struct Streams {
    /// The stream of the client.
    pub client: Stream,
    /// The stream of the bus.
    pub bus: Stream,
    /// The side that was fed last.
    pub latest: Side,
}

impl Streams {
    /// Creates streams without bytes. Errs only if memory runs out.
    pub fn new(alloc: Global) -> Result<Self, AllocError>
        ensures { IfOk result (λ s. StreamsAt s [] []) }
    {
        Ok(Streams {
            client: Stream::new(alloc)?,
            bus: Stream::new(alloc)?,
            latest: Side::Client,
        })
    }

    /// Appends a piece of a side. Errs only if memory runs out.
    pub fn feed(&mut self, side: Side, piece: &[u8]) -> Result<(), AllocError>
        ensures { OnOk result (Fed self.old self.new side piece.now) }
    {
        self.latest = side;
        match side {
            Side::Client => self.client.feed(piece),
            Side::Bus => self.bus.feed(piece),
        }
    }

    /// Takes the next message of the side that was fed last. The other side has no whole message
    /// left.
    pub fn next(&mut self) -> Result<Arrival, FilterError>
        ensures gave { StreamsGave result self.old self.new }
        ensures message { IfArrived result
            (λ header bytes. frame_of bytes ≡ whole header (length bytes)) }
        ensures less { IfArrived result
            (λ header bytes. unread_bytes self.new < unread_bytes self.old) }
    {
        match self.latest {
            Side::Client => self.client.next(Side::Client),
            Side::Bus => self.bus.next(Side::Bus),
        }
    }

    /// Returns the first side that has bytes left, the client before the bus, with the number of
    /// messages taken from it.
    pub fn rest(&self) -> Option<(Side, u64)>
        ensures { FirstRest result self.now }
    {
        if self.client.cutter.pending() > 0 {
            return Some((Side::Client, self.client.count));
        }
        if self.bus.cutter.pending() > 0 {
            return Some((Side::Bus, self.bus.count));
        }
        None
    }
}
