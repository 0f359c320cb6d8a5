//! The filter between a client and its bus.

ghost use Rattle.std.specs.Prelude.{◌≡◌, ◌∷◌, ◌<◌, ℕ, [], List, length, Some, IsTrue, IsErrOf, IfOk, OnOk, option_map};
ghost use Rattle.std.specs.Option.{ForSome};
ghost use Rattle.bus_frame.specs.Names.{is_unique};
ghost use Rattle.bus_frame.specs.Reading.{whole, frame_of};
ghost use Rattle.bus_policy.specs.Events.{Event};
ghost use Rattle.bus_policy.specs.Watching.{event};
ghost use Rattle.bus_proxy.specs.declared.out.Out.{Out as TheOut};
ghost use Rattle.bus_proxy.specs.Arrivals.{Pieces, End, events, breach, end_of};
ghost use Rattle.bus_proxy.specs.Outs.{Setting, setting};
ghost use Rattle.bus_proxy.specs.Filters.{JudgeAt, FilterAt, AllTaken, Made, Gives, TookEvent, AnswersEnd, IsNotYet, unread, kept_by};

use crate::error::FilterError;
use crate::judge::Judge;
use crate::out::Out;
use crate::stream::Arrival;
use crate::streams::Streams;
use bus_frame::Header;
use bus_policy::{FixedHasher, Policy};
use bytes::Bytes;
use fp_base::{FrameRule, Items, Side, Text};
use std::alloc::{AllocError, Global};
use std::hash::{BuildHasher, BuildHasherDefault};

/// The result of taking the next message.
#[derive(Drop)]
pub enum Next {
    /// A message was taken, and this one is to be sent.
    Out(Out),
    /// A message was taken, and nothing is to be sent.
    Quiet,
    /// The next message isn't whole yet.
    NotYet,
}

/// A filter between a client and its bus. It is fed what they send, in pieces.
///
/// Call `next` after each `feed` until it returns `NotYet`. Only then feed the next piece.
#[derive(Drop)]
pub struct Filter<S: BuildHasher = FixedHasher> {
    pub(crate) streams: Streams,
    pub(crate) judge: Judge<S>,
}

impl Filter {
    /// Creates a filter with a policy, the client's unique name if it is known, and well-known
    /// names with their owners. Errs only if memory runs out.
    pub fn new(
        alloc: Global,
        policy: Policy,
        client: Option<&str>,
        owners: &Items<(Text, Text)>,
    ) -> Result<Self, AllocError>
        requires client { ForSome client (λ t. IsTrue (is_unique t.now)) }
        ensures at { IfOk result (λ f. FilterAt f
            (setting policy (option_map (λ t. t.now) client.entry) owners.now) [] [] []) }
    {
        Filter::with_hasher(alloc, policy, client, owners, BuildHasherDefault::new())
    }
}

impl<S: BuildHasher + Copy> Filter<S> {
    /// Creates a filter as `Filter::new` does, with the caller's hasher for the tables of names and
    /// calls.
    pub fn with_hasher(
        alloc: Global,
        policy: Policy,
        client: Option<&str>,
        owners: &Items<(Text, Text)>,
        hash_builder: S,
    ) -> Result<Self, AllocError>
        requires client { ForSome client (λ t. IsTrue (is_unique t.now)) }
        ensures at { IfOk result (λ f. FilterAt f
            (setting policy (option_map (λ t. t.now) client.entry) owners.now) [] [] []) }
    {
        let streams = Streams::new(alloc)?;
        Ok(Filter {
            streams,
            judge: Judge::new(alloc, policy, client, owners, hash_builder)?,
        })
    }

    /// Adds a piece of what a side sends. All whole messages must have been taken. If memory runs
    /// out, the filter can only be dropped.
    pub fn feed(&mut self, side: Side, piece: &[u8]) -> Result<(), AllocError>
        ensures at { (s : Setting) (fed : Pieces) (taken : List Event) (given : List TheOut)
            → FilterAt self.old s fed taken given
            → AllTaken fed taken
            → OnOk result (FilterAt self.new s ((side, piece.now) ∷ fed) taken given) }
    {
        self.streams.feed(side, piece)
    }

    /// Takes the next message.
    ///
    /// Errs with `Bad` and the rule that a message breaks; each later call returns the same error.
    /// If memory runs out, the filter can only be dropped.
    pub fn next(&mut self) -> Result<Next, FilterError>
        ensures at { (s : Setting) (fed : Pieces) (taken : List Event) (given : List TheOut)
            → FilterAt self.old s fed taken given
            → Gives result self.new s fed taken given }

        // If no event is left, the call allocates nothing.
        ensures not_yet { (s : Setting) (fed : Pieces) (taken : List Event) (given : List TheOut)
            → FilterAt self.old s fed taken given
            → AllTaken fed taken → IsNotYet result }
        ensures bad { (s : Setting) (fed : Pieces) (taken : List Event) (given : List TheOut)
            → FilterAt self.old s fed taken given
            → events fed ≡ taken → (side : Side) (index : ℕ) (rule : FrameRule)
            → breach fed ≡ Some (side, index, rule)
            → IsErrOf result (FilterError.Bad side index rule) }

        // Only finitely many events are taken from what was fed.
        ensures less { TookEvent result → unread self.new < unread self.old }
    {
        match self.streams.next() {
            Ok(Arrival::Message(side, header, message)) => self.take(side, &header, message),
            Ok(Arrival::NotYet) => Ok(Next::NotYet),
            Err(error) => Err(error),
        }
    }

    /// Returns the message to be sent for another one, if any, and counts that one as taken.
    fn take(&mut self, side: Side, header: &Header, message: Bytes) -> Result<Next, FilterError>
        requires { frame_of message ≡ whole header.now (length message) }
        ensures streams { self.new.streams ≡ self.old.streams }
        ensures made { (s : Setting) (taken : List Event) → JudgeAt self.old.judge s taken
            → Made result self.new.judge s taken (event side header.now message) }
    {
        match self.judge.take(side, header, message)? {
            Some(out) => Ok(Next::Out(out)),
            None => Ok(Next::Quiet),
        }
    }

    /// Returns the number of stored peers plus the number of serials with waiting calls of the
    /// client.
    pub fn count_kept(&self) -> usize
        ensures { result ≡ kept_by self.now }
    {
        self.judge.watch.count_kept()
    }

    /// Checks that no side's bytes end within a message, after all whole messages were taken. Errs
    /// with `Bad` and `FrameRule::Cut` for the client's side first, then for the bus's, and never
    /// with `NoMemory`.
    pub fn end(&self) -> Result<(), FilterError>
        ensures at { (s : Setting) (fed : Pieces) (taken : List Event) (given : List TheOut)
            → FilterAt self.now s fed taken given
            → AllTaken fed taken → AnswersEnd result (end_of fed) }
        ensures needs_no_memory { IsErrOf result FilterError.NoMemory → ⊥ }
    {
        match self.streams.rest() {
            Some((side, index)) => Err(FilterError::Bad(side, index, FrameRule::Cut)),
            None => Ok(()),
        }
    }
}
