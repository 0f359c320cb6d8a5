//! The client's calls.

ghost use Rattle.std.specs.Prelude.{◌≡◌, ◌<◌, ◌^◌, ◌||◌, ◌==◌, if◌then◌else◌, ℕ, nat_eq, nat_le, List, [], ◌∷◌, true, Some, None, OnOk, OnErr};
ghost use Rattle.fp_base.specs.declared.side.Side.TheVariants as side;
ghost use Rattle.indexmap.specs.IndexMap.{get, index_map_len};
ghost use Rattle.bus_policy.specs.declared.verdict.Verdict.{Verdict};
ghost use Rattle.bus_policy.specs.Driver.{is_listing};
ghost use Rattle.bus_policy.specs.Events.{Judged, is_call, wants_no_reply, is_forwarded};
ghost use Rattle.bus_policy.specs.Watching.{CallsAt, is_up_to, calls_with, judged_event};

use crate::driver::asks_for_names;
use bus_frame::Header;
use indexmap::IndexMap;
use std::alloc::{AllocError, Global};
use std::hash::BuildHasher;

/// The client's calls with one serial that wait for a reply.
#[derive(Clone, Copy)]
pub struct WaitingCalls {
    /// Whether one of the calls lists the names of the bus.
    pub list_names: bool,
    /// Whether the serial was reused: a call with it was forwarded after another one with the same
    /// or a higher serial.
    pub reused: bool,
}

/// Returns the waiting calls with one serial after one more call with it. A call that expects no
/// reply doesn't wait.
fn with_call(header: &Header, reused: bool, waiting: Option<WaitingCalls>) -> Option<WaitingCalls>
    ensures { result
        ≡ calls_with (wants_no_reply header.now) (is_listing header.now) reused waiting }
{
    match (header.flags.want_no_reply(), waiting) {
        (true, None) => None,
        (true, Some(calls)) => Some(WaitingCalls { reused, ..calls }),
        (false, None) => Some(WaitingCalls {
            list_names: asks_for_names(header),
            reused,
        }),
        (false, Some(calls)) => Some(WaitingCalls {
            list_names: calls.list_names || asks_for_names(header),
            reused,
        }),
    }
}

/// The facts that a watch stores of the client's calls.
#[derive(Drop)]
pub struct ClientCalls<S: BuildHasher> {
    /// The waiting calls, by their serials.
    pub waiting: IndexMap<u32, WaitingCalls, S>,
    /// The highest serial of a forwarded call so far.
    pub highest: Option<u32>,
}

impl<S: BuildHasher + Copy> ClientCalls<S> {
    /// Creates the state before any call.
    pub fn new(alloc: Global, hash_builder: S) -> Self
        ensures { CallsAt result [] }
    {
        ClientCalls {
            waiting: IndexMap::with_hasher(alloc, hash_builder),
            highest: None,
        }
    }

    /// Notes a call that is forwarded. Errs only if memory runs out, and then nothing changes.
    pub fn add(&mut self, header: &Header) -> Result<(), AllocError>
        ensures ok { (noted : List Judged) (bytes : List ℕ) (verdict : Verdict)
            → is_call header.now ≡ true → is_forwarded verdict ≡ true → CallsAt self.old noted
            → OnOk result (CallsAt self.new
            (judged_event side.Client header.now bytes verdict ∷ noted)) }
        ensures err { (noted : List Judged) → CallsAt self.old noted
            → OnErr result (CallsAt self.new noted) }
    {
        let reused = self.is_used(header.serial);
        self.put_call(header, reused)?;
        self.raise(header.serial);
        Ok(())
    }

    /// Adds a call to the waiting ones, if it expects a reply. A call that expects none only sets
    /// the mark `reused` of the waiting calls with its serial, if there are any. On an error
    /// nothing changes.
    fn put_call(&mut self, header: &Header, reused: bool) -> Result<(), AllocError>
        ensures ok { OnOk result ((s : ℕ) → get nat_eq self.new.waiting s
            ≡ (if header.now.serial == s then calls_with (wants_no_reply header.now)
            (is_listing header.now) reused (get nat_eq self.old.waiting header.now.serial)
            else get nat_eq self.old.waiting s)) }
        ensures err { OnErr result ((s : ℕ) → get nat_eq self.new.waiting s
            ≡ get nat_eq self.old.waiting s) }
        ensures highest { self.new.highest ≡ self.old.highest }
    {
        match with_call(header, reused, self.with_serial(header.serial)) {
            Some(calls) => self.put(header.serial, calls),
            None => Ok(()),
        }
    }

    /// Removes all calls with this serial, to which a reply was forwarded.
    pub fn end(&mut self, serial: u32)
        ensures waiting { (s : ℕ) → get nat_eq self.new.waiting s
            ≡ (if serial == s then None else get nat_eq self.old.waiting s) }
        ensures highest { self.new.highest ≡ self.old.highest }
    {
        self.waiting.swap_remove(&serial);
    }

    /// Returns whether a call with this serial or a higher one was forwarded.
    fn is_used(&self, serial: u32) -> bool
        ensures { result ≡ is_up_to self.now.highest serial }
    {
        match self.highest {
            Some(highest) => serial <= highest,
            None => false,
        }
    }

    /// Sets the waiting calls with this serial. On an error nothing changes.
    fn put(&mut self, serial: u32, calls: WaitingCalls) -> Result<(), AllocError>
        ensures ok { OnOk result ((s : ℕ) → get nat_eq self.new.waiting s
            ≡ (if serial == s then Some calls else get nat_eq self.old.waiting s)) }
        ensures err { OnErr result ((s : ℕ) → get nat_eq self.new.waiting s
            ≡ get nat_eq self.old.waiting s) }
        ensures highest { self.new.highest ≡ self.old.highest }
    {
        self.waiting.insert(serial, calls)?;
        Ok(())
    }

    /// Raises the highest serial to this one, if it is lower.
    fn raise(&mut self, serial: u32)
        ensures waiting { self.new.waiting ≡ self.old.waiting }
        ensures highest { (s : ℕ) → is_up_to self.new.highest s
            ≡ (nat_le s serial || is_up_to self.old.highest s) }
    {
        if !self.is_used(serial) {
            self.highest = Some(serial);
        }
    }
}

impl<S: BuildHasher> ClientCalls<S> {
    /// Returns the number of serials with waiting calls.
    pub fn count(&self) -> usize
        ensures count { result ≡ index_map_len self.now.waiting }
        ensures small { result < 2 ^ 63 }
    {
        self.waiting.len()
    }

    /// Returns the waiting calls with this serial, if there are any.
    pub fn with_serial(&self, serial: u32) -> Option<WaitingCalls>
        ensures { result ≡ get nat_eq self.now.waiting serial }
    {
        self.waiting.get(&serial).copied()
    }
}
