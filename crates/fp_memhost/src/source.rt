//! The source in memory.
ghost use Rattle.std.specs.Prelude.{◌≡◌, ◌≢◌, Some};
ghost use Rattle.fp_memhost.specs.Supply.{fails_now};

use crate::story::Supplier;
use fp_base::Blob;
use fp_host::{Source, Taken, copy_front};

/// A source of given bytes, for tests. It may fail at one call.
#[derive(Drop)]
pub struct MemSource {
    bytes: Blob,
    at: usize,
    step: usize,
    fail_at: Option<u64>,
    calls: u64,
    faults: u64,
    ghost steps: { step ≢ 0 },
}

impl MemSource {
    /// Creates a source of these bytes, which returns at most `step` of them at each call, where
    /// `step` isn't 0, and fails at the call with the number `fail_at`, counted from 0. Allocates
    /// nothing.
    pub fn new(bytes: Blob, step: usize, fail_at: Option<u64>) -> Self
        requires { step ≢ 0 }
        ensures supply { ⟦<MemSource as Supplier>⟧.supply result ≡ record
            { left = bytes; step = step; fail_at = fail_at; calls = 0 } }
        ensures left { ⟦<MemSource as Source>⟧.left result ≡ Some bytes }
        ensures faults { ⟦<MemSource as Source>⟧.faults result ≡ 0 }
    {
        MemSource {
            bytes,
            at: 0,
            step,
            fail_at,
            calls: 0,
            faults: 0,
        }
    }
}

impl Supplier for MemSource {
    ghost use Rattle.fp_memhost.specs.Sources.{supply_of};

    ghost supply = { supply_of };
}

impl Source for MemSource {
    ghost use Rattle.std.specs.Prelude.{◌≡◌, ◌≤◌, Some, length};
    ghost use Rattle.fp_host.specs.Moments.{Rose};
    ghost use Rattle.fp_host.specs.Remote.{Takes, IsWithin};
    ghost use Rattle.fp_memhost.specs.Supply.{Gives};
    ghost use Rattle.fp_memhost.specs.Sources.{supply_of};

    ghost left = { λ s. Some (supply_of s).left };

    ghost faults = { λ s. s.faults };

    fn take(&mut self, into: &mut [u8]) -> Taken
        ensures takes { Takes (Some (supply_of self.old).left) (Some (supply_of self.new).left)
            into.new result }
        ensures within { IsWithin result (length into.old) }
        ensures later { self.old.faults ≤ self.new.faults }
        ensures failed { result ≡ Taken.Failed → Rose self.old.faults self.new.faults }
        ensures gives { Gives (supply_of self.old) (supply_of self.new) (length into.old) result }
    {
        let call = self.calls;
        self.calls = self.calls.saturating_add(1);
        if is_call(self.fail_at, call) {
            self.faults = self.faults.saturating_add(1);
            return Taken::Failed;
        }
        let bytes = self.bytes.as_slice();
        if self.at >= bytes.len() {
            return Taken::End;
        }
        let many = copy_front(&bytes[self.at..], self.step, into);
        self.at += many;
        Taken::Took(many)
    }
}

/// Returns whether this call is to fail.
fn is_call(fail_at: Option<u64>, call: u64) -> bool
    ensures { result ≡ fails_now fail_at call }
{
    match fail_at {
        Some(number) => number == call,
        None => false,
    }
}
