//! A gate that detects whether both halves of a batch are at work at the same time.

use fp_base::Items;
use fp_name::Digest;
use par_digest::Gate;
use std::sync::atomic::{AtomicBool, AtomicU64, Ordering};

/// The maximum number of times that a half checks whether the other one has started.
const TURNS: u64 = 1_000_000_000;

/// The observations of one half.
#[derive(Drop)]
struct Side {
    /// Whether the half has started.
    has_come: AtomicBool,
    /// Whether the half saw that the other one has started.
    saw_other: AtomicBool,
}

impl Side {
    fn new() -> Self {
        Side {
            has_come: AtomicBool::new(false),
            saw_other: AtomicBool::new(false),
        }
    }

    /// Marks this half as started, and waits until the other one has started, for at most `TURNS`
    /// turns.
    fn meet(&self, other: &Side) {
        self.has_come.store(true, Ordering::SeqCst);
        for _ in 0..TURNS {
            if other.has_come.load(Ordering::SeqCst) {
                self.saw_other.store(true, Ordering::SeqCst);
                return;
            }
        }
    }
}

/// A gate that detects whether both halves are at work at the same time. Each half waits at its
/// start until the other one has started, for at most 1,000,000,000 turns. If one thread does one
/// half after the other, the first doesn't see the second. The gate also counts the wanted digests
/// that it is shown.
#[derive(Drop)]
pub struct MeetingGate {
    wanted: Items<Digest>,
    first: Side,
    second: Side,
    shown: AtomicU64,
}

impl MeetingGate {
    /// Makes a gate that no half has reached yet.
    pub fn new(wanted: Items<Digest>) -> Self {
        MeetingGate {
            wanted,
            first: Side::new(),
            second: Side::new(),
            shown: AtomicU64::new(0),
        }
    }

    /// Returns whether each half saw the other one, and the gate was shown as many wanted digests
    /// as there are.
    pub fn have_met(&self) -> bool {
        self.first.saw_other.load(Ordering::SeqCst)
            && self.second.saw_other.load(Ordering::SeqCst)
            && self.shown.load(Ordering::SeqCst) == self.wanted.as_slice().len() as u64
    }
}

impl Gate for MeetingGate {
    fn reach(&self, half: u32) {
        match half {
            0 => self.first.meet(&self.second),
            _ => self.second.meet(&self.first),
        }
    }

    fn watch(&self, _half: u32, digests: &[Digest]) {
        for digest in digests {
            if self.wanted.as_slice().contains(digest) {
                self.shown.fetch_add(1, Ordering::SeqCst);
            }
        }
    }
}
