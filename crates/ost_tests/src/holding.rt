//! A gate that stops one half of the work until the other half is done.

use fp_base::Items;
use fp_name::Digest;
use par_digest::Gate;
use std::sync::atomic::{AtomicBool, AtomicU64, Ordering};

/// The maximum number of times that the stopped half looks whether the other one is done.
const TURNS: u64 = 1_000_000_000;

/// Returns whether no digest is computed yet: all of them are zero.
fn are_zeros(digests: &[Digest]) -> bool {
    for digest in digests {
        if *digest.as_bytes() != [0; 32] {
            return false;
        }
    }
    true
}

/// The calls of the gate for one half.
#[derive(Drop)]
struct Side {
    reached: AtomicU64,
    watched: AtomicU64,
    // Whether there was a call too many, or one with wrong digests.
    is_wrong: AtomicBool,
}

impl Side {
    fn new() -> Self {
        Side {
            reached: AtomicU64::new(0),
            watched: AtomicU64::new(0),
            is_wrong: AtomicBool::new(false),
        }
    }

    /// Counts a call: the first one must have only zeros, the second one all wanted digests.
    fn watch(&self, digests: &[Digest], wanted: &[Digest]) {
        let is_due = match self.watched.fetch_add(1, Ordering::SeqCst) {
            0 => digests.len() == wanted.len() && are_zeros(digests),
            1 => digests == wanted,
            _ => false,
        };
        if !is_due {
            self.is_wrong.store(true, Ordering::SeqCst);
        }
    }

    /// Returns whether there were this many calls of each kind, and none was wrong.
    fn has_told(&self, reached: u64, watched: u64) -> bool {
        self.reached.load(Ordering::SeqCst) == reached
            && self.watched.load(Ordering::SeqCst) == watched
            && !self.is_wrong.load(Ordering::SeqCst)
    }
}

/// A gate that stops one half as it begins, until the other half has shown all of its digests, for
/// at most `TURNS` looks. It counts the calls for anything but a half.
#[derive(Drop)]
pub struct HoldingGate {
    held: u32,
    wanted: Items<Digest>,
    first: Side,
    second: Side,
    gave_up: AtomicBool,
    strays: AtomicU64,
}

impl HoldingGate {
    /// Makes a gate that stops this half (0 or 1). The digests are those that both halves have to
    /// show.
    pub fn new(held: u32, wanted: Items<Digest>) -> Self {
        HoldingGate {
            held,
            wanted,
            first: Side::new(),
            second: Side::new(),
            gave_up: AtomicBool::new(false),
            strays: AtomicU64::new(0),
        }
    }

    /// Returns whether each half had this many calls of each kind, no call was wrong, and the
    /// stopped half saw the other one done.
    fn have_told(&self, reached: u64, watched: u64) -> bool {
        self.first.has_told(reached, watched)
            && self.second.has_told(reached, watched)
            && !self.gave_up.load(Ordering::SeqCst)
            && self.strays.load(Ordering::SeqCst) == 0
    }

    /// Returns whether both halves of this many items were at work, each with only zeros first and
    /// then with its digests; for up to 16 items, which aren't split, whether there was no call.
    pub fn is_as_due(&self, count: usize) -> bool {
        if count > 16 {
            self.have_told(1, 2)
        } else {
            self.have_told(0, 0)
        }
    }

    /// Waits until the other half is done, for at most `TURNS` looks.
    fn hold(&self, other: &Side) {
        for _ in 0..TURNS {
            if other.watched.load(Ordering::SeqCst) >= 2 {
                return;
            }
        }
        self.gave_up.store(true, Ordering::SeqCst);
    }

    /// Counts the start of a half, and stops it if it is the one to be stopped.
    fn begin(&self, half: u32, this: &Side, other: &Side) {
        this.reached.fetch_add(1, Ordering::SeqCst);
        if half == self.held {
            self.hold(other);
        }
    }

    /// Counts a call for anything but a half.
    fn stray(&self) {
        self.strays.fetch_add(1, Ordering::SeqCst);
    }
}

impl Gate for HoldingGate {
    fn reach(&self, half: u32) {
        match half {
            0 => self.begin(half, &self.first, &self.second),
            1 => self.begin(half, &self.second, &self.first),
            _ => self.stray(),
        }
    }

    fn watch(&self, half: u32, digests: &[Digest]) {
        let (front, back) = self.wanted.as_slice().split_at(self.wanted.len() / 2);
        match half {
            0 => self.first.watch(digests, front),
            1 => self.second.watch(digests, back),
            _ => self.stray(),
        }
    }
}
