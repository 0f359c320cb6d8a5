//! Hooks that are called when the work on each half begins and ends.

use fp_name::Digest;

/// Hooks that are called for each half of the items, when the work on it begins and ends. They
/// can't change a digest. A test can wait in one, and so check that both halves are worked on at
/// the same time.
pub trait Gate {
    /// Observes the start of the work on the first half (0) or the second (1).
    fn reach(&self, half: u32);

    /// Observes the digests of this half: zeros right after `reach`, and all of them once they are
    /// computed.
    fn watch(&self, _half: u32, _digests: &[Digest]) {}
}

/// Hooks that do nothing.
#[derive(Clone, Copy, Debug)]
pub struct NoGate;

impl Gate for NoGate {
    fn reach(&self, _half: u32) {}
}
