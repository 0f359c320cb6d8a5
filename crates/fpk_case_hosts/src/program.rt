//! The program whose cases are played.
ghost use Rattle.std.specs.Thread.{IsSync};

use fp_host::{Host, Remotes, Source};
use std::alloc::Global;
use std::thread::Threads;

/// The program whose cases are played.
pub trait Program {
    /// Runs a command with these words, and returns its exit status.
    fn run<T: Threads + Sync, H: Host, R: Remotes, I: Source>(
        &self,
        rt: &T,
        alloc: Global,
        words: &[String],
        input: &mut I,
        host: &mut H,
        remotes: &mut R,
    ) -> u8
        requires sync { IsSync T.row };
}
