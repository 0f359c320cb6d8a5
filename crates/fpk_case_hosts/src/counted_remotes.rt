//! Remotes in memory whose calls are counted, and one of whose reads may return a changed byte.
ghost use Rattle.std.specs.Prelude.{None};

use fp_host::{Node, Path, RemoteError, Remotes};
use fp_memhost::MemRemotes;
use std::alloc::Global;

/// The number of calls of remotes.
#[derive(Clone, Copy)]
pub struct RemoteCalls {
    /// All calls.
    pub all: u64,
    /// The reads that returned bytes.
    pub reads: u64,
}

/// Remotes in memory whose calls are counted.
#[derive(Drop)]
pub struct CountedRemotes {
    remotes: MemRemotes,
    calls: RemoteCalls,
    /// The read whose first byte is changed, counted from 0. Only reads that return bytes count.
    turned: Option<u64>,
}

impl CountedRemotes {
    /// Creates remotes of which no call was made yet.
    pub fn new(remotes: MemRemotes, turned: Option<u64>) -> Self {
        let calls = RemoteCalls { all: 0, reads: 0 };
        CountedRemotes {
            remotes,
            calls,
            turned,
        }
    }

    /// Returns the number of calls so far.
    pub fn calls(&self) -> RemoteCalls {
        self.calls
    }
}

impl Remotes for CountedRemotes {
    ghost holds = { λ r. None };

    ghost faults = { λ r. ⟦<MemRemotes as Remotes>⟧.faults r.remotes };

    fn node(&mut self, alloc: Global, url: &str, path: &Path) -> Result<Node, RemoteError> {
        self.calls.all = self.calls.all.saturating_add(1);
        self.remotes.node(alloc, url, path)
    }

    fn read_at(
        &mut self,
        url: &str,
        path: &Path,
        at: u64,
        into: &mut [u8],
    ) -> Result<usize, RemoteError> {
        self.calls.all = self.calls.all.saturating_add(1);
        let count = self.remotes.read_at(url, path, at, into)?;
        if count > 0 {
            if self.turned == Some(self.calls.reads)
                && let Some(first) = into.first_mut()
            {
                *first ^= 1;
            }
            self.calls.reads = self.calls.reads.saturating_add(1);
        }
        Ok(count)
    }
}
