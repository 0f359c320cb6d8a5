//! A remote that reports a wrong size of a file, or changes its answers.
ghost use Rattle.std.specs.Prelude.{None};

use fp_host::{Node, Path, RemoteError, Remotes};
use fp_memhost::MemRemotes;
use std::alloc::Global;

/// One byte more than an object may have: 1 GiB and one byte.
const SIZE: u64 = 1_073_741_825;

/// A remote that has the content of another one, but reports the size `SIZE` of one file. The bits
/// of `changed` stand for the reads in turn, starting again with the first bit after 64 reads: a
/// read with the bit 1 gives another first byte. The remote doesn't tell what it holds.
#[derive(Drop)]
pub struct Odd {
    /// The other remote.
    pub held: MemRemotes,
    /// The path of the file, at every URL.
    pub large: Path,
    /// The bits of the reads: that of the next read is the lowest.
    pub changed: u64,
}

impl Remotes for Odd {
    ghost holds = { λ r. None };

    ghost faults = { λ r. ⟦<MemRemotes as Remotes>⟧.faults r.held };

    fn node(&mut self, alloc: Global, url: &str, path: &Path) -> Result<Node, RemoteError> {
        if path.is(&self.large) {
            return Ok(Node::File {
                mode: 0o644,
                size: SIZE,
            });
        }
        self.held.node(alloc, url, path)
    }

    fn read_at(
        &mut self,
        url: &str,
        path: &Path,
        at: u64,
        into: &mut [u8],
    ) -> Result<usize, RemoteError> {
        let count = self.held.read_at(url, path, at, into)?;
        if self.changed % 2 == 1
            && let Some(first) = into.first_mut()
        {
            *first ^= 1;
        }
        self.changed = self.changed.rotate_right(1);
        Ok(count)
    }
}
