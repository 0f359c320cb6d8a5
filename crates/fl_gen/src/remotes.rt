//! The generated remotes.
ghost use Rattle.std.specs.Prelude.{◌≡◌, ◌≤◌, IfOk, Some};
ghost use Rattle.std.specs.Option.{option_copied};
ghost use Rattle.fp_host.specs.Remote.{Holdings};
ghost use Rattle.fl_words.specs.declared.limits.TheConstants.{MOST_APPS};
ghost use Rattle.fl_gen.specs.Generator.{IsGenerated, at_urls, holdings_of};

use crate::filling::made_store;
use crate::store::Store;
use fp_host::{Node, Path, RemoteError, Remotes};
use std::alloc::{AllocError, Global};
use std::thread::Threads;

/// The URL of the store with the first version.
pub(crate) const FIRST_URL: &str = "file:///gen/1";

/// The URL of the store with the second version.
pub(crate) const SECOND_URL: &str = "file:///gen/2";

/// Generated remotes: two stores that offer the same refs, in two versions, at two URLs. No other
/// URL has anything. A call fails only if memory runs out.
#[derive(Drop)]
pub struct GenRemotes {
    first: Store,
    second: Store,
}

impl GenRemotes {
    /// Generates the remotes, with the runtimes and this number of applications, at most 64, in
    /// each of two stores.
    pub fn new(rt: &(impl Threads + Sync), alloc: Global, apps: u32) -> Result<Self, AllocError>
        requires { apps ≤ MOST_APPS }
        ensures holds { IfOk result
            (λ r. ⟦<GenRemotes as Remotes>⟧.holds r ≡ Some (holdings_of r)) }
        ensures generated { IfOk result (λ r. IsGenerated apps (holdings_of r)) }
        ensures faults { IfOk result (λ r. ⟦<GenRemotes as Remotes>⟧.faults r ≡ 0) }
    {
        let first = made_store(rt, alloc, 1, apps as usize)?;
        let second = made_store(rt, alloc, 2, apps as usize)?;
        Ok(GenRemotes { first, second })
    }

    /// Returns the store at a URL, if there is one.
    fn store(&self, url: &str) -> Option<&Store>
        ensures { option_copied result ≡ at_urls self.now.first self.now.second url.now }
    {
        if url == FIRST_URL {
            return Some(&self.first);
        }
        if url == SECOND_URL {
            return Some(&self.second);
        }
        None
    }
}

impl Remotes for GenRemotes {
    ghost use Rattle.std.specs.Prelude.{Some};
    ghost use Rattle.fl_gen.specs.Generator.{holdings_of};

    ghost holds = { λ g. Some (holdings_of g) };

    ghost faults = { λ g. 0 };

    fn node(&mut self, _alloc: Global, url: &str, path: &Path) -> Result<Node, RemoteError> {
        match self.store(url) {
            Some(store) => store.node(path),
            None => Ok(Node::Absent),
        }
    }

    fn read_at(
        &mut self,
        url: &str,
        path: &Path,
        at: u64,
        into: &mut [u8],
    ) -> Result<usize, RemoteError> {
        match self.store(url) {
            Some(store) => Ok(store.read_at(path, at, into)),
            None => Ok(0),
        }
    }
}
