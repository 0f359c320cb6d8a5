//! Obtaining a commit from a remote.
ghost use Rattle.std.specs.Prelude.{IfOk};
ghost use Rattle.ost_walk.specs.Ends.{around};
ghost use Rattle.dep_switch.specs.Rows.{IsAt};
ghost use Rattle.op_change.specs.Coming.{IsRowFor};
ghost use Rattle.op_change.specs.Obtaining.{Obtains};

use crate::coming::Coming;
use crate::fetching::fetch;
use dep_states::Opened;
use fp_host::{Host, Remotes};
use fp_name::{Digest, RefName};
use fp_small::{RefRow, RemoteRow};
use ost_walk::PullEnd;
use std::alloc::Global;
use std::thread::Threads;

/// Reads the commit's head, pulls the commit and checks it out, and returns the row with which its
/// ref is to be deployed. The state stays as it is. All that a commit can be refused for is found
/// here. Condition: the ref isn't at this commit.
pub(crate) fn obtain<H: Host, R: Remotes>(
    rt: &(impl Threads + Sync),
    alloc: Global,
    host: &mut H,
    remotes: &mut R,
    opened: &Opened,
    remote: &RemoteRow,
    name: &RefName,
    commit: &Digest,
) -> Result<RefRow, PullEnd>
    requires { IsAt opened.now name.now commit.now → ⊥ }
    ensures row { IfOk result (IsRowFor opened.now remote.now.name name.now commit.now) }
    ensures obtains { Obtains opened.now remote.now name.now commit.now result
        (around H.Host R.Remotes host.old remotes.old)
        (around H.Host R.Remotes host.new remotes.new) }
{
    let coming = Coming::of(alloc, host, remotes, opened.state(), remote, name, commit)?;
    fetch(
        rt,
        alloc,
        host,
        remotes,
        opened,
        &coming.places,
        remote.url.as_str(),
        name,
        commit,
        coming.kept,
    )?;
    Ok(coming.row)
}
