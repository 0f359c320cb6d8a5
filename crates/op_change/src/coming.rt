//! Checking a commit's head before the commit is pulled.
ghost use Rattle.std.specs.Prelude.{Some, IfOk};
ghost use Rattle.fp_small.specs.Places.{repo};
ghost use Rattle.ost_model.specs.Objects.{Have};
ghost use Rattle.ost_model.specs.Remotes.{Supplies};
ghost use Rattle.ost_walk.specs.Ends.{around};
ghost use Rattle.ost_walk.specs.PullEnds.{Looks};
ghost use Rattle.op_change.specs.Coming.{HeadsFor, IsComing};

use crate::places::Places;
use crate::rows::{is_kept, row_brought};
use fp_host::{Host, Remotes};
use fp_name::{Digest, RefName};
use fp_small::{RefRow, RemoteRow, State};
use ost_head::read_head;
use ost_walk::PullEnd;
use std::alloc::Global;

/// A commit whose head was checked, and which is to be pulled.
#[derive(Drop)]
pub(crate) struct Coming {
    /// The row that the ref gets.
    pub(crate) row: RefRow,
    /// The paths that bringing the commit uses.
    pub(crate) places: Places,
    /// Whether the ref keeps the commit already, as its previous one.
    pub(crate) kept: bool,
}

impl Coming {
    /// Reads the commit's head, and makes the row and the paths. Changes nothing. Errs with
    /// `Refused` if the head isn't valid for the ref. The commit may be older than the one that is
    /// deployed.
    pub(crate) fn of<H: Host, R: Remotes>(
        alloc: Global,
        host: &mut H,
        remotes: &mut R,
        state: &State,
        remote: &RemoteRow,
        name: &RefName,
        commit: &Digest,
    ) -> Result<Coming, PullEnd>
        ensures looks { Looks result
            (around H.Host R.Remotes host.old remotes.old)
            (around H.Host R.Remotes host.new remotes.new) }
        ensures heads { (have : Have)
            → Supplies repo (Some remote.now.url) (H.moments host.old) (R.holds remotes.old) have
            → HeadsFor have name.now commit.now result }
        ensures coming { IfOk result (IsComing state.now remote.now.name name.now commit.now) }
    {
        let head = read_head(alloc, host, remotes, remote, name, commit, None)?;
        let row = row_brought(state, name, remote, commit, head.timestamp)?;
        let places = Places::of(alloc, name, commit)?;
        let kept = is_kept(state, name, commit);
        Ok(Coming { row, places, kept })
    }
}
