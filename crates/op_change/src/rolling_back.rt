//! Rolling a ref back to its previous commit.
ghost use Rattle.std.specs.Prelude.{◌≡◌, IfOk, OnOk, IsErrOf};
ghost use Rattle.fp_host.specs.OverHost.{AtEachMoment, AtReturn, FailsOnly};
ghost use Rattle.fp_small.specs.declared.op.Op.TheVariants.{Rollback};
ghost use Rattle.dep_states.specs.After.{state_after, plain, exchanged, HasRow, HasPrevious, IsGood};
ghost use Rattle.dep_states.specs.Sound.{Opens};
ghost use Rattle.op_change.specs.Deploys.{Does, DeploysName, WasDone, HasBack, IsRowBack};

use crate::deploying::deploy_row;
use dep_states::Opened;
use dep_switch::{find_ref, new_link_path};
use fp_host::{Host, HostEnd};
use fp_name::{Digest, RefName};
use fp_small::{Previous, RefRow, State, clear};
use std::alloc::{AllocError, Global};

/// Returns the row with its commit and its previous commit exchanged.
fn exchanged(row: &RefRow, previous: &Previous) -> Result<RefRow, AllocError>
    ensures { IfOk result (λ r. r ≡ exchanged row.now previous.now) }
{
    let left = Previous {
        commit: row.commit,
        timestamp: row.timestamp,
    };
    Ok(RefRow {
        name: row.name.copy()?,
        origin: row.origin.copy()?,
        commit: previous.commit,
        timestamp: previous.timestamp,
        previous: Some(left),
    })
}

/// Returns the row that the ref has after a rollback. Condition: the ref has a previous commit.
fn row_back(state: &State, name: &RefName) -> Result<RefRow, AllocError>
    requires { HasBack state.now.refs name.now }
    ensures { IfOk result (IsRowBack state.now.refs name.now) }
{
    let Some(row) = find_ref(state.refs.as_slice(), name) else {
        unreachable!();
    };
    let Some(previous) = &row.previous else {
        unreachable!();
    };
    exchanged(row, previous)
}

/// Rolls the ref back to its previous commit, which is `commit`, and keeps the current one as its
/// previous commit. Removes what is at `repo/tmp/active` first. No remote is asked, since the
/// commit's directory is kept. A crash at any moment leaves the previous state or the new one.
pub fn roll_back<H: Host>(
    alloc: Global,
    host: &mut H,
    opened: Opened,
    name: &RefName,
    commit: &Digest,
) -> Result<Opened, HostEnd>
    requires back { HasRow opened name.now (HasPrevious commit.now) }
    requires good { IsGood opened }
    ensures state { IfOk result (λ o. o ≡ state_after opened
        (plain (Rollback name.now commit.now))) }
    ensures any_moment { AtEachMoment H.Host host.old host.new (Does opened
        (state_after opened (plain (Rollback name.now commit.now)))
        (λ u. DeploysName name.now commit.now)) }
    ensures on_success { OnOk result (AtReturn H.Host host.old host.new (WasDone opened
        (state_after opened (plain (Rollback name.now commit.now))))) }
    ensures fault_has_cause { FailsOnly H.Host host.old host.new
        (Opens opened) (IsErrOf result HostEnd.Fault) }
    ensures starved_opens { IsErrOf result HostEnd.NoMemory → AtReturn H.Host host.old host.new
        (λ u w. Opens opened u → Opens opened w) }
{
    let row = row_back(opened.state(), name)?;
    let link = new_link_path(alloc)?;
    clear(alloc, host, &link)?;
    deploy_row(alloc, host, opened, row)
}
