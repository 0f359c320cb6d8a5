//! Installing or updating a ref.
ghost use Rattle.std.specs.Prelude.{ℕ, ◌≡◌, Some, true, IfOk, IsErrOf};
ghost use Rattle.fp_host.specs.OverHost.{AtReturn};
ghost use Rattle.fp_small.specs.Config.{name_of};
ghost use Rattle.fp_small.specs.Order.{has_name};
ghost use Rattle.fp_small.specs.declared.op.Op.{Op};
ghost use Rattle.fp_small.specs.declared.refusal.Refusal.{Refusal};
ghost use Rattle.ost_walk.specs.Ends.{around};
ghost use Rattle.dep_states.specs.After.{May, IsGood, after_op};
ghost use Rattle.dep_states.specs.Shown.{at_name};
ghost use Rattle.dep_switch.specs.Rows.{IsAt};
ghost use Rattle.op_change.specs.Attempts.{Attempts, IsToBring};
ghost use Rattle.op_change.specs.Bringing.{LeavesNames};

use crate::deploy_row;
use crate::ending::ApplyEnd;
use crate::obtaining::obtain;
use dep_states::Opened;
use dep_switch::find_remote;
use fp_host::{Host, Remotes};
use fp_name::{Digest, RefName, RemoteName};
use fp_small::{RemoteRow, State};
use std::alloc::Global;
use std::thread::Threads;

/// Returns the row of the remote with this name. Condition: the state has it.
fn remote_of<'a>(state: &'a State, name: &RemoteName) -> &'a RemoteRow
    requires { has_name name_of state.now.remotes name.now ≡ true }
    ensures { at_name name_of state.now.remotes name.now ≡ Some result.now }
{
    match find_remote(state.remotes.as_slice(), name) {
        Some(row) => row,
        None => unreachable!(),
    }
}

/// Brings a commit of the ref from the remote `origin`, and deploys it. First reads the commit's
/// head, whatever its timestamp. Then clears everything below `repo/tmp`, and the commit's
/// directory unless the ref keeps the commit; pulls the objects that the store lacks; sets up the
/// store; and checks the commit out unless it is kept. Last writes the commit's record and its
/// link, syncs, and switches the ref to it. Errs with `Refused` if the head isn't valid for the ref
/// or an object of the commit has a fault. Condition: the state has the remote, and the ref isn't
/// at this commit.
pub fn bring<H: Host, R: Remotes>(
    rt: &(impl Threads + Sync),
    alloc: Global,
    host: &mut H,
    remotes: &mut R,
    opened: Opened,
    origin: &RemoteName,
    name: &RefName,
    commit: &Digest,
) -> Result<Opened, ApplyEnd>
    requires there { has_name name_of opened.remotes origin.now ≡ true }
    requires moves { IsAt opened name.now commit.now → ⊥ }
    requires good { IsGood opened }
    ensures made { (op : Op) → May opened op → IsToBring op name.now origin.now commit.now
        → IfOk result (λ o. (timestamp : ℕ) × (o ≡ after_op opened timestamp op)) }
    ensures good { IfOk result IsGood }
    ensures attempts { (op : Op) → May opened op → IsToBring op name.now origin.now commit.now
        → Attempts opened op result
        (around H.Host R.Remotes host.old remotes.old)
        (around H.Host R.Remotes host.new remotes.new) }
    ensures refused_names { (r : Refusal) → IsErrOf result (ApplyEnd.Refused r)
        → AtReturn H.Host host.old host.new
        (LeavesNames opened name.now commit.now (R.holds remotes.old)) }
{
    let remote = remote_of(opened.state(), origin);
    let row = obtain(rt, alloc, host, remotes, &opened, remote, name, commit)?;
    Ok(deploy_row(alloc, host, opened, row)?)
}
