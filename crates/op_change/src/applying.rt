//! Applying one operation to an installation.
ghost use Rattle.std.specs.Prelude.{ℕ, ◌≡◌, IfOk};
ghost use Rattle.ost_walk.specs.Ends.{around};
ghost use Rattle.dep_states.specs.After.{May, IsGood, after_op};
ghost use Rattle.op_change.specs.Applied.{IsShort};
ghost use Rattle.op_change.specs.Attempts.{Attempts};

use crate::bring;
use crate::ending::ApplyEnd;
use crate::plainly::apply_plainly;
use dep_states::Opened;
use fp_host::{Host, Remotes};
use fp_small::Op;
use std::alloc::Global;
use std::thread::Threads;

/// Does one operation on an opened installation, wholly or not at all: a crash at any moment leaves
/// the previous state or the new one, and after success the new one. An install or an update pulls
/// the objects that the store lacks from the remote that the operation names; it is refused if the
/// commit's head isn't valid for the ref, or if an object of the commit has a fault. A migration
/// writes `config`, and leaves the files of layout 1 where they are. Directories and objects that
/// are no longer deployed are left for tidying. After an error, the installation must be opened
/// again before anything else is done with it. Condition: the state allows the operation, and an
/// override that is set has a file of at most 1 MiB.
pub fn apply<H: Host, R: Remotes>(
    rt: &(impl Threads + Sync),
    alloc: Global,
    host: &mut H,
    remotes: &mut R,
    opened: Opened,
    op: &Op,
) -> Result<Opened, ApplyEnd>
    requires may { May opened op.now }
    requires good { IsGood opened }
    requires short { IsShort op.now }
    ensures made { IfOk result (λ o. (timestamp : ℕ) × (o ≡ after_op opened timestamp op.now)) }
    ensures good { IfOk result IsGood }
    ensures attempts { Attempts opened op.now result
        (around H.Host R.Remotes host.old remotes.old)
        (around H.Host R.Remotes host.new remotes.new) }
{
    match op {
        Op::Install {
            name,
            remote,
            commit,
        } => bring(rt, alloc, host, remotes, opened, remote, name, commit),
        Op::Update {
            name,
            remote,
            commit,
        } => bring(rt, alloc, host, remotes, opened, remote, name, commit),
        Op::Uninstall { .. }
        | Op::AddPin(_)
        | Op::DropPin(_)
        | Op::AddRemote(_)
        | Op::ModifyRemote(_)
        | Op::DropRemote(_)
        | Op::SetOverride(_)
        | Op::DropOverride(_)
        | Op::Migrate
        | Op::Rollback { .. } => match apply_plainly(alloc, host, opened, op) {
            Ok(done) => Ok(done),
            Err(end) => Err(ApplyEnd::from(end)),
        },
    }
}
