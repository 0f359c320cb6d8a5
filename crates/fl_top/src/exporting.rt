//! Making a remote of the input.
ghost use Rattle.std.specs.Prelude.{◌≤◌, Option, IsErrOf};
ghost use Rattle.fp_host.specs.OverHost.{ChangesNothing, FailsOnly};
ghost use Rattle.fp_host.specs.Moments.{Rose};
ghost use Rattle.fp_host.specs.Remote.{Holdings};
ghost use Rattle.fl_words.specs.declared.command.Command.TheVariants.{Export as Exporting};
ghost use Rattle.fl_make.specs.Making.{CanMake};
ghost use Rattle.fl_top.specs.Return.{GoesOn};
ghost use Rattle.fl_top.specs.Taken.{TakenBy};

use crate::command_end::CommandEnd;
use crate::input::read_input;
use crate::running::say;
use fl_make::make_remote;
use fp_host::{Host, Source};
use fp_name::{RefName, RemoteName};
use std::alloc::Global;
use std::thread::Threads;

/// Makes the commit of the tree that the input describes, offers it under the ref in the remote's
/// store `made/REMOTE`, and prints the commit's line. Doesn't open the installation.
pub(crate) fn export<T: Threads + Sync, H: Host, I: Source>(
    rt: &T,
    alloc: Global,
    input: &mut I,
    host: &mut H,
    remote: &RemoteName,
    name: &RefName,
) -> Result<(), CommandEnd>
    ensures any_moment { (holds : Option Holdings) → GoesOn (Exporting remote.now name.now)
        (I.left input.old) holds result (H.moments host.old) (H.moments host.new) }
    ensures fault_has_cause { FailsOnly H.Host host.old host.new
        (CanMake remote.now name.now) (IsErrOf result CommandEnd.Fault) }
    ensures no_remote_fault { IsErrOf result CommandEnd.RemoteFault → ⊥ }
    ensures input { IsErrOf result CommandEnd.InputFault → Rose
        (I.faults input.old) (I.faults input.new) × ChangesNothing H.Host host.old host.new }
    ensures taken { TakenBy result (I.left input.old) (I.left input.new) }
    ensures later { I.faults input.old ≤ I.faults input.new }
{
    let given = read_input(alloc, input)?;
    let line = make_remote(rt, alloc, host, remote, name, given.as_slice())?;
    Ok(say(host, line.as_str().as_bytes())?)
}
