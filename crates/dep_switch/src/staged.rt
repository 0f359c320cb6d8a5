//! Staged switches.
ghost use Rattle.std.specs.Prelude.{◌≡◌, false, IfOk, OnOk, IsErr, IsErrOf};
ghost use Rattle.fp_host.specs.OverHost.{AtEachMoment, AtReturn, FailsOnly};
ghost use Rattle.dep_states.specs.Deploy.{goes_back_to};
ghost use Rattle.dep_switch.specs.Staging.{ArePartsOf, IsPreparation, CanStage, Readies, WasStaged, LeadsTo, CanSwitch, Switches, WasSwitched};

use crate::paths::{active_path, commit_text, deploy_path, new_link_path};
use crate::preparing::{deploy_bytes, prepare, with_row};
use crate::switched::{Faulted, Switched};
use dep_states::Opened;
use fp_base::{Blob, Text};
use fp_host::{Host, HostEnd, Path};
use fp_small::{RefRow, State};
use std::alloc::{AllocError, Global};

/// A staged switch, with the state after it, for a view of the host in which each crash leaves the
/// old state, the new commit is checked out beside it with its `deploy`, and `repo/tmp/active` is a
/// symlink to it. The switch needs no more memory.
#[derive(Drop)]
pub struct Staged {
    from: Path,
    to: Path,
    state: State,
}

/// Everything that is needed to stage a switch.
#[derive(Drop)]
struct Preparation {
    /// The path of the row's `deploy`.
    deploy: Path,
    /// The bytes of the row's `deploy`.
    bytes: Blob,
    /// The text of the symlink to the row's commit.
    text: Text,
    /// The switch, once it is staged.
    staged: Staged,
}

/// The parts of a switch to a row, without the state after it.
#[derive(Drop)]
struct Parts {
    /// The path of the row's `deploy`.
    deploy: Path,
    /// The bytes of the row's `deploy`.
    bytes: Blob,
    /// The text of the symlink to the row's commit.
    text: Text,
    /// The staging path of the symlink.
    from: Path,
    /// The path to which the symlink is renamed: the ref's `active`.
    to: Path,
}

/// Makes the parts of a switch to the row. Condition: the previous commit isn't the row's commit.
fn parts_of(alloc: Global, row: &RefRow) -> Result<Parts, AllocError>
    requires moves { goes_back_to row.now.commit row.now.previous ≡ false }
    ensures { IfOk result (ArePartsOf row.now) }
{
    let deploy = deploy_path(alloc, &row.name, &row.commit)?;
    let bytes = deploy_bytes(alloc, row)?;
    let text = commit_text(alloc, &row.commit)?;
    let from = new_link_path(alloc)?;
    let to = active_path(alloc, &row.name)?;
    Ok(Parts {
        deploy,
        bytes,
        text,
        from,
        to,
    })
}

/// Makes everything that is needed to stage a switch to the row. Condition: the previous commit
/// isn't the row's commit.
fn plan(alloc: Global, opened: Opened, row: RefRow) -> Result<Preparation, AllocError>
    requires moves { goes_back_to row.commit row.previous ≡ false }
    ensures { IfOk result (IsPreparation opened row) }
{
    let parts = parts_of(alloc, &row)?;
    let state = with_row(opened.take(), row)?;
    Ok(Preparation {
        deploy: parts.deploy,
        bytes: parts.bytes,
        text: parts.text,
        staged: Staged {
            from: parts.from,
            to: parts.to,
            state,
        },
    })
}

impl Staged {
    /// Writes the row's `deploy`, makes the symlink `repo/tmp/active` to its commit, and syncs.
    /// Allocates before the first change only. Condition: the commit is checked out in its
    /// directory and isn't deployed, and the row's previous commit is that of the ref.
    pub fn of<H: Host>(
        alloc: Global,
        host: &mut H,
        opened: Opened,
        row: RefRow,
    ) -> Result<Staged, HostEnd>
        requires moves { goes_back_to row.commit row.previous ≡ false }
        ensures leads { IfOk result (LeadsTo opened row) }
        // A crash at any moment leaves the old state.
        ensures any_moment { AtEachMoment H.Host host.old host.new (Readies opened row) }
        ensures on_success { OnOk result (AtReturn H.Host host.old host.new
            (WasStaged opened row)) }
        ensures fault_has_cause { FailsOnly H.Host host.old host.new
            (CanStage opened row) (IsErrOf result HostEnd.Fault) }
        ensures starved_unchanged { IsErrOf result HostEnd.NoMemory
            → AtReturn H.Host host.old host.new
            (λ u w. w ≡ u) }
    {
        let made = plan(alloc, opened, row)?;
        let bytes = made.bytes.as_slice();
        let text = made.text.as_str();
        prepare(alloc, host, &made.deploy, bytes, &made.staged.from, text)?;
        Ok(made.staged)
    }

    /// Renames the symlink to the ref's `active`, and syncs. Allocates nothing. Condition: the
    /// switch is staged in the present view.
    pub fn switch<H: Host>(self, host: &mut H) -> Result<Switched, Faulted>
        ensures state { IfOk result (λ s. s ≡ self.state) }
        // A crash at any moment leaves the old state or the new one.
        ensures any_moment { AtEachMoment H.Host host.old host.new (Switches self) }
        ensures on_success { OnOk result (AtReturn H.Host host.old host.new (WasSwitched self)) }
        ensures fault_has_cause { FailsOnly H.Host host.old host.new
            (CanSwitch self) (IsErr result) }
    {
        host.rename(&self.from, &self.to)?;
        host.sync()?;
        Ok(Switched::of(self.state))
    }
}
