//! Retiring a ref: the removal of its `active`.
ghost use Rattle.std.specs.Prelude.{◌≡◌, ◌≢◌, None, IfOk, OnOk, IsErr, IsErrOf};
ghost use Rattle.fp_host.specs.OverHost.{AtEachMoment, AtReturn, FailsOnly};
ghost use Rattle.dep_states.specs.After.{row_at};
ghost use Rattle.dep_switch.specs.Rows.{without_row};
ghost use Rattle.dep_switch.specs.Retiring.{IsPlanOf, CanRetire, Retires, WasRetired};

use crate::paths::active_path;
use crate::rows::{find_ref, remove_ref};
use crate::switched::{Faulted, Switched};
use dep_states::Opened;
use fp_base::Items;
use fp_host::{Host, Path};
use fp_name::RefName;
use fp_small::State;
use std::alloc::{AllocError, Global};
use std::error::Error;
use std::fmt;

/// The reason why there is no plan.
#[derive(Clone, Copy, Debug, PartialEq, Eq)]
pub enum RetireError {
    /// The ref isn't deployed.
    NotThere,
    /// Memory ran out.
    NoMemory,
}

impl fmt::Display for RetireError {
    fn fmt<W: fmt::Write>(&self, f: &mut fmt::Formatter<W>) -> fmt::Result {
        match self {
            RetireError::NotThere => write!(f, "the ref isn't deployed"),
            RetireError::NoMemory => write!(f, "out of memory"),
        }
    }
}

impl Error for RetireError {}

impl From<AllocError> for RetireError {
    ghost use Rattle.std.specs.Prelude.{◌≡◌};
    ghost use Rattle.dep_switch.specs.declared.retiring.RetireError.TheVariants.{NoMemory};

    ghost from_gives = { λ _ e. e ≡ NoMemory };

    fn from(_: AllocError) -> RetireError {
        RetireError::NoMemory
    }
}

/// The plan to retire a ref, which needs no more memory.
#[derive(Drop)]
pub struct RetirePlan {
    name: RefName,
    link: Path,
}

impl RetirePlan {
    /// Makes the plan for a ref of the state. Errs with `NotThere` exactly if the state doesn't
    /// have the ref.
    pub fn new(alloc: Global, state: &State, name: &RefName) -> Result<RetirePlan, RetireError>
        ensures plan { IfOk result (IsPlanOf name.now) }
        ensures there { OnOk result (row_at state.now name.now ≢ None) }
        ensures not_there { IsErrOf result RetireError.NotThere
            → row_at state.now name.now ≡ None }
        ensures error { IsErrOf result RetireError.NoMemory
            → row_at state.now name.now ≢ None }
    {
        if find_ref(state.refs.as_slice(), name).is_none() {
            return Err(RetireError::NotThere);
        }
        Ok(RetirePlan {
            name: name.copy()?,
            link: active_path(alloc, name)?,
        })
    }

    /// Removes the ref's `active`, and syncs. Allocates nothing. Condition: the plan was made of
    /// this state, which each crash leaves.
    pub fn retire<H: Host>(self, host: &mut H, opened: Opened) -> Result<Switched, Faulted>
        ensures state { IfOk result (λ s. s ≡ without_row opened self.name) }
        // A crash at any moment leaves the state with the ref or the one without it.
        ensures any_moment { AtEachMoment H.Host host.old host.new (Retires opened self) }
        ensures on_success { OnOk result (AtReturn H.Host host.old host.new
            (WasRetired opened self)) }
        ensures fault_has_cause { FailsOnly H.Host host.old host.new
            (CanRetire opened self) (IsErr result) }
    {
        host.unlink(&self.link)?;
        host.sync()?;
        let state = opened.take();
        let mut rows = state.refs.into_vec();
        remove_ref(&mut rows, &self.name);
        Ok(Switched::of(State {
            layout: state.layout,
            refs: Items::from_vec(rows),
            remotes: state.remotes,
            pins: state.pins,
            overrides: state.overrides,
        }))
    }
}
