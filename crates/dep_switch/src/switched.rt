//! Switches and retirements that are done.
ghost use Rattle.std.specs.Prelude.{◌≡◌};

use dep_states::Opened;
use fp_host::HostError;
use fp_small::State;

/// A call of the host failed, or the host didn't meet the function's condition. All that is known
/// is that each crash leaves the old state or the new one; the installation has to be opened again.
#[derive(Clone, Copy, Debug, PartialEq, Eq)]
pub struct Faulted;

impl From<HostError> for Faulted {
    ghost from_gives = { λ _ _. Unit {0} };

    fn from(_: HostError) -> Faulted {
        Faulted
    }
}

/// The state after a switch or a retirement that is done, for a view of the host in which each
/// crash leaves this state and a sound installation.
#[derive(Drop)]
pub struct Switched {
    state: State,
}

impl std::marker::Model for Switched {
    ghost use Rattle.fp_small.specs.declared.state.State.{State};

    ghost Value = { State };

    ghost view = { λ s. s.state };
}

impl Switched {
    /// Makes a value with this state.
    pub(crate) fn of(state: State) -> Switched
        ensures { result ≡ state }
    {
        Switched { state }
    }

    /// Returns the opened installation with this state. Calls nothing on the host, and allocates
    /// nothing.
    pub fn settled(self) -> Opened
        ensures { result ≡ self }
    {
        Opened::of(self.state)
    }
}
