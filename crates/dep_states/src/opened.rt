//! Opened installations.
ghost use Rattle.std.specs.Prelude.{◌≡◌};

use fp_small::State;

/// The state of an opened installation, for a view of the host in which each crash leaves this
/// state and a sound installation.
#[derive(Drop)]
pub struct Opened {
    state: State,
}

impl std::marker::Model for Opened {
    ghost use Rattle.fp_small.specs.declared.state.State.{State};

    ghost Value = { State };

    ghost view = { λ o. o.state };
}

impl Opened {
    /// Makes an opened installation of its state. Calls nothing on the host.
    pub fn of(state: State) -> Opened
        ensures { result ≡ state }
    {
        Opened { state }
    }

    /// Returns the state. Allocates nothing.
    pub fn take(self) -> State
        ensures { result ≡ self }
    {
        self.state
    }

    /// Borrows the state.
    pub fn state(&self) -> &State
        ensures { result.now ≡ self.now }
    {
        &self.state
    }
}
