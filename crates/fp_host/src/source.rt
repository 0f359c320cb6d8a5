//! The input of a command.
ghost use Rattle.std.specs.Prelude.{◌≡◌, ◌≤◌, ℕ, List, Option, length};
ghost use Rattle.fp_host.specs.Moments.{Rose};
ghost use Rattle.fp_host.specs.Remote.{Takes, IsWithin};

/// The result of reading from a source.
#[derive(Clone, Copy, Debug, PartialEq, Eq)]
pub enum Taken {
    /// This many bytes were put into the buffer. 0 means the end too, unless the buffer has no
    /// room.
    Took(usize),
    /// Nothing was left.
    End,
    /// The call failed.
    Failed,
}

/// The input of a command, which is read piece by piece.
pub trait Source {
    /// The bytes that are left, if the source reports them; else none.
    ghost left: { Self → Option (List ℕ) };

    /// The number of failed calls; it stays at 2^64 - 1 once it gets there.
    ghost faults: { Self → ℕ };

    /// Reads the next bytes into the front of the buffer, at most as many as fit.
    fn take(&mut self, into: &mut [u8]) -> Taken
        ensures takes { Takes (left self.old) (left self.new) into.new result }
        ensures within { IsWithin result (length into.old) }
        ensures later { faults self.old ≤ faults self.new }
        ensures failed { result ≡ Taken.Failed → Rose (faults self.old) (faults self.new) };
}
