//! The output of a host.
ghost use Rattle.std.specs.Prelude.{◌≡◌, length, OnOk};
ghost use Rattle.fp_system.specs.Counts.{many_more};

use fp_system::{Cause, known};
use std::marker::Model;

/// An output with the number of bytes printed, which contracts see; it stays at 2^64 - 1 once it
/// gets there.
pub struct Output<'a, O> {
    out: &'a O,
    printed: u64,
}

impl<O> Drop for Output<'_, O> {
    fn drop(self) {
        let Output { out: _, printed: _ } = self;
    }
}

impl<'a, O> Model for Output<'a, O> {
    ghost use Rattle.std.specs.Prelude.{ℕ};

    ghost Value = { ℕ };

    ghost view = { λ o. o.printed };
}

impl<'a, O> Output<'a, O> {
    /// Creates the output, with nothing printed yet.
    pub fn new(out: &'a O) -> Self {
        Output { out, printed: 0 }
    }
}

impl<O: Print> Output<'_, O> {
    /// Prints all the bytes. On an error some of them may be printed.
    pub fn print(&mut self, piece: &[u8]) -> Result<(), Cause>
        ensures printed { OnOk result (self.new ≡ many_more self.old (length piece.now)) }
    {
        match known(self.out.write_all(piece)) {
            Ok(()) => {
                self.printed = self.printed.saturating_add(piece.len() as u64);
                Ok(())
            }
            Err(e) => Err(e),
        }
    }
}
