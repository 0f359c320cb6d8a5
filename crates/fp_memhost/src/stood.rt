//! An entry that a name was given.
ghost use Rattle.std.specs.Prelude.{◌≡◌, IfOk};
ghost use Rattle.std.specs.Option.{option_copied};
ghost use Rattle.fp_memhost.specs.Stood.{stood_of};
ghost use Rattle.fp_memhost.specs.Names.{slot_of};

use crate::entry::copy_entry;
use fp_host::{Entry, Path};
use std::alloc::AllocError;

/// A name, and an entry that it was given.
#[derive(Drop)]
pub struct Stood {
    /// The path of the name.
    pub path: Path,
    /// The entry that the name was given; `None` if the name was removed.
    pub entry: Option<Entry>,
}

impl Stood {
    /// Copies a name and its entry. Errs if memory runs out.
    pub fn new(path: &Path, entry: Option<&Entry>) -> Result<Self, AllocError>
        ensures { IfOk result (λ s. stood_of s ≡ (path.now, slot_of (option_copied entry.entry))) }
    {
        let entry = copy_entry(entry)?;
        let path = path.copy()?;
        Ok(Stood { path, entry })
    }
}
