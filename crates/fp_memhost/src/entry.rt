//! Copies of directory entries.
ghost use Rattle.std.specs.Prelude.{◌≡◌, IfOk};
ghost use Rattle.std.specs.Option.{option_copied};

use fp_host::Entry;
use std::alloc::AllocError;

/// Copies an entry. Errs if memory runs out.
pub fn copy_of(entry: &Entry) -> Result<Entry, AllocError>
    ensures { IfOk result (λ e. e ≡ entry.now) }
{
    Ok(match entry {
        Entry::Dir => Entry::Dir,
        Entry::File(id) => Entry::File(*id),
        Entry::Link(text) => Entry::Link(text.copy()?),
    })
}

/// Copies an entry, if there is one. Errs if memory runs out.
pub fn copy_entry(entry: Option<&Entry>) -> Result<Option<Entry>, AllocError>
    ensures { IfOk result (λ e. e ≡ option_copied entry.entry) }
{
    match entry {
        Some(entry) => Ok(Some(copy_of(entry)?)),
        None => Ok(None),
    }
}
