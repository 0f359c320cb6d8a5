//! The names of a host in memory, ascending by their texts.
ghost use Rattle.std.specs.Prelude.{◌≡◌, ◌↔◌, ℕ, ◌+◌, ◌≤◌, ◌<◌, ◌++◌, ◌∷◌, [], List, true, IsTrue, IsNone, IsErr, OnOk, OnErr, IfOk, IfSome, MatchResult, length, take, drop};
ghost use Rattle.std.specs.List.{list_all};
ghost use Rattle.std.specs.Option.{option_copied};
ghost use Rattle.fp_host.specs.Paths.{Slot, elements_of, is_element, set_at};
ghost use Rattle.fp_memhost.specs.Names.{IsAscending, IsAt, IsPlace, HasRoom, SameNames, PutsName, MayPutName, ForgetsNames, KeepsRoom, slot_of, names_of, earlier_of};

use fp_host::{Entry, Path};
use std::alloc::AllocError;
use std::cmp::Ordering;
use std::mem;

/// A name with its present entry and its earlier ones.
#[derive(Drop)]
pub struct Name {
    /// The path of the name.
    pub path: Path,
    /// The present entry; `None` if the name is absent.
    pub entry: Option<Entry>,
    /// The other entries that a crash may leave, the oldest first.
    pub earlier: Vec<Option<Entry>>,
}

/// Returns the index of the name with this text, or else, as the error, the index where it would be
/// inserted.
pub fn find(names: &[Name], text: &str) -> Result<usize, usize>
    requires { IsAscending names.now }
    ensures { MatchResult result (IsAt names.now (elements_of text.now))
        (IsPlace names.now text.now) }
{
    let mut low = 0;
    let mut high = names.len();
    while low < high {
        let middle = low + (high - low) / 2;
        match names[middle].path.text().cmp(&text) {
            Ordering::Less => low = middle + 1,
            Ordering::Greater => high = middle,
            Ordering::Equal => return Ok(middle),
        }
    }
    Err(low)
}

/// Returns the present entry of the name with this text.
pub fn entry<'a>(names: &'a [Name], text: &str) -> Option<&'a Entry>
    requires { IsAscending names.now }
    ensures { slot_of (option_copied result) ≡ names_of names.now (elements_of text.now) }
{
    match find(names, text) {
        Ok(at) => names[at].entry.as_ref(),
        Err(_) => None,
    }
}

/// Reserves room for two more earlier entries of the name, and adds the name as absent if it's
/// missing. The view stays the same. Errs if memory runs out.
pub fn ready(names: &mut Vec<Name>, path: &Path) -> Result<(), AllocError>
    requires { IsAscending names.old.items }
    ensures ascending { IsAscending names.new.items }
    ensures same { SameNames names.old.items names.new.items }
    ensures keeps { KeepsRoom 0 names.old.items names.new.items }
    ensures room { OnOk result (HasRoom names.new.items path.now 2) }
{
    match find(names, path.text()) {
        Ok(at) => {
            let name = &mut names[at];
            name.earlier.try_reserve(2)
        }
        Err(at) => {
            let earlier = Vec::with_capacity(*names.allocator(), 2)?;
            let path = path.copy()?;
            names.insert(
                at,
                Name {
                    path,
                    entry: None,
                    earlier,
                },
            )?;
            Ok(())
        }
    }
}

/// Gives the name an entry, and appends the previous one to the earlier ones. There must be room
/// for it.
pub fn put(names: &mut Vec<Name>, path: &Path, entry: Option<Entry>)
    requires ascending { IsAscending names.old.items }
    requires room { HasRoom names.old.items path.now 1 }
    ensures ascending { IsAscending names.new.items }
    ensures puts { PutsName path.now (slot_of entry) names.old.items names.new.items }
    ensures keeps { KeepsRoom 1 names.old.items names.new.items }
{
    let Ok(at) = find(names, path.text()) else {
        unreachable!()
    };
    let name = &mut names[at];
    let held = mem::replace(&mut name.entry, entry);
    name.earlier.push(held).unwrap();
}

/// Appends an entry to those that a crash may leave at the name. There must be room for it.
pub fn may_put(names: &mut Vec<Name>, path: &Path, entry: Option<Entry>)
    requires ascending { IsAscending names.old.items }
    requires room { HasRoom names.old.items path.now 1 }
    ensures ascending { IsAscending names.new.items }
    ensures puts { MayPutName path.now (slot_of entry) names.old.items names.new.items }
    ensures keeps { KeepsRoom 1 names.old.items names.new.items }
{
    let Ok(at) = find(names, path.text()) else {
        unreachable!()
    };
    let name = &mut names[at];
    name.earlier.push(entry).unwrap();
}

/// Clears the earlier entries of all names, as a sync does.
pub fn forget(names: &mut Vec<Name>)
    requires { IsAscending names.old.items }
    ensures ascending { IsAscending names.new.items }
    ensures forgets { ForgetsNames names.old.items names.new.items }
{
    for name in names.iter_mut() {
        name.earlier.clear();
    }
}
