//! Lists that ascend by name.
ghost use Rattle.std.specs.Prelude.{◌≡◌, ◌≤◌, ◌↔◌, length, IsTrue, OnOk, OnErr, Contains};
ghost use Rattle.std.specs.List.{insert};
ghost use Rattle.fp_small.specs.Config.{name_of};
ghost use Rattle.fp_small.specs.Order.{inserted, removed, has_name};

use crate::state::RemoteRow;
use fp_name::{PinPattern, RemoteName};
use std::alloc::AllocError;

/// A list's element, which has a name to be ordered by.
pub(crate) trait Named {
    ghost use Rattle.std.specs.Prelude.{List, ℕ, ◌≡◌};

    ghost name_of: { Self → List ℕ };

    fn name(&self) -> &str
        ensures { result.now ≡ name_of self.now };
}

impl Named for PinPattern {
    ghost name_of = { λ pin. pin };

    fn name(&self) -> &str {
        self.as_str()
    }
}

impl Named for RemoteRow {
    ghost name_of = { λ row. row.name };

    fn name(&self) -> &str {
        self.name.as_str()
    }
}

/// Returns the index at which a name is inserted: that of the first element whose name isn't less,
/// or the length of the list.
fn place_of<T: Named>(items: &[T], name: &str) -> usize
    ensures within { result ≤ length items.now }
    ensures before { (item : T) → T.name_of item ≡ name.now → inserted T.name_of items.now item ≡
        insert items.now result item }
{
    for (place, item) in items.iter().enumerate() {
        if item.name() >= name {
            return place;
        }
    }
    items.len()
}

/// Inserts an item where its name belongs. If memory runs out, nothing changes.
pub(crate) fn insert_by_name<T: Named + Drop>(items: &mut Vec<T>, item: T) -> Result<(), AllocError>
    ensures ok { OnOk result (items.new.items ≡ inserted T.name_of items.old.items item) }
    ensures err { OnErr result (items.new.items ≡ items.old.items) }
{
    let place = place_of(items, item.name());
    items.insert(place, item)?;
    Ok(())
}

/// Inserts a pin where it belongs by its bytes. If memory runs out, nothing changes.
pub fn insert_pin(pins: &mut Vec<PinPattern>, pin: PinPattern) -> Result<(), AllocError>
    ensures ok { OnOk result (pins.new.items ≡ inserted (λ p. p) pins.old.items pin) }
    ensures err { OnErr result (pins.new.items ≡ pins.old.items) }
{
    insert_by_name(pins, pin)
}

/// Removes a pin. Does nothing if it's missing. Allocates nothing.
pub fn remove_pin(pins: &mut Vec<PinPattern>, pin: &PinPattern)
    ensures { pins.new.items ≡ removed (λ p. p) pins.old.items pin.now }
{
    pins.retain(|other| other.as_str() != pin.as_str());
}

/// Returns whether a pin is in the list.
pub fn has_pin(pins: &[PinPattern], pin: &PinPattern) -> bool
    ensures { IsTrue result ↔ Contains pins.now pin.now }
{
    for other in pins {
        if other.as_str() == pin.as_str() {
            return true;
        }
    }
    false
}

/// Inserts a remote where it belongs by the bytes of its name. If memory runs out, nothing changes.
pub fn insert_remote(remotes: &mut Vec<RemoteRow>, row: RemoteRow) -> Result<(), AllocError>
    ensures ok { OnOk result (remotes.new.items ≡ inserted name_of remotes.old.items row) }
    ensures err { OnErr result (remotes.new.items ≡ remotes.old.items) }
{
    insert_by_name(remotes, row)
}

/// Removes the remote with this name. Does nothing if there is none. Allocates nothing.
pub fn remove_remote(remotes: &mut Vec<RemoteRow>, name: &RemoteName)
    ensures { remotes.new.items ≡ removed name_of remotes.old.items name.now }
{
    remotes.retain(|row| row.name.as_str() != name.as_str());
}

/// Returns whether there is a remote with this name.
pub fn has_remote(remotes: &[RemoteRow], name: &RemoteName) -> bool
    ensures { result ≡ has_name name_of remotes.now name.now }
{
    remotes.iter().any(|row| name.as_str() == row.name.as_str())
}
