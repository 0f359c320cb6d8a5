//! The names in directories, and lists of their paths.
ghost use Rattle.std.specs.Prelude.{◌≡◌, ◌++◌, ◌∷◌, [], true, map, IfOk, OnOk, IsErrOf};
ghost use Rattle.std.specs.List.{list_all};
ghost use Rattle.std.specs.String.{string_cmp};
ghost use Rattle.std.specs.BTreeMap.{IsOrdered, values};
ghost use Rattle.fp_host.specs.OverHost.{AtReturn, ChangesNothing, FailsAlone};
ghost use Rattle.fp_host.specs.Paths.{is_element};
ghost use Rattle.fp_small.specs.Naming.{ListsIn};

use fp_base::{Items, Text};
use fp_host::{Host, HostEnd, Path, Stat};
use std::alloc::{AllocError, Global};
use std::collections::BTreeMap;

/// Returns the names directly in the directory; none if it is absent, a file or a symlink. Changes
/// nothing.
pub fn names_in<H: Host>(alloc: Global, host: &mut H, folder: &Path) -> Result<Items<Text>, HostEnd>
    ensures unchanged { ChangesNothing H.Host host.old host.new }
    ensures tells { IfOk result (λ names. AtReturn H.Host host.old host.new
        (λ u w. ListsIn folder.now u names)) }
    ensures elements { IfOk result (λ names. list_all is_element names ≡ true) }
    ensures fault_has_cause { FailsAlone H.Host host.old host.new (IsErrOf result HostEnd.Fault) }
{
    match host.stat(folder)? {
        Stat::Dir => Ok(host.list(alloc, folder)?),
        _ => Ok(Items::from_vec(Vec::new(alloc))),
    }
}

/// Appends the paths of these names in the directory to a list.
pub fn add_names(folder: &Path, names: &[Text], paths: &mut Vec<Path>) -> Result<(), AllocError>
    requires { list_all is_element names.now ≡ true }
    ensures { OnOk result (paths.new.items ≡ paths.old.items ++ map (λ x. x ∷ folder.now)
        names.now) }
{
    for name in names {
        paths.push(folder.child(name.as_str())?)?;
    }
    Ok(())
}

/// Creates a list with only this item.
pub fn list_of_one<T: Drop>(alloc: Global, item: T) -> Result<Vec<T>, AllocError>
    ensures { IfOk result (λ items. items.items ≡ item ∷ []) }
{
    let mut items = Vec::new(alloc);
    items.push(item)?;
    Ok(items)
}

/// Returns the values of the map, ascending by the bytes of their keys.
pub fn values_in_order<T: Drop>(
    alloc: Global,
    mut keyed: BTreeMap<String, T>,
) -> Result<Vec<T>, AllocError>
    ensures items { IfOk result (λ items. items.items ≡ values keyed) }
    ensures ordered { IsOrdered string_cmp keyed }
{
    let mut items = Vec::with_capacity(alloc, keyed.len())?;
    while let Some((_, item)) = keyed.pop_first() {
        items.push(item)?;
    }
    Ok(items)
}
