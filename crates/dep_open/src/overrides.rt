//! Reading the overrides.
ghost use Rattle.std.specs.Prelude.{◌≡◌, true, IfOk, OnOk, IsErrOf};
ghost use Rattle.fp_host.specs.OverHost.{AtReturn, ChangesNothing, FailsAlone};
ghost use Rattle.fp_host.specs.Outcome.{shows};
ghost use Rattle.fp_host.specs.Paths.{is_element};
ghost use Rattle.std.specs.List.{list_all};
ghost use Rattle.dep_states.specs.Names.{overrides_folder};
ghost use Rattle.fp_name.specs.Grammar.{is_override as names_override};
ghost use Rattle.fp_small.specs.Naming.{ListsIn};
ghost use Rattle.dep_open.specs.Parts.{seen_in, override_loaded, AreOverrides, AreGoodLayers, AddsOverride, KeepsGoodLayers};

use crate::part::{Part, Seen, add};
use dep_states::overrides_path;
use fp_base::{Items, Text};
use fp_host::{Host, HostEnd, Path};
use fp_keyfile::{KeyError, KeyFile};
use fp_name::is_id;
use fp_small::{Loaded, MOST_TEXT_BYTES, OverrideRow, load, names_in, values_in_order};
use std::alloc::{AllocError, Global};
use std::collections::BTreeMap;

/// Reads the overrides of the present image, and changes nothing.
pub(crate) fn read_overrides<H: Host>(
    alloc: Global,
    host: &mut H,
) -> Result<Part<Items<OverrideRow>>, HostEnd>
    ensures unchanged { ChangesNothing H.Host host.old host.new }
    ensures good { IfOk result (λ part. AreGoodLayers part.found) }
    ensures tells { IfOk result (λ part. AtReturn H.Host host.old host.new
        (λ u w. AreOverrides (shows u) part)) }
    ensures fault_has_cause { FailsAlone H.Host host.old host.new (IsErrOf result HostEnd.Fault) }
{
    let folder = overrides_path(alloc)?;
    let names = names_in(alloc, host, &folder)?;
    overrides_among(alloc, host, &folder, names.as_slice())
}

/// Reads the overrides with these names, which are all names in the directory `overrides`. Changes
/// nothing.
fn overrides_among<H: Host>(
    alloc: Global,
    host: &mut H,
    folder: &Path,
    names: &[Text],
) -> Result<Part<Items<OverrideRow>>, HostEnd>
    requires folder { folder.now ≡ overrides_folder }
    requires elements { list_all is_element names.now ≡ true }
    ensures unchanged { ChangesNothing H.Host host.old host.new }
    ensures good { IfOk result (λ part. AreGoodLayers part.found) }
    ensures tells { IfOk result (λ part. AtReturn H.Host host.old host.new
        (λ u w. ListsIn overrides_folder u names.now
        → AreOverrides (shows u) part)) }
    ensures fault_has_cause { FailsAlone H.Host host.old host.new (IsErrOf result HostEnd.Fault) }
{
    let mut rows = BTreeMap::new(alloc);
    let mut damaged = None;
    for name in names {
        add_override(alloc, host, folder, name.as_str(), &mut rows, &mut damaged)?;
    }
    Ok(Part {
        found: Items::from_vec(values_in_order(alloc, rows)?),
        damaged,
    })
}

/// Adds the override of this name, or its path as damaged if it can't be read. Does nothing if the
/// name isn't an override's.
fn add_override<H: Host>(
    alloc: Global,
    host: &mut H,
    folder: &Path,
    name: &str,
    rows: &mut BTreeMap<String, OverrideRow>,
    damaged: &mut Option<Path>,
) -> Result<(), HostEnd>
    requires folder { folder.now ≡ overrides_folder }
    requires element { is_element name.now ≡ true }
    ensures unchanged { ChangesNothing H.Host host.old host.new }
    ensures good { OnOk result (KeepsGoodLayers rows.old.entries rows.new.entries) }
    ensures tells { OnOk result (AtReturn H.Host host.old host.new
        (λ u w. AddsOverride (shows u) name.now rows.old.entries
        damaged.old rows.new.entries damaged.new)) }
    ensures fault_has_cause { FailsAlone H.Host host.old host.new (IsErrOf result HostEnd.Fault) }
{
    if !is_override(name) {
        return Ok(());
    }
    let path = folder.child(name)?;
    let loaded = load(alloc, host, &path, MOST_TEXT_BYTES)?;
    let seen = override_in(alloc, loaded, name)?;
    Ok(add(alloc, name, path, seen, rows, damaged)?)
}

/// Returns whether a text names an override: `global`, or the ID of an application.
fn is_override(name: &str) -> bool
    ensures { result ≡ names_override name.now }
{
    name == "global" || is_id(name)
}

/// Returns the row that a loaded override gives; `Bad` if it isn't a key file of at most 1 MiB.
fn override_in(alloc: Global, loaded: Loaded, name: &str) -> Result<Seen<OverrideRow>, AllocError>
    ensures { IfOk result (λ seen. seen_in seen ≡ override_loaded name.now loaded) }
{
    match loaded {
        Loaded::Absent => Ok(Seen::Away),
        Loaded::TooLong(_) | Loaded::NotFile => Ok(Seen::Bad),
        Loaded::Bytes(bytes) => match KeyFile::parse(alloc, bytes.as_slice()) {
            Ok(file) => Ok(Seen::There(OverrideRow {
                name: Text::from_str(alloc, name)?,
                file,
            })),
            Err(KeyError::Fault(_)) => Ok(Seen::Bad),
            Err(KeyError::NoMemory) => Err(AllocError),
        },
    }
}
