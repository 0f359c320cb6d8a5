//! Writing of the file `config`.
ghost use Rattle.std.specs.Prelude.{◌≡◌, ◌∷◌, [], codes, map, Some, IfOk};
ghost use Rattle.fp_small.specs.Config as spec;
ghost use Rattle.fp_small.specs.Config.{IsSettings, config_of, config_text, config_file, pin_pair};

use crate::state::RemoteRow;
use fp_base::{Items, Text};
use fp_keyfile::{Group, KeyFile, Pair};
use fp_name::PinPattern;
use std::alloc::{AllocError, Global};

/// Creates a group with one pair.
fn group_of(alloc: Global, name: &str, key: &str, value: &str) -> Result<Group, AllocError>
    ensures { IfOk result (λ g. g ≡ record {
      name = name.now;
      pairs = record { key = key.now; value = value.now } ∷ [];
    }) }
{
    let mut pairs = Vec::with_capacity(alloc, 1)?;
    pairs.push(Pair::new(alloc, key, value)?)?;
    Ok(Group {
        name: Text::from_str(alloc, name)?,
        pairs: Items::from_vec(pairs),
    })
}

/// Creates the group `installation`.
fn layout_group(alloc: Global) -> Result<Group, AllocError>
    ensures { IfOk result (λ g. g ≡ spec.layout_group) }
{
    group_of(alloc, "installation", "layout", "2")
}

/// Creates the group of a remote.
fn remote_group(alloc: Global, row: &RemoteRow) -> Result<Group, AllocError>
    ensures { IfOk result (λ g. g ≡ spec.remote_group row.now) }
{
    let name = format!(in alloc; "remote \"{}\"", row.name.as_str())?;
    group_of(alloc, &name, "url", row.url.as_str())
}

/// Creates the group `pins`.
fn pins_group(alloc: Global, pins: &[PinPattern]) -> Result<Group, AllocError>
    ensures { IfOk result (λ g. g ≡ record { name = codes "pins"; pairs = map pin_pair pins.now }) }
{
    let mut pairs = Vec::with_capacity(alloc, pins.len())?;
    for pin in pins {
        pairs.push(Pair::new(alloc, pin.as_str(), "true")?)?;
    }
    Ok(Group {
        name: Text::from_str(alloc, "pins")?,
        pairs: Items::from_vec(pairs),
    })
}

/// Creates the groups of a `config`.
fn config_groups(
    alloc: Global,
    remotes: &[RemoteRow],
    pins: &[PinPattern],
) -> Result<Vec<Group>, AllocError>
    ensures { IfOk result (λ groups. groups.items ≡ config_file
        (record { remotes = remotes.now; pins = pins.now })) }
{
    let mut groups = Vec::new(alloc);
    groups.push(layout_group(alloc)?)?;
    for row in remotes {
        groups.push(remote_group(alloc, row)?)?;
    }
    if !pins.is_empty() {
        groups.push(pins_group(alloc, pins)?)?;
    }
    Ok(groups)
}

/// Returns the text of a `config` with these remotes and pins: the layout, the remotes and then the
/// pins, each in order. Without pins it has no group `pins`. `read_config` reads the text back as
/// the same settings.
pub fn write_config(
    alloc: Global,
    remotes: &[RemoteRow],
    pins: &[PinPattern],
) -> Result<Text, AllocError>
    requires { IsSettings (record { remotes = remotes.now; pins = pins.now }) }
    ensures text { IfOk result (λ t. t ≡ config_text (record
        { remotes = remotes.now; pins = pins.now })) }
    ensures reads_back { config_of (config_text (record
        { remotes = remotes.now; pins = pins.now }))
        ≡ Some (record { remotes = remotes.now; pins = pins.now }) }
{
    let groups = config_groups(alloc, remotes, pins)?;
    KeyFile::from_groups(Items::from_vec(groups)).write()
}
