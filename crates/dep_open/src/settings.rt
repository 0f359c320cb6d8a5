//! Reading the settings.
ghost use Rattle.std.specs.Prelude.{◌≡◌, [], Some, None, IfOk, IsErrOf};
ghost use Rattle.fp_host.specs.OverHost.{AtReturn, ChangesNothing, FailsAlone};
ghost use Rattle.fp_host.specs.Outcome.{shows};
ghost use Rattle.fp_small.specs.Config.{config_of};
ghost use Rattle.fp_small.specs.Old.{remotes_of, pins_of};
ghost use Rattle.dep_states.specs.Names.{config, remotes_conf, pins_file};
ghost use Rattle.dep_states.specs.Shown.{setup, layout_two};
ghost use Rattle.fp_small.specs.declared.state.Layout.TheVariants.{Two};
ghost use Rattle.dep_open.specs.Parts.{seen_in, is_away, seen_as, IsSetUp, IsSetUpOld, SetsUp, SetsUpOld, IsGoodSetup, found_or};

use crate::part::{Part, Seen};
use dep_states::{Setup, config_path, pins_path, remotes_path};
use fp_base::Items;
use fp_host::{Host, HostEnd, Path};
use fp_name::PinPattern;
use fp_small::{
    ConfigError, Layout, Loaded, MOST_CONFIG_BYTES, MOST_TEXT_BYTES, RemoteRow, Settings, load,
    read_config, read_pins, read_remotes,
};
use std::alloc::{AllocError, Global};

/// Reads the settings of the present image, and changes nothing.
pub(crate) fn read_settings<H: Host>(alloc: Global, host: &mut H) -> Result<Part<Setup>, HostEnd>
    ensures unchanged { ChangesNothing H.Host host.old host.new }
    ensures good { IfOk result IsGoodSetup }
    ensures tells { IfOk result (λ part. AtReturn H.Host host.old host.new
        (λ u w. SetsUp (shows u) part)) }
    ensures fault_has_cause { FailsAlone H.Host host.old host.new (IsErrOf result HostEnd.Fault) }
{
    let path = config_path(alloc)?;
    let loaded = load(alloc, host, &path, MOST_CONFIG_BYTES)?;
    if is_absent(&loaded) {
        return load_old(alloc, host);
    }
    Ok(read_new(alloc, loaded, path)?)
}

/// Reads the settings by the files of layout 1, for an image without `config`. Changes nothing.
fn load_old<H: Host>(alloc: Global, host: &mut H) -> Result<Part<Setup>, HostEnd>
    ensures unchanged { ChangesNothing H.Host host.old host.new }
    ensures good { IfOk result IsGoodSetup }
    ensures tells { IfOk result (λ part. AtReturn H.Host host.old host.new
        (λ u w. SetsUpOld (shows u) part)) }
    ensures fault_has_cause { FailsAlone H.Host host.old host.new (IsErrOf result HostEnd.Fault) }
{
    let pins_path = pins_path(alloc)?;
    let remotes_path = remotes_path(alloc)?;
    let pins = load(alloc, host, &pins_path, MOST_TEXT_BYTES)?;
    let remotes = load(alloc, host, &remotes_path, MOST_TEXT_BYTES)?;
    Ok(read_old(alloc, pins, pins_path, remotes, remotes_path)?)
}

/// Returns whether the loaded file is absent.
fn is_absent(loaded: &Loaded) -> bool
    ensures { result ≡ is_away loaded.now }
{
    match loaded {
        Loaded::Absent => true,
        _ => false,
    }
}

/// Returns the settings that a loaded `config` gives, or its path as damaged.
fn read_new(alloc: Global, loaded: Loaded, path: Path) -> Result<Part<Setup>, AllocError>
    requires { path ≡ config }
    ensures { IfOk result (IsSetUp (layout_two (seen_as config_of loaded)) config) }
{
    match settings_in(alloc, loaded)? {
        Seen::There(settings) => Ok(whole(Layout::Two, settings)),
        Seen::Away => Ok(whole(Layout::Two, no_settings(alloc))),
        Seen::Bad => Ok(broken(alloc, path)),
    }
}

/// Returns the settings that the files of layout 1 give, or the first damaged path. If both files
/// are absent, the settings are empty ones of layout 2.
fn read_old(
    alloc: Global,
    pins: Loaded,
    pins_path: Path,
    remotes: Loaded,
    remotes_path: Path,
) -> Result<Part<Setup>, AllocError>
    requires pins { pins_path ≡ pins_file }
    requires remotes { remotes_path ≡ remotes_conf }
    ensures { IfOk result (IsSetUpOld pins remotes) }
{
    let pins = pins_in(alloc, pins)?;
    let remotes = remotes_in(alloc, remotes)?;
    match (pins, remotes) {
        (Seen::Bad, _) => Ok(broken(alloc, pins_path)),
        (_, Seen::Bad) => Ok(broken(alloc, remotes_path)),
        (Seen::Away, Seen::Away) => Ok(whole(Layout::Two, no_settings(alloc))),
        (pins, remotes) => Ok(whole(
            Layout::One,
            Settings {
                remotes: found_or(remotes, Items::new(alloc)),
                pins: found_or(pins, Items::new(alloc)),
            },
        )),
    }
}

/// Returns what was found, or else this value.
fn found_or<T: Drop>(seen: Seen<T>, other: T) -> T
    ensures { result ≡ found_or (seen_in seen) other }
{
    match seen {
        Seen::There(found) => found,
        _ => other,
    }
}

/// Returns a part with these settings.
fn whole(layout: Layout, settings: Settings) -> Part<Setup>
    ensures found { result.found ≡ setup layout settings.remotes settings.pins }
    ensures whole { result.damaged ≡ None }
{
    Part {
        found: Setup { layout, settings },
        damaged: None,
    }
}

/// Returns a part with this path as damaged, and empty settings.
fn broken(alloc: Global, path: Path) -> Part<Setup>
    ensures found { result.found ≡ setup Two [] [] }
    ensures path { result.damaged ≡ Some path }
{
    Part {
        found: Setup {
            layout: Layout::Two,
            settings: no_settings(alloc),
        },
        damaged: Some(path),
    }
}

/// Returns settings without remotes and pins.
fn no_settings(alloc: Global) -> Settings
    ensures remotes { result.remotes ≡ [] }
    ensures pins { result.pins ≡ [] }
{
    Settings {
        remotes: Items::new(alloc),
        pins: Items::new(alloc),
    }
}

/// Returns the settings that a loaded `config` gives; `Bad` if it isn't a valid one of at most 2
/// MiB.
fn settings_in(alloc: Global, loaded: Loaded) -> Result<Seen<Settings>, AllocError>
    ensures { IfOk result (λ seen. seen_in seen ≡ seen_as config_of loaded) }
{
    match loaded {
        Loaded::Absent => Ok(Seen::Away),
        Loaded::TooLong(_) | Loaded::NotFile => Ok(Seen::Bad),
        Loaded::Bytes(bytes) => match read_config(alloc, bytes.as_slice()) {
            Ok(found) => Ok(Seen::There(found)),
            Err(ConfigError::Bad) => Ok(Seen::Bad),
            Err(ConfigError::NoMemory) => Err(AllocError),
        },
    }
}

/// Returns the remotes that a loaded `remotes.conf` gives; `Bad` if it isn't a valid one of at most
/// 1 MiB.
fn remotes_in(alloc: Global, loaded: Loaded) -> Result<Seen<Items<RemoteRow>>, AllocError>
    ensures { IfOk result (λ seen. seen_in seen ≡ seen_as remotes_of loaded) }
{
    match loaded {
        Loaded::Absent => Ok(Seen::Away),
        Loaded::TooLong(_) | Loaded::NotFile => Ok(Seen::Bad),
        Loaded::Bytes(bytes) => match read_remotes(alloc, bytes.as_slice()) {
            Ok(found) => Ok(Seen::There(found)),
            Err(ConfigError::Bad) => Ok(Seen::Bad),
            Err(ConfigError::NoMemory) => Err(AllocError),
        },
    }
}

/// Returns the pins that a loaded file `pins` gives; `Bad` if it isn't a valid one of at most 1
/// MiB.
fn pins_in(alloc: Global, loaded: Loaded) -> Result<Seen<Items<PinPattern>>, AllocError>
    ensures { IfOk result (λ seen. seen_in seen ≡ seen_as pins_of loaded) }
{
    match loaded {
        Loaded::Absent => Ok(Seen::Away),
        Loaded::TooLong(_) | Loaded::NotFile => Ok(Seen::Bad),
        Loaded::Bytes(bytes) => match read_pins(alloc, bytes.as_slice()) {
            Ok(found) => Ok(Seen::There(found)),
            Err(ConfigError::Bad) => Ok(Seen::Bad),
            Err(ConfigError::NoMemory) => Err(AllocError),
        },
    }
}
