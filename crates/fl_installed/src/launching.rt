//! The launch of an installed application.
ghost use Rattle.std.specs.Prelude.{◌≡◌, IfOk, IsSome, IsErrOf};
ghost use Rattle.std.specs.Option.{option_copied};
ghost use Rattle.fp_host.specs.OverHost.{ChangesNothing, FailsAlone};
ghost use Rattle.fl_installed.specs.Deployed.{DeployedFiles, Deploys};
ghost use Rattle.fl_installed.specs.Launching as spec;
ghost use Rattle.fl_installed.specs.Parts.{NamesRuntime};

use crate::parts::{LaunchParts, parts_in};
use fl_launch::{LaunchText, launch_extended};
use fl_options::{last_command, layer_of};
use fp_base::Text;
use fp_host::{Host, HostEnd};
use fp_name::RefName;
use fp_small::{Refusal, State};
use std::alloc::{AllocError, Global};

/// Returns the text of a command, if there is one.
fn command_text(command: &Option<Text>) -> Option<&str>
    ensures { option_copied result ≡ command.now }
{
    match command {
        Some(text) => Some(text.as_str()),
        None => None,
    }
}

/// Returns the launch of an application with these parts and the user's options.
#[tactic(auto, unfolding(crate::specs::Launching::launch_of))]
fn launch_of(
    alloc: Global,
    state: &State,
    name: &RefName,
    options: &[Text],
    parts: &LaunchParts,
) -> Result<LaunchText, AllocError>
    requires { IsSome parts.now.app.meta.runtime }
    ensures { IfOk result (λ launch. launch ≡ spec.launch_of state.now name.now options.now
        parts.now) }
{
    let layer = layer_of(alloc, options)?;
    let command = last_command(alloc, options)?;
    let shown = command_text(&command);
    let launch = launch_extended(
        alloc,
        state,
        name,
        &parts.app.meta,
        &parts.runtime.meta,
        &parts.app.points,
        &parts.runtime.points,
        &layer,
        shown,
    )?;
    Ok(launch)
}

/// Returns the launch of an application with these parts, unless they were refused.
fn with_parts(
    alloc: Global,
    state: &State,
    name: &RefName,
    options: &[Text],
    parts: Result<LaunchParts, Refusal>,
) -> Result<Result<LaunchText, Refusal>, AllocError>
    requires { NamesRuntime parts }
    ensures { IfOk result (λ launch. launch ≡ spec.with_parts state.now name.now options.now
        parts) }
{
    match parts {
        Ok(parts) => Ok(Ok(launch_of(alloc, state, name, options, &parts)?)),
        Err(refusal) => Ok(Err(refusal)),
    }
}

/// Returns the launch of an installed application with a user's options, after flatpak-run(1): its
/// text and its permissions. Words that aren't options are ignored. Reads the files `metadata` of
/// the application and its runtime in the directories of their deployed commits. Changes nothing.
///
/// Returns the first refusal, if any: `NotInstalled` or `BadMetadata` of the application, or
/// `RuntimeMissing` or `BadMetadata` of its runtime.
#[tactic(auto, unfolding(crate::specs::Launching::launch_in))]
pub fn launch_in<H: Host>(
    alloc: Global,
    host: &mut H,
    state: &State,
    name: &RefName,
    options: &[Text],
) -> Result<Result<LaunchText, Refusal>, HostEnd>
    ensures unchanged { ChangesNothing H.Host host.old host.new }
    ensures tells { (files : DeployedFiles) → Deploys (H.moments host.old) files
        → IfOk result (λ launch. launch ≡ spec.launch_in files state.now name.now options.now) }
    ensures fault_has_cause { FailsAlone H.Host host.old host.new (IsErrOf result HostEnd.Fault) }
{
    let parts = parts_in(alloc, host, state, name)?;
    Ok(with_parts(alloc, state, name, options, parts)?)
}
