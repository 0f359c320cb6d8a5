//! Listing the content of an installation.
ghost use Rattle.std.specs.Prelude.{◌≡◌, ◌++◌, Option, Some, IfOk, OnOk, IsErrOf, string_bytes};
ghost use Rattle.fp_host.specs.OverHost.{ChangesNothing, FailsAlone};
ghost use Rattle.fp_host.specs.Moments.{Goes};
ghost use Rattle.fp_small.specs.Places.{repo};
ghost use Rattle.ost_model.specs.Objects.{Have};
ghost use Rattle.ost_model.specs.Remotes.{Stores};
ghost use Rattle.dep_states.specs.After.{row_at};
ghost use Rattle.fl_export.specs.Exported.{exported};
ghost use Rattle.fl_installed.specs.Deployed.{DeployedFiles, Deploys};
ghost use Rattle.fl_installed.specs.Described.{info_in as info_of};
ghost use Rattle.fl_installed.specs.Launching.{launch_in as launch_over};
ghost use Rattle.fl_top.specs.Answer.{listing_answer, shown_answer, known_of, told_of, launched_of, override_text as text_of_override};
ghost use Rattle.fl_top.specs.Ends.{PrintsOf};
ghost use Rattle.fl_top.specs.Exports.{exports_text as text_of_exports, row_line as line_of_row};
ghost use Rattle.fl_top.specs.Told.{files_at};
ghost use Rattle.fl_top.specs.Moment.{RunsLook};
ghost use Rattle.fl_top.specs.Return.{LookHasEnded};

use dep_open::read_state;
use dep_switch::{find_override, find_ref};
use fl_change::RunEnd;
use fl_export::{ExportRow, wanted};
use fl_installed::{Info, info_in, launch_in};
use fl_launch::LaunchText;
use fl_lines::{export_line, info_text, pins_text, refs_text, remotes_text};
use fl_words::Listing;
use fp_base::Text;
use fp_host::{Host, HostEnd};
use fp_name::RefName;
use fp_small::{RefRow, Refusal, State};
use std::alloc::{AllocError, Global};

/// Prints a listing of the installation, and changes nothing.
pub(crate) fn list<H: Host>(alloc: Global, host: &mut H, listing: Listing) -> Result<(), RunEnd>
    ensures any_moment { Goes (H.moments host.old) (H.moments host.new)
        (RunsLook (shown_answer (listing_answer (files_at (H.moments host.old)) listing)))
        (LookHasEnded (shown_answer (listing_answer (files_at (H.moments host.old)) listing)) result) }
    ensures fault_has_cause { FailsAlone H.Host host.old host.new (IsErrOf result RunEnd.Fault) }
    ensures no_remote_fault { IsErrOf result RunEnd.RemoteFault → ⊥ }
{
    let state = read_state(alloc, host)?;
    let text = listed_text(alloc, host, listing, &state)?;
    host.say(text.as_str().as_bytes())?;
    Ok(())
}

/// Returns the text of a listing. Refuses a ref that isn't deployed, bad metadata, and a launch
/// that isn't possible.
fn listed_text<H: Host>(
    alloc: Global,
    host: &mut H,
    listing: Listing,
    state: &State,
) -> Result<Text, RunEnd>
    ensures unchanged { ChangesNothing H.Host host.old host.new }
    ensures tells { (files : DeployedFiles) → Deploys (H.moments host.old) files
        → (have : Have) → Stores repo (H.moments host.old) have
        → PrintsOf (listing_answer files listing (record { state = state.now; have = have }))
        result }
    ensures fault_has_cause { FailsAlone H.Host host.old host.new (IsErrOf result RunEnd.Fault) }
    ensures no_remote_fault { IsErrOf result RunEnd.RemoteFault → ⊥ }
{
    match listing {
        Listing::Refs => Ok(refs_text(alloc, state.refs.as_slice())?),
        Listing::Remotes => Ok(remotes_text(alloc, state.remotes.as_slice())?),
        Listing::Pins => Ok(pins_text(alloc, state.pins.as_slice())?),
        Listing::Exports => Ok(exports_text(alloc, host, state)?),
        Listing::Info(name) => known_text(alloc, host, state, &name),
        Listing::Launch { name, options } => {
            launch_text(alloc, host, state, &name, options.as_slice())
        }
        Listing::OverrideShow { name } => Ok(override_text(alloc, state, &name)?),
    }
}

/// Returns a line for each export of the state: its path and its ref.
fn exports_text<H: Host>(alloc: Global, host: &mut H, state: &State) -> Result<Text, HostEnd>
    ensures unchanged { ChangesNothing H.Host host.old host.new }
    ensures tells { (have : Have) → Stores repo (H.moments host.old) have
        → IfOk result (λ t. t ≡ text_of_exports (exported have state.now)) }
    ensures fault_has_cause { FailsAlone H.Host host.old host.new (IsErrOf result HostEnd.Fault) }
{
    let rows = wanted(alloc, host, state)?;
    Ok(rows_text(alloc, rows.as_slice())?)
}

/// Returns a line for each row of exports.
fn rows_text(alloc: Global, rows: &[ExportRow]) -> Result<Text, AllocError>
    ensures { IfOk result (λ t. t ≡ text_of_exports rows.now) }
{
    let mut text = String::new(alloc);
    for row in rows {
        push_row(alloc, &mut text, row)?;
    }
    Ok(Text::from_string(text))
}

/// Appends the line of a row of exports.
fn push_row(alloc: Global, text: &mut String, row: &ExportRow) -> Result<(), AllocError>
    ensures { OnOk result (string_bytes text.new ≡ string_bytes text.old ++ line_of_row row.now) }
{
    let line = export_line(alloc, &row.path, &row.name)?;
    text.push_str(line.as_str())
}

/// Returns the lines of `info` for a ref. Refuses a ref that isn't deployed, and bad metadata.
fn known_text<H: Host>(
    alloc: Global,
    host: &mut H,
    state: &State,
    name: &RefName,
) -> Result<Text, RunEnd>
    ensures unchanged { ChangesNothing H.Host host.old host.new }
    ensures tells { (files : DeployedFiles) → Deploys (H.moments host.old) files → (have : Have)
        → PrintsOf (known_of files name.now (record { state = state.now; have = have })) result }
    ensures fault_has_cause { FailsAlone H.Host host.old host.new (IsErrOf result RunEnd.Fault) }
    ensures no_remote_fault { IsErrOf result RunEnd.RemoteFault → ⊥ }
{
    match find_ref(state.refs.as_slice(), name) {
        Some(row) => row_text(alloc, host, name, row),
        None => Err(RunEnd::Refused(Refusal::NotInstalled { name: name.copy()? })),
    }
}

/// Returns the lines of `info` for a deployed ref. Refuses bad metadata.
fn row_text<H: Host>(
    alloc: Global,
    host: &mut H,
    name: &RefName,
    row: &RefRow,
) -> Result<Text, RunEnd>
    ensures unchanged { ChangesNothing H.Host host.old host.new }
    ensures tells { (files : DeployedFiles) → Deploys (H.moments host.old) files
        → PrintsOf (told_of row.now (info_of files name.now row.now.commit)) result }
    ensures fault_has_cause { FailsAlone H.Host host.old host.new (IsErrOf result RunEnd.Fault) }
    ensures no_remote_fault { IsErrOf result RunEnd.RemoteFault → ⊥ }
{
    let info = info_in(alloc, host, name, &row.commit)?;
    told_text(alloc, row, info)
}

/// Returns the lines of `info` for a row and the facts of its metadata. Errs with the refusal of
/// the metadata.
fn told_text(alloc: Global, row: &RefRow, info: Result<Info, Refusal>) -> Result<Text, RunEnd>
    ensures tells { PrintsOf (told_of row.now info) result }
    ensures no_fault { IsErrOf result RunEnd.Fault → ⊥ }
{
    match info {
        Ok(info) => Ok(info_text(
            alloc,
            row,
            info.runtime.as_ref(),
            info.extensions.as_slice(),
        )?),
        Err(refusal) => Err(RunEnd::Refused(refusal)),
    }
}

/// Returns the text of an application's launch with these options, or refuses it.
fn launch_text<H: Host>(
    alloc: Global,
    host: &mut H,
    state: &State,
    name: &RefName,
    options: &[Text],
) -> Result<Text, RunEnd>
    ensures unchanged { ChangesNothing H.Host host.old host.new }
    ensures tells { (files : DeployedFiles) → Deploys (H.moments host.old) files
        → PrintsOf (launched_of (launch_over files state.now name.now options.now)) result }
    ensures fault_has_cause { FailsAlone H.Host host.old host.new (IsErrOf result RunEnd.Fault) }
    ensures no_remote_fault { IsErrOf result RunEnd.RemoteFault → ⊥ }
{
    let launch = launch_in(alloc, host, state, name, options)?;
    launched_text(launch)
}

/// Returns the text of a launch. Errs with the refusal of the launch.
fn launched_text(launch: Result<LaunchText, Refusal>) -> Result<Text, RunEnd>
    ensures tells { PrintsOf (launched_of launch) result }
    ensures no_fault { IsErrOf result RunEnd.Fault → ⊥ }
{
    match launch {
        Ok(LaunchText { text, .. }) => Ok(text),
        Err(refusal) => Err(RunEnd::Refused(refusal)),
    }
}

/// Returns the text of an override's key file; empty if there is no such override.
fn override_text(alloc: Global, state: &State, name: &Text) -> Result<Text, AllocError>
    ensures { IfOk result (λ t. t ≡ text_of_override state.now name.now) }
{
    match find_override(state.overrides.as_slice(), name) {
        Some(row) => row.file.write(),
        None => Text::from_str(alloc, ""),
    }
}
