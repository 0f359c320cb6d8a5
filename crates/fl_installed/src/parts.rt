//! The metadata that a launch needs, read from the directories of deployed commits.
ghost use Rattle.std.specs.Prelude.{◌≡◌, IfOk, IsErrOf};
ghost use Rattle.fp_host.specs.OverHost.{ChangesNothing, FailsAlone};
ghost use Rattle.fl_installed.specs.Deployed.{DeployedFiles, Deploys};
ghost use Rattle.fl_installed.specs.Parts as spec;

use crate::deployed::deployed_file;
use crate::info::{broken, by_lines};
use crate::points_in;
use fl_extension::{Point, row_of};
use fl_meta::Meta;
use fp_base::{Blob, Items, MetaRule};
use fp_host::{Host, HostEnd};
use fp_name::{Digest, RefName};
use fp_small::{Refusal, State};
use std::alloc::{AllocError, Global};

/// The metadata of a deployed ref.
#[derive(Drop)]
pub struct DeployedMeta {
    /// The runtime, the command and the permissions.
    pub meta: Meta,
    /// The extension points, ascending by the bytes of their names.
    pub points: Items<Point>,
}

/// The metadata that a launch needs.
#[derive(Drop)]
pub struct LaunchParts {
    /// The application's metadata, which names a runtime.
    pub app: DeployedMeta,
    /// The metadata of the runtime that the application names.
    pub runtime: DeployedMeta,
}

/// Adds extension points to metadata, unless it was refused.
fn with_points(meta: Result<Meta, Refusal>, points: Items<Point>) -> Result<DeployedMeta, Refusal>
    ensures { result ≡ spec.with_points points meta }
{
    match meta {
        Ok(meta) => Ok(DeployedMeta { meta, points }),
        Err(refusal) => Err(refusal),
    }
}

/// Parses a file as the metadata of a ref with its extension points, or returns `BadMetadata`, also
/// if there is no file.
fn said_by(
    alloc: Global,
    name: &RefName,
    file: Option<Blob>,
) -> Result<Result<DeployedMeta, Refusal>, AllocError>
    ensures { IfOk result (λ said. said ≡ spec.said_by name.now file) }
{
    match file {
        Some(bytes) => {
            let points = points_in(alloc, name, &bytes)?;
            let meta = by_lines(alloc, name, &bytes)?;
            Ok(with_points(meta, points))
        }
        None => Ok(Err(broken(name, MetaRule::Absent)?)),
    }
}

/// Reads the metadata of a ref from the directory of its deployed commit, or returns `BadMetadata`.
/// Changes nothing.
fn deployed<H: Host>(
    alloc: Global,
    host: &mut H,
    name: &RefName,
    commit: &Digest,
) -> Result<Result<DeployedMeta, Refusal>, HostEnd>
    ensures unchanged { ChangesNothing H.Host host.old host.new }
    ensures tells { (files : DeployedFiles) → Deploys (H.moments host.old) files
        → IfOk result (λ said. said ≡ spec.deployed files name.now commit.now) }
    ensures fault_has_cause { FailsAlone H.Host host.old host.new (IsErrOf result HostEnd.Fault) }
{
    let file = deployed_file(alloc, host, name, commit)?;
    Ok(said_by(alloc, name, file)?)
}

/// Reads the metadata of a deployed application, or returns `NotInstalled` or `BadMetadata`.
/// Changes nothing.
#[tactic(auto, unfolding(crate::specs::Parts::app_in))]
fn app_in<H: Host>(
    alloc: Global,
    host: &mut H,
    state: &State,
    name: &RefName,
) -> Result<Result<DeployedMeta, Refusal>, HostEnd>
    ensures unchanged { ChangesNothing H.Host host.old host.new }
    ensures tells { (files : DeployedFiles) → Deploys (H.moments host.old) files
        → IfOk result (λ said. said ≡ spec.app_in files state.now name.now) }
    ensures fault_has_cause { FailsAlone H.Host host.old host.new (IsErrOf result HostEnd.Fault) }
{
    match row_of(state, name) {
        Some(row) => deployed(alloc, host, name, &row.commit),
        None => Ok(Err(Refusal::NotInstalled { name: name.copy()? })),
    }
}

/// Reads the metadata of a deployed runtime, or returns `RuntimeMissing` or `BadMetadata`. Changes
/// nothing.
#[tactic(auto, unfolding(crate::specs::Parts::runtime_in))]
fn runtime_in<H: Host>(
    alloc: Global,
    host: &mut H,
    state: &State,
    name: &RefName,
) -> Result<Result<DeployedMeta, Refusal>, HostEnd>
    ensures unchanged { ChangesNothing H.Host host.old host.new }
    ensures tells { (files : DeployedFiles) → Deploys (H.moments host.old) files
        → IfOk result (λ said. said ≡ spec.runtime_in files state.now name.now) }
    ensures fault_has_cause { FailsAlone H.Host host.old host.new (IsErrOf result HostEnd.Fault) }
{
    match row_of(state, name) {
        Some(row) => deployed(alloc, host, name, &row.commit),
        None => Ok(Err(Refusal::RuntimeMissing { name: name.copy()? })),
    }
}

/// Reads the metadata of the runtime that the application's metadata names, or returns a refusal;
/// `BadMetadata` with the rule `runtime`, if it names none. Changes nothing.
#[tactic(auto, unfolding(crate::specs::Parts::runtime_of))]
fn runtime_of<H: Host>(
    alloc: Global,
    host: &mut H,
    state: &State,
    name: &RefName,
    app: &Meta,
) -> Result<Result<DeployedMeta, Refusal>, HostEnd>
    ensures unchanged { ChangesNothing H.Host host.old host.new }
    ensures tells { (files : DeployedFiles) → Deploys (H.moments host.old) files
        → IfOk result (λ said. said ≡ spec.runtime_of files state.now name.now app.now) }
    ensures named { IfOk result (λ said. spec.IsNamed app.now.runtime said) }
    ensures fault_has_cause { FailsAlone H.Host host.old host.new (IsErrOf result HostEnd.Fault) }
{
    match &app.runtime {
        Some(runtime) => runtime_in(alloc, host, state, runtime),
        None => Ok(Err(broken(name, MetaRule::Runtime)?)),
    }
}

/// Pairs an application with its runtime, unless the runtime was refused.
fn with_runtime(
    app: DeployedMeta,
    runtime: Result<DeployedMeta, Refusal>,
) -> Result<LaunchParts, Refusal>
    requires { spec.IsNamed app.meta.runtime runtime }
    ensures parts { result ≡ spec.with_runtime app runtime }
    ensures named { spec.NamesRuntime result }
{
    match runtime {
        Ok(runtime) => Ok(LaunchParts { app, runtime }),
        Err(refusal) => Err(refusal),
    }
}

/// Pairs an application with the runtime that it names, unless either was refused. Changes nothing.
fn with_app<H: Host>(
    alloc: Global,
    host: &mut H,
    state: &State,
    name: &RefName,
    app: Result<DeployedMeta, Refusal>,
) -> Result<Result<LaunchParts, Refusal>, HostEnd>
    ensures unchanged { ChangesNothing H.Host host.old host.new }
    ensures tells { (files : DeployedFiles) → Deploys (H.moments host.old) files
        → IfOk result (λ parts. parts ≡ spec.with_app files state.now name.now app) }
    ensures named { IfOk result spec.NamesRuntime }
    ensures fault_has_cause { FailsAlone H.Host host.old host.new (IsErrOf result HostEnd.Fault) }
{
    match app {
        Ok(app) => {
            let runtime = runtime_of(alloc, host, state, name, &app.meta)?;
            Ok(with_runtime(app, runtime))
        }
        Err(refusal) => Ok(Err(refusal)),
    }
}

/// Reads the metadata that a launch of the application needs, from the state and the directories of
/// the deployed commits.
///
/// Returns the first refusal, if any: `NotInstalled` or `BadMetadata` of the application; then
/// `RuntimeMissing`, if the runtime that it names isn't installed, or `BadMetadata` of the runtime.
/// Changes nothing.
#[tactic(auto, unfolding(crate::specs::Parts::parts_in))]
pub fn parts_in<H: Host>(
    alloc: Global,
    host: &mut H,
    state: &State,
    name: &RefName,
) -> Result<Result<LaunchParts, Refusal>, HostEnd>
    ensures unchanged { ChangesNothing H.Host host.old host.new }
    ensures tells { (files : DeployedFiles) → Deploys (H.moments host.old) files
        → IfOk result (λ parts. parts ≡ spec.parts_in files state.now name.now) }
    ensures named { IfOk result spec.NamesRuntime }
    ensures fault_has_cause { FailsAlone H.Host host.old host.new (IsErrOf result HostEnd.Fault) }
{
    let app = app_in(alloc, host, state, name)?;
    with_app(alloc, host, state, name, app)
}
