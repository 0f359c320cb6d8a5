//! The description of a ref by its metadata, as `info` prints it.
ghost use Rattle.std.specs.Prelude.{◌≡◌, true, IfOk, IsErrOf};
ghost use Rattle.fp_host.specs.OverHost.{ChangesNothing, FailsAlone};
ghost use Rattle.fp_keyfile.specs.KeyFile.{are_distinct, file_of};
ghost use Rattle.fp_small.specs.Order.{sorted_by};
ghost use Rattle.fp_small.specs.Places.{repo};
ghost use Rattle.fl_meta.specs.Metadata.{meta_of, meta_kind};
ghost use Rattle.ost_model.specs.Objects.{Have};
ghost use Rattle.ost_model.specs.Remotes.{Stores};
ghost use Rattle.fl_installed.specs.Deployed.{DeployedFiles, Deploys};
ghost use Rattle.fl_installed.specs.Described as spec;

use crate::deployed::deployed_file;
use crate::files::metadata_file;
use fl_meta::{Meta, MetaError, meta_kind};
use fp_base::{Blob, Items, MetaRule, MetadataRule, Text};
use fp_host::{Host, HostEnd};
use fp_keyfile::{KeyError, KeyFile};
use fp_name::{Digest, RefName};
use fp_small::Refusal;
use std::alloc::{AllocError, Global};

/// The part of a ref's metadata that `info` prints.
#[derive(Drop)]
pub struct Info {
    /// The runtime of an application.
    pub runtime: Option<RefName>,
    /// The names of the extensions, from the groups `Extension NAME`, ascending by their bytes.
    pub extensions: Items<Text>,
}

/// Returns the refusal of metadata that breaks a rule: `BadMetadata` with line 0.
pub(crate) fn broken(name: &RefName, rule: MetaRule) -> Result<Refusal, AllocError>
    ensures { IfOk result (λ refusal. refusal ≡ spec.broken name.now rule) }
{
    Ok(Refusal::BadMetadata {
        name: name.copy()?,
        line: 0,
        rule: MetadataRule::Meta(rule),
    })
}

/// Reads a key file as the metadata of a ref, or returns `BadMetadata` with the first rule that it
/// breaks.
fn by_rules(
    alloc: Global,
    name: &RefName,
    file: &KeyFile,
) -> Result<Result<Meta, Refusal>, AllocError>
    ensures tells { IfOk result (λ meta. meta ≡ spec.by_rules name.now
        (meta_of (meta_kind name.now.kind) file.now)) }
    ensures once { IfOk result spec.NamesOnce }
{
    // For the proof: the groups of a key file have distinct names.
    let _groups = file.groups();
    match Meta::read(alloc, file, meta_kind(name.kind())) {
        Ok(meta) => Ok(Ok(meta)),
        Err(MetaError::Rule(rule)) => Ok(Err(broken(name, rule)?)),
        Err(MetaError::NoMemory) => Err(AllocError),
    }
}

/// Parses the bytes as the metadata of a ref, or returns `BadMetadata`: with the line if they
/// aren't a key file, else with line 0.
pub(crate) fn by_lines(
    alloc: Global,
    name: &RefName,
    bytes: &Blob,
) -> Result<Result<Meta, Refusal>, AllocError>
    ensures tells { IfOk result (λ meta. meta ≡ spec.by_lines name.now (file_of bytes.now)) }
    ensures once { IfOk result spec.NamesOnce }
{
    match KeyFile::parse(alloc, bytes.as_slice()) {
        Ok(file) => by_rules(alloc, name, &file),
        Err(KeyError::Fault(fault)) => Ok(Err(Refusal::BadMetadata {
            name: name.copy()?,
            line: fault.line,
            rule: MetadataRule::Key(fault.rule),
        })),
        Err(KeyError::NoMemory) => Err(AllocError),
    }
}

/// Parses a file as the metadata of a ref, or returns `BadMetadata`, with the rule `absent` and
/// line 0 if there is no file.
fn by_file(
    alloc: Global,
    name: &RefName,
    file: Option<Blob>,
) -> Result<Result<Meta, Refusal>, AllocError>
    ensures tells { IfOk result (λ meta. meta ≡ spec.by_file name.now file) }
    ensures once { IfOk result spec.NamesOnce }
{
    match file {
        Some(bytes) => by_lines(alloc, name, &bytes),
        None => Ok(Err(broken(name, MetaRule::Absent)?)),
    }
}

/// Reads the metadata of a ref's commit from the installation's store.
///
/// Returns `BadMetadata` if it isn't valid: with the rule `absent` and line 0, if the commit has no
/// file `metadata` of at most 1 MiB, or if the commit or the dirtree of its root is missing or not
/// valid; with the line and the rule, if the file isn't a key file; or with line 0 and the rule, if
/// it isn't valid metadata of the ref's kind. Changes nothing.
#[tactic(auto, unfolding(crate::specs::Described::described))]
pub fn described<H: Host>(
    alloc: Global,
    host: &mut H,
    name: &RefName,
    commit: &Digest,
) -> Result<Result<Meta, Refusal>, HostEnd>
    ensures unchanged { ChangesNothing H.Host host.old host.new }
    ensures tells { (have : Have) → Stores repo (H.moments host.old) have
        → IfOk result (λ meta. meta ≡ spec.described have name.now commit.now) }
    // No extension occurs twice.
    ensures once { IfOk result spec.NamesOnce }
    ensures fault_has_cause { FailsAlone H.Host host.old host.new (IsErrOf result HostEnd.Fault) }
{
    let file = metadata_file(alloc, host, commit)?;
    Ok(by_file(alloc, name, file)?)
}

/// Sorts the names by their bytes.
fn sort_names(names: &mut Vec<Text>)
    requires { are_distinct names.old.items ≡ true }
    ensures { names.new.items ≡ sorted_by (λ name. name) names.old.items }
{
    names.sort_unstable_by(|a, b| a.as_str().cmp(b.as_str()));
}

/// Returns the description of a ref with this metadata.
fn info_of(meta: Meta) -> Info
    requires { are_distinct meta.extensions ≡ true }
    ensures { result ≡ spec.info_of meta }
{
    let Meta {
        runtime,
        extensions,
        ..
    } = meta;
    let mut names = extensions.into_vec();
    sort_names(&mut names);
    Info {
        runtime,
        extensions: Items::from_vec(names),
    }
}

/// Returns the description of a ref, unless its metadata was refused.
fn as_info(meta: Result<Meta, Refusal>) -> Result<Info, Refusal>
    requires { spec.NamesOnce meta }
    ensures { result ≡ spec.as_info meta }
{
    match meta {
        Ok(meta) => Ok(info_of(meta)),
        Err(refusal) => Err(refusal),
    }
}

/// Reads the description of a deployed ref from the file `metadata` in the directory of its commit.
///
/// Returns `BadMetadata` if it isn't valid: with the rule `absent` and line 0, if there is no file
/// of at most 1 MiB; with the line and the rule, if the file isn't a key file; or with line 0 and
/// the rule, if it isn't valid metadata of the ref's kind. Changes nothing.
pub fn info_in<H: Host>(
    alloc: Global,
    host: &mut H,
    name: &RefName,
    commit: &Digest,
) -> Result<Result<Info, Refusal>, HostEnd>
    ensures unchanged { ChangesNothing H.Host host.old host.new }
    ensures tells { (files : DeployedFiles) → Deploys (H.moments host.old) files
        → IfOk result (λ info. info ≡ spec.info_in files name.now commit.now) }
    ensures fault_has_cause { FailsAlone H.Host host.old host.new (IsErrOf result HostEnd.Fault) }
{
    let file = deployed_file(alloc, host, name, commit)?;
    let meta = by_file(alloc, name, file)?;
    Ok(as_info(meta))
}
