//! Metadata of applications and runtimes.

ghost use Rattle.std.specs.Prelude.{◌≡◌, ◌++◌, ◌∷◌, IfOk, OnOk};
ghost use Rattle.std.specs.Option.{option_copied, option_to_list};
ghost use Rattle.fl_meta.specs.Metadata as metadata;

use crate::fault::MetaError;
use crate::mentions::{Source, mentions_of};
use crate::permission::Layer;
use fp_base::{Items, MetaRule, Text};
use fp_keyfile::{Group, KeyFile};
use fp_name::{NameError, RefKind, RefName};
use std::alloc::{AllocError, Global};

/// The kind of ref that a metadata file describes.
#[derive(Clone, Copy, Debug, PartialEq, Eq)]
pub enum MetaKind {
    /// An application: the file has the group `Application`.
    App,
    /// A runtime: the file has the group `Runtime`.
    Runtime,
}

/// Returns the kind of metadata for a ref of this kind.
pub fn meta_kind(kind: RefKind) -> MetaKind
    ensures { result ≡ metadata.meta_kind kind }
{
    match kind {
        RefKind::App => MetaKind::App,
        RefKind::Runtime => MetaKind::Runtime,
    }
}

/// The metadata of an application or a runtime: flatpak-metadata(5).
#[derive(Drop)]
pub struct Meta {
    /// The kind of ref that the metadata describes.
    pub kind: MetaKind,
    /// The runtime of an application; `None` for a runtime.
    pub runtime: Option<RefName>,
    /// The command of an application, if there is one; `None` for a runtime.
    pub command: Option<Text>,
    /// The permissions that the file mentions, in its order.
    pub mentions: Layer,
    /// The names NAME of the groups `Extension NAME`, in the order of the file.
    pub extensions: Items<Text>,
}

/// Returns whether the file has a group of this name.
fn has_group(file: &KeyFile, name: &str) -> bool
    ensures { result ≡ metadata.has_group file.now name.now }
{
    file.groups()
        .as_slice()
        .iter()
        .any(|g| g.name.as_str() == name)
}

/// Returns the NAME of a group `Extension NAME`, or `None` if it is empty or the group has another
/// name. Allocates nothing.
pub fn extension_name(group: &Group) -> Option<&str>
    ensures { option_to_list (option_copied result) ≡ metadata.extension_of group.now }
{
    let name = group.name.as_str().strip_prefix("Extension ")?;
    if name.is_empty() { None } else { Some(name) }
}

/// Appends the NAME of a group `Extension NAME`, if the group is one.
fn push_extension(out: &mut Items<Text>, group: &Group) -> Result<(), AllocError>
    ensures { OnOk result (out.new ≡ out.old ++ metadata.extension_of group.now) }
{
    match extension_name(group) {
        Some(name) => out.push(Text::from_str(out.allocator(), name)?),
        None => Ok(()),
    }
}

/// Returns the names NAME of the groups `Extension NAME`, in the order of the file.
#[tactic(auto, unfolding(crate::specs::Metadata::extensions_of))]
fn extensions_of(alloc: Global, file: &KeyFile) -> Result<Items<Text>, AllocError>
    ensures { IfOk result (λ names. names ≡ metadata.extensions_of file.now) }
{
    let mut names = Items::new(alloc);
    for group in file.groups().as_slice() {
        push_extension(&mut names, group)?;
    }
    Ok(names)
}

/// Parses a text `ID/ARCH/BRANCH` as the ref of a runtime. Errs with the rule `Runtime` if it isn't
/// one.
fn runtime_of(alloc: Global, text: &str) -> Result<RefName, MetaError>
    ensures { metadata.GivesRuntime result (metadata.runtime_of text.now) }
{
    match RefName::of_kind(alloc, RefKind::Runtime, text) {
        Ok(name) => Ok(name),
        Err(NameError::Bad) => Err(MetaError::Rule(MetaRule::Runtime)),
        Err(NameError::NoMemory) => Err(MetaError::NoMemory),
    }
}

/// Returns the runtime of an application. Errs with the rule `Runtime` if the file has none, or one
/// that isn't a ref.
#[tactic(auto, unfolding(crate::specs::Metadata::runtime_in))]
fn runtime_in(alloc: Global, file: &KeyFile) -> Result<RefName, MetaError>
    ensures { metadata.GivesRuntime result (metadata.runtime_in file.now) }
{
    match file.get("Application", "runtime") {
        Some(text) => runtime_of(alloc, text),
        None => Err(MetaError::Rule(MetaRule::Runtime)),
    }
}

/// Returns the command of an application, if the file has one.
#[tactic(auto, unfolding(crate::specs::Metadata::command_in))]
fn command_in(alloc: Global, file: &KeyFile) -> Result<Option<Text>, AllocError>
    ensures { IfOk result (λ command. command ≡ metadata.command_in file.now) }
{
    match file.get("Application", "command") {
        Some(text) => Ok(Some(Text::from_str(alloc, text)?)),
        None => Ok(None),
    }
}

impl MetaKind {
    /// Returns the name of the group that a file of this kind has.
    pub fn group(self) -> &'static str
        ensures { result.now ≡ metadata.kind_group self }
    {
        match self {
            MetaKind::App => "Application",
            MetaKind::Runtime => "Runtime",
        }
    }
}

impl Meta {
    /// Reads the metadata of an application. Errs with the rule `Runtime` if the runtime is missing
    /// or bad.
    fn of_app(alloc: Global, file: &KeyFile) -> Result<Self, MetaError>
        ensures { metadata.Gives result (metadata.app_of file.now (metadata.runtime_in file.now)) }
    {
        Ok(Meta {
            kind: MetaKind::App,
            runtime: Some(runtime_in(alloc, file)?),
            command: command_in(alloc, file)?,
            mentions: mentions_of(alloc, file, Source::Metadata)?,
            extensions: extensions_of(alloc, file)?,
        })
    }

    /// Reads the metadata of a runtime.
    fn of_runtime(alloc: Global, file: &KeyFile) -> Result<Self, AllocError>
        ensures { IfOk result (λ meta. meta ≡ metadata.runtime_meta file.now) }
    {
        Ok(Meta {
            kind: MetaKind::Runtime,
            runtime: None,
            command: None,
            mentions: mentions_of(alloc, file, Source::Metadata)?,
            extensions: extensions_of(alloc, file)?,
        })
    }

    /// Reads a key file as the metadata of an application or a runtime. Errs with the first rule
    /// that it breaks. Memory runs out only if it breaks none.
    #[tactic(auto, unfolding(crate::specs::Metadata::meta_of))]
    pub fn read(alloc: Global, file: &KeyFile, kind: MetaKind) -> Result<Self, MetaError>
        ensures { metadata.Gives result (metadata.meta_of kind file.now) }
    {
        if !has_group(file, kind.group()) {
            return Err(MetaError::Rule(MetaRule::Group));
        }
        match kind {
            MetaKind::App => Meta::of_app(alloc, file),
            MetaKind::Runtime => Ok(Meta::of_runtime(alloc, file)?),
        }
    }
}
