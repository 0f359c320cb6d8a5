//! Parsing of a file `metadata`.
ghost use Rattle.std.specs.Prelude.{◌≡◌, IfOk};
ghost use Rattle.fp_keyfile.specs.KeyFile.{file_of};
ghost use Rattle.fl_installed.specs.Metadata as spec;

use fl_extension::Point;
use fl_meta::{Meta, MetaError, meta_kind};
use fp_base::{Blob, Items};
use fp_keyfile::{KeyError, KeyFile};
use fp_name::RefName;
use std::alloc::{AllocError, Global};

/// Parses a key file. Bytes that aren't one give a key file without groups.
fn read_lines(alloc: Global, bytes: &Blob) -> Result<KeyFile, AllocError>
    ensures { IfOk result (λ file. file ≡ spec.groups_in (file_of bytes.now)) }
{
    match KeyFile::parse(alloc, bytes.as_slice()) {
        Ok(file) => Ok(file),
        Err(KeyError::Fault(_)) => Ok(KeyFile::new(alloc)),
        Err(KeyError::NoMemory) => Err(AllocError),
    }
}

/// Parses the metadata of a ref. Returns `None` if the bytes aren't a key file that is valid
/// metadata of the ref's kind.
#[tactic(auto, unfolding(crate::specs::Metadata::meta_said))]
pub fn meta_said(alloc: Global, name: &RefName, metadata: &Blob) -> Result<Option<Meta>, AllocError>
    ensures { IfOk result (λ meta. meta ≡ spec.meta_said name.now metadata.now) }
{
    let file = read_lines(alloc, metadata)?;
    match Meta::read(alloc, &file, meta_kind(name.kind())) {
        Ok(meta) => Ok(Some(meta)),
        Err(MetaError::Rule(_)) => Ok(None),
        Err(MetaError::NoMemory) => Err(AllocError),
    }
}

/// Returns the runtime that an application's metadata names. Returns `None` for a runtime, and if
/// the metadata isn't valid.
#[tactic(auto, unfolding(crate::specs::Metadata::runtime_named))]
pub fn runtime_named(
    alloc: Global,
    name: &RefName,
    metadata: &Blob,
) -> Result<Option<RefName>, AllocError>
    ensures { IfOk result (λ runtime. runtime ≡ spec.runtime_named name.now metadata.now) }
{
    let file = read_lines(alloc, metadata)?;
    match Meta::read(alloc, &file, meta_kind(name.kind())) {
        Ok(meta) => Ok(meta.runtime),
        Err(MetaError::Rule(_)) => Ok(None),
        Err(MetaError::NoMemory) => Err(AllocError),
    }
}

/// Returns the extension points in the metadata of a ref. Bytes that aren't a key file have none.
#[tactic(auto, unfolding(crate::specs::Metadata::points_in))]
pub fn points_in(alloc: Global, name: &RefName, metadata: &Blob) -> Result<Items<Point>, AllocError>
    ensures { IfOk result (λ points. points ≡ spec.points_in name.now metadata.now) }
{
    let file = read_lines(alloc, metadata)?;
    fl_extension::points(alloc, &file, name)
}
