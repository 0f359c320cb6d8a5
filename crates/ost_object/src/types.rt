//! The GVariant types of metadata objects and their parts.
ghost use Rattle.std.specs.Prelude.{◌≡◌, IfOk, IsErr};
ghost use Rattle.gv_value.specs.Shape.{variant, tuple};
ghost use Rattle.gv_value.specs.Views.{shape_of};
ghost use Rattle.ost_model.specs.Types.{commit_shape, dictionary_shape, related_shape, dirs_shape, tree_shape, meta_shape};
ghost use Rattle.ost_model.specs.Contents.{attributes_shape};
ghost use Rattle.ost_object.specs.Parts.{file_shapes, dir_shapes};
ghost use Rattle.ost_object.specs.Entries.{entry_shape};

use gv_value::{GvType, TypeError};
use std::alloc::{AllocError, Global};

/// Returns the type of a commit.
pub fn commit_type(alloc: Global) -> Result<GvType, AllocError>
    ensures { IfOk result (λ of. shape_of of ≡ commit_shape) }
{
    match GvType::parse(alloc, b"(a{sv}aya(say)sstayay)") {
        Ok(of) => Ok(of),
        Err(TypeError::NoMemory) => Err(AllocError),
        Err(TypeError::Bad) => unreachable!(),
    }
}

/// Returns the type of a dirtree.
pub fn tree_type(alloc: Global) -> Result<GvType, AllocError>
    ensures { IfOk result (λ of. shape_of of ≡ tree_shape) }
{
    match GvType::parse(alloc, b"(a(say)a(sayay))") {
        Ok(of) => Ok(of),
        Err(TypeError::NoMemory) => Err(AllocError),
        Err(TypeError::Bad) => unreachable!(),
    }
}

/// Returns the type of a dirmeta.
pub fn meta_type(alloc: Global) -> Result<GvType, AllocError>
    ensures { IfOk result (λ of. shape_of of ≡ meta_shape) }
{
    match GvType::parse(alloc, b"(uuua(ayay))") {
        Ok(of) => Ok(of),
        Err(TypeError::NoMemory) => Err(AllocError),
        Err(TypeError::Bad) => unreachable!(),
    }
}

/// Returns the type `a{sv}` of a commit's metadata.
pub fn dictionary_type(alloc: Global) -> Result<GvType, AllocError>
    ensures { IfOk result (λ of. shape_of of ≡ dictionary_shape) }
{
    match GvType::parse(alloc, b"a{sv}") {
        Ok(of) => Ok(of),
        Err(TypeError::NoMemory) => Err(AllocError),
        Err(TypeError::Bad) => unreachable!(),
    }
}

/// Returns the type `{sv}` of an entry of a commit's metadata.
pub fn entry_type(alloc: Global) -> Result<GvType, AllocError>
    ensures { IfOk result (λ of. shape_of of ≡ entry_shape) }
{
    match GvType::parse(alloc, b"{sv}") {
        Ok(of) => Ok(of),
        Err(TypeError::NoMemory) => Err(AllocError),
        Err(TypeError::Bad) => unreachable!(),
    }
}

/// Returns the type `v` of variants.
pub fn variant_type(alloc: Global) -> Result<GvType, AllocError>
    ensures { IfOk result (λ of. shape_of of ≡ variant) }
{
    match GvType::parse(alloc, b"v") {
        Ok(of) => Ok(of),
        Err(TypeError::NoMemory) => Err(AllocError),
        Err(TypeError::Bad) => unreachable!(),
    }
}

/// Returns the type `a(say)`, which the related objects of a commit have, and the files of a
/// dirtree.
pub fn related_type(alloc: Global) -> Result<GvType, AllocError>
    ensures { IfOk result (λ of. shape_of of ≡ related_shape) }
{
    match GvType::parse(alloc, b"a(say)") {
        Ok(of) => Ok(of),
        Err(TypeError::NoMemory) => Err(AllocError),
        Err(TypeError::Bad) => unreachable!(),
    }
}

/// Returns the type of a dirtree's directories.
pub fn dirs_type(alloc: Global) -> Result<GvType, AllocError>
    ensures { IfOk result (λ of. shape_of of ≡ dirs_shape) }
{
    match GvType::parse(alloc, b"a(sayay)") {
        Ok(of) => Ok(of),
        Err(TypeError::NoMemory) => Err(AllocError),
        Err(TypeError::Bad) => unreachable!(),
    }
}

/// Returns the type of a file in a dirtree.
pub fn file_type(alloc: Global) -> Result<GvType, AllocError>
    ensures { IfOk result (λ of. shape_of of ≡ tuple file_shapes) }
{
    match GvType::parse(alloc, b"(say)") {
        Ok(of) => Ok(of),
        Err(TypeError::NoMemory) => Err(AllocError),
        Err(TypeError::Bad) => unreachable!(),
    }
}

/// Returns the type of a directory in a dirtree.
pub fn dir_type(alloc: Global) -> Result<GvType, AllocError>
    ensures { IfOk result (λ of. shape_of of ≡ tuple dir_shapes) }
{
    match GvType::parse(alloc, b"(sayay)") {
        Ok(of) => Ok(of),
        Err(TypeError::NoMemory) => Err(AllocError),
        Err(TypeError::Bad) => unreachable!(),
    }
}

/// Returns the type of a dirmeta's extended attributes.
pub fn attributes_type(alloc: Global) -> Result<GvType, AllocError>
    ensures { IfOk result (λ of. shape_of of ≡ attributes_shape) }
{
    match GvType::parse(alloc, b"a(ayay)") {
        Ok(of) => Ok(of),
        Err(TypeError::NoMemory) => Err(AllocError),
        Err(TypeError::Bad) => unreachable!(),
    }
}
