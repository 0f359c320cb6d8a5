//! The refusals of heads.
ghost use Rattle.std.specs.Prelude.{◌≡◌, IfOk};
ghost use Rattle.fp_name.specs.Refs.{ref_text};
ghost use Rattle.fp_base.specs.declared.what.What.TheVariants as whats;
ghost use Rattle.fp_small.specs.declared.refusal.Refusal.TheVariants as refusals;
ghost use Rattle.ost_object.specs.Views.{commit_view, tree_view};
ghost use Rattle.fp_keyfile.specs.KeyFile.{file_of};
ghost use Rattle.fl_meta.specs.Metadata.{meta_of, meta_kind};
ghost use Rattle.ost_head.specs.Heads.{age_refused, binding_refused, commit_refused, lines_refused, lists, meta_refused, no_metadata, root_refused};

use crate::entries::has_none;
use fl_meta::{Meta, MetaError, meta_kind};
use fp_base::{Blob, Items, MetaRule, MetadataRule, Text, What};
use fp_keyfile::{KeyError, KeyFile};
use fp_name::{Digest, RefName};
use fp_small::Refusal;
use ost_object::{Commit, DirTree, binding};
use std::alloc::{AllocError, Global};

/// Returns whether the ref is among the names.
fn lists(names: &Items<Text>, name: &RefName) -> bool
    ensures { result ≡ lists names.now (ref_text name.now) }
{
    names.as_slice().iter().any(|n| n.as_str() == name.as_str())
}

/// Returns the refusal of a commit for its ref binding, if it has one without the ref.
fn refuse_binding(name: &RefName, names: Option<Items<Text>>) -> Result<Option<Refusal>, AllocError>
    ensures { IfOk result (λ r. r ≡ binding_refused name.now names) }
{
    let Some(names) = names else {
        return Ok(None);
    };
    if lists(&names, name) {
        return Ok(None);
    }
    Ok(Some(Refusal::RefBinding { name: name.copy()? }))
}

/// Returns the refusal of a commit for its time `offered`, if it is before `since`, the time of the
/// deployed commit.
fn refuse_age(
    name: &RefName,
    since: Option<u64>,
    offered: u64,
) -> Result<Option<Refusal>, AllocError>
    ensures { IfOk result (λ r. r ≡ age_refused name.now since offered) }
{
    let Some(have) = since else {
        return Ok(None);
    };
    if have <= offered {
        return Ok(None);
    }
    Ok(Some(Refusal::Older {
        name: name.copy()?,
        have,
        offered,
    }))
}

/// Returns the refusal of a commit for its ref binding, or else for its time.
pub(crate) fn refuse_commit(
    alloc: Global,
    name: &RefName,
    since: Option<u64>,
    commit: &Commit,
) -> Result<Option<Refusal>, AllocError>
    ensures { IfOk result (λ r. r ≡ commit_refused name.now since (commit_view commit.now)) }
{
    match refuse_binding(name, binding(alloc, commit)?)? {
        Some(refusal) => Ok(Some(refusal)),
        None => refuse_age(name, since, commit.timestamp),
    }
}

/// Returns the refusal of a commit whose root has an entry `deploy`.
pub(crate) fn refuse_root(commit: &Digest, tree: &DirTree) -> Option<Refusal>
    ensures { result ≡ root_refused commit.now (tree_view tree.now) }
{
    if has_none(tree, "deploy") {
        None
    } else {
        Some(Refusal::ReservedName { commit: *commit })
    }
}

/// Returns the refusal of a ref whose commit has no regular file `metadata`.
pub(crate) fn refuse_absent(name: &RefName) -> Result<Refusal, AllocError>
    ensures { IfOk result (λ r. r ≡ no_metadata name.now) }
{
    Ok(Refusal::BadMetadata {
        name: name.copy()?,
        line: 0,
        rule: MetadataRule::Meta(MetaRule::Absent),
    })
}

/// Returns the refusal of a ref for a file `metadata` that is a key file without the groups and
/// keys that it must have.
fn refuse_meta(alloc: Global, name: &RefName, file: &KeyFile) -> Result<Option<Refusal>, AllocError>
    ensures { IfOk result (λ r. r ≡ meta_refused name.now (meta_of (meta_kind name.now.kind)
        file.now)) }
{
    match Meta::read(alloc, file, meta_kind(name.kind())) {
        Ok(_) => Ok(None),
        Err(MetaError::Rule(rule)) => Ok(Some(Refusal::BadMetadata {
            name: name.copy()?,
            line: 0,
            rule: MetadataRule::Meta(rule),
        })),
        Err(MetaError::NoMemory) => Err(AllocError),
    }
}

/// Returns the refusal of a ref for a file `metadata` that isn't valid: as a key file, or by its
/// groups and keys.
pub(crate) fn refuse_lines(
    alloc: Global,
    name: &RefName,
    bytes: &Blob,
) -> Result<Option<Refusal>, AllocError>
    ensures { IfOk result (λ r. r ≡ lines_refused name.now (file_of bytes.now)) }
{
    match KeyFile::parse(alloc, bytes.as_slice()) {
        Ok(file) => refuse_meta(alloc, name, &file),
        Err(KeyError::Fault(fault)) => Ok(Some(Refusal::BadMetadata {
            name: name.copy()?,
            line: fault.line,
            rule: MetadataRule::Key(fault.rule),
        })),
        Err(KeyError::NoMemory) => Err(AllocError),
    }
}

/// Returns the refusal for a file `metadata` of `size` bytes, which is more than its limit.
pub(crate) fn refuse_longer(size: u64) -> Refusal
    ensures { result ≡ refusals.Limit whats.MetadataFile size }
{
    Refusal::Limit {
        what: What::MetadataFile,
        number: size,
    }
}
