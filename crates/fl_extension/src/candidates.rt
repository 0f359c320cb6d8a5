//! The refs that an extension point may have.

ghost use Rattle.std.specs.Prelude.{◌≡◌, ◌++◌, ◌||◌, true, ℕ, List, IfOk, OnOk, OnErr};
ghost use Rattle.std.specs.List.{flat_map};
ghost use Rattle.std.specs.Str.{bytes_eq};
ghost use Rattle.fl_meta.specs.Separators.{entries_of};
ghost use Rattle.fp_name.specs.Grammar as grammar;
ghost use Rattle.fl_extension.specs.Points as spec;
ghost use Rattle.fl_extension.specs.Seen.{has_seen, new_candidates};

use fl_meta::first_entry;
use fp_keyfile::Group;
use fp_name::{NameError, RefKind, RefName};
use std::alloc::{AllocError, Global};
use std::collections::BTreeSet;

/// Appends the runtime's ref at the branch of this version. Does nothing if the version isn't a
/// branch.
fn push_candidate(
    out: &mut Vec<RefName>,
    name: &str,
    arch: &str,
    version: &str,
) -> Result<(), AllocError>
    requires name { grammar.is_id name.now ≡ true }
    requires arch { grammar.is_arch arch.now ≡ true }
    ensures refs { OnOk result (out.new.items ≡ out.old.items ++ spec.candidate_of name.now arch.now
        version.now) }
    // A version that isn't a branch allocates nothing.
    ensures error { OnErr result (grammar.is_branch version.now ≡ true) }
{
    match RefName::new(*out.allocator(), RefKind::Runtime, name, arch, version) {
        Ok(candidate) => {
            out.push(candidate)?;
            Ok(())
        }
        Err(NameError::Bad) => Ok(()),
        Err(NameError::NoMemory) => Err(AllocError),
    }
}

/// Appends the runtime's ref at the branch of this version. Does nothing if the version isn't a
/// branch or was seen before.
fn push_new<'a>(
    out: &mut Vec<RefName>,
    seen: &mut BTreeSet<&'a str>,
    name: &str,
    arch: &str,
    version: &'a str,
) -> Result<(), AllocError>
    requires name { grammar.is_id name.now ≡ true }
    requires arch { grammar.is_arch arch.now ≡ true }
    ensures refs { OnOk result (out.new.items ≡ out.old.items
        ++ new_candidates name.now arch.now seen.old version.now) }
    ensures seen { OnOk result ((text : List ℕ) → has_seen seen.new text ≡ (bytes_eq text version.now
        || has_seen seen.old text)) }
{
    if seen.insert(version)? {
        push_candidate(out, name, arch, version)?;
    }
    Ok(())
}

/// Appends the refs at the branches that a list names, each of them once.
fn push_entries(
    out: &mut Vec<RefName>,
    name: &str,
    arch: &str,
    versions: &str,
) -> Result<(), AllocError>
    requires name { grammar.is_id name.now ≡ true }
    requires arch { grammar.is_arch arch.now ≡ true }
    ensures { OnOk result (out.new.items ≡ out.old.items ++ flat_map
        (spec.candidate_of name.now arch.now) (spec.each_once (entries_of versions.now))) }
{
    let mut seen = BTreeSet::new(*out.allocator());
    let mut left = Some(versions);
    while let Some(list) = left {
        let (entry, others) = first_entry(list);
        push_new(out, &mut seen, name, arch, entry)?;
        left = others;
    }
    Ok(())
}

/// Returns the refs that may be the group's extension, in the order in which they are tried, each
/// of them once: at the branches of `versions`, else at that of `version`, else at the ref's own.
#[tactic(auto, unfolding(crate::specs::Points::candidates_of))]
pub(crate) fn candidates_of(
    alloc: Global,
    group: &Group,
    of: &RefName,
    name: &str,
) -> Result<Vec<RefName>, AllocError>
    requires { grammar.is_id name.now ≡ true }
    ensures { IfOk result (λ refs. refs.items ≡ spec.candidates_of group.now of.now name.now) }
{
    let mut refs = Vec::new(alloc);
    match group.get("versions") {
        Some(versions) => push_entries(&mut refs, name, of.arch(), versions)?,
        None => {
            let version = group.get("version").unwrap_or(of.branch());
            push_candidate(&mut refs, name, of.arch(), version)?;
        }
    }
    Ok(refs)
}
