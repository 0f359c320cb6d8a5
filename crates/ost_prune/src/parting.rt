//! Parting commits from other objects.
ghost use Rattle.std.specs.Prelude.{◌≡◌, IfOk};
ghost use Rattle.ost_prune.specs.Prune.{is_commit_kind};
ghost use Rattle.ost_prune.specs.Removing.{commits_of, others_of};

use fp_base::ObjKind;
use fp_name::Digest;
use std::alloc::{AllocError, Global};

/// Returns whether the kind is that of commits.
fn is_commit_kind(kind: ObjKind) -> bool
    ensures { result ≡ is_commit_kind kind }
{
    matches!(kind, ObjKind::Commit)
}

/// Returns the commits among these objects, and the other objects, each in their order.
pub(crate) fn part(
    alloc: Global,
    objects: &[(Digest, ObjKind)],
) -> Result<(Vec<(Digest, ObjKind)>, Vec<(Digest, ObjKind)>), AllocError>
    ensures { IfOk result (λ parts. (parts.0.items ≡ commits_of objects.now)
        × (parts.1.items ≡ others_of objects.now)) }
{
    let mut commits = Vec::new(alloc);
    let mut others = Vec::new(alloc);
    for object in objects {
        if is_commit_kind(object.1) {
            commits.push(*object)?;
            continue;
        }
        others.push(*object)?;
    }
    Ok((commits, others))
}
