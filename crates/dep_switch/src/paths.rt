//! The paths of a switch.
ghost use Rattle.std.specs.Prelude.{◌≡◌, ◌∷◌, [], codes, true, IfOk, OnOk};
ghost use Rattle.fp_host.specs.Paths.{is_link_text};
ghost use Rattle.fp_name.specs.Hex.{hex, is_digest};
ghost use Rattle.fp_name.specs.Refs.{is_ref};
ghost use Rattle.dep_states.specs.Names.{branch_dir, active, commit_dir, deploy};
ghost use Rattle.dep_switch.specs.Writing.{new_link};

use fp_base::Text;
use fp_host::Path;
use fp_name::{Digest, RefName};
use fp_small::tmp_path;
use std::alloc::{AllocError, Global};

/// Returns the staging path of the symlink to a new commit: `repo/tmp/active`.
pub fn new_link_path(alloc: Global) -> Result<Path, AllocError>
    ensures { IfOk result (λ p. p ≡ new_link) }
{
    tmp_path(alloc)?.child("active")
}

/// Returns the path of a ref's branch directory: KIND/ID/ARCH/BRANCH.
#[tactic(auto, using(fp_small::proofs::Elements::element_kind, fp_small::proofs::Elements::element_id, fp_small::proofs::Elements::element_arch, fp_small::proofs::Elements::element_branch))]
fn branch_path(alloc: Global, name: &RefName) -> Result<Path, AllocError>
    ensures path { IfOk result (λ p. p ≡ branch_dir name.now) }
    ensures good { OnOk result (is_ref name.now ≡ true) }
{
    let kind = Path::root(alloc).child(name.kind().word())?;
    let id = kind.child(name.id())?;
    let arch = id.child(name.arch())?;
    arch.child(name.branch())
}

/// Returns the path of a ref's `active`.
pub(crate) fn active_path(alloc: Global, name: &RefName) -> Result<Path, AllocError>
    ensures { IfOk result (λ p. p ≡ active name.now) }
{
    branch_path(alloc, name)?.child("active")
}

/// Returns the path of the directory of a ref's commit.
#[tactic(auto, using(crate::proofs::Texts::element_digits))]
pub fn commit_path(alloc: Global, name: &RefName, commit: &Digest) -> Result<Path, AllocError>
    ensures path { IfOk result (λ p. p ≡ commit_dir name.now commit.now) }
    ensures good { OnOk result (is_digest commit.now ≡ true) }
    ensures ref_good { OnOk result (is_ref name.now ≡ true) }
{
    let digits = commit.write(alloc)?;
    branch_path(alloc, name)?.child(digits.as_str())
}

/// Returns the path of the `deploy` of a ref's commit.
pub(crate) fn deploy_path(
    alloc: Global,
    name: &RefName,
    commit: &Digest,
) -> Result<Path, AllocError>
    ensures { IfOk result (λ p. p ≡ deploy (commit_dir name.now commit.now)) }
{
    commit_path(alloc, name, commit)?.child("deploy")
}

/// Returns the text of the symlink to a commit: its 64 hexadecimal digits.
#[tactic(auto, using(crate::proofs::Texts::link_digits))]
pub(crate) fn commit_text(alloc: Global, commit: &Digest) -> Result<Text, AllocError>
    ensures text { IfOk result (λ text. text ≡ hex commit.now) }
    ensures link { OnOk result (is_link_text (hex commit.now) ≡ true) }
    ensures good { OnOk result (is_digest commit.now ≡ true) }
{
    commit.write(alloc)
}
