//! The places of refs, and the contents of their files.
ghost use Rattle.std.specs.Prelude.{◌≡◌, IfOk};
ghost use Rattle.ost_refs.specs.Places.{place_path, ref_below};

use fp_host::Path;
use fp_name::{Digest, RefName, RemoteName};
use std::alloc::AllocError;

/// The place of a ref in a store (OSTree, "Refs").
#[derive(Debug, Drop)]
pub enum RefPlace {
    /// A ref of the store itself, in `refs/heads/REF`.
    Head(RefName),
    /// A remote's ref as it was last fetched, in `refs/remotes/ORIGIN/REF`.
    Remote(RemoteName, RefName),
}

/// The content at a ref's place.
#[derive(Clone, Copy, Debug, PartialEq, Eq)]
pub enum RefFile {
    /// The digest of the ref's commit.
    Digest(Digest),
    /// Nothing is there.
    Absent,
    /// Something else than a file of 64 lower-case hexadecimal digits and a newline is there.
    Bad,
}

/// Returns the path of a ref's file in the store at `root`: `refs/heads/REF` or
/// `refs/remotes/ORIGIN/REF`.
#[tactic(auto, using(crate::proofs::Elements::element_remote))]
pub fn path_of(root: &Path, place: &RefPlace) -> Result<Path, AllocError>
    ensures { IfOk result (λ path. path ≡ place_path root.now place.now) }
{
    let refs = root.child("refs")?;
    match place {
        RefPlace::Head(name) => path_below(&refs.child("heads")?, name),
        RefPlace::Remote(origin, name) => {
            path_below(&refs.child("remotes")?.child(origin.as_str())?, name)
        }
    }
}

/// Returns the path KIND/ID/ARCH/BRANCH below the directory.
#[tactic(auto, using(fp_small::proofs::Elements::element_kind, fp_small::proofs::Elements::element_id, fp_small::proofs::Elements::element_arch, fp_small::proofs::Elements::element_branch))]
fn path_below(folder: &Path, name: &RefName) -> Result<Path, AllocError>
    ensures { IfOk result (λ path. path ≡ ref_below folder.now name.now) }
{
    let kind = folder.child(name.kind().word())?;
    let id = kind.child(name.id())?;
    let arch = id.child(name.arch())?;
    arch.child(name.branch())
}
