//! Reading the place of a ref from its path.
ghost use Rattle.std.specs.Prelude.{◌≡◌, ◌≢◌, ◌∷◌, ◌≤◌, [], length, drop, true, None, IfOk, OnErr};
ghost use Rattle.fp_name.specs.Grammar.{is_remote_name};
ghost use Rattle.ost_refs.specs.Found.{ref_named, remote_named, place_named};

use crate::place::RefPlace;
use fp_host::Path;
use fp_name::{NameError, RefKind, RefName, RemoteName};
use std::alloc::{AllocError, Global};

/// The minimum number of elements of a ref's path: `refs`, `heads`, KIND, ID, ARCH and BRANCH.
const FEWEST_ELEMENTS: usize = 6;

/// Returns the last element of a path, which isn't the root.
fn last(path: &Path) -> &str
    requires { path.now ≢ [] }
    ensures { path.now ≡ result.now ∷ drop 1 path.now }
{
    path.name().unwrap()
}

/// Returns the ref with these four parts, or `None` if one of them isn't valid.
fn ref_named(
    alloc: Global,
    kind: &str,
    id: &str,
    arch: &str,
    branch: &str,
) -> Result<Option<RefName>, AllocError>
    ensures named { IfOk result (λ name. name ≡ ref_named kind.now id.now arch.now branch.now) }
    // Needs no memory if the parts make no ref.
    ensures error { OnErr result (ref_named kind.now id.now arch.now branch.now ≢ None) }
{
    let Some(kind) = RefKind::of_word(kind) else {
        return Ok(None);
    };
    match RefName::new(alloc, kind, id, arch, branch) {
        Ok(name) => Ok(Some(name)),
        Err(NameError::Bad) => Ok(None),
        Err(NameError::NoMemory) => Err(AllocError),
    }
}

/// Returns the place of a remote's ref, or `None` if `origin` isn't a valid name of a remote.
fn remote_named(
    alloc: Global,
    origin: &str,
    name: Option<RefName>,
) -> Result<Option<RefPlace>, AllocError>
    ensures named { IfOk result (λ place. place ≡ remote_named origin.now name) }
    ensures error { OnErr result (is_remote_name origin.now ≡ true) }
{
    match RemoteName::parse(alloc, origin.as_bytes()) {
        Ok(origin) => match name {
            Some(name) => Ok(Some(RefPlace::Remote(origin, name))),
            None => Ok(None),
        },
        Err(NameError::Bad) => Ok(None),
        Err(NameError::NoMemory) => Err(AllocError),
    }
}

/// Returns the place whose file has this path in some store, or `None` if there is none. Reads only
/// the last six elements.
pub(crate) fn place_named(alloc: Global, path: &Path) -> Result<Option<RefPlace>, AllocError>
    ensures named { IfOk result (λ place. place ≡ place_named path.now) }
    // Needs no memory for a path with fewer elements.
    ensures error { OnErr result (6 ≤ length path.now) }
{
    if path.len() < FEWEST_ELEMENTS {
        return Ok(None);
    }
    let arch = path.folder(1)?;
    let id = path.folder(2)?;
    let kind = path.folder(3)?;
    let origin = path.folder(4)?;
    let folder = path.folder(5)?;
    let name = ref_named(alloc, last(&kind), last(&id), last(&arch), last(path))?;
    if last(&folder) == "remotes" {
        return remote_named(alloc, last(&origin), name);
    }
    match name {
        Some(name) => Ok(Some(RefPlace::Head(name))),
        None => Ok(None),
    }
}
