//! The path of an object in a store.
ghost use Rattle.std.specs.Prelude.{◌≡◌, ◌++◌, codes, take, drop, true, IfOk, string_bytes};
ghost use Rattle.fp_host.specs.Paths.{is_element, path_eq};
ghost use Rattle.fp_name.specs.Hex.{hex, unhex, is_digest};
ghost use Rattle.ost_model.specs.Objects.{object_path};
ghost use Rattle.fp_base.specs.Objects.{kind_text};
ghost use Rattle.ost_store.specs.Names.{kind_said, object_said, IsNamed};

use fp_base::ObjKind;
use fp_host::Path;
use fp_name::{DIGEST_DIGITS, Digest};
use std::alloc::{AllocError, Global};

/// Returns the name of the object's directory in `objects`: the first two digits of its digest.
#[tactic(auto, using(crate::proofs::Elements::prefix_is, crate::proofs::Elements::prefix_element))]
fn folder_name(alloc: Global, digest: &Digest) -> Result<String, AllocError>
    ensures text { IfOk result (λ name. string_bytes name ≡ take 2 (hex digest.now)) }
    ensures element { IfOk result (λ name. is_element (string_bytes name) ≡ true) }
{
    let (first, _) = digest.as_bytes().split_at(1);
    hex::encode(alloc, first)
}

/// Returns the object's name in its directory: the other digits, a dot, and the kind.
fn file_name(alloc: Global, digest: &Digest, kind: ObjKind) -> Result<String, AllocError>
    ensures text { IfOk result (λ name. string_bytes name ≡ drop 2 (hex digest.now) ++
        (codes "." ++ kind_text kind)) }
    ensures element { IfOk result (λ name. is_element (string_bytes name) ≡ true) }
{
    let (_, rest) = digest.as_bytes().split_at(1);
    let mut name = hex::encode(alloc, rest)?;
    name.push_str(".")?;
    name.push_str(kind.word())?;
    Ok(name)
}

/// Returns the path of an object in the store at `root`: `objects/XX/REST.KIND`, where XX is the
/// first two digits of the digest (OSTree, "Anatomy of an OSTree repository").
pub fn path_of(
    alloc: Global,
    root: &Path,
    digest: &Digest,
    kind: ObjKind,
) -> Result<Path, AllocError>
    ensures { IfOk result (λ path. path ≡ object_path root.now digest.now kind) }
{
    let folder = folder_name(alloc, digest)?;
    let name = file_name(alloc, digest, kind)?;
    root.child("objects")?.child(&folder)?.child(&name)
}

/// The number of digits in an object's file name: all of its digest's but the first two.
const REST_DIGITS: usize = DIGEST_DIGITS - 2;

/// Returns the kind whose objects' names have this ending, from the dot on.
fn kind_said(end: &[u8]) -> Option<ObjKind>
    ensures { result ≡ kind_said end.now }
{
    if end == b".commit".as_slice() {
        return Some(ObjKind::Commit);
    }
    if end == b".dirtree".as_slice() {
        return Some(ObjKind::DirTree);
    }
    if end == b".dirmeta".as_slice() {
        return Some(ObjKind::DirMeta);
    }
    if end == b".file".as_slice() {
        return Some(ObjKind::File);
    }
    None
}

/// Returns the digest with these hexadecimal digits, which are given in two parts. Returns `None`
/// if they are no digest.
fn digest_said(alloc: Global, first: &[u8], rest: &[u8]) -> Result<Option<Digest>, AllocError>
    ensures { IfOk result (λ digest. digest ≡ unhex (first.now ++ rest.now)) }
{
    let mut digits = Vec::from_slice(alloc, first)?;
    digits.extend_from_slice(rest)?;
    Ok(Digest::parse(&digits).ok())
}

/// Returns the object that the names of its directory and its file denote. Returns `None` if they
/// denote none.
#[tactic(auto, using(crate::proofs::Said::too_short, crate::proofs::Said::no_kind, crate::proofs::Said::both_known))]
fn object_said(
    alloc: Global,
    folder: &[u8],
    name: &[u8],
) -> Result<Option<(Digest, ObjKind)>, AllocError>
    ensures { IfOk result (λ object. object ≡ object_said folder.now name.now) }
{
    if name.len() < REST_DIGITS {
        return Ok(None);
    }
    let (rest, end) = name.split_at(REST_DIGITS);
    let Some(kind) = kind_said(end) else {
        return Ok(None);
    };
    match digest_said(alloc, folder, rest)? {
        Some(digest) => Ok(Some((digest, kind))),
        None => Ok(None),
    }
}

/// Returns whether the path is that of the object in the store at `root`.
fn is_path_of(
    alloc: Global,
    root: &Path,
    digest: &Digest,
    kind: ObjKind,
    path: &Path,
) -> Result<bool, AllocError>
    ensures is { IfOk result (λ is. is ≡ path_eq (object_path root.now digest.now kind) path.now) }
    ensures good { is_digest digest.now ≡ true }
{
    let _bytes = digest.as_bytes();
    Ok(path_of(alloc, root, digest, kind)?.is(path))
}

/// Returns the object whose path this is in the store at `root`, or `None` if it is the path of
/// none.
pub fn object_named(
    alloc: Global,
    root: &Path,
    path: &Path,
) -> Result<Option<(Digest, ObjKind)>, AllocError>
    ensures { IfOk result (IsNamed root.now path.now) }
{
    let Some(name) = path.name() else {
        return Ok(None);
    };
    let above = path.folder(1)?;
    let Some(folder) = above.name() else {
        return Ok(None);
    };
    let Some(object) = object_said(alloc, folder.as_bytes(), name.as_bytes())? else {
        return Ok(None);
    };
    if is_path_of(alloc, root, &object.0, object.1, path)? {
        Ok(Some(object))
    } else {
        Ok(None)
    }
}
