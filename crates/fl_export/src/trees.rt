//! The directories of a commit in the installation's store. A directory that is missing or isn't
//! valid counts as absent.
ghost use Rattle.std.specs.Prelude.{◌≡◌, ◌∷◌, [], map, option_map, option_and_then, IfOk, IsErrOf, codes};
ghost use Rattle.fp_base.specs.declared.object.ObjKind.TheVariants as kinds;
ghost use Rattle.fp_host.specs.OverHost.{ChangesNothing, FailsAlone};
ghost use Rattle.fp_small.specs.Places.{repo};
ghost use Rattle.ost_model.specs.Objects.{Have};
ghost use Rattle.ost_model.specs.Order.{tree_at, commit_at};
ghost use Rattle.ost_model.specs.Readers.{tree_of, commit_of};
ghost use Rattle.ost_model.specs.Look.{find_dir};
ghost use Rattle.ost_model.specs.Remotes.{Stores};
ghost use Rattle.ost_object.specs.Views.{dir_row, tree_view};
ghost use Rattle.fl_export.specs.Trees.{dir_tree, root_tree, tree_below, digest_below, tree_look, tree_next};
ghost use Rattle.fl_export.specs.Texts.{share, applications, hicolor};
ghost use Rattle.fl_export.specs.Exported.{in_export};

use fp_base::{Blob, ObjKind};
use fp_host::{Host, HostEnd};
use fp_name::Digest;
use fp_small::repo_path;
use ost_object::{DirEntry, DirTree, ObjectError, commit_root, read_dirtree};
use ost_store::{Got, get};
use std::alloc::{AllocError, Global};

/// Parses a dirtree object; returns `None` if the bytes aren't one.
fn tree_in(alloc: Global, bytes: &Blob) -> Result<Option<DirTree>, AllocError>
    ensures { IfOk result (λ tree. option_map tree_view tree ≡ tree_of bytes.now) }
{
    match read_dirtree(alloc, bytes.as_slice()) {
        Ok(tree) => Ok(Some(tree)),
        Err(ObjectError::Malformed(_)) => Ok(None),
        Err(ObjectError::NoMemory) => Err(AllocError),
    }
}

/// Parses a commit object, and returns the digest of its root's dirtree, or `None` if the bytes
/// aren't a commit.
fn root_in(alloc: Global, bytes: &Blob) -> Result<Option<Digest>, AllocError>
    ensures { IfOk result (λ root. root ≡ root_tree (commit_of bytes.now)) }
{
    match commit_root(alloc, bytes.as_slice()) {
        Ok(root) => Ok(Some(root.tree)),
        Err(ObjectError::Malformed(_)) => Ok(None),
        Err(ObjectError::NoMemory) => Err(AllocError),
    }
}

/// Reads the dirtree with this digest; returns `None` if it is missing or not valid. Changes
/// nothing.
fn read_tree<H: Host>(
    alloc: Global,
    host: &mut H,
    digest: &Digest,
) -> Result<Option<DirTree>, HostEnd>
    ensures unchanged { ChangesNothing H.Host host.old host.new }
    ensures tells { (have : Have) → Stores repo (H.moments host.old) have
        → IfOk result (λ tree. option_map tree_view tree ≡ tree_at have digest.now) }
    ensures fault_has_cause { FailsAlone H.Host host.old host.new (IsErrOf result HostEnd.Fault) }
{
    let root = repo_path(alloc)?;
    match get(alloc, host, &root, digest, ObjKind::DirTree, u64::MAX)? {
        Got::Meta(bytes) => Ok(tree_in(alloc, &bytes)?),
        _ => Ok(None),
    }
}

/// Reads the commit, and returns the digest of its root's dirtree, or `None` if the commit is
/// missing or not valid. Changes nothing.
fn read_root<H: Host>(
    alloc: Global,
    host: &mut H,
    commit: &Digest,
) -> Result<Option<Digest>, HostEnd>
    ensures unchanged { ChangesNothing H.Host host.old host.new }
    ensures tells { (have : Have) → Stores repo (H.moments host.old) have
        → IfOk result (λ root. root ≡ root_tree (commit_at have commit.now)) }
    ensures fault_has_cause { FailsAlone H.Host host.old host.new (IsErrOf result HostEnd.Fault) }
{
    let root = repo_path(alloc)?;
    match get(alloc, host, &root, commit, ObjKind::Commit, u64::MAX)? {
        Got::Meta(bytes) => Ok(root_in(alloc, &bytes)?),
        _ => Ok(None),
    }
}

/// Reads the dirtree with this digest, if there is a digest. Changes nothing.
fn tree_there<H: Host>(
    alloc: Global,
    host: &mut H,
    digest: Option<Digest>,
) -> Result<Option<DirTree>, HostEnd>
    ensures unchanged { ChangesNothing H.Host host.old host.new }
    ensures tells { (have : Have) → Stores repo (H.moments host.old) have
        → IfOk result (λ tree. option_map tree_view tree ≡ option_and_then (tree_at have) digest) }
    ensures fault_has_cause { FailsAlone H.Host host.old host.new (IsErrOf result HostEnd.Fault) }
{
    match digest {
        Some(digest) => read_tree(alloc, host, &digest),
        None => Ok(None),
    }
}

/// Reads the root directory of the commit. Changes nothing.
fn root_of<H: Host>(
    alloc: Global,
    host: &mut H,
    commit: &Digest,
) -> Result<Option<DirTree>, HostEnd>
    ensures unchanged { ChangesNothing H.Host host.old host.new }
    ensures tells { (have : Have) → Stores repo (H.moments host.old) have
        → IfOk result (λ tree. option_map tree_view tree ≡ tree_look have commit.now []) }
    ensures fault_has_cause { FailsAlone H.Host host.old host.new (IsErrOf result HostEnd.Fault) }
{
    let root = read_root(alloc, host, commit)?;
    tree_there(alloc, host, root)
}

/// Returns the digest of the dirtree of the first directory with this name in the list.
fn find_tree(dirs: &[DirEntry], name: &str) -> Option<Digest>
    ensures { result ≡ option_map dir_tree (find_dir name.now (map dir_row dirs.now)) }
{
    for dir in dirs {
        if dir.name.as_str() == name {
            return Some(dir.tree);
        }
    }
    None
}

/// Returns the digest of the dirtree of the subdirectory with this name, if there is one.
fn digest_below(tree: &Option<DirTree>, name: &str) -> Option<Digest>
    ensures { result ≡ digest_below name.now (option_map tree_view tree.now) }
{
    match tree {
        Some(tree) => find_tree(tree.dirs.as_slice(), name),
        None => None,
    }
}

/// Reads the subdirectory with this name, if there is one. Changes nothing.
fn enter<H: Host>(
    alloc: Global,
    host: &mut H,
    tree: &Option<DirTree>,
    name: &str,
) -> Result<Option<DirTree>, HostEnd>
    ensures unchanged { ChangesNothing H.Host host.old host.new }
    ensures tells { (have : Have) → Stores repo (H.moments host.old) have
        → IfOk result (λ found. option_map tree_view found
        ≡ tree_below have name.now (option_map tree_view tree.now)) }
    ensures fault_has_cause { FailsAlone H.Host host.old host.new (IsErrOf result HostEnd.Fault) }
{
    let digest = digest_below(tree, name);
    tree_there(alloc, host, digest)
}

/// Reads the directory `export/share` of the commit. Changes nothing.
fn share_of<H: Host>(
    alloc: Global,
    host: &mut H,
    commit: &Digest,
) -> Result<Option<DirTree>, HostEnd>
    ensures unchanged { ChangesNothing H.Host host.old host.new }
    ensures tells { (have : Have) → Stores repo (H.moments host.old) have
        → IfOk result (λ tree. option_map tree_view tree
        ≡ tree_look have commit.now (share in_export)) }
    ensures fault_has_cause { FailsAlone H.Host host.old host.new (IsErrOf result HostEnd.Fault) }
{
    let root = root_of(alloc, host, commit)?;
    let export = enter(alloc, host, &root, "export")?;
    enter(alloc, host, &export, "share")
}

/// Reads the directory of the commit's desktop files, `export/share/applications`. Changes nothing.
pub(crate) fn applications_of<H: Host>(
    alloc: Global,
    host: &mut H,
    commit: &Digest,
) -> Result<Option<DirTree>, HostEnd>
    ensures unchanged { ChangesNothing H.Host host.old host.new }
    ensures tells { (have : Have) → Stores repo (H.moments host.old) have
        → IfOk result (λ tree. option_map tree_view tree
        ≡ tree_look have commit.now (applications in_export)) }
    ensures fault_has_cause { FailsAlone H.Host host.old host.new (IsErrOf result HostEnd.Fault) }
{
    let share = share_of(alloc, host, commit)?;
    enter(alloc, host, &share, "applications")
}

/// Reads the directory of the commit's icons, `export/share/icons/hicolor`. Changes nothing.
pub(crate) fn hicolor_of<H: Host>(
    alloc: Global,
    host: &mut H,
    commit: &Digest,
) -> Result<Option<DirTree>, HostEnd>
    ensures unchanged { ChangesNothing H.Host host.old host.new }
    ensures tells { (have : Have) → Stores repo (H.moments host.old) have
        → IfOk result (λ tree. option_map tree_view tree
        ≡ tree_look have commit.now (hicolor in_export)) }
    ensures fault_has_cause { FailsAlone H.Host host.old host.new (IsErrOf result HostEnd.Fault) }
{
    let share = share_of(alloc, host, commit)?;
    let icons = enter(alloc, host, &share, "icons")?;
    enter(alloc, host, &icons, "hicolor")
}

/// Reads the subdirectory `apps` of a directory. Changes nothing.
pub(crate) fn apps_in<H: Host>(
    alloc: Global,
    host: &mut H,
    dir: &DirEntry,
) -> Result<Option<DirTree>, HostEnd>
    ensures unchanged { ChangesNothing H.Host host.old host.new }
    ensures tells { (have : Have) → Stores repo (H.moments host.old) have
        → IfOk result (λ tree. option_map tree_view tree ≡ tree_next have (codes "apps")
        (dir_row dir.now)) }
    ensures fault_has_cause { FailsAlone H.Host host.old host.new (IsErrOf result HostEnd.Fault) }
{
    let tree = read_tree(alloc, host, &dir.tree)?;
    enter(alloc, host, &tree, "apps")
}
