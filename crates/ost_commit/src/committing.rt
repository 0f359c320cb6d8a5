//! Building a commit from rows.

ghost use Rattle.std.specs.Prelude.{◌≡◌, ◌∷◌, ◌++◌, List, [], None, IfOk, IfErr, OnOk};
ghost use Rattle.std.specs.BTreeMap.{IsOrdered};
ghost use Rattle.std.specs.Ordering.{nat_cmp};
ghost use Rattle.std.specs.Cmp.Lexicographic.{slice_cmp};
ghost use Rattle.fp_base.specs.declared.object.ObjKind.TheVariants as kinds;
ghost use Rattle.ost_model.specs.Contents.{meta_digest as digest_of_meta};
ghost use Rattle.fp_host.specs.Paths.{Elements};
ghost use Rattle.ost_commit.specs.Rows.{Said, says};
ghost use Rattle.ost_commit.specs.Refusals.{first_refused, AreGoodRows};
ghost use Rattle.ost_commit.specs.Built.{BuiltCommit, IsBuildFault};
ghost use Rattle.ost_commit.specs.Digests.{AreDigests};
ghost use Rattle.ost_commit.specs.Folders.{Gathers, AreFew};
ghost use Rattle.ost_commit.specs.Sizes.{IsTooLarge};
ghost use Rattle.ost_commit.specs.Tables.{AreContents, AreUsable, IsFaultOfTables, AreObjectsOf, built_meta};
ghost use Rattle.ost_commit.specs.Trees.{AreGatheredFor};

use crate::built::{BuildError, Built, BuiltObject};
use crate::contents::{contents_of, row_digests};
use crate::directories::dirtrees_of;
use crate::objects::{Table, add_all};
use crate::row::TreeRow;
use crate::tree::Tree;
use crate::writing::{Heading, Root, commit_bytes, dirmeta_bytes};
use fp_base::{Blob, Items, ObjKind};
use fp_name::{Digest, RefName};
use ost_content::meta_digest;
use ost_model::Object;
use std::alloc::{AllocError, Global};
use std::thread::Threads;

/// Builds the commit of a tree, bound to the ref, with this subject and this time in seconds since
/// 1970. It has no parent and no body. Takes the rows one after another, and fails with `Row` at
/// the first of them that has a path that exists already, unless both are directories; is below a
/// file or a symlink; is a directory more than 64 levels below the root, or is in one; has
/// permission bits not within 0775; has a text that isn't valid for a symlink; has a file of more
/// than 1 GiB; or would make more than 40,000 names below the root. Several threads compute the
/// digests of files and symlinks.
pub fn commit_tree(
    rt: &(impl Threads + Sync),
    alloc: Global,
    rows: &[TreeRow],
    name: &RefName,
    subject: &str,
    timestamp: u64,
) -> Result<Built, BuildError>
    // At each path, the commit has what the rows state. Its objects have no fault.
    ensures built { IfOk result (BuiltCommit rows.now name.now subject.now timestamp) }
    // On success no row is refused.
    ensures taken { OnOk result (first_refused rows.now ≡ None) }
    // `Row` has the number of the first row that is refused. `TooLarge` comes only if the dirtree
    // of a directory or the commit has no serialised form of at most 16 MiB, and `Collision` only
    // if two different objects have one digest.
    ensures error { IfErr result (IsBuildFault rows.now name.now subject.now timestamp) }
{
    let heading = Heading {
        name,
        subject,
        timestamp,
    };
    let tree = Tree::of_rows(alloc, rows)?;
    let digests = row_digests(rt, alloc, rows)?;
    let contents = contents_of(alloc, rows, digests.as_slice())?;
    with_directories(alloc, tree, digests.as_slice(), contents, heading)
}

/// Builds the commit of a tree whose files and symlinks are in `contents`.
fn with_directories(
    alloc: Global,
    tree: Tree,
    digests: &[Digest],
    contents: Table,
    heading: Heading,
) -> Result<Built, BuildError>
    requires gathered { AreGatheredFor tree.folders.items digests.now }
    requires few { AreFew tree.folders.items }
    ensures built { IfOk result (λ built. (rows : List TreeRow)
        → Gathers rows (says rows) tree.folders.items → AreDigests rows digests.now
        → AreContents rows contents.entries
        → BuiltCommit rows heading.entry.name.now heading.entry.subject.now
        heading.entry.timestamp built) }
    ensures error { IfErr result (λ reason. (rows : List TreeRow) (said : Elements → Said)
        → Gathers rows said tree.folders.items
        → IsFaultOfTables (IsTooLarge rows said heading.entry.name.now heading.entry.subject.now
        heading.entry.timestamp) reason) }
{
    let meta_bytes = dirmeta_bytes(alloc)?;
    let meta = meta_digest(meta_bytes.as_slice());
    let made = dirtrees_of(alloc, tree.folders, digests, meta)?;
    let root = Root {
        tree: made.root,
        meta,
    };
    let commit = commit_bytes(alloc, heading, root)?;
    Ok(gathered(alloc, contents, made.trees, meta_bytes, commit)?)
}

/// Returns the commit with all its objects: files and symlinks, dirtrees, the dirmeta and the
/// commit.
fn gathered(
    alloc: Global,
    contents: Table,
    trees: Table,
    meta: Blob,
    commit: Blob,
) -> Result<Built, AllocError>
    ensures objects { IfOk result (λ built. AreObjectsOf contents.entries trees.entries meta commit
        built.objects) }
    ensures commit { IfOk result (λ built. built.commit ≡ digest_of_meta commit) }
    ensures files_ordered { IsOrdered (slice_cmp nat_cmp) contents }
    ensures trees_ordered { IsOrdered (slice_cmp nat_cmp) trees }
{
    let mut objects = Items::new(alloc);
    add_all(&mut objects, contents, ObjKind::File)?;
    add_all(&mut objects, trees, ObjKind::DirTree)?;
    add_meta(&mut objects, meta, ObjKind::DirMeta)?;
    let commit = add_meta(&mut objects, commit, ObjKind::Commit)?;
    Ok(Built { commit, objects })
}

/// Adds a metadata object, and returns its digest.
fn add_meta(
    objects: &mut Items<BuiltObject>,
    bytes: Blob,
    kind: ObjKind,
) -> Result<Digest, AllocError>
    ensures objects { OnOk result (objects.new ≡ objects.old ++ built_meta kind bytes ∷ []) }
    ensures digest { IfOk result (λ digest. digest ≡ digest_of_meta bytes) }
{
    let digest = meta_digest(bytes.as_slice());
    objects.push(BuiltObject {
        digest,
        kind,
        object: Object::Meta(bytes),
    })?;
    Ok(digest)
}
