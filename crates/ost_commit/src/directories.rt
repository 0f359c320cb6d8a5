//! Making the dirtrees of a tree, from the deepest to the root's.

ghost use Rattle.std.specs.Prelude.{◌≡◌, ◌<◌, ◌+◌, ◌∷◌, ◌++◌, List, [], map, length, true, IfOk, IfErr, OnOk};
ghost use Rattle.fp_base.specs.declared.object.ObjKind.TheVariants as kinds;
ghost use Rattle.fp_host.specs.Paths.{Elements};
ghost use Rattle.ost_model.specs.declared.limits.TheConstants.{MOST_OBJECTS};
ghost use Rattle.ost_object.specs.Views.{tree_view, file_row, dir_row};
ghost use Rattle.ost_commit.specs.Rows.{Said};
ghost use Rattle.ost_commit.specs.Digests.{AreDigests};
ghost use Rattle.ost_commit.specs.Folders.{Gathers, AreFew};
ghost use Rattle.ost_commit.specs.Entries.{tree_rows};
ghost use Rattle.ost_commit.specs.Sizes.{IsUnwritten, IsLargeDirectory, StayNamed, are_named};
ghost use Rattle.ost_commit.specs.Tables.{AreUsable, IsFaultOfTables};
ghost use Rattle.ost_commit.specs.Trees.{names_of, child_places, places_in, IsAmong, AreAmong, AddsEntry, AddsTree};
ghost use Rattle.ost_commit.specs.Trees.{AreGatheredFor, IsRootWritten};

use crate::built::BuildError;
use crate::objects::{Table, put};
use crate::row::TreeRow;
use crate::tree::{Child, Folder};
use crate::writing::dirtree_bytes;
use fp_base::{Items, Text};
use fp_name::Digest;
use ost_content::meta_digest;
use ost_model::Object;
use ost_object::{DirEntry, DirTree, FileEntry};
use std::alloc::{AllocError, Global};
use std::collections::BTreeMap;

/// A directory whose dirtree is made: the digest of the dirtree, and the number of objects of the
/// directory and all below it, with repeats.
#[derive(Clone, Copy)]
pub(crate) struct Done {
    pub(crate) tree: Digest,
    pub(crate) places: usize,
}

/// The dirtrees of a tree, and the digest of the root's.
#[derive(Drop)]
pub(crate) struct Dirtrees {
    pub(crate) trees: Table,
    pub(crate) root: Digest,
}

/// Makes the dirtrees of the directories. The first of them is the root, and each comes before
/// those in it. `TooLarge` if a dirtree has no serialised form of at most 16 MiB.
pub(crate) fn dirtrees_of(
    alloc: Global,
    mut folders: Vec<Folder>,
    contents: &[Digest],
    meta: Digest,
) -> Result<Dirtrees, BuildError>
    requires gathered { AreGatheredFor folders.items contents.now }
    requires few { AreFew folders.items }
    ensures written { IfOk result (λ made. (rows : List TreeRow) (said : Elements → Said)
        → Gathers rows said folders.items → AreDigests rows contents.now
        → IsRootWritten rows said contents.now meta made) }
    ensures usable { IfOk result (λ made. AreUsable kinds.DirTree made.trees.entries) }
    ensures error { IfErr result (λ reason. (rows : List TreeRow) (said : Elements → Said)
        → Gathers rows said folders.items
        → IsFaultOfTables (IsLargeDirectory rows said) reason) }
{
    let mut trees = Table::new(alloc);
    let nothing = Done {
        tree: Digest::from_bytes([0; 32]),
        places: 0,
    };
    let mut done = vec![in alloc; nothing; folders.len()]?;
    while let Some(folder) = folders.pop() {
        // The contract of `len` states that the names are in ascending order.
        let _count = folder.children.len();
        let at = folders.len();
        done[at] = add_dirtree(alloc, &mut trees, folder.children, contents, meta, &done)?;
    }
    Ok(Dirtrees {
        trees,
        root: done[0].tree,
    })
}

/// Makes the dirtree of a directory, and adds it to the table. The dirtrees of the directories in
/// it must have been made.
fn add_dirtree(
    alloc: Global,
    trees: &mut Table,
    children: BTreeMap<Text, Child>,
    contents: &[Digest],
    meta: Digest,
    done: &[Done],
) -> Result<Done, BuildError>
    requires among { AreAmong (length contents.now) (length done.now) children.entries }
    requires usable { AreUsable kinds.DirTree trees.old.entries }
    requires few { 2 + places_in done.now children.entries < MOST_OBJECTS }
    ensures adds { IfOk result (AddsTree contents.now meta done.now children.entries
        trees.old.entries trees.new.entries) }
    ensures usable { OnOk result (AreUsable kinds.DirTree trees.new.entries) }
    ensures error { IfErr result (IsFaultOfTables (IsUnwritten (tree_rows (names_of contents.now meta
        done.now) children.entries))) }
{
    let listing = listing_of(alloc, children, contents, meta, done)?;
    let bytes = dirtree_bytes(alloc, &listing.tree)?;
    let digest = meta_digest(bytes.as_slice());
    match put(trees, digest, Object::Meta(bytes)) {
        Ok(()) => Ok(Done {
            tree: digest,
            places: listing.places,
        }),
        Err(error) => Err(error),
    }
}

/// A dirtree in the making, and the number of objects of the directory and all below it, with
/// repeats.
#[derive(Drop)]
struct Listing {
    tree: DirTree,
    places: usize,
}

/// Returns the dirtree of a directory with these children.
fn listing_of(
    alloc: Global,
    mut children: BTreeMap<Text, Child>,
    contents: &[Digest],
    meta: Digest,
    done: &[Done],
) -> Result<Listing, AllocError>
    requires among { AreAmong (length contents.now) (length done.now) children.entries }
    requires few { 2 + places_in done.now children.entries < MOST_OBJECTS }
    ensures tree { IfOk result (λ listing. tree_view listing.tree
        ≡ tree_rows (names_of contents.now meta done.now) children.entries) }
    ensures places { IfOk result (λ listing. listing.places
        ≡ 2 + places_in done.now children.entries) }
    ensures few { IfOk result (λ listing. listing.places < MOST_OBJECTS) }
    ensures named { IfOk result (λ listing. are_named (tree_view listing.tree) ≡ true) }
{
    let mut listing = Listing::new(alloc);
    while let Some((name, child)) = children.pop_first() {
        listing.add(name, child, contents, meta, done)?;
    }
    Ok(listing)
}

impl Listing {
    /// Returns an empty dirtree. The number of objects is 2: the dirtree and the dirmeta.
    fn new(alloc: Global) -> Listing
        ensures tree { tree_view result.tree ≡ record { files = []; dirs = [] } }
        ensures places { result.places ≡ 2 }
    {
        Listing {
            tree: DirTree {
                files: Items::new(alloc),
                dirs: Items::new(alloc),
            },
            places: 2,
        }
    }

    /// Adds a name, which must come after all names in the dirtree.
    fn add(
        &mut self,
        name: Text,
        child: Child,
        contents: &[Digest],
        meta: Digest,
        done: &[Done],
    ) -> Result<(), AllocError>
        requires among { IsAmong (length contents.now) (length done.now) child }
        requires few { self.old.places + child_places done.now child < MOST_OBJECTS }
        ensures adds { OnOk result (AddsEntry (names_of contents.now meta done.now) name child
            self.old.tree self.new.tree) }
        ensures named { OnOk result (StayNamed self.old.tree self.new.tree) }
        ensures places { OnOk result (self.new.places
            ≡ self.old.places + child_places done.now child) }
    {
        match child {
            Child::Content(row) => self.add_file(name, contents[row]),
            Child::Folder(at) => self.add_dir(name, done[at], meta),
        }
    }

    /// Adds a file or a symlink.
    fn add_file(&mut self, name: Text, digest: Digest) -> Result<(), AllocError>
        requires { self.old.places + 1 < MOST_OBJECTS }
        ensures files { OnOk result (map file_row self.new.tree.files
            ≡ map file_row self.old.tree.files ++ record { name = name; digest = digest } ∷ []) }
        ensures dirs { OnOk result (self.new.tree.dirs ≡ self.old.tree.dirs) }
        ensures places { OnOk result (self.new.places ≡ self.old.places + 1) }
        ensures named { OnOk result (StayNamed self.old.tree self.new.tree) }
    {
        // The contract of `as_bytes` states that a digest has 32 bytes.
        let _bytes = digest.as_bytes();
        self.places += 1;
        self.tree.files.push(FileEntry { name, digest })?;
        Ok(())
    }

    /// Adds a directory.
    fn add_dir(&mut self, name: Text, done: Done, meta: Digest) -> Result<(), AllocError>
        requires { self.old.places + done.places < MOST_OBJECTS }
        ensures files { OnOk result (self.new.tree.files ≡ self.old.tree.files) }
        ensures dirs { OnOk result (map dir_row self.new.tree.dirs
            ≡ map dir_row self.old.tree.dirs
            ++ record { name = name; tree = done.tree; meta = meta } ∷ []) }
        ensures places { OnOk result (self.new.places ≡ self.old.places + done.places) }
        ensures named { OnOk result (StayNamed self.old.tree self.new.tree) }
    {
        // The contract of `as_bytes` states that a digest has 32 bytes.
        let _tree = done.tree.as_bytes();
        let _meta = meta.as_bytes();
        self.places += done.places;
        self.tree.dirs.push(DirEntry {
            name,
            tree: done.tree,
            meta,
        })?;
        Ok(())
    }
}
