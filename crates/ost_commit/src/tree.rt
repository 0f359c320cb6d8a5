//! Gathering rows into the directories of a tree.

ghost use Rattle.std.specs.Prelude.{◌≡◌, ◌≢◌, ◌≤◌, ◌<◌, ◌+◌, ◌^◌, ◌∷◌, [], ℕ, List, true, None, length, drop, IfOk, IfErr, OnOk};
ghost use Rattle.fp_host.specs.Paths.{Elements, is_element};
ghost use Rattle.ost_commit.specs.Rows.{Said, says, put_by, row_path};
ghost use Rattle.ost_commit.specs.Refusals.{first_refused, IsRefusal, is_good_row, is_content};
ghost use Rattle.ost_commit.specs.Folders.{At, names_in, AreFew, child_in, folder_place, Gathers, AreGathered, FolderAt, PutsChild, Enters, Reaches, Takes, TakesFolder, TakesContent, PutsRow};

use crate::built::BuildError;
use crate::limits::MOST_NAMES;
use crate::row::TreeRow;
use fp_base::Text;
use fp_host::{Path, is_link_text};
use ost_content::is_permission;
use std::alloc::{AllocError, Global};
use std::collections::BTreeMap;

/// The maximum number of directories above a file or a symlink, without the root.
const MOST_LEVELS: usize = ost_model::MOST_LEVELS as usize;

/// The maximum size of a file in bytes.
const MOST_BYTES: usize = ost_model::MOST_FILE_BYTES as usize;

/// A child of a directory.
#[derive(Clone, Copy)]
pub(crate) enum Child {
    /// A file or a symlink, by the index of its row.
    Content(usize),
    /// A directory, by its index in the tree.
    Folder(usize),
}

impl Child {
    /// Returns the index of the directory, or `None` for a file or a symlink.
    fn folder(self) -> Option<usize>
        ensures { result ≡ folder_place self }
    {
        match self {
            Child::Content(_) => None,
            Child::Folder(at) => Some(at),
        }
    }
}

/// A directory and its children by their names.
#[derive(Drop)]
pub(crate) struct Folder {
    pub(crate) path: Path,
    pub(crate) children: BTreeMap<Text, Child>,
}

/// The directories of a tree, the root first and each before those in it, and the number of names
/// below the root.
#[derive(Drop)]
pub(crate) struct Tree {
    pub(crate) folders: Vec<Folder>,
    names: usize,
}

impl Tree {
    /// Returns a tree with the root only.
    fn new(alloc: Global) -> Result<Tree, AllocError>
        ensures gathers { (rows : List TreeRow)
            → IfOk result (λ tree. Gathers rows (says []) tree.folders.items) }
        ensures names { IfOk result (λ tree. tree.names ≡ 0) }
        ensures alone { IfOk result (λ tree. names_in tree.folders.items ≡ 0) }
        ensures one { IfOk result (λ tree. length tree.folders.items ≡ 1) }
    {
        let root = Folder {
            path: Path::root(alloc),
            children: BTreeMap::new(alloc),
        };
        Ok(Tree {
            folders: vec![in alloc; root]?,
            names: 0,
        })
    }

    /// Returns the tree of rows. `Row` with the number of the first row that is refused.
    pub(crate) fn of_rows(alloc: Global, rows: &[TreeRow]) -> Result<Tree, BuildError>
        ensures gathers { IfOk result (λ tree. Gathers rows.now (says rows.now)
            tree.folders.items) }
        ensures good { OnOk result (first_refused rows.now ≡ None) }
        ensures few { IfOk result (λ tree. AreFew tree.folders.items) }
        ensures refused { IfErr result (IsRefusal rows.now) }
    {
        let mut tree = Tree::new(alloc)?;
        for (at, row) in rows.iter().enumerate() {
            if !tree.take(alloc, row, at)? {
                return Err(BuildError::Row(at as u64 + 1));
            }
        }
        Ok(tree)
    }

    /// Adds the row with the index `at`. Returns false if the row is refused.
    fn take(&mut self, alloc: Global, row: &TreeRow, at: usize) -> Result<bool, AllocError>
        requires gathered { AreGathered self.old.folders.items }
        requires few { self.old.names ≤ MOST_NAMES }
        ensures { IfOk result (λ taken. (rows : List TreeRow) (said : Elements → Said)
            → Gathers rows said self.old.folders.items
            → At rows at row.now → Takes rows said row.now self.old self.new taken) }
    {
        if !is_good(row) {
            return Ok(false);
        }
        let Some(folder) = self.folder_above(alloc, row.path())? else {
            return Ok(false);
        };
        let taken = self.put_row(alloc, folder, row, at)?;
        Ok(taken && self.names <= MOST_NAMES)
    }

    /// Adds the row with the index `at` to the directory `folder` above its path. Returns false if
    /// its path exists already, unless both are directories.
    fn put_row(
        &mut self,
        alloc: Global,
        folder: usize,
        row: &TreeRow,
        at: usize,
    ) -> Result<bool, AllocError>
        requires gathered { AreGathered self.old.folders.items }
        requires at { FolderAt self.old.folders.items folder (drop 1 (row_path row.now)) }
        requires good { is_good_row row.now ≡ true }
        requires few { self.old.names < 2 ^ 32 }
        ensures { IfOk result (λ taken. (rows : List TreeRow) (said : Elements → Said)
            → Gathers rows said self.old.folders.items
            → At rows at row.now → PutsRow rows said row.now self.old self.new taken) }
    {
        match row {
            TreeRow::Dir(path) => self.take_folder(alloc, folder, path),
            TreeRow::File { path, .. } => self.take_content(alloc, folder, path, at),
            TreeRow::Link { path, .. } => self.take_content(alloc, folder, path, at),
        }
    }

    /// Returns the index of the directory above the path, and makes the missing directories on the
    /// way. Returns `None` if a file or a symlink is on the way.
    fn folder_above(&mut self, alloc: Global, path: &Path) -> Result<Option<usize>, AllocError>
        requires gathered { AreGathered self.old.folders.items }
        requires short { length path.now ≤ MOST_LEVELS + 1 }
        requires few { self.old.names ≤ MOST_NAMES }
        ensures { IfOk result (λ found. (rows : List TreeRow) (said : Elements → Said)
            → Gathers rows said self.old.folders.items
            → Reaches rows said path.now self.old self.new found) }
    {
        let mut folder = 0;
        let mut up = path.len();
        while up > 1 {
            up -= 1;
            match self.enter(alloc, folder, path.folder(up)?)? {
                Some(below) => folder = below,
                None => return Ok(None),
            }
        }
        Ok(Some(folder))
    }

    /// Returns the index of the directory at `path`, whose parent has the index `folder`. Makes it
    /// if nothing is there. Returns `None` if a file or a symlink is there.
    fn enter(
        &mut self,
        alloc: Global,
        folder: usize,
        path: Path,
    ) -> Result<Option<usize>, AllocError>
        requires gathered { AreGathered self.old.folders.items }
        requires at { FolderAt self.old.folders.items folder (drop 1 path) }
        requires inner { path ≢ [] }
        requires short { length path ≤ MOST_LEVELS }
        requires few { self.old.names < 2 ^ 32 }
        ensures { IfOk result (λ found. (rows : List TreeRow) (said : Elements → Said)
            → Gathers rows said self.old.folders.items
            → Enters rows said path self.old self.new found) }
    {
        let name = name_of(alloc, &path)?;
        match self.child(folder, &name) {
            Some(child) => Ok(child.folder()),
            None => {
                let below = self.folders.len();
                self.put(folder, name, Child::Folder(below))?;
                self.folders.push(Folder {
                    path,
                    children: BTreeMap::new(alloc),
                })?;
                Ok(Some(below))
            }
        }
    }

    /// Returns the child of a directory with this name.
    fn child(&self, folder: usize, name: &Text) -> Option<Child>
        requires { folder < length self.now.folders.items }
        ensures { (f : Folder) → At self.now.folders.items folder f
            → result ≡ child_in f.children.entries name.now }
    {
        self.folders[folder].children.get(name).copied()
    }

    /// Adds a new name to a directory.
    fn put(&mut self, folder: usize, name: Text, child: Child) -> Result<(), AllocError>
        requires within { folder < length self.old.folders.items }
        requires few { self.old.names < 2 ^ 32 }
        ensures { OnOk result (PutsChild folder name child self.old self.new) }
    {
        let folder = &mut self.folders[folder];
        folder.children.insert(name, child)?;
        self.names += 1;
        Ok(())
    }

    /// Adds a directory, which may exist already. The root always exists. Returns false if a file
    /// or a symlink is at the path.
    fn take_folder(&mut self, alloc: Global, folder: usize, path: &Path) -> Result<bool, AllocError>
        requires gathered { AreGathered self.old.folders.items }
        requires at { FolderAt self.old.folders.items folder (drop 1 path.now) }
        requires short { length path.now ≤ MOST_LEVELS }
        requires few { self.old.names < 2 ^ 32 }
        ensures { IfOk result (λ taken. (rows : List TreeRow) (said : Elements → Said)
            → Gathers rows said self.old.folders.items
            → TakesFolder rows said path.now self.old self.new taken) }
    {
        if path.is_root() {
            return Ok(true);
        }
        let entered = self.enter(alloc, folder, path.copy()?)?;
        Ok(entered.is_some())
    }

    /// Adds a file or a symlink. Returns false if something is at the path.
    fn take_content(
        &mut self,
        alloc: Global,
        folder: usize,
        path: &Path,
        row: usize,
    ) -> Result<bool, AllocError>
        requires at { FolderAt self.old.folders.items folder (drop 1 path.now) }
        requires few { self.old.names < 2 ^ 32 }
        ensures { IfOk result (λ taken. (rows : List TreeRow) (said : Elements
            → Said) (r : TreeRow) → Gathers rows said self.old.folders.items
            → At rows row r → is_content (put_by r) ≡ true
            → TakesContent rows said path.now (put_by r) self.old self.new taken) }
    {
        let Some(name) = path.name() else {
            return Ok(false);
        };
        let name = Text::from_str(alloc, name)?;
        if self.child(folder, &name).is_some() {
            return Ok(false);
        }
        self.put(folder, name, Child::Content(row))?;
        Ok(true)
    }
}

/// Returns whether the row is valid by itself: its depth, permission bits, size and text are within
/// the limits.
fn is_good(row: &TreeRow) -> bool
    ensures { result ≡ is_good_row row.now }
{
    match row {
        TreeRow::Dir(path) => path.len() <= MOST_LEVELS,
        TreeRow::File { path, mode, bytes } => {
            path.len() <= MOST_LEVELS + 1 && is_permission(*mode) && bytes.len() <= MOST_BYTES
        }
        TreeRow::Link { path, target } => {
            path.len() <= MOST_LEVELS + 1 && is_link_text(target.as_str())
        }
    }
}

/// Returns the last name of a path, which isn't the root.
fn name_of(alloc: Global, path: &Path) -> Result<Text, AllocError>
    requires { path.now ≢ [] }
    ensures name { IfOk result (λ name. path.now ≡ name ∷ drop 1 path.now) }
    ensures element { IfOk result (λ name. is_element name ≡ true) }
{
    match path.name() {
        Some(name) => Text::from_str(alloc, name),
        None => unreachable!(),
    }
}
