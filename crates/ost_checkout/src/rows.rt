//! The rows of a checkout: a path and what it is to be.
ghost use Rattle.std.specs.Prelude.{◌≡◌, ◌++◌, map, OnOk, IfOk, true};
ghost use Rattle.std.specs.List.{list_all, list_any};
ghost use Rattle.fp_host.specs.Paths.{is_element, path_eq};
ghost use Rattle.ost_model.specs.Readers.{file_names, dir_names};
ghost use Rattle.ost_object.specs.Views.{file_row, dir_row, tree_view, names_of_files, names_of_dirs};
ghost use Rattle.ost_checkout.specs.Rows.{row_of_file, row_of_dir, rows_in};

use fp_host::Path;
use fp_name::Digest;
use ost_object::{DirEntry, DirTree, FileEntry};
use std::alloc::AllocError;

/// The entry of a commit at a path.
#[derive(Clone, Copy)]
pub(crate) enum Entry {
    /// A directory, by the digests of its dirtree and its dirmeta.
    Dir { tree: Digest, meta: Digest },
    /// A file or symlink, by the digest of its object.
    File(Digest),
}

/// A path of a commit in the checkout's directory, and its entry.
#[derive(Drop)]
pub(crate) struct Row {
    pub path: Path,
    pub entry: Entry,
}

/// Returns the row of a file or symlink in a directory.
fn file_row(folder: &Path, file: &FileEntry) -> Result<Row, AllocError>
    requires { is_element file.now.name ≡ true }
    ensures { IfOk result (λ row. row ≡ row_of_file folder.now (file_row file.now)) }
{
    Ok(Row {
        path: folder.child(file.name.as_str())?,
        entry: Entry::File(file.digest),
    })
}

/// Returns the row of a directory in a directory.
fn dir_row(folder: &Path, dir: &DirEntry) -> Result<Row, AllocError>
    requires { is_element dir.now.name ≡ true }
    ensures { IfOk result (λ row. row ≡ row_of_dir folder.now (dir_row dir.now)) }
{
    Ok(Row {
        path: folder.child(dir.name.as_str())?,
        entry: Entry::Dir {
            tree: dir.tree,
            meta: dir.meta,
        },
    })
}

/// Appends the rows of the files and symlinks in a directory.
fn add_files(folder: &Path, files: &[FileEntry], rows: &mut Vec<Row>) -> Result<(), AllocError>
    requires { list_all is_element (names_of_files files.now) ≡ true }
    ensures { OnOk result (rows.new.items ≡ rows.old.items ++ map (row_of_file folder.now)
        (map file_row files.now)) }
{
    for file in files {
        rows.push(file_row(folder, file)?)?;
    }
    Ok(())
}

/// Appends the rows of the directories in a directory.
fn add_dirs(folder: &Path, dirs: &[DirEntry], rows: &mut Vec<Row>) -> Result<(), AllocError>
    requires { list_all is_element (names_of_dirs dirs.now) ≡ true }
    ensures { OnOk result (rows.new.items ≡ rows.old.items ++ map (row_of_dir folder.now)
        (map dir_row dirs.now)) }
{
    for dir in dirs {
        rows.push(dir_row(folder, dir)?)?;
    }
    Ok(())
}

/// Appends the rows of a directory's entries, the files and symlinks first.
pub(crate) fn add_rows(folder: &Path, tree: &DirTree, rows: &mut Vec<Row>) -> Result<(), AllocError>
    requires files { list_all is_element (file_names (tree_view tree.now)) ≡ true }
    requires dirs { list_all is_element (dir_names (tree_view tree.now)) ≡ true }
    ensures { OnOk result (rows.new.items ≡ rows.old.items ++ rows_in folder.now
        (tree_view tree.now)) }
{
    add_files(folder, tree.files.as_slice(), rows)?;
    add_dirs(folder, tree.dirs.as_slice(), rows)
}

/// Returns whether the path is that of one of the rows.
pub(crate) fn has_path(rows: &[Row], path: &Path) -> bool
    ensures { result ≡ list_any (λ row. path_eq row.path path.now) rows.now }
{
    rows.iter().any(|row| row.path.is(path))
}
