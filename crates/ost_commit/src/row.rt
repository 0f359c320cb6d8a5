//! The rows of a tree.

ghost use Rattle.std.specs.Prelude.{◌≡◌};
ghost use Rattle.ost_commit.specs.Rows.{row_path};

use fp_base::{Blob, Text};
use fp_host::Path;

/// A row of a tree. The directories above its path are made if they are missing.
#[derive(Drop)]
pub enum TreeRow {
    /// A directory.
    Dir(Path),
    /// A regular file, by its permission bits and its content.
    File { path: Path, mode: u32, bytes: Blob },
    /// A symlink, by its text.
    Link { path: Path, target: Text },
}

impl TreeRow {
    /// Returns the path of the row's directory, file or symlink.
    pub fn path(&self) -> &Path
        ensures { result.now ≡ row_path self.now }
    {
        match self {
            TreeRow::Dir(path) => path,
            TreeRow::File { path, .. } => path,
            TreeRow::Link { path, .. } => path,
        }
    }
}
