//! The rows of exports.
use fp_base::{Blob, Text};
use fp_host::Path;
use fp_name::RefName;

/// The export at a path.
#[derive(Debug, Drop)]
pub enum ExportWhat {
    /// A file with these bytes and the permission bits 0644.
    Text(Blob),
    /// A symlink with this text.
    Link(Text),
}

/// An exported path, with the application that exports it.
#[derive(Debug, Drop)]
pub struct ExportRow {
    /// The path below the directory `exports`.
    pub path: Path,
    /// The ref of the application.
    pub name: RefName,
    /// The file or symlink at the path.
    pub what: ExportWhat,
}
