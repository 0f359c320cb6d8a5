//! Extension points.

use fp_base::{Items, Text};
use fp_name::{AppId, RefName};

/// An extension point of an application or a runtime: the group `[Extension NAME]` of
/// flatpak-metadata(5).
#[derive(Drop)]
pub struct Point {
    /// The NAME of the group: the ID of the extension.
    pub name: AppId,
    /// The directory in which the extension is mounted, relative to that of the application or the
    /// runtime: a path other than the root, without `=` and control characters, and without a space
    /// or tab at its end.
    pub directory: Text,
    /// The refs that may be the extension, in the order in which they are tried, each of them once.
    pub candidates: Items<RefName>,
    /// Whether the extension is installed together with the ref that has the point.
    pub auto: bool,
}
