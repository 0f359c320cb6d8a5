//! The paths below a root that fpk uses.

/// The paths below a root that fpk uses.
#[derive(Clone, Copy)]
pub struct Layout {
    /// The names at the top, also those of older layouts. Any other name there isn't fpk's: the
    /// root may be a home directory, or the whole machine.
    pub names: &'static [&'static str],
    /// The files that mark an installation: it has at least one of them once anything is in
    /// `exports` or `work`.
    pub signs: &'static [&'static str],
    /// The directory of exports. Anything else below it is removed.
    pub exports: &'static str,
    /// The directory of temporary files, which is emptied.
    pub work: &'static str,
    /// The start of the names of new files in `work`. A number follows.
    pub new_file: &'static str,
    /// The directory of the store's objects. Files that are moved there get the modification time
    /// 0.
    pub objects: &'static str,
    /// The directory where pulled objects wait until they are moved to `objects`.
    pub waiting: &'static str,
}

/// The paths of an installation. A test compares them with those of the specification.
pub const LAYOUT: Layout = Layout {
    names: &[
        "app",
        "config",
        "exports",
        "made",
        "overrides",
        "pins",
        "remotes.conf",
        "repo",
        "runtime",
    ],
    signs: &["config", "pins", "remotes.conf", "repo/config"],
    exports: "exports",
    work: "repo/tmp",
    new_file: "new",
    objects: "repo/objects",
    waiting: "repo/tmp/pull/objects",
};
