//! The rules of Flatpak's `metadata` files (flatpak-metadata(5)).

use crate::KeyRule;
use std::fmt;

/// The rule that a `metadata` file breaks (flatpak-metadata(5)). If it breaks several, it is the
/// first of them in the order of the variants. None of them concerns a single line of the file.
#[derive(Clone, Copy, Debug, PartialEq, Eq)]
pub enum MetaRule {
    /// The file is missing or isn't a regular file; in a deployment, also if it is too long.
    Absent,
    /// An application has no group `Application`, or a runtime no group `Runtime`.
    Group,
    /// An application has no key `runtime`, or its value isn't `ID/ARCH/BRANCH`.
    Runtime,
}

impl MetaRule {
    fn words(self) -> &'static str {
        match self {
            MetaRule::Absent => "there is no such file, or it is none that is read",
            MetaRule::Group => "the group Application or Runtime is missing",
            MetaRule::Runtime => "the key runtime is missing, or its value isn't ID/ARCH/BRANCH",
        }
    }
}

impl fmt::Display for MetaRule {
    fn fmt<W: fmt::Write>(&self, f: &mut fmt::Formatter<W>) -> fmt::Result {
        f.write_str(self.words())
    }
}

/// A rule of a `metadata` file: of its form as a key file, or of its content.
#[derive(Clone, Copy, Debug, PartialEq, Eq)]
pub enum MetadataRule {
    /// A line breaks this rule of key files.
    Key(KeyRule),
    /// The content breaks this rule of metadata.
    Meta(MetaRule),
}
