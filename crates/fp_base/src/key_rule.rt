//! The rules of key files (Desktop Entry Specification, "Basic format of the file").

use std::fmt;

/// The rule that a line of a key file breaks. If a line breaks several, it is the first of them in
/// the order of the variants.
#[derive(Clone, Copy, Debug, PartialEq, Eq)]
pub enum KeyRule {
    /// The line isn't valid UTF-8, or has a zero byte.
    Text,
    /// The line begins with `[` and isn't a group header.
    Group,
    /// The line is neither blank, a comment nor a group header, and has no `=`.
    Line,
    /// The text before `=` isn't a valid key.
    Key,
    /// A key-value pair comes before the first group header.
    NoGroup,
}

impl KeyRule {
    fn words(self) -> &'static str {
        match self {
            KeyRule::Text => "it isn't valid UTF-8, or has a zero byte",
            KeyRule::Group => "it begins with [ and isn't a group",
            KeyRule::Line => "it is neither blank, a comment nor a group, and has no =",
            KeyRule::Key => "what stands before = is no key",
            KeyRule::NoGroup => "a pair stands before any group",
        }
    }
}

impl fmt::Display for KeyRule {
    fn fmt<W: fmt::Write>(&self, f: &mut fmt::Formatter<W>) -> fmt::Result {
        f.write_str(self.words())
    }
}
