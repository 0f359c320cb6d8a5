//! The fields of a dirmeta as read, before they are checked.

/// The fields of a dirmeta, after the rule `Value` was checked and before the others are.
#[derive(Clone, Copy)]
pub struct MetaFields {
    /// The user ID of the owner.
    pub uid: u32,
    /// The ID of the group.
    pub gid: u32,
    /// The file type and the permission bits.
    pub mode: u32,
    /// Whether there are no extended attributes.
    pub bare: bool,
}
