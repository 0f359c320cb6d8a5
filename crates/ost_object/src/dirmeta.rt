//! Dirmeta objects.

/// A dirmeta object, of the GVariant type `(uuua(ayay))`: the metadata of a directory. Its owner
/// and its group are 0, and it has no extended attributes.
#[derive(Clone, Copy, Debug, PartialEq, Eq)]
pub struct DirMeta {
    /// The mode: 040000 (octal), the type of a directory, and the lowest twelve bits, which hold
    /// the permissions.
    pub mode: u32,
}
