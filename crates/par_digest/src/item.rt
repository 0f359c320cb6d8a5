//! The input of a digest.

ghost use Rattle.std.specs.Prelude.{◌≡◌};
ghost use Rattle.par_digest.specs.Digests.{item_digest};

use fp_base::Blob;
use fp_name::Digest;
use sha2::{Digest as Hash, Sha256};

/// An object, in two parts: its digest is SHA-256 of its head followed by its body.
#[derive(Debug, Drop)]
pub struct Item {
    /// The bytes before the content: the header of a file or a symlink. A metadata object has none.
    pub head: Blob,
    /// The content.
    pub body: Blob,
}

impl Item {
    /// Returns the digest of the item.
    pub(crate) fn digest(&self) -> Digest
        ensures { result ≡ item_digest self.now }
    {
        let mut hasher = Sha256::new();
        hasher.update(self.head.as_slice());
        hasher.update(self.body.as_slice());
        Digest::from_bytes(hasher.finalize())
    }
}
