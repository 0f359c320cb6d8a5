//! The digest of a file whose content comes in pieces.

ghost use Rattle.std.specs.Prelude.{◌≡◌, ◌++◌, [], ℕ, List, true};
ghost use Rattle.ost_model.specs.Contents.{file_digest as digest_of_file, is_permission};
ghost use Rattle.ost_content.specs.Taken.{HasTaken};

use crate::headers::header;
use fp_name::Digest;
use sha2::{Digest as Hash, Sha256};
use std::marker::Model;

/// A hasher that computes the digest of a file whose content is given piece by piece. No call
/// allocates. Contracts see the state of SHA-256; `HasTaken` relates it to the content that was
/// given.
#[derive(Debug, Drop)]
pub struct ContentHasher {
    hasher: Sha256,
}

impl Model for ContentHasher {
    ghost use Rattle.sha2.specs.declared.Sha256.{Sha256};

    ghost Value = { Sha256 };

    ghost view = { λ h. h.hasher };
}

impl ContentHasher {
    /// Returns a hasher for a file with these permission bits, which must be within 0775. The
    /// content is empty so far.
    pub fn new(mode: u32) -> Self
        requires { is_permission mode ≡ true }
        ensures { HasTaken result mode [] }
    {
        let mut hasher = Sha256::new();
        hasher.update(header(mode));
        ContentHasher { hasher }
    }

    /// Adds the next piece of the content.
    pub fn update(&mut self, piece: &[u8])
        ensures { (mode : ℕ) (bytes : List ℕ) → HasTaken self.old mode bytes → HasTaken self.new
            mode (bytes ++ piece.now) }
    {
        self.hasher.update(piece);
    }

    /// Returns the digest of the file. It doesn't depend on how the content was split into pieces.
    pub fn finish(self) -> Digest
        ensures { (mode : ℕ) (bytes : List ℕ) → HasTaken self mode bytes → result ≡ digest_of_file
            mode bytes }
    {
        Digest::from_bytes(self.hasher.finalize())
    }
}
