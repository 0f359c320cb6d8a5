//! The digests of whole objects.
ghost use Rattle.std.specs.Prelude.{◌≡◌, true, IfOk};
ghost use Rattle.sha2.specs.Sha256.{sha256 as sha256_of};
ghost use Rattle.fp_host.specs.Paths.{is_link_text};
ghost use Rattle.ost_model.specs.Contents.{file_digest as digest_of_file, link_digest as digest_of_link, meta_digest as digest_of_meta, is_permission};

use crate::hasher::ContentHasher;
use crate::headers::link_header;
use fp_name::Digest;
use sha2::{Digest as Hash, Sha256};
use std::alloc::{AllocError, Global};

/// Returns the digest of a file with this content and these permission bits, which must be within
/// 0775.
pub fn file_digest(mode: u32, bytes: &[u8]) -> Digest
    requires { is_permission mode ≡ true }
    ensures { result ≡ digest_of_file mode bytes.now }
{
    let mut hasher = ContentHasher::new(mode);
    hasher.update(bytes);
    hasher.finish()
}

/// Returns the digest of a symlink with this text, which must have 1 to 4,095 bytes and no zero
/// byte.
pub fn link_digest(alloc: Global, target: &str) -> Result<Digest, AllocError>
    requires { is_link_text target.now ≡ true }
    ensures { IfOk result (λ digest. digest ≡ digest_of_link target.now) }
{
    let header = link_header(alloc, target)?;
    Ok(sha256(header.as_slice()))
}

/// Returns the digest of a metadata object with these bytes.
pub fn meta_digest(bytes: &[u8]) -> Digest
    ensures { result ≡ digest_of_meta bytes.now }
{
    sha256(bytes)
}

/// Returns the SHA-256 of bytes.
fn sha256(bytes: &[u8]) -> Digest
    ensures { result ≡ sha256_of bytes.now }
{
    Digest::from_bytes(Sha256::digest(bytes))
}
