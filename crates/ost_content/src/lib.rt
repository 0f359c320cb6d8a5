//! The digests of OSTree's objects: SHA-256 of a metadata object's bytes, or of the header and
//! content of a file or symlink.
#![tactic(auto)]

mod conditions;
mod digesting;
mod hasher;
mod headers;
mod laws;

pub use conditions::is_permission;
pub use digesting::{file_digest, link_digest, meta_digest};
pub use hasher::ContentHasher;
pub use headers::{header, link_header};
pub use laws::{headers_are_values, headers_tell_objects};
