//! A vector of bytes that contracts see as a plain list.
ghost use Rattle.std.specs.Prelude.{◌≡◌, ◌↔◌, [], IfOk, IsTrue, length};

use std::alloc::{AllocError, Global};
use std::marker::Model;

/// A vector of bytes. Contracts see it as a plain list.
#[derive(Debug, Drop)]
pub struct Blob {
    inner: Vec<u8>,
}

impl Model for Blob {
    ghost use Rattle.std.specs.Prelude.{List, ℕ};

    ghost Value = { List ℕ };

    ghost view = { λ b. b.inner.items };
}

impl Blob {
    /// Takes over a vector's bytes. Allocates nothing.
    pub fn from_vec(bytes: Vec<u8>) -> Self
        ensures { result ≡ bytes.items }
    {
        Blob { inner: bytes }
    }

    /// Returns the bytes as a vector. Allocates nothing.
    pub fn into_vec(self) -> Vec<u8>
        ensures { result.items ≡ self }
    {
        self.inner
    }

    /// Copies a slice. Errs if memory runs out.
    pub fn from_slice(alloc: Global, bytes: &[u8]) -> Result<Self, AllocError>
        ensures { IfOk result (λ copy. copy ≡ bytes.now) }
    {
        Ok(Blob {
            inner: Vec::from_slice(alloc, bytes)?,
        })
    }

    /// Returns the bytes as a slice.
    pub fn as_slice(&self) -> &[u8]
        ensures { result.now ≡ self.now }
    {
        &self.inner
    }

    /// Returns the number of bytes.
    pub fn len(&self) -> usize
        ensures { result ≡ length self.now }
    {
        self.inner.len()
    }

    /// Returns whether there are no bytes.
    pub fn is_empty(&self) -> bool
        ensures { IsTrue result ↔ (self.now ≡ []) }
    {
        self.inner.is_empty()
    }

    /// Returns a copy. Errs if memory runs out.
    pub fn copy(&self) -> Result<Self, AllocError>
        ensures { IfOk result (λ b. b ≡ self.now) }
    {
        Ok(Blob {
            inner: self.inner.clone()?,
        })
    }
}
