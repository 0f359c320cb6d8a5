//! SHA-256 digests.

ghost use Rattle.std.specs.Prelude.{◌≡◌, true, length, SomeIff, IfOk, ok_or};
ghost use Rattle.std.specs.List.{list_any};
ghost use Rattle.std.specs.Char.{is_ascii_uppercase};
ghost use Rattle.fp_name.specs.Hex.{hex as hex_text, unhex, is_digest};

use crate::fault::NameError;
use crate::limits::DIGEST_DIGITS;
use fp_base::Text;
use hex::FromHex;
use std::alloc::{AllocError, Global};
use std::marker::Model;

/// A SHA-256 digest. Contracts see it as the list of its 32 bytes.
#[derive(Clone, Copy, Debug, PartialEq, Eq, PartialOrd, Ord)]
pub struct Digest {
    bytes: [u8; 32],
}

impl Model for Digest {
    ghost use Rattle.std.specs.Prelude.{◌≡◌, List, ℕ, true};
    ghost use Rattle.fp_name.specs.Hex.{is_digest};

    ghost Value = { List ℕ };

    ghost view = { λ d. d.bytes };

    ghost invariant = { λ d. is_digest d.bytes ≡ true };

    ghost inverse = { λ bytes. record { bytes = bytes } };
}

impl Digest {
    /// Creates a digest with these bytes.
    pub fn from_bytes(bytes: [u8; 32]) -> Self
        ensures { result ≡ bytes }
    {
        Digest { bytes }
    }

    /// Creates a digest with the bytes of a slice, or returns `None` if its length isn't 32.
    pub fn from_slice(bytes: &[u8]) -> Option<Self>
        ensures { SomeIff result (length bytes.now ≡ 32) bytes.now }
    {
        let bytes = <[u8; 32]>::try_from(bytes).ok()?;
        Some(Digest::from_bytes(bytes))
    }

    /// Returns the digest's bytes.
    pub fn as_bytes(&self) -> &[u8; 32]
        ensures bytes { result.now ≡ self.now }
        ensures good { is_digest self.now ≡ true }
    {
        &self.bytes
    }

    /// Parses 64 lower-case hexadecimal digits. Errs with `Bad` for any other text. Allocates
    /// nothing.
    #[tactic(auto, using(crate::proofs::HexTexts::unhex_upper))]
    pub fn parse(text: &[u8]) -> Result<Self, NameError>
        ensures { result ≡ ok_or (unhex text.now) NameError.Bad }
    {
        if has_uppercase(text) {
            return Err(NameError::Bad);
        }
        match <[u8; 32]>::from_hex(text) {
            Ok(bytes) => Ok(Digest::from_bytes(bytes)),
            Err(_) => Err(NameError::Bad),
        }
    }

    /// Returns the digest as 64 lower-case hexadecimal digits. Allocates nothing.
    #[tactic(auto, using(crate::proofs::HexTexts::hex_is_encoded))]
    pub fn digits(&self) -> [u8; DIGEST_DIGITS]
        ensures { result ≡ hex_text self.now }
    {
        let mut digits = [0; DIGEST_DIGITS];
        hex::encode_to_slice(self.bytes, &mut digits).unwrap();
        digits
    }

    /// Returns the digest as a text of 64 lower-case hexadecimal digits.
    #[tactic(auto, using(crate::proofs::HexTexts::hex_is_encoded))]
    pub fn write(&self, alloc: Global) -> Result<Text, AllocError>
        ensures text { IfOk result (λ text. text ≡ hex_text self.now) }
        ensures good { is_digest self.now ≡ true }
    {
        Ok(Text::from_string(hex::encode(alloc, self.bytes)?))
    }
}

/// Returns whether an ASCII capital letter is in the text.
fn has_uppercase(text: &[u8]) -> bool
    ensures { result ≡ list_any is_ascii_uppercase text.now }
{
    text.iter().any(u8::is_ascii_uppercase)
}
