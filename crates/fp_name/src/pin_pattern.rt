//! The patterns of pins.

ghost use Rattle.std.specs.Prelude.{◌≡◌, ◌↔◌, true, false, IfOk, OnOk, IsErrOf};
ghost use Rattle.fp_name.specs.Pins.{is_pin, pin_matches};

use crate::fault::NameError;
use crate::parts::{is_pin, parts_of};
use crate::ref_name::RefName;
use fp_base::Text;
use std::alloc::{AllocError, Global};
use std::marker::Model;
use std::str;

/// A pattern of refs, `KIND/ID/ARCH/BRANCH`. Each of its last three parts is that of a ref, or `*`,
/// which matches any.
#[derive(Debug, Drop, PartialEq, Eq, PartialOrd, Ord)]
pub struct PinPattern {
    text: Text,
}

impl Model for PinPattern {
    ghost use Rattle.std.specs.Prelude.{◌≡◌, List, ℕ, true};
    ghost use Rattle.fp_name.specs.Pins.{is_pin};

    ghost Value = { List ℕ };

    ghost view = { λ a. a.text };

    ghost invariant = { λ a. is_pin a.text ≡ true };

    ghost inverse = { λ text. record { text = text } };
}

impl PinPattern {
    /// Parses a pattern. Errs with `Bad` exactly if the text isn't one, and with `NoMemory` if
    /// memory runs out.
    #[tactic(auto, using(crate::proofs::Pins::no_text_no_pin))]
    pub fn parse(alloc: Global, text: &[u8]) -> Result<Self, NameError>
        ensures ok { IfOk result (λ pattern. pattern ≡ text.now) }
        ensures good { OnOk result (is_pin text.now ≡ true) }
        ensures bad { IsErrOf result NameError.Bad ↔ (is_pin text.now ≡ false) }
    {
        let Ok(text) = str::from_utf8(text) else {
            return Err(NameError::Bad);
        };
        if !is_pin(text) {
            return Err(NameError::Bad);
        }
        Ok(PinPattern {
            text: Text::from_str(alloc, text)?,
        })
    }

    /// Returns the text of the pattern.
    pub fn as_str(&self) -> &str
        ensures text { result.now ≡ self.now }
        ensures good { is_pin self.now ≡ true }
    {
        self.text.as_str()
    }

    /// Copies the text of the pattern.
    pub fn write(&self) -> Result<Text, AllocError>
        ensures text { IfOk result (λ text. text ≡ self.now) }
        ensures good { is_pin self.now ≡ true }
    {
        self.text.copy()
    }

    /// Returns a copy. Errs if memory runs out.
    pub fn copy(&self) -> Result<Self, AllocError>
        ensures { IfOk result (λ pattern. pattern ≡ self.now) }
    {
        Ok(PinPattern {
            text: self.text.copy()?,
        })
    }

    /// Returns whether the pattern matches a ref: the kinds are equal, and each other part of the
    /// pattern is equal to the ref's or `*`. Allocates nothing.
    #[tactic(auto, unfolding(crate::specs::Pins::pin_matches))]
    pub fn matches(&self, name: &RefName) -> bool
        ensures { result ≡ pin_matches self.now name.now }
    {
        let Some(parts) = parts_of(self.text.as_str()) else {
            return false;
        };
        parts.match_parts(name.parts())
    }
}
