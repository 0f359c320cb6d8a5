//! The IDs of applications, runtimes and extensions.

ghost use Rattle.std.specs.Prelude.{◌≡◌, ◌↔◌, true, false, IfOk, OnOk, IsErrOf};
ghost use Rattle.fp_name.specs.Grammar.{is_id};

use crate::fault::NameError;
use crate::grammar::is_id;
use fp_base::Text;
use std::alloc::{AllocError, Global};
use std::marker::Model;
use std::str;

/// The ID of an application, a runtime or an extension, such as `org.gnome.Maps`.
#[derive(Debug, Drop, PartialEq, Eq, PartialOrd, Ord)]
pub struct AppId {
    text: Text,
}

impl Model for AppId {
    ghost use Rattle.std.specs.Prelude.{◌≡◌, List, ℕ, true};
    ghost use Rattle.fp_name.specs.Grammar.{is_id};

    ghost Value = { List ℕ };

    ghost view = { λ a. a.text };

    ghost invariant = { λ a. is_id a.text ≡ true };

    ghost inverse = { λ text. record { text = text } };
}

impl AppId {
    /// Parses an ID. Errs with `Bad` exactly if the text isn't one (see `is_id`), and with
    /// `NoMemory` if memory runs out.
    #[tactic(auto, using(crate::proofs::Bytes::no_text_no_id))]
    pub fn parse(alloc: Global, text: &[u8]) -> Result<Self, NameError>
        ensures ok { IfOk result (λ id. id ≡ text.now) }
        ensures good { OnOk result (is_id text.now ≡ true) }
        ensures bad { IsErrOf result NameError.Bad ↔ (is_id text.now ≡ false) }
    {
        let Ok(text) = str::from_utf8(text) else {
            return Err(NameError::Bad);
        };
        if !is_id(text) {
            return Err(NameError::Bad);
        }
        Ok(AppId {
            text: Text::from_str(alloc, text)?,
        })
    }

    /// Creates an ID of a text that is known to be one.
    pub fn of_id(alloc: Global, id: &str) -> Result<Self, AllocError>
        requires { is_id id.now ≡ true }
        ensures { IfOk result (λ value. value ≡ id.now) }
    {
        Ok(AppId {
            text: Text::from_str(alloc, id)?,
        })
    }

    /// Returns the text of the ID.
    pub fn as_str(&self) -> &str
        ensures text { result.now ≡ self.now }
        ensures good { is_id self.now ≡ true }
    {
        self.text.as_str()
    }

    /// Copies the text of the ID.
    pub fn write(&self) -> Result<Text, AllocError>
        ensures text { IfOk result (λ text. text ≡ self.now) }
        ensures good { is_id self.now ≡ true }
    {
        self.text.copy()
    }

    /// Returns a copy. Errs if memory runs out.
    pub fn copy(&self) -> Result<Self, AllocError>
        ensures { IfOk result (λ id. id ≡ self.now) }
    {
        Ok(AppId {
            text: self.text.copy()?,
        })
    }
}
