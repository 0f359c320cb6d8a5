//! The names of remotes.

ghost use Rattle.std.specs.Prelude.{◌≡◌, ◌↔◌, true, false, IfOk, OnOk, IsErrOf};
ghost use Rattle.fp_name.specs.Grammar.{is_remote_name};

use crate::fault::NameError;
use crate::grammar::is_remote_name;
use fp_base::Text;
use std::alloc::{AllocError, Global};
use std::marker::Model;
use std::str;

/// The name of a remote, such as `flathub`.
#[derive(Debug, Drop, PartialEq, Eq, PartialOrd, Ord)]
pub struct RemoteName {
    text: Text,
}

impl Model for RemoteName {
    ghost use Rattle.std.specs.Prelude.{◌≡◌, List, ℕ, true};
    ghost use Rattle.fp_name.specs.Grammar.{is_remote_name};

    ghost Value = { List ℕ };

    ghost view = { λ a. a.text };

    ghost invariant = { λ a. is_remote_name a.text ≡ true };

    ghost inverse = { λ text. record { text = text } };
}

impl RemoteName {
    /// Parses a remote's name. Errs with `Bad` exactly if the text isn't one (see
    /// `is_remote_name`), and with `NoMemory` if memory runs out.
    #[tactic(auto, using(crate::proofs::Bytes::no_text_no_remote_name))]
    pub fn parse(alloc: Global, text: &[u8]) -> Result<Self, NameError>
        ensures ok { IfOk result (λ name. name ≡ text.now) }
        ensures good { OnOk result (is_remote_name text.now ≡ true) }
        ensures bad { IsErrOf result NameError.Bad ↔ (is_remote_name text.now ≡ false) }
    {
        let Ok(text) = str::from_utf8(text) else {
            return Err(NameError::Bad);
        };
        if !is_remote_name(text) {
            return Err(NameError::Bad);
        }
        Ok(RemoteName {
            text: Text::from_str(alloc, text)?,
        })
    }

    /// Returns the text of the name.
    pub fn as_str(&self) -> &str
        ensures text { result.now ≡ self.now }
        ensures good { is_remote_name self.now ≡ true }
    {
        self.text.as_str()
    }

    /// Copies the text of the name.
    pub fn write(&self) -> Result<Text, AllocError>
        ensures text { IfOk result (λ text. text ≡ self.now) }
        ensures good { is_remote_name self.now ≡ true }
    {
        self.text.copy()
    }

    /// Returns a copy. Errs if memory runs out.
    pub fn copy(&self) -> Result<Self, AllocError>
        ensures { IfOk result (λ name. name ≡ self.now) }
    {
        Ok(RemoteName {
            text: self.text.copy()?,
        })
    }
}
