//! The URLs of remotes.

ghost use Rattle.std.specs.Prelude.{◌≡◌, ◌↔◌, true, false, IfOk, OnOk, IsErrOf};
ghost use Rattle.fp_name.specs.Grammar.{is_url};

use crate::fault::NameError;
use crate::grammar::is_url;
use fp_base::Text;
use std::alloc::{AllocError, Global};
use std::marker::Model;
use std::str;

/// The URL of a remote, such as `file:///srv/repo`.
#[derive(Debug, Drop, PartialEq, Eq, PartialOrd, Ord)]
pub struct RemoteUrl {
    text: Text,
}

impl Model for RemoteUrl {
    ghost use Rattle.std.specs.Prelude.{◌≡◌, List, ℕ, true};
    ghost use Rattle.fp_name.specs.Grammar.{is_url};

    ghost Value = { List ℕ };

    ghost view = { λ a. a.text };

    ghost invariant = { λ a. is_url a.text ≡ true };

    ghost inverse = { λ text. record { text = text } };
}

impl RemoteUrl {
    /// Parses a remote's URL. Errs with `Bad` exactly if the text isn't one (see `is_url`), and
    /// with `NoMemory` if memory runs out.
    #[tactic(auto, using(crate::proofs::Bytes::no_text_no_url))]
    pub fn parse(alloc: Global, text: &[u8]) -> Result<Self, NameError>
        ensures ok { IfOk result (λ url. url ≡ text.now) }
        ensures good { OnOk result (is_url text.now ≡ true) }
        ensures bad { IsErrOf result NameError.Bad ↔ (is_url text.now ≡ false) }
    {
        let Ok(text) = str::from_utf8(text) else {
            return Err(NameError::Bad);
        };
        if !is_url(text) {
            return Err(NameError::Bad);
        }
        Ok(RemoteUrl {
            text: Text::from_str(alloc, text)?,
        })
    }

    /// Returns the text of the URL.
    pub fn as_str(&self) -> &str
        ensures text { result.now ≡ self.now }
        ensures good { is_url self.now ≡ true }
    {
        self.text.as_str()
    }

    /// Copies the text of the URL.
    pub fn write(&self) -> Result<Text, AllocError>
        ensures text { IfOk result (λ text. text ≡ self.now) }
        ensures good { is_url self.now ≡ true }
    {
        self.text.copy()
    }

    /// Returns a copy. Errs if memory runs out.
    pub fn copy(&self) -> Result<Self, AllocError>
        ensures { IfOk result (λ url. url ≡ self.now) }
    {
        Ok(RemoteUrl {
            text: self.text.copy()?,
        })
    }
}
