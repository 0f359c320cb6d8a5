//! The name of an override.
ghost use Rattle.std.specs.Prelude.{◌≡◌, true, IfOk, codes};
ghost use Rattle.fp_name.specs.Grammar.{is_override};

use fp_base::Text;
use fp_name::AppId;
use std::alloc::{AllocError, Global};
use std::marker::Model;

/// The name of an override: `global`, or the ID of an application. Contracts see its bytes.
#[derive(Drop)]
pub struct OverrideName {
    text: Text,
}

impl Model for OverrideName {
    ghost use Rattle.std.specs.Prelude.{◌≡◌, List, ℕ, true};
    ghost use Rattle.fp_name.specs.Grammar.{is_override};

    ghost Value = { List ℕ };

    ghost view = { λ n. n.text };

    ghost invariant = { λ n. is_override n.text ≡ true };
}

impl OverrideName {
    /// Returns the name of the override for all applications: `global`.
    pub fn global(alloc: Global) -> Result<OverrideName, AllocError>
        ensures { IfOk result (λ name. name ≡ codes "global") }
    {
        Ok(OverrideName {
            text: Text::from_str(alloc, "global")?,
        })
    }

    /// Returns the name of an application's override, which is its ID.
    #[tactic(auto, using(crate::proofs::Names::id_names))]
    pub fn of_app(id: &AppId) -> Result<OverrideName, AllocError>
        ensures { IfOk result (λ name. name ≡ id.now) }
    {
        Ok(OverrideName { text: id.write()? })
    }

    /// Returns the name as a text.
    pub fn as_text(&self) -> &Text
        ensures text { result.now ≡ self.now }
        ensures good { is_override self.now ≡ true }
    {
        &self.text
    }
}
