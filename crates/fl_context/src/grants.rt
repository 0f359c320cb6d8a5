//! The grants of a sandbox.

ghost use Rattle.std.specs.Prelude.{◌≡◌, IfOk};
ghost use Rattle.std.specs.Option.{option_copied};
ghost use Rattle.fl_context.specs.Grants as granting;
ghost use Rattle.fl_context.specs.Grants.{IsAscending, value_in};

use fl_meta::{Layer, Mention, Permission, Value};
use std::alloc::AllocError;
use std::marker::Model;

/// The value of each mentioned permission, in ascending order of permissions. A value may be a
/// denial.
///
/// Contracts see the list of the mentions.
#[derive(Drop)]
pub struct Grants {
    mentions: Layer,
}

impl Model for Grants {
    ghost use Rattle.std.specs.Prelude.{List};
    ghost use Rattle.fl_meta.specs.declared.permission.Mention.{Mention};

    ghost Value = { List Mention };

    ghost view = { λ g. g.mentions };

    ghost use Rattle.fl_context.specs.Grants.{IsAscending};

    ghost invariant = { λ g. IsAscending g.mentions };
}

/// Returns whether a value grants its permission: it is neither `Off` nor the bus level `NoBus`.
pub fn is_granted(value: &Value) -> bool
    ensures { result ≡ granting.is_granted value.now }
{
    !matches!(value, Value::Off | Value::NoBus)
}

impl Grants {
    /// Turns a layer in ascending order, with one mention for each permission, into grants. It
    /// doesn't allocate.
    pub fn from_layer(mentions: Layer) -> Self
        requires { IsAscending mentions }
        ensures { result ≡ mentions }
    {
        Grants { mentions }
    }

    /// Returns the mentions, one for each permission, in ascending order.
    pub fn as_slice(&self) -> &[Mention]
        ensures mentions { result.now ≡ self.now }
        ensures ascending { IsAscending self.now }
    {
        self.mentions.as_slice()
    }

    /// Returns the mentions as a layer, one for each permission, in ascending order.
    pub fn as_layer(&self) -> &Layer
        ensures mentions { result.now ≡ self.now }
        ensures ascending { IsAscending self.now }
    {
        &self.mentions
    }

    /// Turns the grants into a layer of their mentions, in ascending order. It doesn't allocate.
    pub fn into_layer(self) -> Layer
        ensures mentions { result ≡ self }
        ensures ascending { IsAscending result }
    {
        self.mentions
    }

    /// Returns the value of a permission, or `None` if it isn't mentioned.
    pub fn value(&self, permission: &Permission) -> Option<&Value>
        ensures { option_copied result ≡ value_in self.now permission.now }
    {
        for mention in self.mentions.as_slice() {
            if mention.permission == *permission {
                return Some(&mention.value);
            }
        }
        None
    }
}
