//! The names of options that are rules of a filter.

ghost use Rattle.std.specs.Prelude.{◌≡◌};
ghost use Rattle.fl_options.specs.Rules as spec;

use bus_policy::{Level, RuleKind};

/// Returns the level that the option of this name gives, or `None` if it gives none.
pub(crate) fn level_named(name: &str) -> Option<Level>
    ensures { result ≡ spec.level_named name.now }
{
    match name {
        "--see" => Some(Level::See),
        "--talk" => Some(Level::Talk),
        "--own" => Some(Level::Own),
        _ => None,
    }
}

/// Returns the kind of messages that the option of this name has a rule for, or `None` if for none.
pub(crate) fn kind_named(name: &str) -> Option<RuleKind>
    ensures { result ≡ spec.kind_named name.now }
{
    match name {
        "--call" => Some(RuleKind::Call),
        "--broadcast" => Some(RuleKind::Broadcast),
        _ => None,
    }
}
