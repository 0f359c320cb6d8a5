//! Laws of rules, for crates that build on them. Each law is the contract of a function with an
//! empty body.

ghost use Rattle.std.specs.Prelude.{◌≡◌, ℕ, List};
ghost use Rattle.bus_rules.specs.declared.rule.Rule.{Rule};
ghost use Rattle.bus_rules.specs.Rules.{IsRule};

/// States that a text is at most one rule.
pub fn one_rule()
    ensures { (a b : Rule) (text : List ℕ) → IsRule a text → IsRule b text → a ≡ b }
{}
