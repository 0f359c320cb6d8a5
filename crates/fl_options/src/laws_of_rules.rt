//! Laws of all rules, which follow from the definitions. Each law is the contract of a function
//! with an empty body.

ghost use Rattle.std.specs.Prelude.{◌≡◌, ◌↔◌, ℕ, List, ◌++◌, Some, true, codes, nat_eq};
ghost use Rattle.std.specs.List.{starts_with};
ghost use Rattle.bus_rules.specs.declared.rule.Rule.{Rule};
ghost use Rattle.bus_rules.specs.Rules.{IsRule};
ghost use Rattle.fl_options.specs.Rules.{rule_read, is_rule};

/// States that a text is read as a rule exactly if it is that rule's text.
pub fn rules_are_read()
    ensures { (rule : Rule) (text : List ℕ) → IsRule rule text ↔ (rule_read text ≡ Some rule) }
{}

/// States that each rule begins with `--`.
pub fn rules_are_options()
    ensures { (word : List ℕ) → is_rule word ≡ true → starts_with nat_eq word (codes "--") ≡ true }
{}
