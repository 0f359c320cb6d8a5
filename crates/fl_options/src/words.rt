//! Words read as rules of a filter.

ghost use Rattle.std.specs.Prelude.{◌≡◌, ◌++◌, IfOk, OnOk, IfErr, None, Some, option_to_list};
ghost use Rattle.bus_policy.specs.declared.policy.Grant.TheVariants as grants;
ghost use Rattle.fl_options.specs.Rules as spec;

use crate::rule_names::{kind_named, level_named};
use bus_policy::{Level, Policy, PolicyError, RuleKind};
use fp_base::Text;
use fp_keyfile::cut_at_equals;
use std::alloc::{AllocError, Global};

/// Returns whether a word is a rule of a filter (xdg-dbus-proxy(1)): `--see=B`, `--talk=B`,
/// `--own=B`, `--call=B=RULE` or `--broadcast=B=RULE`.
///
/// B is a well-known bus name, or one or more elements of one and `.*`. It has no `=`. RULE is `*`,
/// `INTERFACE.*` or `INTERFACE.MEMBER`; or `@` and `PATH`, `PATH/*` or `/*`; or the first and then
/// the second.
pub fn is_rule(alloc: Global, word: &str) -> Result<bool, AllocError>
    ensures { IfOk result (λ b. b ≡ spec.is_rule word.now) }
{
    let mut policy = Policy::new(alloc);
    push_word(alloc, &mut policy, word)?;
    Ok(!policy.rules().is_empty())
}

/// Returns the policy that words make: their rules in order. A word that is no rule adds nothing.
pub fn policy_of(alloc: Global, words: &[Text]) -> Result<Policy, AllocError>
    ensures { IfOk result (λ policy. policy ≡ spec.policy_of words.now) }
{
    let mut policy = Policy::new(alloc);
    for word in words {
        push_word(alloc, &mut policy, word.as_str())?;
    }
    Ok(policy)
}

/// Appends the rule that a word is to a policy. A word that is no rule adds nothing.
fn push_word(alloc: Global, policy: &mut Policy, word: &str) -> Result<(), AllocError>
    ensures { OnOk result (policy.new ≡ policy.old ++ option_to_list (spec.word_rule word.now)) }
{
    match cut_at_equals(word) {
        Some((name, text)) => {
            push_with(alloc, policy, level_named(name), kind_named(name), text)
        }
        None => Ok(()),
    }
}

/// Appends the rule of an option that gives this level, or has a rule for messages of this kind.
fn push_with(
    alloc: Global,
    policy: &mut Policy,
    level: Option<Level>,
    kind: Option<RuleKind>,
    text: &str,
) -> Result<(), AllocError>
    ensures { OnOk result (policy.new ≡ policy.old
        ++ option_to_list (spec.rule_with level kind text.now)) }
{
    match (level, kind) {
        (Some(level), _) => push_level(alloc, policy, level, text),
        (None, Some(kind)) => push_rule(alloc, policy, kind, text),
        (None, None) => Ok(()),
    }
}

/// Appends a rule that gives a level for the names of a pattern. Adds nothing if the pattern is
/// bad.
fn push_level(
    alloc: Global,
    policy: &mut Policy,
    level: Level,
    pattern: &str,
) -> Result<(), AllocError>
    ensures { OnOk result (policy.new ≡ policy.old
        ++ option_to_list (spec.on_names (grants.Level level) pattern.now)) }
{
    unless_bad(policy.add(alloc, pattern, level))
}

/// Appends a rule for messages. Its text is a pattern, `=` and the rule. Adds nothing if it is bad.
fn push_rule(
    alloc: Global,
    policy: &mut Policy,
    kind: RuleKind,
    text: &str,
) -> Result<(), AllocError>
    ensures { OnOk result (policy.new ≡ policy.old
        ++ option_to_list (spec.rule_with None (Some kind) text.now)) }
{
    match cut_at_equals(text) {
        Some((pattern, rule)) => unless_bad(policy.add_rule(alloc, kind, pattern, rule)),
        None => Ok(()),
    }
}

/// Turns the error of a bad rule into success. Errs only if memory ran out.
fn unless_bad(added: Result<(), PolicyError>) -> Result<(), AllocError>
    ensures { OnOk result (IfErr added (λ e. e ≡ PolicyError.Bad)) }
{
    match added {
        Ok(()) | Err(PolicyError::Bad) => Ok(()),
        Err(PolicyError::NoMemory) => Err(AllocError),
    }
}
