//! The policies of a launched application on the D-Bus buses.

ghost use Rattle.std.specs.Prelude.{◌≡◌, ◌++◌, ◌∷◌, [], true, IfOk, OnOk};
ghost use Rattle.bus_policy.specs.Levels as levels;
ghost use Rattle.fl_launch.specs.Policies as spec;

use crate::launching::LaunchText;
use bus_policy::{Level, Policy, PolicyError};
use fl_context::is_granted;
use fl_meta::{Mention, PermList, Value, is_pattern};
use fp_name::AppId;
use std::alloc::{AllocError, Global};

/// Returns the level of a bus permission's value.
fn level_of(value: &Value) -> Level
    ensures { result ≡ spec.level_of value.now }
{
    match value {
        Value::See => Level::See,
        Value::Talk => Level::Talk,
        Value::Own => Level::Own,
        _ => Level::None,
    }
}

/// Returns whether a mention grants a pattern of names on the bus.
fn is_on_bus(bus: PermList, mention: &Mention) -> bool
    ensures { result ≡ spec.is_on_bus bus mention.now }
{
    mention.permission.list.place() == bus.place()
        && is_granted(&mention.value)
        && is_pattern(mention.permission.name.as_str())
}

/// Adds a rule that gives a pattern a level.
fn add_rule(
    alloc: Global,
    policy: &mut Policy,
    pattern: &str,
    level: Level,
) -> Result<(), AllocError>
    requires { levels.is_pattern pattern.now ≡ true }
    ensures { OnOk result (policy.new ≡ policy.old ++ spec.rule pattern.now level ∷ []) }
{
    match policy.add(alloc, pattern, level) {
        Ok(()) => Ok(()),
        Err(PolicyError::NoMemory) => Err(AllocError),
        Err(PolicyError::Bad) => unreachable!(),
    }
}

/// Adds the rule of a mention, if it grants a pattern of names on the bus.
fn add_mention(
    alloc: Global,
    policy: &mut Policy,
    bus: PermList,
    mention: &Mention,
) -> Result<(), AllocError>
    ensures { OnOk result (policy.new ≡ policy.old ++ spec.rule_of bus mention.now) }
{
    if !is_on_bus(bus, mention) {
        return Ok(());
    }
    let pattern = mention.permission.name.as_str();
    add_rule(alloc, policy, pattern, level_of(&mention.value))
}

/// Adds a rule for each granted pattern of names on the bus.
fn add_mentions(
    alloc: Global,
    policy: &mut Policy,
    bus: PermList,
    mentions: &[Mention],
) -> Result<(), AllocError>
    ensures { OnOk result (policy.new ≡ policy.old ++ spec.rules_of bus mentions.now) }
{
    for mention in mentions {
        add_mention(alloc, policy, bus, mention)?;
    }
    Ok(())
}

/// Adds the rule that lets an application own its ID and all names below it.
#[tactic(auto, using(crate::proofs::Patterns::own_pattern))]
fn add_own(alloc: Global, policy: &mut Policy, id: &AppId) -> Result<(), AllocError>
    ensures { OnOk result (policy.new ≡ policy.old ++ spec.rule (spec.own_pattern id.now) Level.Own
        ∷ []) }
{
    let mut pattern = String::from_str(alloc, id.as_str())?;
    pattern.push_str(".*")?;
    add_rule(alloc, policy, &pattern, Level::Own)
}

/// Returns the policy of a launch on the session bus: the application may own its ID and the names
/// below it, may talk to the portals, and has each granted pattern at its level.
#[tactic(auto, unfolding(crate::specs::Policies::session_rules))]
pub fn policy_of(alloc: Global, launch: &LaunchText, id: &AppId) -> Result<Policy, AllocError>
    ensures { IfOk result (λ policy. policy ≡ spec.session_rules id.now launch.now.grants) }
{
    let mut policy = Policy::new(alloc);
    add_own(alloc, &mut policy, id)?;
    add_rule(alloc, &mut policy, "org.freedesktop.portal.*", Level::Talk)?;
    let grants = launch.grants.as_slice();
    add_mentions(alloc, &mut policy, PermList::SessionBus, grants)?;
    Ok(policy)
}

/// Returns the policy of a launch on the system bus: the application has each granted pattern at
/// its level, and nothing else.
pub fn policy_of_system(alloc: Global, launch: &LaunchText) -> Result<Policy, AllocError>
    ensures { IfOk result (λ policy. policy ≡ spec.system_rules launch.now.grants) }
{
    let mut policy = Policy::new(alloc);
    let grants = launch.grants.as_slice();
    add_mentions(alloc, &mut policy, PermList::SystemBus, grants)?;
    Ok(policy)
}
