//! Reading of rules.

ghost use Rattle.std.specs.Prelude.{◌≡◌, ◌≢◌, ◌↔◌, ℕ, ◌<◌, ◌∷◌, ◌++◌, length, slice_index, MatchOption, IfOk, IsErrOf};
ghost use Rattle.bus_rules.specs.declared.rule.Members.{Members as TheMembers};
ghost use Rattle.bus_rules.specs.declared.rule.Objects.{Objects as TheObjects};
ghost use Rattle.bus_rules.specs.Rules.{IsRule, IsNoRule, NamesMembers, NamesObjects, members_of, objects_of, rule_of};

use crate::rule::{Members, Objects, Rule, RuleError};
use bus_frame::{is_interface_name, is_member_name, is_object_path};
use fp_base::Text;
use std::alloc::{AllocError, Global};

/// The methods or signals in a rule's text.
#[derive(Clone, Copy)]
pub enum RawMembers<'a> {
    /// All members of all interfaces.
    All,
    /// All members of this interface.
    Of(&'a str),
    /// One member: its interface, and its name.
    One(&'a str, &'a str),
}

/// The objects in a rule's text.
#[derive(Clone, Copy)]
pub enum RawObjects<'a> {
    /// The object at this path.
    At(&'a str),
    /// The object at this path and those below it; for the empty path, all objects.
    Below(&'a str),
}

/// A rule that borrows from its text.
#[derive(Clone, Copy)]
pub struct RawRule<'a> {
    /// The methods or signals, if the rule restricts them.
    pub members: Option<RawMembers<'a>>,
    /// The objects, if the rule restricts them.
    pub objects: Option<RawObjects<'a>>,
}

/// Returns what precedes the last dot and what follows it, or `None` if there is no dot.
fn at_last_dot(text: &str) -> Option<(&str, &str)>
    ensures { MatchOption result ((i : ℕ) → i < length text.now → slice_index text.now i ≢ 46)
        (λ parts. (text.now ≡ parts.0.now ++ 46 ∷ parts.1.now)
        × ((i : ℕ) → i < length parts.1.now → slice_index parts.1.now i ≢ 46)) }
{
    let at = text.rfind('.')?;
    Some((&text[..at], &text[at + 1..]))
}

fn members(text: &str) -> Option<RawMembers<'_>>
    ensures { MatchOption result ((m : TheMembers) → NamesMembers m text.now → ⊥)
        (λ raw. NamesMembers (members_of raw) text.now) }
{
    if text == "*" {
        return Some(RawMembers::All);
    }
    let (interface, member) = at_last_dot(text)?;
    if !is_interface_name(interface.as_bytes()) {
        return None;
    }
    if member == "*" {
        return Some(RawMembers::Of(interface));
    }
    if !is_member_name(member.as_bytes()) {
        return None;
    }
    Some(RawMembers::One(interface, member))
}

fn objects(text: &str) -> Option<RawObjects<'_>>
    ensures { MatchOption result ((o : TheObjects) → NamesObjects o text.now → ⊥)
        (λ raw. NamesObjects (objects_of raw) text.now) }
{
    let Some(path) = text.strip_suffix("/*") else {
        if !is_object_path(text.as_bytes()) {
            return None;
        }
        return Some(RawObjects::At(text));
    };
    if !path.is_empty() && !is_object_path(path.as_bytes()) {
        return None;
    }
    Some(RawObjects::Below(path))
}

fn rule(text: &str) -> Option<RawRule<'_>>
    ensures { MatchOption result (IsNoRule text.now) (λ raw. IsRule (rule_of raw) text.now) }
{
    let Some((front, path)) = text.split_once('@') else {
        return Some(RawRule {
            members: Some(members(text)?),
            objects: None,
        });
    };
    let objects = Some(objects(path)?);
    let members = if front.is_empty() {
        None
    } else {
        Some(members(front)?)
    };
    Some(RawRule { members, objects })
}

fn own_members(alloc: Global, raw: RawMembers<'_>) -> Result<Members, AllocError>
    ensures { IfOk result (λ m. m ≡ members_of raw.entry) }
{
    match raw {
        RawMembers::All => Ok(Members::All),
        RawMembers::Of(interface) => Ok(Members::Of(Text::from_str(alloc, interface)?)),
        RawMembers::One(interface, member) => Ok(Members::One(
            Text::from_str(alloc, interface)?,
            Text::from_str(alloc, member)?,
        )),
    }
}

fn own_objects(alloc: Global, raw: RawObjects<'_>) -> Result<Objects, AllocError>
    ensures { IfOk result (λ o. o ≡ objects_of raw.entry) }
{
    match raw {
        RawObjects::At(path) => Ok(Objects::At(Text::from_str(alloc, path)?)),
        RawObjects::Below(path) => Ok(Objects::Below(Text::from_str(alloc, path)?)),
    }
}

fn own(alloc: Global, raw: RawRule<'_>) -> Result<Rule, AllocError>
    ensures { IfOk result (λ rule. rule ≡ rule_of raw.entry) }
{
    let members = match raw.members {
        Some(members) => Some(own_members(alloc, members)?),
        None => None,
    };
    let objects = match raw.objects {
        Some(objects) => Some(own_objects(alloc, objects)?),
        None => None,
    };
    Ok(Rule { members, objects })
}

impl Rule {
    /// Reads a rule (xdg-dbus-proxy(1)): members, which are `*`, `INTERFACE.*` or
    /// `INTERFACE.MEMBER`; or `@` and objects, which are `PATH`, `PATH/*` or `/*`; or members, `@`
    /// and objects.
    ///
    /// Errs with `Bad` exactly if the text is no rule, since it is checked before memory is
    /// allocated.
    pub fn parse(alloc: Global, text: &str) -> Result<Self, RuleError>
        ensures found { IfOk result (λ rule. IsRule rule text.now) }
        ensures bad { IsErrOf result RuleError.Bad ↔ IsNoRule text.now }
    {
        match rule(text) {
            Some(raw) => Ok(own(alloc, raw)?),
            None => Err(RuleError::Bad),
        }
    }
}
