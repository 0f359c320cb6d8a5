//! Policies (xdg-dbus-proxy(1)): the names that an application may see, talk to and own, and rules
//! for further messages that pass.

ghost use Rattle.std.specs.Prelude.{◌≡◌, ◌↔◌, [], ◌∷◌, ◌++◌, ℕ, List, true, false, OnOk, OnErr, IsErrOf, IsOkUnless};
ghost use Rattle.bus_rules.specs.declared.rule.Rule.{Rule as TheRule};
ghost use Rattle.bus_rules.specs.Rules.{IsRule, IsNoRule};
ghost use Rattle.bus_policy.specs.Levels.{is_pattern, rules_level, level_by, allows, same_kind};
ghost use Rattle.bus_policy.specs.Watching.{any_leave};

use crate::level::Level;
use crate::pattern::{is_name_pattern, matches_name};
use bus_frame::Header;
use bus_rules::{Rule, RuleError};
use fp_base::Text;
use std::alloc::{AllocError, AllocFailed, Global};
use std::error::Error;
use std::fmt;
use std::marker::Model;

/// The messages that a rule is for.
#[derive(Clone, Copy)]
pub enum RuleKind {
    /// Calls of the client to a peer.
    Call,
    /// Broadcast signals of a peer, which have no destination.
    Broadcast,
}

/// The grant of a rule to the names of its pattern.
#[derive(Drop)]
pub enum Grant {
    /// A level.
    Level(Level),
    /// Messages that match the rule pass, and the names can be seen.
    Rule(RuleKind, Rule),
}

/// A rule of a policy: a pattern of names, and a grant to these names.
#[derive(Drop)]
pub struct PolicyRule {
    /// A well-known name, or `NAME.*` for NAME and all names below it.
    pub pattern: Text,
    /// The grant to the names of the pattern.
    pub grant: Grant,
}

/// The error of adding a rule.
#[derive(Debug, PartialEq, Eq, Drop)]
pub enum PolicyError {
    /// The pattern or the rule's text isn't valid.
    Bad,
    /// Memory ran out.
    NoMemory,
}

impl fmt::Display for PolicyError {
    fn fmt<W: fmt::Write>(&self, f: &mut fmt::Formatter<W>) -> fmt::Result {
        match self {
            PolicyError::Bad => write!(f, "not a pattern of names or not a rule"),
            PolicyError::NoMemory => write!(f, "out of memory"),
        }
    }
}

impl Error for PolicyError {}

impl From<AllocError> for PolicyError {
    ghost use Rattle.std.specs.Prelude.{◌≡◌};
    ghost use Rattle.bus_policy.specs.declared.policy.PolicyError.TheVariants.{NoMemory};

    ghost from_gives = { λ _ e. e ≡ NoMemory };

    fn from(_error: AllocError) -> PolicyError {
        PolicyError::NoMemory
    }
}

impl<T: Drop> From<AllocFailed<T>> for PolicyError {
    ghost use Rattle.std.specs.Prelude.{◌≡◌};
    ghost use Rattle.bus_policy.specs.declared.policy.PolicyError.TheVariants.{NoMemory};

    ghost from_gives = { λ _ e. e ≡ NoMemory };

    fn from(_error: AllocFailed<T>) -> PolicyError {
        PolicyError::NoMemory
    }
}

/// A list of rules.
#[derive(Drop)]
pub struct Policy {
    rules: Vec<PolicyRule>,
}

impl Model for Policy {
    ghost use Rattle.std.specs.Prelude.{List};
    ghost use Rattle.bus_policy.specs.declared.policy.PolicyRule.{PolicyRule};

    ghost Value = { List PolicyRule };

    ghost view = { λ p. p.rules.items };
}

impl Policy {
    /// Creates a policy without rules.
    pub fn new(alloc: Global) -> Self
        ensures { result ≡ [] }
    {
        Policy {
            rules: Vec::new(alloc),
        }
    }

    /// Adds a rule at the end that grants a level to the names of a pattern. Errs with `Bad`
    /// exactly if the pattern isn't valid. On an error nothing changes.
    pub fn add(&mut self, alloc: Global, pattern: &str, level: Level) -> Result<(), PolicyError>
        ensures ok { OnOk result
            (self.new ≡ self.old
            ++ record { pattern = pattern.now; grant = Grant.Level level } ∷ []) }
        ensures bad { IsErrOf result PolicyError.Bad ↔ (is_pattern pattern.now ≡ false) }
        ensures err { OnErr result (self.new ≡ self.old) }
    {
        if !is_name_pattern(pattern.as_bytes()) {
            return Err(PolicyError::Bad);
        }
        self.push(alloc, pattern, Grant::Level(level))
    }

    fn push(&mut self, alloc: Global, pattern: &str, grant: Grant) -> Result<(), PolicyError>
        ensures ok { OnOk result
            (self.new ≡ self.old ++ record { pattern = pattern.now; grant = grant } ∷ []) }
        ensures err { OnErr result (self.new ≡ self.old) }
        ensures needs_no_memory { IsOkUnless result PolicyError.NoMemory }
    {
        let pattern = Text::from_str(alloc, pattern)?;
        self.rules.push(PolicyRule { pattern, grant })?;
        Ok(())
    }

    /// Adds a rule at the end that lets calls or broadcasts pass. Errs with `Bad` exactly if the
    /// pattern or the rule's text isn't valid. On an error nothing changes.
    pub fn add_rule(
        &mut self,
        alloc: Global,
        kind: RuleKind,
        pattern: &str,
        rule: &str,
    ) -> Result<(), PolicyError>
        ensures ok { OnOk result ((read : TheRule) × IsRule read rule.now
            × (self.new ≡ self.old
            ++ record { pattern = pattern.now; grant = Grant.Rule kind read } ∷ [])) }
        ensures bad_pattern { is_pattern pattern.now ≡ false → IsErrOf result PolicyError.Bad }
        ensures bad_rule { IsNoRule rule.now → IsErrOf result PolicyError.Bad }
        ensures bad { IsErrOf result PolicyError.Bad → is_pattern pattern.now ≡ true
            → IsNoRule rule.now }
        ensures err { OnErr result (self.new ≡ self.old) }
    {
        if !is_name_pattern(pattern.as_bytes()) {
            return Err(PolicyError::Bad);
        }
        match Rule::parse(alloc, rule) {
            Ok(rule) => self.push(alloc, pattern, Grant::Rule(kind, rule)),
            Err(RuleError::Bad) => Err(PolicyError::Bad),
            Err(RuleError::NoMemory) => Err(PolicyError::NoMemory),
        }
    }

    /// Returns the rules in order.
    pub fn rules(&self) -> &[PolicyRule]
        ensures { result.now ≡ self.now }
    {
        &self.rules
    }
}

/// Returns the greatest level that the rules give to a name.
pub fn level_by_rules(rules: &[PolicyRule], name: &[u8]) -> Level
    ensures { result ≡ rules_level rules.now name.now }
{
    let mut level = Level::None;
    for rule in rules {
        level = level.or(rule.level_of(name));
    }
    level
}

impl PolicyRule {
    fn level_of(&self, name: &[u8]) -> Level
        ensures { result ≡ level_by self.now name.now }
    {
        if !matches_name(self.pattern.as_str().as_bytes(), name) {
            return Level::None;
        }
        match &self.grant {
            Grant::Level(level) => *level,
            Grant::Rule(_, _) => Level::See,
        }
    }

    /// Returns whether the rule lets a call or a broadcast with this header pass, if its pattern
    /// matches the peer. The pattern isn't checked here.
    pub fn gives_leave(&self, kind: RuleKind, header: &Header) -> bool
        ensures { result ≡ allows kind header.now self.now.grant }
    {
        match &self.grant {
            Grant::Level(_) => false,
            Grant::Rule(other, rule) => is_same_kind(kind, *other) && rule.matches(header),
        }
    }
}

fn is_same_kind(kind: RuleKind, other: RuleKind) -> bool
    ensures { result ≡ same_kind kind other }
{
    matches!(
        (kind, other),
        (RuleKind::Call, RuleKind::Call) | (RuleKind::Broadcast, RuleKind::Broadcast)
    )
}

/// Returns whether a rule lets a message to or from a peer pass. Each flag is true if the rule's
/// pattern matches a name that the peer ever had; a missing flag counts as false.
pub fn any_gives_leave(
    rules: &[PolicyRule],
    flags: &[bool],
    kind: RuleKind,
    peer: &[u8],
    header: &Header,
) -> bool
    ensures { result ≡ any_leave kind peer.now header.now rules.now flags.now }
{
    for (i, rule) in rules.iter().enumerate() {
        let is_had = match flags.get(i) {
            Some(flag) => *flag,
            None => false,
        };
        if rule.gives_leave(kind, header)
            && (matches_name(rule.pattern.as_str().as_bytes(), peer) || is_had)
        {
            return true;
        }
    }
    false
}
