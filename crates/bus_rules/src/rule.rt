//! Rules for calls and broadcasts.

use fp_base::Text;
use std::alloc::AllocError;
use std::error::Error;
use std::fmt;

/// The methods or signals that a rule matches.
#[derive(Drop)]
pub enum Members {
    /// All members of all interfaces: `*`.
    All,
    /// All members of an interface: `INTERFACE.*`.
    Of(Text),
    /// One member, by its interface and its name: `INTERFACE.MEMBER`.
    One(Text, Text),
}

/// The objects that a rule matches.
#[derive(Drop)]
pub enum Objects {
    /// The object at a path: `PATH`.
    At(Text),
    /// The object at a path and those below it: `PATH/*`. The empty path is that of all objects:
    /// `/*`.
    Below(Text),
}

/// A rule for calls or for broadcasts. It has one part or both; an absent part matches every
/// message.
#[derive(Drop)]
pub struct Rule {
    /// The methods or signals, if the rule restricts them.
    pub members: Option<Members>,
    /// The objects, if the rule restricts them; in the rule's text, `@` precedes them.
    pub objects: Option<Objects>,
}

/// The error of reading a rule.
#[derive(Debug, Drop)]
pub enum RuleError {
    /// The text is no rule.
    Bad,
    /// Memory ran out.
    NoMemory,
}

impl fmt::Display for RuleError {
    fn fmt<W: fmt::Write>(&self, f: &mut fmt::Formatter<W>) -> fmt::Result {
        match self {
            RuleError::Bad => write!(f, "not a rule"),
            RuleError::NoMemory => write!(f, "out of memory"),
        }
    }
}

impl Error for RuleError {}

impl From<AllocError> for RuleError {
    ghost use Rattle.std.specs.Prelude.{◌≡◌};
    ghost use Rattle.bus_rules.specs.declared.rule.RuleError.TheVariants.{NoMemory};

    ghost from_gives = { λ _ e. e ≡ NoMemory };

    fn from(_error: AllocError) -> RuleError {
        RuleError::NoMemory
    }
}
