//! The policy of a filter: levels of names, and verdicts on messages by the events before them.
#![tactic(auto)]

mod calls;
mod driver;
mod judging;
pub mod laws;
mod level;
mod noting;
mod pattern;
mod peer;
mod peers;
mod policy;
mod verdict;
mod watch;

pub use level::Level;
pub use policy::{Grant, Policy, PolicyError, PolicyRule, RuleKind};
pub use verdict::Verdict;
pub use watch::{FixedHasher, Watch};
