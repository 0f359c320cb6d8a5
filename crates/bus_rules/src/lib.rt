//! Rules for the calls and the broadcasts that pass a filter, by members of interfaces and by
//! objects (xdg-dbus-proxy(1)).
#![tactic(auto)]

pub mod laws;
mod matching;
mod reading;
mod rule;
mod within;

pub use matching::is_text;
pub use rule::{Members, Objects, Rule, RuleError};
pub use within::is_at_or_under;
