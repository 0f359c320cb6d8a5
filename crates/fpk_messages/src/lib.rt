//! The messages that fpk prints on standard error besides a command's output: what a refusal means
//! and what helps, errors of the system, and what a successful command didn't do.
#![tactic(auto)]

mod damage;
mod hints;
mod refusals;
mod saying;
mod showing;
mod telling;

pub use damage::tell_damage;
pub use hints::tell_hints;
pub use refusals::Refusals;
pub use saying::{
    is_unread, say, say_failed, say_no_memory, say_reason, say_refused, say_unprinted,
};
pub use telling::{Asked, tell_absence, tell_done, tell_refused};
