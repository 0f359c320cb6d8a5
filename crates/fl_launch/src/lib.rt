//! The launch of an application: the text that describes its sandbox, and its policies on the D-Bus
//! buses.
#![tactic(auto)]

mod extensions;
mod granted;
mod launching;
pub mod laws;
mod layers;
mod mounts;
mod policies;
mod writing;

pub use launching::{LaunchText, launch, launch_extended};
pub use policies::{policy_of, policy_of_system};
