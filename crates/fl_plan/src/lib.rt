//! Plans of installs and updates: the operations for a ref, its runtime and their extensions; the
//! refs that an update includes; and the runtimes that nothing uses.
#![tactic(auto)]

mod asking;
mod choosing;
mod extensions;
mod keeping;
pub mod laws;
mod offer;
mod planning;
mod runtimes;
mod state;
mod updating;

pub use keeping::{unused, unused_extended};
pub use planning::ops;
pub use runtimes::resolve_runtime;
pub use updating::targets;
