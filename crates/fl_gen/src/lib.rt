//! Remotes that are generated in memory for exercises, and the commands that are run over them.
#![tactic(auto)]

mod commands;
mod filling;
pub mod laws;
mod limits;
mod naming;
mod remotes;
mod series;
mod store;
mod trees;

pub use commands::exercise_commands;
pub use remotes::GenRemotes;
