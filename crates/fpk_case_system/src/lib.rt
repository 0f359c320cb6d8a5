//! A system for cases: its output is captured, its files are never synced, and remotes are below a
//! directory of its own.
#![tactic(auto)]

mod capture;
mod own_remotes;
mod system;
mod unsynced;

pub use capture::Capture;
pub use own_remotes::OwnRemotes;
pub use system::System;
pub use unsynced::Unsynced;
