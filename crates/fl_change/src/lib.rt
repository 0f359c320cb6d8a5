//! Making changes to an opened installation, one after another.
#![tactic(auto)]

mod change;
mod current;
mod end;
mod finding;
mod going_back;
mod installing;
mod operation;
mod overriding;
mod removing;
mod settings;
mod updating;

pub use change::change_all;
pub use end::RunEnd;

pub mod laws;
pub mod laws_of_overrides;
pub mod laws_of_refs;
pub mod laws_of_updates;
