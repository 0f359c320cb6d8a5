//! Running a command: the program except for `main`.
#![tactic(auto)]

mod checking;
mod command_end;
mod exercising;
mod exporting;
mod filtering;
mod input;
mod listing;
mod refresh;
mod running;
mod showing;
mod trials;
mod undisturbed;

pub use running::{run, run_gated};
pub use trials::make_exercise;
pub use undisturbed::run_undisturbed;

pub mod laws;
pub mod laws_of_exercises;
