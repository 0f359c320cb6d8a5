//! Plays cases: in memory, on a real directory, and with a crash and a failure at each call.
#![tactic(auto)]

mod cutting;
mod expecting;
mod judge;
mod likeness;
mod next;
mod places;
mod playing;
mod remote_faults;
mod replay;
mod running;
mod showing;
mod stops;

pub use places::{play_in_folder, play_in_memory};
pub use running::run_files;
pub use stops::play_stops;
