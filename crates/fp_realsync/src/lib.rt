//! The system calls that the adapters need, and the changes that wait for a sync.
#![tactic(auto)]

mod open_files;
mod process_limits;
mod sets;
mod system;
mod touched;

pub use open_files::{OpenFiles, sync_open};
pub use process_limits::largest_file;
pub use system::{Access, System};
pub use touched::Touched;
