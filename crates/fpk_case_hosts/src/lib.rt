//! What a case is played on: a host in memory, with the images that a crash may leave, and a real
//! directory.
#![tactic(auto)]

mod counted_remotes;
mod folder;
mod images;
mod looks;
mod memory;
mod noted_host;
mod notes;
mod places;
mod program;
mod stage;

pub use counted_remotes::{CountedRemotes, RemoteCalls};
pub use folder::{FolderStage, clear_folder, is_for_folder};
pub use images::{last_open, oldest_image, open_names, outcomes, present_image};
pub use looks::{image_look, moment_look, with_number};
pub use memory::{MemStage, Ran, is_for_memory, run_in_memory};
pub use noted_host::NotedHost;
pub use program::Program;
pub use stage::{Counts, Ending, PathState, Stage, find, give, unless_fault};
