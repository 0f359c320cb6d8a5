//! The root directory of a host, and the locks that keep other processes out.
#![tactic(auto)]

mod folder;
mod gate;
mod hold;
mod holders;
mod layout;
mod leftover;
mod others;
mod roots;
mod standing;
mod text;
mod waiting;

pub use fp_realsync::{Access, OpenFiles, System, Touched, sync_open};
pub use fp_system::{
    Failure, Team, Unsynced, find_file, list_names, open_own, open_to_read, sorted_names,
    sync_in_turn, sync_open_in_turn,
};
pub use gate::{Gate, LOCK_NAME, TOO_LARGE};
pub use holders::{holders_at, place_of};
pub use layout::{LAYOUT, Layout};
pub use leftover::{add_below, sync_above_root};
pub use roots::make_folder;
