//! Code shared by the adapters of the real system: errors of system calls, the status of paths,
//! open files, and how fpk's own files and directories are opened, listed, created and synced by
//! several threads.
#![tactic(auto)]

mod bits;
mod cause;
mod fault;
mod files;
mod folders;
mod found;
mod limits;
mod making;
mod names;
mod new_files;
mod path_map;
mod paths;
mod reader;
mod reading;
mod syncing;
mod team;

pub use bits::{asked_bits, is_sticky, kept_bits};
pub use cause::{Cause, NO_ENTRY, known};
pub use fault::{Call, Faults, SystemError};
pub use files::{find_file, open_own, open_to_read, set_bits};
pub use folders::Folders;
pub use found::{Found, Kind, has_folder, kind_at, look};
pub use limits::FOLDER_BITS;
pub use making::{Maker, Work, made_by, make_by_threads};
pub use names::{OddNames, list_names, read_names, sorted_names};
pub use new_files::{NewFile, Share, create_new, date, give_bits};
pub use path_map::{PathMap, sync_each};
pub use paths::{folder_of, join, split_name};
pub use reader::Reader;
pub use reading::{fill, read_link, read_some};
pub use syncing::{
    Failure, Syncer, Unsynced, is_denied, sync_above, sync_at, sync_by_threads, sync_in_turn,
    sync_open_in_turn, sync_own,
};
pub use team::Team;
