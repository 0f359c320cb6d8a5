//! Reads, writes, lists and removes the refs of a store. Each ref has its own file below the
//! directory `refs`.
#![tactic(auto)]

mod changing;
pub mod laws;
mod limits;
mod listing;
mod naming;
mod place;
mod reading;
mod walking;

pub use changing::{drop_ref, write_ref};
pub use limits::{MOST_MODE_BYTES, MOST_STORE_CONFIG_BYTES};
pub use listing::list_refs;
pub use place::{RefFile, RefPlace, path_of};
pub use reading::{REF_FILE_BYTES, read_ref, ref_file};
pub use walking::paths_below;
