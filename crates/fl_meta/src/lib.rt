//! The metadata of applications and runtimes, and the permissions that it mentions:
//! flatpak-metadata(5).
#![tactic(auto)]

mod entries;
mod fault;
pub mod laws;
mod limits;
mod mentions;
mod meta;
mod names;
mod pattern;
mod permission;
mod places;
mod separators;

pub use fault::MetaError;
pub use limits::MOST_BUS_NAME_BYTES;
pub use mentions::{Source, mentions_of};
pub use meta::{Meta, MetaKind, extension_name, meta_kind};
pub use pattern::is_pattern;
pub use permission::{Layer, Mention, PermList, Permission, Value};
pub use separators::first_entry;
