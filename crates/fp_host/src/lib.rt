//! The host that an installation is on, the remotes that objects come from, and the source of a
//! command's input.
#![tactic(auto)]

mod copying;
mod host;
pub mod laws;
mod limits;
mod path;
mod remotes;
mod source;
mod text;

pub use copying::{copy_front, copy_out};
pub use host::{Entry, Host, HostEnd, HostError, Stat};
pub use limits::{MOST_ELEMENT_BYTES, MOST_LINK_BYTES, PERMISSION_BITS, PIECE_BYTES};
pub use path::{Path, PathError, are_elements, is_element};
pub use remotes::{NoRemotes, Node, RemoteError, Remotes};
pub use source::{Source, Taken};
pub use text::is_link_text;
