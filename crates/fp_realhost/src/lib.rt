//! A real directory as a host, and the standard output.
#![tactic(auto)]

mod below;
mod changes;
mod crew;
mod folders;
mod host_dir;
mod later;
mod links;
mod moves;
mod output;
mod reading;
mod screen;
mod special;
mod tree;
mod writer;

pub use changes::Change;
pub use crew::Crew;
pub use host_dir::HostDir;
pub use later::Later;
pub use screen::Screen;
pub use tree::Tree;
