//! Fakes in memory: a host that records its history and computes the images that a crash may leave,
//! remotes, and a source.
#![tactic(auto)]

mod choosing;
mod conditions;
mod entry;
mod event;
mod files;
mod folders;
mod history;
mod hosting;
mod image;
pub mod laws;
mod mem;
mod names;
mod opening;
mod reads;
mod remotes;
mod scene;
mod source;
mod stood;
mod story;

pub use image::{Choice, FileRow, Image};
pub use mem::MemHost;
pub use remotes::{MemNode, MemRemotes};
pub use source::MemSource;
pub use story::{Keeper, Recorder, Supplier};
