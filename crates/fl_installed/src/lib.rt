//! The metadata of commits, and the launch of an installed application.
#![tactic(auto)]

mod deployed;
mod files;
mod info;
mod launching;
mod lists;
mod metadata;
mod parts;
mod places;
mod users;

pub use files::{metadata_file, read_metadata};
pub use info::{Info, described, info_in};
pub use launching::launch_in;
pub use lists::{metas, points};
pub use metadata::{meta_said, points_in, runtime_named};
pub use parts::{DeployedMeta, LaunchParts, parts_in};
pub use users::{first_user, runtime_at};

pub mod laws;
pub mod laws_of_launches;
