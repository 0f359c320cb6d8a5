//! The state of an installation: how an image shows it, when an image is sound, and what operations
//! make of it.
#![tactic(auto)]

mod branches;
mod deploy;
mod deploy_reading;
mod deploy_writing;
pub mod laws;
mod layout;
mod opened;
mod paths;
mod setup;

pub use branches::{branch_paths, ref_at};
pub use deploy::{DeployData, DeployError};
pub use layout::{
    EXPORTS_NAME, NEW_FILE, OBJECTS_FOLDER, SIGN_FILES, TOP_NAMES, WAITING_FOLDER, WORK_FOLDER,
};
pub use opened::Opened;
pub use paths::{config_path, overrides_path, pins_path, remotes_path};
pub use setup::Setup;
