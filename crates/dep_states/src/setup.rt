//! The settings of an installation, and its layout.
use fp_small::{Layout, Settings};

/// The settings of an installation, and its layout.
#[derive(Drop)]
pub struct Setup {
    /// The layout: the files in which the settings are kept.
    pub layout: Layout,
    /// The settings: the remotes and the pins.
    pub settings: Settings,
}
