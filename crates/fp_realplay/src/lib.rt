//! Plays tests of the adapters that are written as texts.
#![tactic(auto)]

mod disk;
mod fixture;
mod log;
mod logged;
mod play;
mod remote;
mod step;
mod tale;
mod words;

pub use disk::play_disk;
pub use fixture::{clear, is_message, path, url_of};
pub use log::{Kind, Log};
pub use logged::{Logged, LoggedFile};
pub use play::play_lines;
pub use tale::{tell, tell_each};
pub use words::pair;
