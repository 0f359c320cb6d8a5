//! Directories with `file://` URLs as remotes, and the standard input as a source.
#![tactic(auto)]

mod dir_remotes;
mod places;
mod stdin_source;

pub use dir_remotes::DirRemotes;
pub use stdin_source::StdinSource;
