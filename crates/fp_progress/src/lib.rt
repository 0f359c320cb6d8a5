//! A progress line on standard error for long commands, and a wrapper of the system that watches
//! its calls for it.
#![tactic(auto)]

mod file;
mod line;
mod order;
mod seen;
mod shown;
mod task;
mod watched;
mod work;

pub use file::WatchedFile;
pub use line::Progress;
pub use task::Task;
pub use watched::Watched;
