//! Opening an installation.
#![tactic(auto)]

mod open_end;
mod opening;
mod overrides;
mod part;
mod reading;
mod refs;
mod settings;

pub use open_end::OpenEnd;
pub use opening::open;
pub use reading::read_state;
