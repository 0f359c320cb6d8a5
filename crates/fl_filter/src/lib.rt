//! The filter over a recording of what a client and its bus sent: each message that goes to a side
//! is printed as a line.
#![tactic(auto)]

mod end;
pub mod laws;
mod lines;
mod printing;
mod reading;

pub use end::FilterEnd;
pub use printing::filter_recording;
pub use reading::recording_of;
