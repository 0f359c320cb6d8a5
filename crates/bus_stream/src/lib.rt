//! Streams of D-Bus messages that arrive in pieces, and recordings of them.
#![tactic(auto)]

mod cutter;
mod lines;
mod recording;

pub use cutter::{Cut, Cutter};
pub use recording::{RecordError, Recording, read_recording};
