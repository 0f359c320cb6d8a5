//! SHA-256 digests of many objects, computed by several threads.
#![tactic(auto)]

mod gate;
mod halves;
mod item;
mod limits;

pub use gate::{Gate, NoGate};
pub use halves::{digests, digests_gated};
pub use item::Item;
pub use limits::{MOST_IN_BATCH, MOST_SMALL_BYTES, limits_as_numbers};
