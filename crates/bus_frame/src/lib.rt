//! D-Bus messages: where a message ends, its header, and the few bodies that a filter reads or
//! writes.
#![tactic(auto)]

mod bodies;
mod cursor;
mod error;
mod field;
mod fixed;
mod header;
mod known;
pub mod laws;
mod limits;
mod message;
mod names;
mod reading;
mod renaming;
mod room;
mod steps;
mod types;
mod value;
mod writing;

pub use bodies::{first_string, is_names, names_body, three_strings};
pub use error::FrameError;
pub use header::{Header, ReadFrame};
pub use limits::{
    GREATEST_SERIAL, MOST_ARRAY_BYTES, MOST_ARRAYS, MOST_CONTAINERS, MOST_MESSAGE_BYTES,
    MOST_NAME_BYTES, MOST_SIGNATURE_BYTES, MOST_STRUCTS,
};
pub use message::{Flags, MessageType};
pub use names::{
    BUS_NAME, are_name_elements, is_bus_name, is_interface_name, is_member_name, is_object_path,
    is_unique_name, is_well_known_name,
};
pub use reading::{copy_text, read_frame};
pub use renaming::with_names;
pub use writing::error_frame;
