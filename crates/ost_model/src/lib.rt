//! The objects of OSTree's repositories, as definitions for contracts: the content of an object,
//! the rule that it breaks, the order of a commit's objects, and when a commit is checked out in a
//! directory.
#![tactic(auto)]

pub mod laws;
mod limits;
mod object;

pub use limits::{
    DIRECTORY_TYPE, LINK_MODE, LOWEST_TYPE_BIT, MOST_FILE_BYTES, MOST_LEVELS,
    MOST_METADATA_FILE_BYTES, MOST_METADATA_OBJECT_BYTES, MOST_OBJECTS, REF_BINDING, REGULAR_MODE,
    STORE_CONFIG, STORED_BITS,
};
pub use object::Object;
