//! The depth to which containers may nest.

ghost use Rattle.std.specs.Prelude.{◌≡◌, ◌-◌, ◌≤◌, ◌==◌, ◌||◌, if◌then◌else◌, Some, None};

use crate::limits::{MOST_ARRAYS, MOST_CONTAINERS, MOST_STRUCTS};

/// The number of containers that may still be opened: of any kind, and of arrays and structs.
#[derive(Clone, Copy)]
pub struct Room {
    /// The number of containers of any kind.
    pub containers: u8,
    /// The number of arrays among them, at most.
    pub arrays: u8,
    /// The number of structs among them, at most.
    pub structs: u8,
}

impl Room {
    /// The room of a whole value: 64 containers, among them at most 32 arrays and 32 structs.
    pub const WHOLE: Room = Room {
        containers: MOST_CONTAINERS,
        arrays: MOST_ARRAYS,
        structs: MOST_STRUCTS,
    };

    /// Returns the room within an array, or `None` if no array may be opened.
    pub fn in_array(self) -> Option<Self>
        ensures { result ≡ (if self.containers == 0 || self.arrays == 0 then None
            else Some (record self {
              containers = self.containers - 1;
              arrays = self.arrays - 1;
            })) }
    {
        if self.containers == 0 || self.arrays == 0 {
            return None;
        }
        Some(Room {
            containers: self.containers - 1,
            arrays: self.arrays - 1,
            structs: self.structs,
        })
    }

    /// Returns the room within a struct, or `None` if no struct may be opened.
    pub fn in_struct(self) -> Option<Self>
        ensures { result ≡ (if self.containers == 0 || self.structs == 0 then None
            else Some (record self {
              containers = self.containers - 1;
              structs = self.structs - 1;
            })) }
    {
        if self.containers == 0 || self.structs == 0 {
            return None;
        }
        Some(Room {
            containers: self.containers - 1,
            arrays: self.arrays,
            structs: self.structs - 1,
        })
    }

    /// Returns the room within a dictionary entry or a variant, or `None` if none may be opened.
    pub fn in_other(self) -> Option<Self>
        ensures { result ≡ (if self.containers == 0 then None
            else Some (record self { containers = self.containers - 1 })) }
    {
        if self.containers == 0 {
            return None;
        }
        Some(Room {
            containers: self.containers - 1,
            arrays: self.arrays,
            structs: self.structs,
        })
    }
}
