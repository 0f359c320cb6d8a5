//! The texts of a lock file. All have the same length, so that each can overwrite another in place.

/// The mark if the system reports no boot id.
pub const UNKNOWN: &str = "unknown-----------------------------\n";

/// The text that replaces a mark after a sync.
pub const CLEARED: &str = "------------------------------------\n";

/// The length of each of these texts in bytes.
pub const MARK_BYTES: u64 = 37;

/// The offsets of the dashes in a boot id.
const DASHES: [usize; 4] = [8, 13, 18, 23];

/// The offset of the newline after a boot id.
const END: usize = 36;

/// Returns whether the text of a lock file marks changes that may be unsynced. `CLEARED` is no
/// mark. If the boot id `boot` is known, another boot id is no mark either, since what an earlier
/// boot left is on the disk. Any other text is a mark, also the empty one: that of a new file which
/// replaced another.
pub fn is_mark(text: &str, boot: &Option<String>) -> bool {
    match boot {
        _ if text == CLEARED => false,
        Some(name) if is_start(text) => text == name.as_str(),
        _ => true,
    }
}

/// Returns whether the text may be a boot id: a line of 36 hexadecimal digits and dashes, as a
/// UUID.
pub fn is_start(text: &str) -> bool {
    text.len() == CLEARED.len() && is_spelled(text)
}

fn is_spelled(text: &str) -> bool {
    for (place, byte) in text.bytes().enumerate() {
        if !may_stand(place, byte) {
            return false;
        }
    }
    true
}

fn may_stand(place: usize, byte: u8) -> bool {
    if place == END {
        return byte == b'\n';
    }
    if DASHES.contains(&place) {
        return byte == b'-';
    }
    byte.is_ascii_hexdigit()
}
