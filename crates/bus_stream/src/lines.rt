//! The names in a recording's lines.

ghost use Rattle.std.specs.Prelude.{◌≡◌};
ghost use Rattle.bus_frame.specs.Names.{is_unique, is_well_known};
ghost use Rattle.fp_base.specs.Steps.{Gives, where_it};

use bus_frame::{is_unique_name, is_well_known_name};
use std::str;

/// Returns the bytes as a unique bus name, or `None` if they aren't one.
pub fn unique_name(bytes: &[u8]) -> Option<&str>
    ensures { Gives (λ t. t.now) result (where_it (is_unique bytes.now) bytes.now) }
{
    if !is_unique_name(bytes) {
        return None;
    }
    match str::from_utf8(bytes) {
        Ok(name) => Some(name),
        Err(_) => None,
    }
}

/// Returns the bytes as a well-known bus name, or `None` if they aren't one.
pub fn well_known_name(bytes: &[u8]) -> Option<&str>
    ensures { Gives (λ t. t.now) result (where_it (is_well_known bytes.now) bytes.now) }
{
    if !is_well_known_name(bytes) {
        return None;
    }
    match str::from_utf8(bytes) {
        Ok(name) => Some(name),
        Err(_) => None,
    }
}
