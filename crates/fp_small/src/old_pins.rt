//! Parsing of the file `pins` of layout 1.
ghost use Rattle.std.specs.Prelude.{◌≡◌, true, false, Some, None, IfOk, OnOk, IsErrOf};
ghost use Rattle.std.specs.List.{list_all};
ghost use Rattle.std.specs.Ordering.{is_lt, nat_cmp};
ghost use Rattle.std.specs.Cmp.Lexicographic.{slice_cmp};
ghost use Rattle.fp_host.specs.Reads.{is_ascending};
ghost use Rattle.fp_name.specs.Pins as names;
ghost use Rattle.fp_keyfile.specs.Lines.{lines_of};
ghost use Rattle.fp_small.specs.Old as spec;
ghost use Rattle.fp_small.specs.Old.{ArePatterns, pins_of};

use crate::config::ConfigError;
use crate::limits::MOST_PINS;
use fp_base::Items;
use fp_keyfile::first_line;
use fp_name::PinPattern;
use std::alloc::Global;

/// Returns whether the last byte is a newline; true if there are no bytes.
fn is_ended(bytes: &[u8]) -> bool
    ensures { result ≡ spec.is_ended bytes.now }
{
    bytes.is_empty() || bytes[bytes.len() - 1] == b'\n'
}

/// Parses the lines, one pattern each. Errs with `Bad` if a line isn't a pattern.
fn patterns_of(alloc: Global, bytes: &[u8]) -> Result<Vec<PinPattern>, ConfigError>
    ensures ok { IfOk result (λ pins. pins.items ≡ lines_of bytes.now) }
    ensures good { OnOk result (list_all names.is_pin (lines_of bytes.now) ≡ true) }
    ensures bad { IsErrOf result ConfigError.Bad → list_all names.is_pin (lines_of bytes.now) ≡
        false }
{
    let mut pins = Vec::new(alloc);
    let mut rest = bytes;
    while !rest.is_empty() {
        let (line, remainder) = first_line(rest);
        rest = remainder;
        pins.push(PinPattern::parse(alloc, line)?)?;
    }
    Ok(pins)
}

/// Returns whether a pattern is less than another by its bytes.
fn comes_before(a: &PinPattern, b: &PinPattern) -> bool
    ensures { result ≡ is_lt (slice_cmp nat_cmp a.now b.now) }
{
    a.as_str() < b.as_str()
}

/// Returns whether the patterns ascend strictly.
fn are_ascending(pins: &[PinPattern]) -> bool
    ensures { result ≡ is_ascending pins.now }
{
    for i in 1..pins.len() {
        if !comes_before(&pins[i - 1], &pins[i]) {
            return false;
        }
    }
    true
}

/// Parses a file `pins` of layout 1: at most 1,024 lines with one pattern each, strictly ascending
/// by their bytes, and each with its newline. Errs with `Bad` for any other bytes.
pub fn read_pins(alloc: Global, bytes: &[u8]) -> Result<Items<PinPattern>, ConfigError>
    ensures ok { IfOk result (λ pins. pins_of bytes.now ≡ Some pins) }
    ensures good { IfOk result (λ pins. ArePatterns pins) }
    ensures bad { IsErrOf result ConfigError.Bad → pins_of bytes.now ≡ None }
{
    if !is_ended(bytes) {
        return Err(ConfigError::Bad);
    }
    let pins = patterns_of(alloc, bytes)?;
    if !are_ascending(&pins) || pins.len() > MOST_PINS {
        return Err(ConfigError::Bad);
    }
    Ok(Items::from_vec(pins))
}
