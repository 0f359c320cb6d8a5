//! The directories in `objects`, and the names in them.
ghost use Rattle.std.specs.Prelude.{◌≡◌, IfOk, IsErrOf, is_some};
ghost use Rattle.std.specs.List.{list_all};
ghost use Rattle.fp_host.specs.OverHost.{AtReturn, ChangesNothing, FailsAlone};
ghost use Rattle.fp_host.specs.Reads.{AreNames};
ghost use Rattle.fp_name.specs.Hex.{digit_value};
ghost use Rattle.fp_small.specs.Naming.{ListsIn};
ghost use Rattle.ost_model.specs.Stores.{is_prefix};

use fp_base::{Items, Text};
use fp_host::{Host, HostEnd, Path, Stat};
use std::alloc::Global;

/// Returns whether the byte is a lower-case hexadecimal digit.
fn is_digit(c: u8) -> bool
    ensures { result ≡ is_some (digit_value c) }
{
    matches!(c, b'0'..=b'9' | b'a'..=b'f')
}

/// Returns whether all bytes are lower-case hexadecimal digits.
fn are_digits(digits: &[u8]) -> bool
    ensures { result ≡ list_all (λ c. is_some (digit_value c)) digits.now }
{
    digits.iter().all(|c| is_digit(*c))
}

/// Returns whether the bytes are two lower-case hexadecimal digits.
fn are_two_digits(digits: &[u8]) -> bool
    ensures { result ≡ is_prefix digits.now }
{
    digits.len() == 2 && are_digits(digits)
}

/// Returns whether the name can be that of a directory in `objects`: two lower-case hexadecimal
/// digits.
pub(crate) fn is_prefix(name: &str) -> bool
    ensures { result ≡ is_prefix name.now }
{
    are_two_digits(name.as_bytes())
}

/// Returns the names in the directory, in ascending order of their bytes, or no names if the path
/// isn't a directory.
pub(crate) fn names_within<H: Host>(
    alloc: Global,
    host: &mut H,
    folder: &Path,
) -> Result<Items<Text>, HostEnd>
    ensures unchanged { ChangesNothing H.Host host.old host.new }
    ensures tells { IfOk result (λ names. AtReturn H.Host host.old host.new
        (λ u w. ListsIn folder.now u names)) }
    ensures names { IfOk result AreNames }
    ensures fault_has_cause { FailsAlone H.Host host.old host.new (IsErrOf result HostEnd.Fault) }
{
    match host.stat(folder)? {
        Stat::Dir => Ok(host.list(alloc, folder)?),
        _ => Ok(Items::from_vec(Vec::new(alloc))),
    }
}
