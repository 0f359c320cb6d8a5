//! Checks of whether an export is in place already.
ghost use Rattle.std.specs.Prelude.{◌≡◌, IfOk, IsErrOf};
ghost use Rattle.fp_host.specs.OverHost.{AtReturn, ChangesNothing, FailsAlone};
ghost use Rattle.fp_host.specs.Outcome.{shows};
ghost use Rattle.fl_export.specs.Placed as spec;

use crate::rows::ExportWhat;
use fp_base::{Blob, Text};
use fp_host::{Host, HostEnd, Path, Stat};
use fp_small::{FILE_MODE, Loaded, load};
use std::alloc::Global;

/// Returns whether the path is a file with the permission bits 0644. Changes nothing.
fn has_bits<H: Host>(host: &mut H, place: &Path) -> Result<bool, HostEnd>
    ensures unchanged { ChangesNothing H.Host host.old host.new }
    ensures tells { IfOk result (λ has. AtReturn H.Host host.old host.new
        (λ u w. has ≡ spec.has_bits (shows u place.now))) }
    ensures fault_has_cause { FailsAlone H.Host host.old host.new (IsErrOf result HostEnd.Fault) }
{
    match host.stat(place)? {
        Stat::File { mode, .. } => Ok(mode == FILE_MODE),
        _ => Ok(false),
    }
}

/// Returns whether the path is a file with these bytes. Changes nothing.
fn has_bytes<H: Host>(
    alloc: Global,
    host: &mut H,
    place: &Path,
    bytes: &Blob,
) -> Result<bool, HostEnd>
    ensures unchanged { ChangesNothing H.Host host.old host.new }
    ensures tells { IfOk result (λ has. AtReturn H.Host host.old host.new
        (λ u w. has ≡ spec.has_bytes bytes.now (shows u place.now))) }
    ensures fault_has_cause { FailsAlone H.Host host.old host.new (IsErrOf result HostEnd.Fault) }
{
    match load(alloc, host, place, bytes.len() as u64)? {
        Loaded::Bytes(found) => Ok(found.as_slice() == bytes.as_slice()),
        _ => Ok(false),
    }
}

/// Returns whether the path is a file with these bytes and the permission bits 0644. Changes
/// nothing.
fn is_text<H: Host>(
    alloc: Global,
    host: &mut H,
    place: &Path,
    bytes: &Blob,
) -> Result<bool, HostEnd>
    ensures unchanged { ChangesNothing H.Host host.old host.new }
    ensures tells { IfOk result (λ is. AtReturn H.Host host.old host.new
        (λ u w. is ≡ spec.is_text bytes.now (shows u place.now))) }
    ensures fault_has_cause { FailsAlone H.Host host.old host.new (IsErrOf result HostEnd.Fault) }
{
    if has_bits(host, place)? {
        has_bytes(alloc, host, place, bytes)
    } else {
        Ok(false)
    }
}

/// Returns whether the path is a symlink with this text. Changes nothing.
fn is_link<H: Host>(alloc: Global, host: &mut H, place: &Path, text: &Text) -> Result<bool, HostEnd>
    ensures unchanged { ChangesNothing H.Host host.old host.new }
    ensures tells { IfOk result (λ is. AtReturn H.Host host.old host.new
        (λ u w. is ≡ spec.is_link text.now (shows u place.now))) }
    ensures fault_has_cause { FailsAlone H.Host host.old host.new (IsErrOf result HostEnd.Fault) }
{
    match host.stat(place)? {
        Stat::Link => Ok(host.read_link(alloc, place)? == *text),
        _ => Ok(false),
    }
}

/// Returns whether the export is at the path. Changes nothing.
pub(crate) fn is_there<H: Host>(
    alloc: Global,
    host: &mut H,
    place: &Path,
    what: &ExportWhat,
) -> Result<bool, HostEnd>
    ensures unchanged { ChangesNothing H.Host host.old host.new }
    ensures tells { IfOk result (λ is. AtReturn H.Host host.old host.new
        (λ u w. is ≡ spec.is_exported what.now (shows u place.now))) }
    ensures fault_has_cause { FailsAlone H.Host host.old host.new (IsErrOf result HostEnd.Fault) }
{
    match what {
        ExportWhat::Text(bytes) => is_text(alloc, host, place, bytes),
        ExportWhat::Link(text) => is_link(alloc, host, place, text),
    }
}
