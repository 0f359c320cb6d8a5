//! Placing of exports below `exports`.
ghost use Rattle.std.specs.Prelude.{◌↔◌, ◌∷◌, [], IsTrue, OnOk, IsErrOf};
ghost use Rattle.fp_host.specs.OverHost.{AtEachMoment, AtReturn, FailsOnly};
ghost use Rattle.fp_host.specs.Frame.{Frame, NoPath};
ghost use Rattle.fp_small.specs.Clear.{GoneWithin, AbsentWithin, CanClear};
ghost use Rattle.fp_small.specs.Replace.{IsFreeFile};
ghost use Rattle.fl_export.specs.declared.rows.ExportWhat.TheVariants as what;
ghost use Rattle.fl_export.specs.Steps.{MayStay, PutsAt, WasPut, CanPut, PutsRows, WereAllPut, WerePut, CanPutRows};

use crate::places::place_of;
use crate::rows::{ExportRow, ExportWhat};
use crate::standing::is_there;
use fp_base::{Blob, Text};
use fp_host::{Host, HostEnd, Path, Stat};
use fp_small::{clear, make_above, replace};
use std::alloc::Global;

/// Returns whether a file can be put over an entry with this status: it is absent or a file.
fn may_stay(stat: &Stat) -> bool
    ensures { IsTrue result ↔ MayStay stat.now }
{
    match stat {
        Stat::Absent | Stat::File { .. } => true,
        Stat::Dir | Stat::Link => false,
    }
}

/// Clears the path if it is a directory or a symlink. Leaves a file as it is.
fn make_way<H: Host>(alloc: Global, host: &mut H, place: &Path) -> Result<(), HostEnd>
    ensures frame { Frame (GoneWithin place.now) (AbsentWithin place.now) NoPath
        (H.moments host.old) (H.moments host.new) }
    ensures on_success { OnOk result (AtReturn H.Host host.old host.new
        (λ u w. IsFreeFile place.now w)) }
    ensures fault_has_cause { FailsOnly H.Host host.old host.new
        (CanClear place.now) (IsErrOf result HostEnd.Fault) }
{
    if may_stay(&host.stat(place)?) {
        return Ok(());
    }
    clear(alloc, host, place)
}

/// Puts a file with these bytes and the permission bits 0644 at the path. Replaces a file
/// atomically; clears a directory or symlink first.
fn put_text<H: Host>(alloc: Global, host: &mut H, place: &Path, bytes: &Blob) -> Result<(), HostEnd>
    ensures any_moment { AtEachMoment H.Host host.old host.new
        (PutsAt place.now (what.Text bytes.now)) }
    ensures on_success { OnOk result (AtReturn H.Host host.old host.new
        (WasPut place.now (what.Text bytes.now))) }
    ensures fault_has_cause { FailsOnly H.Host host.old host.new
        (CanPut place.now (what.Text bytes.now)) (IsErrOf result HostEnd.Fault) }
{
    make_way(alloc, host, place)?;
    replace(alloc, host, place, bytes.as_slice())
}

/// Puts a symlink with this text at the path. Clears the path first, so a crash may leave nothing
/// there.
fn put_link<H: Host>(alloc: Global, host: &mut H, place: &Path, text: &Text) -> Result<(), HostEnd>
    ensures any_moment { AtEachMoment H.Host host.old host.new
        (PutsAt place.now (what.Link text.now)) }
    ensures on_success { OnOk result (AtReturn H.Host host.old host.new
        (WasPut place.now (what.Link text.now))) }
    ensures fault_has_cause { FailsOnly H.Host host.old host.new
        (CanPut place.now (what.Link text.now)) (IsErrOf result HostEnd.Fault) }
{
    clear(alloc, host, place)?;
    make_above(alloc, host, place)?;
    Ok(host.symlink(text.as_str(), place)?)
}

/// Puts the export at the path.
fn put<H: Host>(alloc: Global, host: &mut H, place: &Path, what: &ExportWhat) -> Result<(), HostEnd>
    ensures any_moment { AtEachMoment H.Host host.old host.new (PutsAt place.now what.now) }
    ensures on_success { OnOk result (AtReturn H.Host host.old host.new
        (WasPut place.now what.now)) }
    ensures fault_has_cause { FailsOnly H.Host host.old host.new
        (CanPut place.now what.now) (IsErrOf result HostEnd.Fault) }
{
    match what {
        ExportWhat::Text(bytes) => put_text(alloc, host, place, bytes),
        ExportWhat::Link(text) => put_link(alloc, host, place, text),
    }
}

/// Puts the row at its path below `exports`, unless it is there already.
fn put_row<H: Host>(alloc: Global, host: &mut H, row: &ExportRow) -> Result<(), HostEnd>
    ensures any_moment { AtEachMoment H.Host host.old host.new (PutsRows (row.now ∷ [])) }
    ensures on_success { OnOk result (AtReturn H.Host host.old host.new (WerePut (row.now ∷ []))) }
    ensures fault_has_cause { FailsOnly H.Host host.old host.new
        (CanPutRows (row.now ∷ [])) (IsErrOf result HostEnd.Fault) }
{
    let place = place_of(alloc, &row.path)?;
    if is_there(alloc, host, &place, &row.what)? {
        return Ok(());
    }
    put(alloc, host, &place, &row.what)
}

/// Puts each row at its path below `exports`, unless it is there already. Doesn't sync at the end.
pub(crate) fn put_rows<H: Host>(
    alloc: Global,
    host: &mut H,
    rows: &[ExportRow],
) -> Result<(), HostEnd>
    ensures any_moment { AtEachMoment H.Host host.old host.new (PutsRows rows.now) }
    ensures on_success { OnOk result (AtReturn H.Host host.old host.new (WereAllPut rows.now)) }
    ensures fault_has_cause { FailsOnly H.Host host.old host.new
        (CanPutRows rows.now) (IsErrOf result HostEnd.Fault) }
{
    for row in rows {
        put_row(alloc, host, row)?;
    }
    Ok(())
}
