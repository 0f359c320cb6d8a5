//! The ref files of the store.
ghost use Rattle.std.specs.Prelude.{◌≡◌, ◌↔◌, ◌∷◌, [], true, IsTrue, OnOk, IfOk, IsErrOf};
ghost use Rattle.fp_host.specs.OverHost.{AtEachMoment, AtReturn, FailsOnly};
ghost use Rattle.fp_host.specs.Frame.{Frame, NoPath};
ghost use Rattle.fp_name.specs.Grammar.{is_remote_name};
ghost use Rattle.fp_name.specs.Hex.{is_digest};
ghost use Rattle.fp_name.specs.Refs.{is_ref};
ghost use Rattle.fp_small.specs.Places.{repo};
ghost use Rattle.ost_refs.specs.Changes.{CanWrite};
ghost use Rattle.ost_refs.specs.declared.place.RefFile.TheVariants.{Digest as DigestOf};
ghost use Rattle.ost_refs.specs.declared.place.RefPlace.TheVariants.{Remote};
ghost use Rattle.dep_states.specs.Sound.{Opens};
ghost use Rattle.dep_tidy.specs.Steps.{IsWanted, HasGoodNames, OtherGone, OtherAbsent, HasNoOther, HasNoneAt, Writes, WroteFile, WroteSome, WroteFiles, rows_named};

use crate::rows::{is_from, row_of};
use fp_host::{Host, HostEnd, Path};
use fp_name::{Digest, RefName};
use fp_small::{RefRow, State};
use ost_refs::{RefFile, RefPlace, drop_ref, list_refs, read_ref, write_ref};
use std::alloc::{AllocError, Global};

/// Returns whether the place of a ref file is for a ref that the state has from that remote, or is
/// below `refs/heads`.
fn is_wanted(state: &State, place: &RefPlace) -> bool
    ensures wanted { IsTrue result ↔ IsWanted state.now place.now }
    ensures good { HasGoodNames place.now }
{
    match place {
        RefPlace::Head(_) => true,
        RefPlace::Remote(origin, name) => is_from(state, origin, name),
    }
}

/// Removes the ref file at the place, unless the state has that ref from that remote. Files below
/// `refs/heads` stay.
fn drop_other<H: Host>(
    alloc: Global,
    host: &mut H,
    root: &Path,
    state: &State,
    place: &RefPlace,
) -> Result<(), HostEnd>
    requires root { root.now ≡ repo }
    ensures frame { Frame (OtherGone state.now) (OtherAbsent state.now) NoPath
        (H.moments host.old) (H.moments host.new) }
    ensures on_success { OnOk result (AtReturn H.Host host.old host.new
        (λ u w. HasNoneAt state.now (place.now ∷ []) w)) }
    ensures fault_has_cause { FailsOnly H.Host host.old host.new
        (Opens state.now) (IsErrOf result HostEnd.Fault) }
{
    if is_wanted(state, place) {
        return Ok(());
    }
    drop_ref(alloc, host, root, place)
}

/// Removes each ref file of a remote's ref that the state doesn't have from that remote.
pub(crate) fn drop_others<H: Host>(
    alloc: Global,
    host: &mut H,
    root: &Path,
    state: &State,
) -> Result<(), HostEnd>
    requires root { root.now ≡ repo }
    ensures frame { Frame (OtherGone state.now) (OtherAbsent state.now) NoPath
        (H.moments host.old) (H.moments host.new) }
    ensures on_success { OnOk result (AtReturn H.Host host.old host.new
        (λ u w. HasNoOther state.now w)) }
    ensures fault_has_cause { FailsOnly H.Host host.old host.new
        (Opens state.now) (IsErrOf result HostEnd.Fault) }
{
    let places = list_refs(alloc, host, root)?;
    for place in places.as_slice() {
        drop_other(alloc, host, root, state, place)?;
    }
    Ok(())
}

/// Returns the place of the ref file of the row.
fn place_of(row: &RefRow) -> Result<RefPlace, AllocError>
    ensures place { IfOk result (λ place. place ≡ Remote row.now.origin row.now.name) }
    ensures remote { is_remote_name row.now.origin ≡ true }
    ensures good { is_ref row.now.name ≡ true }
    ensures digits { is_digest row.now.commit ≡ true }
{
    let (_origin, _name) = (row.origin.as_str(), row.name.as_str());
    let _commit = row.commit.as_bytes();
    Ok(RefPlace::Remote(row.origin.copy()?, row.name.copy()?))
}

/// Returns whether the ref file has this commit.
fn says(file: RefFile, commit: &Digest) -> bool
    ensures { IsTrue result ↔ (file ≡ DigestOf commit.now) }
{
    match file {
        RefFile::Digest(found) => found == *commit,
        RefFile::Absent | RefFile::Bad => false,
    }
}

/// Writes the row's ref file, unless it has the row's commit already.
fn write_file<H: Host>(
    alloc: Global,
    host: &mut H,
    root: &Path,
    row: &RefRow,
) -> Result<(), HostEnd>
    requires root { root.now ≡ repo }
    ensures any_moment { AtEachMoment H.Host host.old host.new (Writes (row.now ∷ [])) }
    ensures on_success { OnOk result (AtReturn H.Host host.old host.new (WroteFile row.now)) }
    ensures fault_has_cause { FailsOnly H.Host host.old host.new
        (CanWrite repo (Remote row.now.origin row.now.name)) (IsErrOf result HostEnd.Fault) }
{
    let place = place_of(row)?;
    let file = read_ref(alloc, host, root, &place)?;
    if says(file, &row.commit) {
        return Ok(());
    }
    write_ref(alloc, host, root, &place, &row.commit)
}

/// Writes the ref file of this ref, unless it has the deployed commit already. Does nothing if the
/// state doesn't have the ref.
pub(crate) fn write_file_of<H: Host>(
    alloc: Global,
    host: &mut H,
    root: &Path,
    state: &State,
    name: &RefName,
) -> Result<(), HostEnd>
    requires root { root.now ≡ repo }
    ensures any_moment { AtEachMoment H.Host host.old host.new
        (Writes (rows_named state.now name.now)) }
    ensures on_success { OnOk result (AtReturn H.Host host.old host.new
        (WroteSome state.now (rows_named state.now name.now))) }
    ensures fault_has_cause { FailsOnly H.Host host.old host.new
        (Opens state.now) (IsErrOf result HostEnd.Fault) }
{
    match row_of(state.refs.as_slice(), name) {
        None => Ok(()),
        Some(row) => write_file(alloc, host, root, row),
    }
}

/// Writes the ref file of each ref of the state, unless it has the deployed commit already.
pub(crate) fn write_files<H: Host>(
    alloc: Global,
    host: &mut H,
    root: &Path,
    state: &State,
) -> Result<(), HostEnd>
    requires root { root.now ≡ repo }
    ensures any_moment { AtEachMoment H.Host host.old host.new (Writes state.now.refs) }
    ensures on_success { OnOk result (AtReturn H.Host host.old host.new (WroteFiles state.now)) }
    ensures fault_has_cause { FailsOnly H.Host host.old host.new
        (Opens state.now) (IsErrOf result HostEnd.Fault) }
{
    for row in state.refs.as_slice() {
        write_file(alloc, host, root, row)?;
    }
    Ok(())
}
