//! The rows of a state, and the commits that they keep.
ghost use Rattle.std.specs.Prelude.{◌≡◌, ◌↔◌, ◌++◌, true, IsTrue, IfOk, OnOk, option_copied};
ghost use Rattle.fp_name.specs.Grammar.{is_remote_name};
ghost use Rattle.fp_name.specs.Refs.{is_ref, ref_text};
ghost use Rattle.dep_states.specs.Shown.{at_name, ref_key};
ghost use Rattle.dep_states.specs.Sound.{IsPrevious, IsKeptBy};
ghost use Rattle.dep_states.specs.Frames.{KeptIn};
ghost use Rattle.dep_tidy.specs.Kept.{kept_by, kept_of};
ghost use Rattle.dep_tidy.specs.Tidy.{IsFrom};

use fp_name::{Digest, RefName, RemoteName};
use fp_small::{Previous, RefRow, State};
use std::alloc::{AllocError, Global};

/// Returns the row of the ref; `None` if there is none.
pub(crate) fn row_of<'a>(rows: &'a [RefRow], name: &RefName) -> Option<&'a RefRow>
    ensures row { option_copied result ≡ at_name ref_key rows.now (ref_text name.now) }
    ensures good { is_ref name.now ≡ true }
{
    let text = name.as_str();
    for row in rows {
        if row.name.as_str() == text {
            return Some(row);
        }
    }
    None
}

/// Returns whether this is the previous commit.
fn is_previous(previous: &Option<Previous>, commit: &Digest) -> bool
    ensures { IsTrue result ↔ IsPrevious previous.now commit.now }
{
    match previous {
        None => false,
        Some(previous) => previous.commit == *commit,
    }
}

/// Returns whether the row keeps the commit, as its own or as its previous one.
fn is_kept_by(row: &RefRow, commit: &Digest) -> bool
    ensures { IsTrue result ↔ IsKeptBy row.now commit.now }
{
    row.commit == *commit || is_previous(&row.previous, commit)
}

/// Returns whether the state keeps the commit of the ref, as its own or as its previous one.
pub(crate) fn is_kept(state: &State, name: &RefName, commit: &Digest) -> bool
    ensures { IsTrue result ↔ KeptIn state.now name.now commit.now }
{
    match row_of(state.refs.as_slice(), name) {
        None => false,
        Some(row) => is_kept_by(row, commit),
    }
}

/// Returns whether the state has the ref from this remote.
pub(crate) fn is_from(state: &State, origin: &RemoteName, name: &RefName) -> bool
    ensures has { IsTrue result ↔ IsFrom state.now origin.now name.now }
    ensures remote { is_remote_name origin.now ≡ true }
    ensures good { is_ref name.now ≡ true }
{
    let text = origin.as_str();
    match row_of(state.refs.as_slice(), name) {
        None => false,
        Some(row) => row.origin.as_str() == text,
    }
}

/// Adds the commits that the row keeps: its own, and then its previous one.
fn add_kept(row: &RefRow, kept: &mut Vec<Digest>) -> Result<(), AllocError>
    ensures { OnOk result (kept.new.items ≡ kept.old.items ++ kept_by row.now) }
{
    kept.push(row.commit)?;
    if let Some(previous) = &row.previous {
        kept.push(previous.commit)?;
    }
    Ok(())
}

/// Returns the commits that the rows keep: of each row its own, and then its previous one.
pub(crate) fn kept_of(alloc: Global, rows: &[RefRow]) -> Result<Vec<Digest>, AllocError>
    ensures { IfOk result (λ kept. kept.items ≡ kept_of rows.now) }
{
    let mut kept = Vec::new(alloc);
    for row in rows {
        add_kept(row, &mut kept)?;
    }
    Ok(kept)
}
