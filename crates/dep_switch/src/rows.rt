//! Lists of rows, ascending by their names.
ghost use Rattle.std.specs.Prelude.{◌≡◌, ◌≤◌, true, length, OnOk};
ghost use Rattle.std.specs.List.{insert, find};
ghost use Rattle.std.specs.Str.{bytes_eq};
ghost use Rattle.std.specs.Option.{option_copied};
ghost use Rattle.fp_name.specs.Refs.{ref_text, is_ref};
ghost use Rattle.fp_small.specs.Config.{name_of as remote_key};
ghost use Rattle.fp_small.specs.Order.{inserted, removed, replaced};
ghost use Rattle.dep_states.specs.Shown.{at_name, ref_key, override_key};

use fp_base::Text;
use fp_name::{RefName, RemoteName};
use fp_small::{OverrideRow, RefRow, RemoteRow};
use std::alloc::AllocError;

/// A row with the name by which rows ascend.
trait Named {
    ghost use Rattle.std.specs.Prelude.{List, ℕ, ◌≡◌};

    ghost name_of: { Self → List ℕ };

    /// Returns the row's name.
    fn key(&self) -> &str
        ensures { result.now ≡ name_of self.now };
}

impl Named for RefRow {
    ghost use Rattle.dep_states.specs.Shown.{ref_key};

    ghost name_of = { λ row. ref_key row };

    fn key(&self) -> &str {
        self.name.as_str()
    }
}

impl Named for RemoteRow {
    ghost name_of = { λ row. row.name };

    fn key(&self) -> &str {
        self.name.as_str()
    }
}

impl Named for OverrideRow {
    ghost name_of = { λ row. row.name };

    fn key(&self) -> &str {
        self.name.as_str()
    }
}

/// Returns the index of the first row whose name doesn't come before this one, which is where a row
/// of this name belongs.
fn place_of<T: Named>(rows: &[T], name: &str) -> usize
    ensures within { result ≤ length rows.now }
    ensures before { (row : T) → T.name_of row ≡ name.now → inserted T.name_of rows.now row ≡
        insert rows.now result row }
{
    for (place, row) in rows.iter().enumerate() {
        if row.key() >= name {
            return place;
        }
    }
    rows.len()
}

/// Inserts a row at the index where its name belongs.
fn insert_row<T: Named + Drop>(rows: &mut Vec<T>, row: T) -> Result<(), AllocError>
    ensures { OnOk result (rows.new.items ≡ inserted T.name_of rows.old.items row) }
{
    let place = place_of(rows, row.key());
    rows.insert(place, row)?;
    Ok(())
}

/// Returns the first row with this name.
fn find_text<'a, T: Named>(rows: &'a [T], text: &str) -> Option<&'a T>
    ensures { option_copied result ≡ find (λ row. bytes_eq (T.name_of row) text.now) rows.now }
{
    rows.iter().find(|row| row.key() == text)
}

/// Returns the row of a ref, or `None` if the ref isn't deployed.
pub fn find_ref<'a>(rows: &'a [RefRow], name: &RefName) -> Option<&'a RefRow>
    ensures row { option_copied result ≡ at_name ref_key rows.now (ref_text name.now) }
    ensures good { is_ref name.now ≡ true }
{
    find_text(rows, name.as_str())
}

/// Returns the remote with this name, or `None` if there is none.
pub fn find_remote<'a>(rows: &'a [RemoteRow], name: &RemoteName) -> Option<&'a RemoteRow>
    ensures { option_copied result ≡ at_name remote_key rows.now name.now }
{
    find_text(rows, name.as_str())
}

/// Returns the override with this name, or `None` if there is none.
pub fn find_override<'a>(rows: &'a [OverrideRow], name: &Text) -> Option<&'a OverrideRow>
    ensures { option_copied result ≡ at_name override_key rows.now name.now }
{
    find_text(rows, name.as_str())
}

/// Removes the row of a ref. Changes nothing if there is none. Allocates nothing.
pub(crate) fn remove_ref(rows: &mut Vec<RefRow>, name: &RefName)
    ensures rows { rows.new.items ≡ removed ref_key rows.old.items (ref_text name.now) }
    ensures good { is_ref name.now ≡ true }
{
    let text = name.as_str();
    rows.retain(|row| row.name.as_str() != text);
}

/// Removes the row of this ref, if there is one, and then inserts the new one.
pub(crate) fn put_ref(rows: &mut Vec<RefRow>, row: RefRow) -> Result<(), AllocError>
    ensures rows { OnOk result (rows.new.items ≡ replaced ref_key rows.old.items row) }
    ensures good { is_ref row.name ≡ true }
{
    remove_ref(rows, &row.name);
    insert_row(rows, row)
}

/// Removes the override with this name. Changes nothing if there is none. Allocates nothing.
pub fn remove_override(rows: &mut Vec<OverrideRow>, name: &Text)
    ensures { rows.new.items ≡ removed override_key rows.old.items name.now }
{
    rows.retain(|row| row.name.as_str() != name.as_str());
}

/// Removes the override of this name, if there is one, and then inserts the new one.
pub fn put_override(rows: &mut Vec<OverrideRow>, row: OverrideRow) -> Result<(), AllocError>
    ensures { OnOk result (rows.new.items ≡ replaced override_key rows.old.items row) }
{
    remove_override(rows, &row.name);
    insert_row(rows, row)
}
