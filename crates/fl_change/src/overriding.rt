//! Changing and resetting overrides.
ghost use Rattle.std.specs.Prelude.{◌≡◌, true, length, IfOk};
ghost use Rattle.fp_small.specs.declared.state.Layout.TheVariants.{Two};
ghost use Rattle.ost_walk.specs.Ends.{around};
ghost use Rattle.dep_states.specs.After.{IsGood};
ghost use Rattle.fp_small.specs.declared.op.Op.TheVariants as ops;
ghost use Rattle.fl_change.specs.Performs.{Acts, Rests, Just};
ghost use Rattle.fp_keyfile.specs.KeyFile.{is_good, text_of};
ghost use Rattle.fl_meta.specs.declared.mentions.Source.TheVariants as sources;
ghost use Rattle.fl_meta.specs.declared.permission.Permission.{Permission};
ghost use Rattle.fl_meta.specs.Mentions.{file_mentions};
ghost use Rattle.fl_context.specs.Grants.{last_mention, value_in};
ghost use Rattle.fl_change.specs.Ends.{IsAsked, IsPlain};
ghost use Rattle.fl_change.specs.Overrides.{file_named, changed_file as changed, changed_row as row_changed, long_refusal};
ghost use Rattle.fl_change.specs.Refs.{reset_over};

use crate::end::RunEnd;
use crate::operation::do_op;
use dep_states::Opened;
use dep_switch::find_override;
use fl_options::layer_of;
use fl_override::OverrideSet;
use fl_words::OverrideName;
use fp_base::{Items, Text, What};
use fp_host::{Host, Remotes};
use fp_keyfile::KeyFile;
use fp_small::{MOST_TEXT_BYTES, Op, OverrideRow, Refusal, State};
use std::alloc::{AllocError, Global};
use std::thread::Threads;

/// The maximum length of the text of an override in bytes, 1 MiB.
const OVERRIDE_MOST: usize = MOST_TEXT_BYTES as usize;

/// Returns, of each permission, the last mention in the override with this name; none if there is
/// no such override.
fn mentioned_in(alloc: Global, rows: &[OverrideRow], name: &Text) -> Result<OverrideSet, AllocError>
    ensures { IfOk result (λ set. (p : Permission) → value_in set p ≡ last_mention
        (file_mentions sources.Override (file_named rows.now name.now)) p) }
{
    match find_override(rows, name) {
        Some(row) => OverrideSet::from_keyfile(alloc, &row.file),
        None => OverrideSet::from_keyfile(alloc, &KeyFile::new(alloc)),
    }
}

/// Returns the groups of the override with this name, changed by options.
fn changed_file(
    alloc: Global,
    rows: &[OverrideRow],
    name: &Text,
    options: &[Text],
) -> Result<KeyFile, AllocError>
    ensures { IfOk result (λ file. file ≡ changed (file_named rows.now name.now) options.now) }
{
    let mut set = mentioned_in(alloc, rows, name)?;
    let _before = set.as_layer();
    let options = layer_of(alloc, options)?;
    set.change(alloc, &options)?;
    let _after = set.as_layer();
    set.to_keyfile(alloc)
}

/// Returns the override with this name, changed by options.
fn changed_row(
    alloc: Global,
    rows: &[OverrideRow],
    name: &Text,
    options: &[Text],
) -> Result<OverrideRow, AllocError>
    ensures { IfOk result (λ row. row ≡ row_changed rows.now name.now options.now) }
{
    let file = changed_file(alloc, rows, name, options)?;
    Ok(OverrideRow {
        name: name.copy()?,
        file,
    })
}

/// Returns the length of the text of an override in bytes.
fn text_size(row: &OverrideRow) -> Result<usize, AllocError>
    ensures size { IfOk result (λ n. n ≡ length (text_of row.now.file)) }
    ensures good { is_good row.now.file ≡ true }
{
    let _groups = row.file.groups();
    Ok(row.file.write()?.as_str().len())
}

/// Returns the operation that sets the override with this name, changed by options. Errs with
/// `Limit` if its text would have more than 1 MiB.
pub(crate) fn change_override(
    alloc: Global,
    state: &State,
    name: &OverrideName,
    options: &Items<Text>,
) -> Result<Op, RunEnd>
    ensures asked { IsAsked (long_refusal (row_changed state.now.overrides name.now options.now))
        (ops.SetOverride (row_changed state.now.overrides name.now options.now)) result }
    ensures plain { IfOk result (IsPlain state.now) }
{
    let rows = state.overrides.as_slice();
    let row = changed_row(alloc, rows, name.as_text(), options.as_slice())?;
    let size = text_size(&row)?;
    if size > OVERRIDE_MOST {
        return Err(RunEnd::Refused(Refusal::Limit {
            what: What::Override,
            number: size as u64,
        }));
    }
    Ok(Op::SetOverride(row))
}

/// Removes the override with this name; does nothing if there is none.
pub(crate) fn reset<H: Host, R: Remotes>(
    rt: &(impl Threads + Sync),
    alloc: Global,
    host: &mut H,
    remotes: &mut R,
    acted: &mut bool,
    opened: Opened,
    name: &Text,
) -> Result<Opened, RunEnd>
    requires good { IsGood opened }
    requires layout { opened.layout ≡ Two }
    ensures good { IfOk result IsGood }
    ensures layout { IfOk result (λ o. o.layout ≡ Two) }
    ensures acts { Acts (Rests opened) (Just (ops.DropOverride name.now))
        (reset_over name.now) opened acted.old acted.new result
        (around H.Host R.Remotes host.old remotes.old)
        (around H.Host R.Remotes host.new remotes.new) }
{
    match find_override(opened.state().overrides.as_slice(), name) {
        Some(_) => {
            let op = Op::DropOverride(name.copy()?);
            do_op(rt, alloc, host, remotes, acted, opened, &op)
        }
        None => Ok(opened),
    }
}
