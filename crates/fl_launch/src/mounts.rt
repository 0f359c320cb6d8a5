//! The mount points of extensions in a launch's text.

ghost use Rattle.std.specs.Prelude.{◌≡◌, ◌++◌, IfOk, OnOk, string_bytes};
ghost use Rattle.fl_launch.specs.Extensions as extensions;
ghost use Rattle.fl_launch.specs.Launch as spec;

use crate::writing::push_header;
use fl_extension::{Point, found_ref};
use fp_base::Text;
use fp_name::RefName;
use fp_small::State;
use std::alloc::{AllocError, Global};
use std::collections::BTreeSet;

/// Returns the line of an extension's mount: the directory below `/app/` or `/usr/`, `=`, and the
/// ref.
fn mount_line(
    alloc: Global,
    front: &str,
    directory: &str,
    name: &RefName,
) -> Result<Text, AllocError>
    ensures { IfOk result (λ line. line ≡ extensions.mount_with front.now directory.now name.now) }
{
    let mut line = String::from_str(alloc, front)?;
    line.push_str(directory)?;
    line.push('=')?;
    line.push_str(name.as_str())?;
    Ok(Text::from_string(line))
}

/// Adds the mount of a point to the lines, if an extension is found for it.
#[tactic(auto, unfolding(crate::specs::Extensions::with_lines))]
fn add_mount(
    alloc: Global,
    lines: &mut BTreeSet<Text>,
    front: &str,
    state: &State,
    point: &Point,
) -> Result<(), AllocError>
    ensures { OnOk result (lines.new.keys ≡ extensions.with_lines lines.old.keys
        (extensions.mount_of front.now state.now point.now)) }
{
    let Some(name) = found_ref(state, point) else {
        return Ok(());
    };
    let line = mount_line(alloc, front, point.directory.as_str(), name)?;
    lines.insert(line)?;
    Ok(())
}

/// Adds the mounts of these points to the lines.
#[tactic(auto, unfolding(crate::specs::Extensions::with_lines))]
fn add_mounts(
    alloc: Global,
    lines: &mut BTreeSet<Text>,
    front: &str,
    state: &State,
    points: &[Point],
) -> Result<(), AllocError>
    ensures { OnOk result (lines.new.keys ≡ extensions.with_lines lines.old.keys
        (extensions.mounts_of front.now state.now points.now)) }
{
    for point in points {
        add_mount(alloc, lines, front, state, point)?;
    }
    Ok(())
}

/// Returns the lines of all mounts, strictly ascending by their bytes.
#[tactic(auto, unfolding(crate::specs::Extensions::mount_lines))]
fn mount_lines(
    alloc: Global,
    state: &State,
    app_points: &[Point],
    runtime_points: &[Point],
) -> Result<BTreeSet<Text>, AllocError>
    ensures { IfOk result (λ lines. lines.keys ≡ extensions.mount_lines state.now app_points.now
        runtime_points.now) }
{
    let mut lines = BTreeSet::new(alloc);
    add_mounts(alloc, &mut lines, "/app/", state, app_points)?;
    add_mounts(alloc, &mut lines, "/usr/", state, runtime_points)?;
    Ok(lines)
}

/// Appends a line and its newline.
fn push_closed(out: &mut String, line: &Text) -> Result<(), AllocError>
    ensures { OnOk result (string_bytes out.new ≡ string_bytes out.old ++ spec.closed_line
        line.now) }
{
    out.push_str(line.as_str())?;
    out.push('\n')
}

/// Appends the group `Mounts` with these lines. Does nothing if there is no line.
#[tactic(auto, unfolding(crate::specs::Launch::mounts))]
fn push_lines(out: &mut String, lines: &BTreeSet<Text>) -> Result<(), AllocError>
    ensures { OnOk result (string_bytes out.new ≡ string_bytes out.old ++ spec.mounts
        lines.now.keys) }
{
    if lines.is_empty() {
        return Ok(());
    }
    push_header(out, "Mounts")?;
    for line in lines {
        push_closed(out, line)?;
    }
    Ok(())
}

/// Appends the group `Mounts`. Does nothing if no extension is found.
pub(crate) fn push_mounts(
    alloc: Global,
    out: &mut String,
    state: &State,
    app_points: &[Point],
    runtime_points: &[Point],
) -> Result<(), AllocError>
    ensures { OnOk result (string_bytes out.new ≡ string_bytes out.old ++ spec.mounts
        (extensions.mount_lines state.now app_points.now runtime_points.now)) }
{
    let lines = mount_lines(alloc, state, app_points, runtime_points)?;
    push_lines(out, &lines)
}
