//! Writing of a launch's text, line by line as in a key file.

ghost use Rattle.std.specs.Prelude.{◌≡◌, ◌++◌, OnOk, string_bytes};
ghost use Rattle.fp_keyfile.specs.KeyFile.{group_text, text_of};
ghost use Rattle.fl_launch.specs.Launch as spec;

use fp_keyfile::Group;
use std::alloc::AllocError;

/// Appends the header of a group, `[NAME]`.
#[tactic(auto, unfolding(crate::specs::Launch::header))]
pub(crate) fn push_header(out: &mut String, name: &str) -> Result<(), AllocError>
    ensures { OnOk result (string_bytes out.new ≡ string_bytes out.old ++ spec.header name.now) }
{
    out.push('[')?;
    out.push_str(name)?;
    out.push_str("]\n")
}

/// Appends the line of a pair, `KEY=VALUE`.
#[tactic(auto, unfolding(crate::specs::Launch::line))]
pub(crate) fn push_line(out: &mut String, key: &str, value: &str) -> Result<(), AllocError>
    ensures { OnOk result (string_bytes out.new ≡ string_bytes out.old ++ spec.line key.now
        value.now) }
{
    out.push_str(key)?;
    out.push('=')?;
    out.push_str(value)?;
    out.push('\n')
}

/// Appends the line of a pair, unless the value is empty.
#[tactic(auto, unfolding(crate::specs::Launch::line_if))]
pub(crate) fn push_line_if(out: &mut String, key: &str, value: &str) -> Result<(), AllocError>
    ensures { OnOk result (string_bytes out.new ≡ string_bytes out.old ++ spec.line_if key.now
        value.now) }
{
    if value.is_empty() {
        return Ok(());
    }
    push_line(out, key, value)
}

/// Appends the lines of a group.
#[tactic(auto, unfolding(crate::specs::Launch::header, crate::specs::Launch::line))]
fn push_group(out: &mut String, group: &Group) -> Result<(), AllocError>
    ensures { OnOk result (string_bytes out.new ≡ string_bytes out.old ++ group_text group.now) }
{
    push_header(out, group.name.as_str())?;
    for pair in group.pairs.as_slice() {
        push_line(out, pair.key.as_str(), pair.value.as_str())?;
    }
    Ok(())
}

/// Appends the lines of these groups.
#[tactic(auto, unfolding(fp_keyfile::specs::KeyFile::text_of))]
pub(crate) fn push_groups(out: &mut String, groups: &[Group]) -> Result<(), AllocError>
    ensures { OnOk result (string_bytes out.new ≡ string_bytes out.old ++ text_of groups.now) }
{
    for group in groups {
        push_group(out, group)?;
    }
    Ok(())
}
