//! Writing of a key file, line by line.

ghost use Rattle.std.specs.Prelude.{◌≡◌, ◌++◌, OnOk, IfOk, string_bytes};
ghost use Rattle.fp_keyfile.specs.KeyFile.{pair_text, group_text, text_of};

use crate::group::{Group, Pair};
use std::alloc::{AllocError, Global};

/// Appends the line of a pair.
fn push_pair(out: &mut String, pair: &Pair) -> Result<(), AllocError>
    ensures { OnOk result (string_bytes out.new ≡ string_bytes out.old ++ pair_text pair.now) }
{
    out.push_str(pair.key.as_str())?;
    out.push('=')?;
    out.push_str(pair.value.as_str())?;
    out.push('\n')
}

/// Appends the header of a group, and the lines of its pairs.
fn push_group(out: &mut String, group: &Group) -> Result<(), AllocError>
    ensures { OnOk result (string_bytes out.new ≡ string_bytes out.old ++ group_text group.now) }
{
    out.push('[')?;
    out.push_str(group.name.as_str())?;
    out.push_str("]\n")?;
    for pair in group.pairs.as_slice() {
        push_pair(out, pair)?;
    }
    Ok(())
}

/// Returns the text of a file with these groups.
#[tactic(auto, unfolding(crate::specs::KeyFile::text_of))]
pub(crate) fn text_of_groups(alloc: Global, groups: &[Group]) -> Result<String, AllocError>
    ensures { IfOk result (λ t. string_bytes t ≡ text_of groups.now) }
{
    let mut out = String::new(alloc);
    for group in groups {
        push_group(&mut out, group)?;
    }
    Ok(out)
}
