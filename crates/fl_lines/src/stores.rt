//! The lines for a checked store, and for an exported commit.
ghost use Rattle.std.specs.Prelude.{◌≡◌, IfOk};
ghost use Rattle.fl_lines.specs.Lines.{bad_text, stray_text, fsck_text, made_text};

use crate::escaping::escape;
use crate::lines::{digits_of, line_of_two, object_of};
use fp_base::{ObjKind, Text};
use fp_host::Path;
use fp_name::Digest;
use std::alloc::{AllocError, Global};

/// Returns the line for an object that doesn't match its name.
pub fn bad_line(alloc: Global, digest: &Digest, kind: ObjKind) -> Result<Text, AllocError>
    ensures { IfOk result (λ t. t ≡ bad_text digest.now kind) }
{
    let object = object_of(alloc, digest, kind)?;
    line_of_two(alloc, "bad", object.as_str())
}

/// Returns the line for a file or link whose path isn't the name of an object.
pub fn stray_line(alloc: Global, path: &Path) -> Result<Text, AllocError>
    ensures { IfOk result (λ t. t ≡ stray_text path.now) }
{
    let path = escape(alloc, path.text())?;
    line_of_two(alloc, "stray", path.as_str())
}

/// Returns the line with the number of objects in a store, and of the bad ones among them.
pub fn fsck_line(alloc: Global, objects: u64, bad: u64) -> Result<Text, AllocError>
    ensures { IfOk result (λ t. t ≡ fsck_text objects bad) }
{
    let text = format!(in alloc; "fsck {objects} objects, {bad} bad\n")?;
    Ok(Text::from_string(text))
}

/// Returns the line for a commit that `fpk export` made.
pub fn made_line(alloc: Global, commit: &Digest) -> Result<Text, AllocError>
    ensures { IfOk result (λ t. t ≡ made_text commit.now) }
{
    let digits = digits_of(alloc, commit)?;
    line_of_two(alloc, "commit", digits.as_str())
}
