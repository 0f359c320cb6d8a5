//! The lines of `fpk info`.
ghost use Rattle.std.specs.Prelude.{◌≡◌, ◌∷◌, ◌++◌, [], IfOk, OnOk, codes, flat_map, string_bytes};
ghost use Rattle.std.specs.Option.{option_copied};
ghost use Rattle.fl_lines.specs.Lines.{line_of, previous_text, row_text, runtime_text, extension_line, info_text};

use crate::escaping::escape;
use crate::lines::{decimal_of, digits_of};
use fp_base::Text;
use fp_name::RefName;
use fp_small::{Previous, RefRow};
use std::alloc::{AllocError, Global};

/// Returns the lines about a deployed ref: those of its row, the runtime that its metadata names,
/// and the names of its extensions, in the order given.
pub fn info_text(
    alloc: Global,
    row: &RefRow,
    runtime: Option<&RefName>,
    extensions: &[Text],
) -> Result<Text, AllocError>
    ensures { IfOk result (λ t. t ≡ info_text row.now (option_copied runtime.entry)
        extensions.now) }
{
    let mut text = String::new(alloc);
    push_row(alloc, &mut text, row)?;
    push_runtime(&mut text, runtime)?;
    push_extensions(alloc, &mut text, extensions)?;
    Ok(Text::from_string(text))
}

/// Appends the lines of a row: the ref, its commit, its remote, its timestamp in seconds since
/// 1970, and the previous commit, if one is known.
fn push_row(alloc: Global, text: &mut String, row: &RefRow) -> Result<(), AllocError>
    ensures { OnOk result (string_bytes text.new ≡ string_bytes text.old ++ row_text row.now) }
{
    let commit = digits_of(alloc, &row.commit)?;
    let timestamp = decimal_of(alloc, row.timestamp)?;
    push_line(text, "ref", row.name.as_str())?;
    push_line(text, "commit", commit.as_str())?;
    push_line(text, "origin", row.origin.as_str())?;
    push_line(text, "timestamp", timestamp.as_str())?;
    push_previous(alloc, text, row.previous)
}

/// Appends the line for the previous commit, if there is one.
fn push_previous(
    alloc: Global,
    text: &mut String,
    previous: Option<Previous>,
) -> Result<(), AllocError>
    ensures { OnOk result (string_bytes text.new ≡ string_bytes text.old
        ++ previous_text previous) }
{
    match previous {
        Some(previous) => {
            let commit = digits_of(alloc, &previous.commit)?;
            push_line(text, "previous", commit.as_str())
        }
        None => Ok(()),
    }
}

/// Appends the line for the runtime, if there is one.
fn push_runtime(text: &mut String, runtime: Option<&RefName>) -> Result<(), AllocError>
    ensures { OnOk result (string_bytes text.new ≡ string_bytes text.old
        ++ runtime_text (option_copied runtime.entry)) }
{
    match runtime {
        Some(name) => push_line(text, "runtime", name.as_str()),
        None => Ok(()),
    }
}

/// Appends a line for each extension.
fn push_extensions(alloc: Global, text: &mut String, names: &[Text]) -> Result<(), AllocError>
    ensures { OnOk result (string_bytes text.new ≡ string_bytes text.old
        ++ flat_map extension_line names.now) }
{
    for name in names {
        push_extension(alloc, text, name.as_str())?;
    }
    Ok(())
}

/// Appends the line for an extension. Its name is escaped.
fn push_extension(alloc: Global, text: &mut String, name: &str) -> Result<(), AllocError>
    ensures { OnOk result (string_bytes text.new ≡ string_bytes text.old
        ++ extension_line name.now) }
{
    let name = escape(alloc, name)?;
    push_line(text, "extension", name.as_str())
}

/// Appends the line of two words.
fn push_line(text: &mut String, first: &str, second: &str) -> Result<(), AllocError>
    ensures { OnOk result (string_bytes text.new ≡ string_bytes text.old
        ++ line_of (first.now ∷ second.now ∷ [])) }
{
    text.push_str(first)?;
    text.push(' ')?;
    text.push_str(second)?;
    text.push('\n')
}
