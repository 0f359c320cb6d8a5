//! The two lines of a key file that an option stands for.

ghost use Rattle.std.specs.Prelude.{◌≡◌, IfOk, option_map, string_bytes};
ghost use Rattle.std.specs.Option.{option_copied};
ghost use Rattle.fl_options.specs.Options as spec;

use crate::names::{bus_group, bus_level, denied_list, granted_list};
use crate::tests_of_text::{is_given, is_variable};
use fl_meta::{PermList, Value, is_pattern};
use fp_keyfile::cut_at_equals;
use std::alloc::{AllocError, Global};

/// Returns the two lines of a word: a group and a pair, without a newline at the end. `None` if the
/// word has no `=`, if its name is that of no option, or if what follows the `=` doesn't suit the
/// option.
pub(crate) fn option_lines(alloc: Global, word: &str) -> Result<Option<String>, AllocError>
    ensures { IfOk result (λ lines. option_map string_bytes lines ≡ spec.option_lines word.now) }
{
    match cut_at_equals(word) {
        Some((name, text)) => lines_with(alloc, name, text),
        None => Ok(None),
    }
}

/// Returns the two lines of the option of this name, if the text may follow its `=`.
#[tactic(auto, unfolding(crate::specs::Options::lines_with))]
fn lines_with(alloc: Global, name: &str, text: &str) -> Result<Option<String>, AllocError>
    ensures { IfOk result (λ lines. option_map string_bytes lines ≡ spec.lines_with name.now
        text.now) }
{
    if let Some(lines) = list_lines(alloc, granted_list(name), "=", text)? {
        return Ok(Some(lines));
    }
    if let Some(lines) = list_lines(alloc, denied_list(name), "=!", text)? {
        return Ok(Some(lines));
    }
    if let Some(lines) = bus_lines(alloc, bus_group(name), &bus_level(name), text)? {
        return Ok(Some(lines));
    }
    variable_lines(alloc, name, text)
}

/// Returns the lines of an entry of a list. The mark is `=` for a grant and `=!` for a denial.
fn list_lines(
    alloc: Global,
    list: Option<PermList>,
    mark: &str,
    name: &str,
) -> Result<Option<String>, AllocError>
    ensures { IfOk result (λ lines. option_map string_bytes lines ≡ spec.list_lines list
        mark.now name.now) }
{
    match list {
        Some(list) if is_given(name) => {
            let key = list.key();
            Ok(Some(format!(in alloc; "[Context]\n{key}{mark}{name}")?))
        }
        _ => Ok(None),
    }
}

/// Returns the lines of a pattern of bus names and its level.
fn bus_lines(
    alloc: Global,
    group: Option<&str>,
    level: &Value,
    pattern: &str,
) -> Result<Option<String>, AllocError>
    ensures { IfOk result (λ lines. option_map string_bytes lines ≡ spec.bus_lines
        (option_copied group.entry) level.now pattern.now) }
{
    match group {
        Some(group) if is_pattern(pattern) => {
            let level = level.word();
            Ok(Some(format!(in alloc; "[{group}]\n{pattern}={level}")?))
        }
        _ => Ok(None),
    }
}

/// Returns the lines of an environment variable, if the option is `--env`.
fn variable_lines(alloc: Global, name: &str, text: &str) -> Result<Option<String>, AllocError>
    ensures { IfOk result (λ lines. option_map string_bytes lines ≡ spec.variable_lines name.now
        text.now) }
{
    if name == "--env" && is_variable(text) {
        Ok(Some(format!(in alloc; "[Environment]\n{text}")?))
    } else {
        Ok(None)
    }
}
