//! Tests of what follows the name of an option.

ghost use Rattle.std.specs.Prelude.{◌≡◌, ◌&&◌};
ghost use Rattle.std.specs.List.{list_any};
ghost use Rattle.fp_name.specs.Grammar as grammar;
ghost use Rattle.fp_base.specs.Parts as parts;
ghost use Rattle.fp_keyfile.specs.Grammar as keys;
ghost use Rattle.fl_options.specs.Options as spec;

use fp_base::is_control;
use fp_keyfile::cut_at_equals;
use fp_name::is_inner_element;

/// Returns whether a byte is `;`, `=` or a control character.
fn is_barred(byte: u8) -> bool
    ensures { result ≡ spec.is_barred byte }
{
    is_control(byte) || byte == b';' || byte == b'='
}

/// Returns whether a text begins with a space or a tab.
fn begins_in_blank(text: &str) -> bool
    ensures { result ≡ keys.begins_so keys.is_blank text.now }
{
    matches!(text.as_bytes(), [b' ' | b'\t', ..])
}

/// Returns whether a text begins with `!`, a space or a tab.
fn begins_in_lead(text: &str) -> bool
    ensures { result ≡ keys.begins_so spec.is_lead text.now }
{
    matches!(text.as_bytes(), [b' ' | b'\t' | b'!', ..])
}

fn has_barred(text: &str) -> bool
    ensures { result ≡ list_any spec.is_barred text.now }
{
    text.bytes().any(is_barred)
}

fn has_control(text: &str) -> bool
    ensures { result ≡ list_any parts.is_control text.now }
{
    text.bytes().any(|byte| is_control(byte))
}

/// Returns whether a text may name a permission: it isn't empty, has no `;`, `=` or control
/// character, and doesn't begin with `!`, a space or a tab.
#[tactic(auto, unfolding(crate::specs::Options::is_given))]
pub(crate) fn is_given(text: &str) -> bool
    ensures { result ≡ spec.is_given text.now }
{
    !text.is_empty() && !has_barred(text) && !begins_in_lead(text)
}

/// Returns whether a text may be the value of a variable: it has no control character, and doesn't
/// begin with a space or a tab.
fn is_text(text: &str) -> bool
    ensures { result ≡ spec.is_text text.now }
{
    !has_control(text) && !begins_in_blank(text)
}

/// Returns whether these are the name of a variable and its value. The name begins with an ASCII
/// letter or `_`, and goes on with letters, digits and `_`.
fn are_variable(name: &str, value: &str) -> bool
    ensures { result ≡ (grammar.is_element name.now && spec.is_text value.now) }
{
    is_inner_element(name) && is_text(value)
}

/// Returns whether a text is the name of a variable, `=` and its value.
pub(crate) fn is_variable(text: &str) -> bool
    ensures { result ≡ spec.is_variable text.now }
{
    match cut_at_equals(text) {
        Some((name, value)) => are_variable(name, value),
        None => false,
    }
}
