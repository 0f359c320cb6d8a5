//! Reasons, for people, why words are of none of some forms.
ghost use Rattle.std.specs.Prelude.{◌≡◌, ◌≤◌, ◌++◌, length, IfOk, OnOk, Some, map, option_map, option_copied, flat_map, string_bytes, slice_get};
ghost use Rattle.fl_words.specs.Forms.{place_of, fits as may_stand};
ghost use Rattle.fl_lines.specs.Lines.{line};
ghost use Rattle.fl_words.specs.Reasons.{place_name, named_place, usage as usage_text, places_left as left_of, begins as does_begin, usage_begun, usages, place_begun, place_wanted, option_name as name_of_option, need_named as need_by_name, need_at, misfit_at, fault_at, asks_help as is_for_help, missing_at, fault_text, forms_told, why_at, why, said, reason_text};

use crate::forms::{Form, Slot};
use crate::reading::{furthest, left_after};
use crate::values::{fits, word_at};
use fl_lines::escape;
use fp_base::Text;
use fp_keyfile::cut_at_equals;
use std::alloc::{AllocError, Global};

/// Returns why words are no command, in lines that end with a newline. The first line is about the
/// word at the index of `BadWords`: what is wrong with it, or that a word is missing there. The
/// next ones are the usage of the commands that the words before it begin, or point to `fpk --help`
/// if there are none. If the word at the index asks for help, the first line is left out.
pub fn reason(alloc: Global, words: &[String]) -> Result<Text, AllocError>
    ensures { IfOk result (λ t. t ≡ reason_text (map string_bytes words.now)) }
{
    let mut text = String::new(alloc);
    push_said(alloc, &mut text, Form::all(), words)?;
    Ok(Text::from_string(text))
}

/// Appends the reason why the words of a command line are of none of the forms.
fn push_said(
    alloc: Global,
    text: &mut String,
    forms: &[Form],
    words: &[String],
) -> Result<(), AllocError>
    ensures { OnOk result (string_bytes text.new ≡ string_bytes text.old
        ++ said forms.now (map string_bytes words.now)) }
{
    let index = furthest(alloc, forms, words)?;
    if asks_help(word_at(words, index)) {
        push_forms(alloc, text, " fpk", forms, words, index)
    } else {
        text.push_str("fpk: ")?;
        push_why(alloc, text, " fpk", forms, words, index)
    }
}

/// Returns whether a word asks for help: `--help`, `-h` or `help`.
fn asks_help(word: &str) -> bool
    ensures { result ≡ is_for_help word.now }
{
    word == "--help" || word == "-h" || word == "help"
}

/// Appends the reason why words are of none of the forms. The program is the text before a form in
/// its usage.
pub(crate) fn push_reason(
    alloc: Global,
    text: &mut String,
    program: &str,
    forms: &[Form],
    words: &[String],
) -> Result<(), AllocError>
    ensures { OnOk result (string_bytes text.new ≡ string_bytes text.old
        ++ why program.now forms.now (map string_bytes words.now)) }
{
    let index = furthest(alloc, forms, words)?;
    push_why(alloc, text, program, forms, words, index)
}

/// Appends what is wrong at an index, and the usage of the forms that the words before it begin.
fn push_why(
    alloc: Global,
    text: &mut String,
    program: &str,
    forms: &[Form],
    words: &[String],
    index: usize,
) -> Result<(), AllocError>
    requires { index ≤ length words.now }
    ensures { OnOk result (string_bytes text.new ≡ string_bytes text.old
        ++ why_at index program.now forms.now (map string_bytes words.now)) }
{
    push_fault(alloc, text, forms, words, index)?;
    push_forms(alloc, text, program, forms, words, index)
}

/// Appends a line that says what is wrong at an index.
fn push_fault(
    alloc: Global,
    text: &mut String,
    forms: &[Form],
    words: &[String],
    index: usize,
) -> Result<(), AllocError>
    requires { index ≤ length words.now }
    ensures { OnOk result (string_bytes text.new ≡ string_bytes text.old
        ++ line (fault_text (slice_get (map string_bytes words.now) index)
        (place_wanted (map string_bytes words.now) index forms.now))) }
{
    let slot = slot_wanted(alloc, forms, words, index)?;
    match words.get(index) {
        Some(word) => push_word(alloc, text, word.as_str(), slot),
        None => push_missing(text, slot),
    }
}

/// Appends a line that has a word, escaped, and says what is wrong with it at a place.
fn push_word(
    alloc: Global,
    text: &mut String,
    word: &str,
    slot: Option<&Slot>,
) -> Result<(), AllocError>
    ensures { OnOk result (string_bytes text.new ≡ string_bytes text.old
        ++ line (fault_text (Some word.now) (option_map (λ s. place_of s.now) slot.entry))) }
{
    let fault = fault_of(alloc, slot, word)?;
    let word = escape(alloc, word)?;
    write!(text, "'{word}' {fault}\n")
}

/// Appends a line that says what is missing at a place.
fn push_missing(text: &mut String, slot: Option<&Slot>) -> Result<(), AllocError>
    ensures { OnOk result (string_bytes text.new ≡ string_bytes text.old
        ++ line (missing_at (option_map (λ s. place_of s.now) slot.entry))) }
{
    match slot {
        None | Some(Slot::Word(_)) => text.push_str("a word is missing\n"),
        Some(slot) => {
            let name = name_of(slot);
            write!(text, "missing {name}\n")
        }
    }
}

/// Returns the place of the word at an index, in the first form that the words before it begin and
/// that has a place there.
fn slot_wanted(
    alloc: Global,
    forms: &[Form],
    words: &[String],
    index: usize,
) -> Result<Option<&'static Slot>, AllocError>
    requires { index ≤ length words.now }
    ensures { IfOk result (λ slot. option_map (λ s. place_of s.now) slot
        ≡ place_wanted (map string_bytes words.now) index forms.now) }
{
    for form in forms {
        if let Some(slot) = slot_begun(alloc, *form, words, index)? {
            return Ok(Some(slot));
        }
    }
    Ok(None)
}

/// Returns the first place of a form that is left for the word at an index, or `None` if the words
/// before it don't begin the form or leave no place.
fn slot_begun(
    alloc: Global,
    form: Form,
    words: &[String],
    index: usize,
) -> Result<Option<&'static Slot>, AllocError>
    requires { index ≤ length words.now }
    ensures { IfOk result (λ slot. option_map (λ s. place_of s.now) slot
        ≡ place_begun (map string_bytes words.now) index form) }
{
    match places_left(alloc, form, words, index)? {
        Some(left) => Ok(left.first()),
        None => Ok(None),
    }
}

/// Returns the places of a form that are left after this number of words, from the first on, took
/// one each, or `None` if one of these words has no place.
fn places_left(
    alloc: Global,
    form: Form,
    words: &[String],
    count: usize,
) -> Result<Option<&'static [Slot]>, AllocError>
    requires { count ≤ length words.now }
    ensures { IfOk result (λ left. option_map (λ s. map place_of s.now) left ≡ left_of
        (map string_bytes words.now) count form) }
{
    left_after(alloc, form.slots(), &words[..count])
}

/// Returns whether each of this number of words, from the first on, has a place in a form.
fn begins(alloc: Global, form: Form, words: &[String], count: usize) -> Result<bool, AllocError>
    requires { count ≤ length words.now }
    ensures { IfOk result (λ b. b ≡ does_begin (map string_bytes words.now) count form) }
{
    Ok(places_left(alloc, form, words, count)?.is_some())
}

/// Returns what is wrong with a word that doesn't fit its place, or that has no place.
fn fault_of(alloc: Global, slot: Option<&Slot>, word: &str) -> Result<&'static str, AllocError>
    ensures { IfOk result (λ t. t.now
        ≡ fault_at (option_map (λ s. place_of s.now) slot.entry) word.now) }
{
    match slot {
        None => Ok("is one word too many"),
        Some(slot) => fault_at_slot(alloc, slot, word),
    }
}

/// Returns what is wrong with a word that doesn't fit its place.
fn fault_at_slot(alloc: Global, slot: &Slot, word: &str) -> Result<&'static str, AllocError>
    ensures { IfOk result (λ t. t.now ≡ fault_at (Some (place_of slot.now)) word.now) }
{
    match need_of(alloc, slot, word)? {
        Some(need) => Ok(need),
        None => misfit_of(alloc, slot, word),
    }
}

/// Returns what the option in a word needs after its name, or `None` if the word has no name of an
/// option that may be at the place.
fn need_of(alloc: Global, slot: &Slot, word: &str) -> Result<Option<&'static str>, AllocError>
    ensures { IfOk result (λ need. option_copied need ≡ need_at (place_of slot.now) word.now) }
{
    match slot {
        Slot::Permission | Slot::Permissions | Slot::LaunchOptions | Slot::Rules => {
            need_named(alloc, slot, option_name(word))
        }
        _ => Ok(None),
    }
}

/// Returns the part of a word before the first `=`, or the whole word if it has none.
fn option_name(word: &str) -> &str
    ensures { result.now ≡ name_of_option word.now }
{
    match cut_at_equals(word) {
        Some((name, _)) => name,
        None => word,
    }
}

/// Returns what an option needs after its name, or `None` if the name is that of no option. It
/// tries four values, one for each kind of option.
fn need_named(alloc: Global, slot: &Slot, name: &str) -> Result<Option<&'static str>, AllocError>
    ensures { IfOk result (λ need. option_copied need
        ≡ need_by_name (place_of slot.now) name.now) }
{
    Ok(if fits_after(alloc, slot, name, "=a")? {
        Some("needs =X (one name without ;, = and !)")
    } else if fits_after(alloc, slot, name, "=a.b")? {
        Some("needs =N (a name on the bus, with a dot, as org.gnome.Shell)")
    } else if fits_after(alloc, slot, name, "=a=b")? {
        Some("needs =VAR=VALUE (as --env=LANG=C)")
    } else if fits_after(alloc, slot, name, "=a.b=*")? {
        Some("needs =N=RULE (as --call=org.gnome.Shell=*)")
    } else {
        None
    })
}

/// Returns whether a name with this value after it may be at a place.
fn fits_after(alloc: Global, slot: &Slot, name: &str, value: &str) -> Result<bool, AllocError>
    ensures { IfOk result (λ good. good ≡ may_stand (place_of slot.now) (name.now ++ value.now)) }
{
    let word = format!(in alloc; "{name}{value}")?;
    fits(alloc, slot, word.as_str())
}

/// Returns the statement that a word isn't what a place takes.
fn misfit_of(alloc: Global, slot: &Slot, word: &str) -> Result<&'static str, AllocError>
    ensures { IfOk result (λ t. t.now ≡ misfit_at (place_of slot.now) word.now) }
{
    Ok(match slot {
        Slot::Word(_) => "is not known here",
        Slot::Pattern => "is not a pattern (expected KIND/ID/ARCH/BRANCH)",
        Slot::Remote =>
            "is not a name of a remote (expected letters, digits, _, - and ., as lab-1)",
        Slot::Url =>
            "is not a URL of a remote (expected file:///PATH with no blank, as file:///srv/lab)",
        Slot::Ref => "is not a ref (expected KIND/ID/ARCH/BRANCH)",
        Slot::App => "is not a ref of an application (expected app/ID/ARCH/BRANCH)",
        Slot::Id =>
            "is not an ID of an application (expected three parts or more, as org.gnome.Calculator)",
        Slot::Type => "is not a type of GVariant",
        Slot::Permission if fits(alloc, &Slot::Id, word)? =>
            "is an ID, and stands after at least one option (as --share=network)",
        Slot::Permission => "is not an option (as --share=network)",
        Slot::Permissions =>
            "is neither an option (as --share=network) nor an ID (as org.gnome.Calculator)",
        Slot::LaunchOptions => "is not an option of a launch",
        Slot::Rules => "is not a rule of the filter",
        Slot::FromApp => "is not --from=APP (expected --from=app/ID/ARCH/BRANCH)",
        Slot::Count => "is not a number from 1 to 64",
    })
}

/// Appends the usage of the forms that this number of words begin. If the number is 0, it appends a
/// line that points to `fpk --help` instead.
fn push_forms(
    alloc: Global,
    text: &mut String,
    program: &str,
    forms: &[Form],
    words: &[String],
    count: usize,
) -> Result<(), AllocError>
    requires { count ≤ length words.now }
    ensures { OnOk result (string_bytes text.new ≡ string_bytes text.old
        ++ forms_told program.now (map string_bytes words.now) count forms.now) }
{
    if count == 0 {
        text.push_str("see fpk --help\n")
    } else {
        push_usages(alloc, text, program, forms, words, count)
    }
}

/// Appends the usage of the forms that this number of words begin.
fn push_usages(
    alloc: Global,
    text: &mut String,
    program: &str,
    forms: &[Form],
    words: &[String],
    count: usize,
) -> Result<(), AllocError>
    requires { count ≤ length words.now }
    ensures { OnOk result (string_bytes text.new ≡ string_bytes text.old
        ++ usages program.now (map string_bytes words.now) count forms.now) }
{
    for form in forms {
        push_if_begun(alloc, text, program, *form, words, count)?;
    }
    Ok(())
}

/// Appends the usage of a form, if this number of words begin it.
fn push_if_begun(
    alloc: Global,
    text: &mut String,
    program: &str,
    form: Form,
    words: &[String],
    count: usize,
) -> Result<(), AllocError>
    requires { count ≤ length words.now }
    ensures { OnOk result (string_bytes text.new ≡ string_bytes text.old
        ++ usage_begun program.now (map string_bytes words.now) count form) }
{
    if begins(alloc, form, words, count)? {
        push_usage(text, program, form)
    } else {
        Ok(())
    }
}

/// Appends the usage of a form.
fn push_usage(text: &mut String, program: &str, form: Form) -> Result<(), AllocError>
    ensures { OnOk result (string_bytes text.new ≡ string_bytes text.old
        ++ usage_text program.now form) }
{
    text.push_str("usage:")?;
    text.push_str(program)?;
    push_places(text, form.slots())?;
    text.push('\n')
}

/// Appends the name of each place, with a space before it.
pub(crate) fn push_places(text: &mut String, slots: &[Slot]) -> Result<(), AllocError>
    ensures { OnOk result (string_bytes text.new ≡ string_bytes text.old
        ++ flat_map named_place (map place_of slots.now)) }
{
    for slot in slots {
        text.push(' ')?;
        text.push_str(name_of(slot))?;
    }
    Ok(())
}

/// Returns the name of a place in usages.
fn name_of(slot: &Slot) -> &str
    ensures { result.now ≡ place_name (place_of slot.now) }
{
    match slot {
        Slot::Word(text) => text,
        Slot::Pattern => "PATTERN",
        Slot::Remote => "NAME",
        Slot::Url => "URL",
        Slot::Ref => "REF",
        Slot::App => "APP",
        Slot::Id => "ID",
        Slot::Type => "TYPE",
        Slot::Permission => "OPTION",
        Slot::Permissions | Slot::LaunchOptions => "[OPTION..]",
        Slot::Rules => "[RULE..]",
        Slot::FromApp => "--from=APP",
        Slot::Count => "COUNT",
    }
}
