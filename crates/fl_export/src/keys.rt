//! Selection of a desktop file's exported pairs, by their keys.
ghost use Rattle.std.specs.Prelude.{◌≡◌, ◌&&◌, option_map};
ghost use Rattle.std.specs.List.{list_all};
ghost use Rattle.fp_keyfile.specs.Lines.{split_at};
ghost use Rattle.fl_export.specs.Keys as spec;

use crate::rewriting::begins_with;

/// Returns whether a byte may be in a key's name: an ASCII letter, a digit or `-`.
fn is_name_byte(byte: u8) -> bool
    ensures { result ≡ spec.is_name_byte byte }
{
    byte.is_ascii_alphanumeric() || byte == b'-'
}

/// Returns whether a byte may be in a key's locale: an ASCII letter, a digit or one of `-`, `_`,
/// `.` and `@`.
fn is_locale_byte(byte: u8) -> bool
    ensures { result ≡ spec.is_locale_byte byte }
{
    is_name_byte(byte) || byte == b'_' || byte == b'.' || byte == b'@'
}

fn are_name_bytes(bytes: &[u8]) -> bool
    ensures { result ≡ list_all spec.is_name_byte bytes.now }
{
    bytes.iter().all(|byte| is_name_byte(*byte))
}

fn are_locale_bytes(bytes: &[u8]) -> bool
    ensures { result ≡ list_all spec.is_locale_byte bytes.now }
{
    bytes.iter().all(|byte| is_locale_byte(*byte))
}

/// Returns whether a text is a key without a locale.
fn is_name(text: &str) -> bool
    ensures { result ≡ spec.is_name text.now }
{
    !text.is_empty() && are_name_bytes(text.as_bytes())
}

/// Returns whether a text is a locale.
fn is_locale(text: &str) -> bool
    ensures { result ≡ spec.is_locale text.now }
{
    !text.is_empty() && are_locale_bytes(text.as_bytes())
}

/// Returns whether a text is a locale followed by `]`.
#[tactic(auto, unfolding(crate::specs::Keys::is_locale_end))]
fn is_locale_end(text: &str) -> bool
    ensures { result ≡ spec.is_locale_end text.now }
{
    match text.strip_suffix("]") {
        Some(locale) => is_locale(locale),
        None => false,
    }
}

/// Splits a text at its first `[`, and returns what is before and after it.
fn cut_at_bracket(text: &str) -> Option<(&str, &str)>
    ensures { option_map (λ x. (x.0.now, x.1.now)) result ≡ split_at 91 text.now }
{
    text.split_once('[')
}

fn are_parts(name: &str, rest: &str) -> bool
    ensures { result ≡ (spec.is_name name.now && spec.is_locale_end rest.now) }
{
    is_name(name) && is_locale_end(rest)
}

/// Returns whether a key is `NAME` or `NAME[LOCALE]`, where NAME has only ASCII letters, digits and
/// `-` (Desktop Entry Specification). Desktops may expand the values of other keys, such as
/// `Icon[$e]`.
fn is_plain(key: &str) -> bool
    ensures { result ≡ spec.is_plain key.now }
{
    match cut_at_bracket(key) {
        Some((name, rest)) => are_parts(name, rest),
        None => is_name(key),
    }
}

/// Returns whether a desktop would run the key's value outside the sandbox, or take it as the ID of
/// the application that the file belongs to.
fn is_foreign(key: &str) -> bool
    ensures { result ≡ spec.is_foreign key.now }
{
    key == "X-GNOME-Bugzilla-ExtraInfoScript" || key == "X-Flatpak"
}

/// Returns whether the key sets the directory in which a desktop starts the command, or makes a
/// desktop start a D-Bus service instead of the command.
fn is_misleading(key: &str) -> bool
    ensures { result ≡ spec.is_misleading key.now }
{
    key == "Path" || key == "DBusActivatable"
}

/// Returns whether the key's value is a command that isn't rewritten: `TryExec`, which names a
/// program inside the application, and localised commands.
fn is_other_command(key: &str) -> bool
    ensures { result ≡ spec.is_other_command key.now }
{
    key == "TryExec" || begins_with(key, "Exec[") || begins_with(key, "TryExec[")
}

/// Returns whether pairs with this key are left out.
pub(crate) fn is_left_out(key: &str) -> bool
    ensures { result ≡ spec.is_left_out key.now }
{
    is_foreign(key) || is_misleading(key) || is_other_command(key) || !is_plain(key)
}
