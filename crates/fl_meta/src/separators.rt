//! Splitting lists into entries.

ghost use Rattle.std.specs.Prelude.{◌≡◌, ◌∷◌, ◌<◌, [], length, MatchOption, IfSome};
ghost use Rattle.std.specs.Option.{option_copied};
ghost use Rattle.fl_meta.specs.Separators as separators;

/// Returns whether an odd number of backslashes precedes the byte after this one; `escaped` is the
/// same for this byte.
fn escapes(escaped: bool, byte: u8) -> bool
    ensures { result ≡ separators.escapes escaped byte }
{
    byte == b'\\' && !escaped
}

/// Returns whether a byte ends an entry: a `;` that isn't escaped.
fn separates(escaped: bool, byte: u8) -> bool
    ensures { result ≡ separators.separates escaped byte }
{
    byte == b';' && !escaped
}

/// Returns whether a text ends in an odd number of backslashes, so that no `;` after it would end
/// an entry.
pub(crate) fn ends_escaped(text: &str) -> bool
    ensures { result ≡ separators.ends_escaped text.now }
{
    let mut escaped = false;
    for byte in text.as_bytes() {
        escaped = escapes(escaped, *byte);
    }
    escaped
}

/// Returns the index of the `;` that ends the first entry of a list, or `None` if the list has only
/// one entry.
fn entry_end(list: &[u8]) -> Option<usize>
    ensures { MatchOption result (separators.entries_of list.now ≡ list.now ∷ [])
        (separators.EndsAt list.now) }
{
    let mut end = 0;
    let mut escaped = false;
    while end < list.len() {
        if separates(escaped, list[end]) {
            return Some(end);
        }
        escaped = escapes(escaped, list[end]);
        end += 1;
    }
    None
}

/// Splits off the first entry of a list. Returns it and the text after the `;` that ends it, or
/// `None` if the list has only one entry. A `;` after an odd number of backslashes belongs to its
/// entry.
pub fn first_entry(list: &str) -> (&str, Option<&str>)
    ensures entries { separators.entries_of list.now ≡ result.0.now
        ∷ separators.other_entries (option_copied result.1) }
    ensures shorter { IfSome result.1 (λ rest. length rest.now < length list.now) }
{
    match entry_end(list.as_bytes()) {
        Some(end) => (&list[..end], Some(&list[end + 1..])),
        None => (list, None),
    }
}
