//! Zero bytes in texts, and D-Bus object paths.
ghost use Rattle.std.specs.Prelude.{◌≡◌, false};
ghost use Rattle.gv_value.specs.Texts.{has_zero as has_zero_byte, is_path_char as is_char_of_path, are_elements as are_path_elements, is_object_path as is_path};

/// Returns whether a zero byte is among the bytes.
pub fn has_zero(text: &[u8]) -> bool
    ensures { result ≡ has_zero_byte text.now }
{
    for byte in text {
        if *byte == 0 {
            return true;
        }
    }
    false
}

/// Returns whether the byte is an ASCII letter, a digit or `_`.
fn is_path_char(letter: u8) -> bool
    ensures { result ≡ is_char_of_path letter }
{
    letter.is_ascii_lowercase()
        || letter.is_ascii_uppercase()
        || letter.is_ascii_digit()
        || letter == b'_'
}

/// Returns whether the text is a D-Bus object path (D-Bus specification, "Valid Object Paths").
pub fn is_object_path(text: &[u8]) -> bool
    ensures { result ≡ is_path text.now }
{
    match text.split_first() {
        Some((first, rest)) => *first == b'/' && (rest.is_empty() || are_elements(rest)),
        None => false,
    }
}

/// Returns whether the text is elements of an object path, separated by single slashes. There is at
/// least one, and none is empty.
fn are_elements(text: &[u8]) -> bool
    ensures { result ≡ are_path_elements false text.now }
{
    let mut begun = false;
    for letter in text {
        if *letter == b'/' {
            if !begun {
                return false;
            }
            begun = false;
        } else {
            if !is_path_char(*letter) {
                return false;
            }
            begun = true;
        }
    }
    begun
}
