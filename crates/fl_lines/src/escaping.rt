//! Escaping of untrusted texts before they are printed.
ghost use Rattle.std.specs.Prelude.{◌≡◌, ◌||◌, ◌==◌, ◌/◌, ◌%◌, ◌<◌, ◌++◌, ◌∷◌, [], false, is_ok, nat_lt, IfOk, OnOk, string_bytes, encode_utf8};
ghost use Rattle.fl_lines.specs.Lines.{is_escaped, escape_of, escaped};

use std::alloc::{AllocError, Global};

/// Returns a text with each control byte (below 0x20, or 0x7f) and each backslash replaced by a
/// backslash and two lower-case hexadecimal digits.
pub fn escape(alloc: Global, text: &str) -> Result<String, AllocError>
    ensures { IfOk result (λ t. string_bytes t ≡ escaped text.now) }
{
    let mut out = String::new(alloc);
    for letter in text.chars() {
        push_escaped(&mut out, letter)?;
    }
    Ok(out)
}

fn is_escaped(letter: char) -> bool
    ensures { result ≡ is_escaped letter }
{
    letter < ' ' || letter == '\x7f' || letter == '\\'
}

fn push_escaped(out: &mut String, letter: char) -> Result<(), AllocError>
    ensures { OnOk result (string_bytes out.new ≡ string_bytes out.old ++ escaped
        (encode_utf8 letter)) }
{
    if !is_escaped(letter) {
        return out.push(letter);
    }
    let code = u32::from(letter);
    write!(out, "\\{code:02x}")
}
