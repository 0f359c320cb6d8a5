//! The standard output, with escapes for characters that would control a terminal.
use std::alloc::{AllocError, Global};
use std::fmt::{Display, Write};
use std::io;

/// The standard output of a system. On a terminal, control characters except the newline (C0, DEL
/// and C1) and characters that change the direction of text (Unicode's Bidi_Control) are printed as
/// escapes such as `\u{1b}`. If the bytes aren't UTF-8, those outside ASCII are printed as `\x9b`.
/// To anything but a terminal, the bytes are printed unchanged.
#[derive(Drop)]
pub struct Screen<'a, R> {
    rt: &'a R,
    alloc: Global,
    is_terminal: bool,
}

impl<'a, R: Print> Screen<'a, R> {
    /// Creates the output of a system. `is_terminal` tells whether it is a terminal.
    pub fn new(rt: &'a R, alloc: Global, is_terminal: bool) -> Self {
        Screen {
            rt,
            alloc,
            is_terminal,
        }
    }
}

impl<R: Print> Print for Screen<'_, R> {
    fn print<D: Display + Drop>(&self, value: D) -> io::Result<()> {
        match value.to_string(self.alloc) {
            Ok(text) => self.write_all(text.as_bytes()),
            Err(e) => Err(io::Error::from(e)),
        }
    }

    fn println<D: Display + Drop>(&self, value: D) -> io::Result<()> {
        match self.print(value) {
            Ok(()) => self.write_all(b"\n"),
            Err(e) => Err(e),
        }
    }

    fn write_all(&self, bytes: &[u8]) -> io::Result<()> {
        if !self.is_terminal {
            return self.rt.write_all(bytes);
        }
        match shown(self.alloc, bytes) {
            Ok(text) => self.rt.write_all(text.as_bytes()),
            Err(e) => Err(io::Error::from(e)),
        }
    }
}

/// Returns the bytes as a text with escapes.
fn shown(alloc: Global, bytes: &[u8]) -> Result<String, AllocError> {
    let mut text = String::new(alloc);
    let pushed = match std::str::from_utf8(bytes) {
        Ok(whole) => push_text(&mut text, whole),
        Err(_) => push_bytes(&mut text, bytes),
    };
    match pushed {
        Ok(()) => Ok(text),
        Err(e) => Err(e),
    }
}

fn push_text(shown: &mut String, text: &str) -> Result<(), AllocError> {
    for letter in text.chars() {
        if is_driving(letter) {
            write!(shown, "{}", letter.escape_unicode())?;
        } else {
            shown.push(letter)?;
        }
    }
    Ok(())
}

fn push_bytes(shown: &mut String, bytes: &[u8]) -> Result<(), AllocError> {
    for byte in bytes {
        let letter = char::from(*byte);
        if !byte.is_ascii() {
            write!(shown, "\\x{byte:02x}")?;
        } else if is_driving(letter) {
            write!(shown, "{}", letter.escape_unicode())?;
        } else {
            shown.push(letter)?;
        }
    }
    Ok(())
}

/// Returns whether a terminal may do more with the character than show it.
fn is_driving(letter: char) -> bool {
    match letter {
        '\n' => false,
        '\u{61c}' | '\u{200e}' | '\u{200f}' => true,
        '\u{202a}'..='\u{202e}' | '\u{2066}'..='\u{2069}' => true,
        _ => letter.is_control(),
    }
}
