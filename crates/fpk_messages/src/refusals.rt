//! The standard output, with its last refusal.
use fp_realhost::Screen;
use std::alloc::Global;
use std::cell::Cell;
use std::fmt::Display;
use std::{io, str};

/// A screen that keeps the line of the last refusal printed on it, and whether anything was
/// printed. It notes only what is printed by `write_all`, as by a host.
pub struct Refusals<'a, R> {
    screen: Screen<'a, R>,
    alloc: Global,
    last: Cell<Option<String>>,
    has_printed: Cell<bool>,
}

impl<R> Drop for Refusals<'_, R> {
    fn drop(self) {
        let Refusals {
            screen: _,
            alloc: _,
            last: _,
            has_printed: _,
        } = self;
    }
}

impl<'a, R> Refusals<'a, R> {
    /// Wraps a screen on which nothing was printed yet.
    pub fn on(screen: Screen<'a, R>, alloc: Global) -> Self {
        Refusals {
            screen,
            alloc,
            last: Cell::new(None),
            has_printed: Cell::new(false),
        }
    }

    /// Returns the line of the last refusal, with its newline, and forgets it. Returns `None` if
    /// there was none, or memory ran out for it.
    pub fn take_last(&self) -> Option<String> {
        self.last.replace(None)
    }

    /// Returns whether anything was printed.
    pub fn has_printed(&self) -> bool {
        self.has_printed.get()
    }
}

impl<R: Print> Print for Refusals<'_, R> {
    fn print<D: Display + Drop>(&self, value: D) -> io::Result<()> {
        self.screen.print(value)
    }

    fn println<D: Display + Drop>(&self, value: D) -> io::Result<()> {
        self.screen.println(value)
    }

    fn write_all(&self, bytes: &[u8]) -> io::Result<()> {
        self.has_printed.set(true);
        if bytes.starts_with(b"error: ") {
            self.last.set(text_of(self.alloc, bytes));
        }
        self.screen.write_all(bytes)
    }
}

/// Returns the bytes as a text, or `None` if they aren't UTF-8 or memory runs out.
fn text_of(alloc: Global, bytes: &[u8]) -> Option<String> {
    match str::from_utf8(bytes) {
        Ok(text) => text.to_string(alloc).ok(),
        Err(_) => None,
    }
}
