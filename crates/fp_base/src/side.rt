//! The two sides of a D-Bus connection.

use std::fmt;

/// The side of a D-Bus connection that sent a message.
#[derive(Clone, Copy, Debug, PartialEq, Eq)]
pub enum Side {
    /// The client, an application.
    Client,
    /// The message bus.
    Bus,
}

impl Side {
    fn words(self) -> &'static str {
        match self {
            Side::Client => "the client",
            Side::Bus => "the bus",
        }
    }
}

impl fmt::Display for Side {
    fn fmt<W: fmt::Write>(&self, f: &mut fmt::Formatter<W>) -> fmt::Result {
        f.write_str(self.words())
    }
}
