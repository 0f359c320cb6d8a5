//! The levels of access to names (xdg-dbus-proxy(1)).

ghost use Rattle.std.specs.Prelude.{◌≡◌};
ghost use Rattle.bus_policy.specs.Levels.{rank, greater, is_at_least};

/// The access that an application has to a name. Each level includes those before it.
#[derive(Clone, Copy, Debug, PartialEq, Eq)]
pub enum Level {
    /// The application can't see the name.
    None,
    /// The application can see the name.
    See,
    /// The application can call the name, send it signals, and get its broadcasts.
    Talk,
    /// The application can request and release the name.
    Own,
}

impl Level {
    fn rank(self) -> u8
        ensures { result ≡ rank self }
    {
        match self {
            Level::None => 0,
            Level::See => 1,
            Level::Talk => 2,
            Level::Own => 3,
        }
    }

    /// Returns the greater of two levels.
    pub fn or(self, other: Level) -> Level
        ensures { result ≡ greater self other }
    {
        if self.rank() < other.rank() {
            other
        } else {
            self
        }
    }

    /// Returns whether the level is `wanted` or a higher one.
    pub fn reaches(self, wanted: Level) -> bool
        ensures { result ≡ is_at_least wanted self }
    {
        wanted.rank() <= self.rank()
    }
}
