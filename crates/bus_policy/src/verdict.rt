//! Verdicts on messages, with the names that xdg-dbus-proxy gives them.

ghost use Rattle.std.specs.Prelude.{◌≡◌};
ghost use Rattle.bus_policy.specs.Events.{is_forwarded};

/// The decision for a message.
#[derive(Clone, Copy, Debug, PartialEq, Eq)]
pub enum Verdict {
    /// The message is forwarded unchanged.
    Pass,
    /// The message is a list of names, and is forwarded with only the names that the client may
    /// see.
    FilterNameList,
    /// The call isn't forwarded, and the client gets the error `AccessDenied`.
    Deny,
    /// The call isn't forwarded, and the client gets the error `ServiceUnknown`.
    Hide,
    /// The message isn't forwarded, and nothing is sent instead.
    Drop,
}

impl Verdict {
    /// Returns whether the message is forwarded, unchanged or not.
    pub fn is_forwarding(self) -> bool
        ensures { result ≡ is_forwarded self }
    {
        matches!(self, Verdict::Pass | Verdict::FilterNameList)
    }
}
