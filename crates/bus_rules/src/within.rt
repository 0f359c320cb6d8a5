//! Paths and names below others.

ghost use Rattle.std.specs.Prelude.{◌≡◌};
ghost use Rattle.bus_rules.specs.Rules.{is_within};

/// Returns whether the text is `above`, or begins with `above` and the separator: a path at or
/// below another one, or a name at or below another one.
pub fn is_at_or_under(separator: u8, text: &[u8], above: &[u8]) -> bool
    ensures { result ≡ is_within separator text.now above.now }
{
    if !text.starts_with(above) {
        return false;
    }
    match text.get(above.len()) {
        Some(next) => *next == separator,
        None => true,
    }
}
