//! Patterns of names, and unique names.

ghost use Rattle.std.specs.Prelude.{◌≡◌, if◌then◌else◌, Some, None};
ghost use Rattle.fp_base.specs.Steps.{Gives};
ghost use Rattle.bus_policy.specs.Events.{is_unique_like};
ghost use Rattle.bus_policy.specs.Levels.{is_open, stem, is_pattern, pattern_matches};

use bus_frame::{are_name_elements, is_well_known_name};
use bus_rules::is_at_or_under;

/// Returns NAME of a pattern `NAME.*`, or `None` for other patterns.
fn stem_of(pattern: &[u8]) -> Option<&[u8]>
    ensures { Gives (λ s. s.now) result
        (if is_open pattern.now then Some (stem pattern.now) else None) }
{
    if !pattern.ends_with(b".*") {
        return None;
    }
    Some(&pattern[..pattern.len() - 2])
}

/// Returns whether a text is a pattern: a well-known name, or one or more elements of one and then
/// `.*`.
#[tactic(auto, unfolding(crate::specs::Levels::is_pattern))]
pub fn is_name_pattern(pattern: &[u8]) -> bool
    ensures { result ≡ is_pattern pattern.now }
{
    if is_well_known_name(pattern) {
        return true;
    }
    match stem_of(pattern) {
        Some(stem) => are_name_elements(stem),
        None => false,
    }
}

/// Returns whether a pattern matches a name: it is the name, or it is `NAME.*` and the name is NAME
/// or below NAME.
#[tactic(auto, unfolding(crate::specs::Levels::pattern_matches))]
pub fn matches_name(pattern: &[u8], name: &[u8]) -> bool
    ensures { result ≡ pattern_matches pattern.now name.now }
{
    match stem_of(pattern) {
        Some(stem) => is_at_or_under(b'.', name, stem),
        None => name == pattern,
    }
}

/// Returns whether a name begins with `:` and thus counts as a unique name, even if it isn't valid.
pub fn is_like_unique(name: &[u8]) -> bool
    ensures { result ≡ is_unique_like name.now }
{
    match name {
        [first, ..] => *first == b':',
        [] => false,
    }
}
