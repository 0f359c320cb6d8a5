//! Comparison of two states of an installation.
use crate::showing::{Shown, State};
use fpk_case_text::{bytes_text, difference};
use std::alloc::{AllocError, Global};

/// Returns whether a state counts as the expected one: both show the same, also after the next
/// command, and the made remotes have all expected parts. They may have more parts, but only such
/// as one of the states has.
pub fn is_like(state: Option<&State>, expected: Option<&State>, states: &[State]) -> bool {
    match (state, expected) {
        (Some(state), Some(expected)) => {
            state.shown == expected.shown
                && state.next == expected.next
                && has_parts(state, &expected.parts)
                && has_only_parts(&state.parts, states)
        }
        _ => false,
    }
}

/// Returns whether a state has all these parts of made remotes.
fn has_parts(state: &State, parts: &[Vec<u8>]) -> bool {
    parts.iter().all(|part| has_part(state, part))
}

/// Returns whether each of the parts is one of a state.
fn has_only_parts(parts: &[Vec<u8>], states: &[State]) -> bool {
    parts
        .iter()
        .all(|part| states.iter().any(|state| has_part(state, part)))
}

fn has_part(state: &State, part: &[u8]) -> bool {
    state.parts.iter().any(|other| other.as_slice() == part)
}

/// Returns the message for a state that is neither that after this number of lines nor that after
/// the next one.
pub fn other_text(
    alloc: Global,
    lines: usize,
    state: &State,
    states: &[State],
) -> Result<String, AllocError> {
    let Some(expected) = expected_of(lines, state, states) else {
        let shown = bytes_text(alloc, &state.shown.lists)?;
        return format!(in alloc; "after {lines} lines this was shown: {shown}");
    };
    if state.shown != expected.shown {
        let text = shown_difference(alloc, &expected.shown, &state.shown)?;
        return format!(in alloc; "after {lines} lines: {text}");
    }
    if state.next != expected.next {
        let text = shown_difference(alloc, &expected.next, &state.next)?;
        return format!(in alloc; "after {lines} lines and the next command: {text}");
    }
    format!(in alloc; "after {lines} lines a made remote lacks a part, or has one of no state")
}

/// Returns the expected state that has the same lists: that after the next line or else that after
/// this number of lines.
fn expected_of<'a>(lines: usize, state: &State, states: &'a [State]) -> Option<&'a State> {
    let next = lines.saturating_add(1);
    match (states.get(next), states.get(lines)) {
        (Some(later), _) if has_lists_of(later, state) => Some(later),
        (_, Some(first)) if has_lists_of(first, state) => Some(first),
        _ => None,
    }
}

fn has_lists_of(one: &State, other: &State) -> bool {
    one.shown.lists.as_slice() == other.shown.lists.as_slice()
}

/// Returns the message for the first difference of two that differ.
fn shown_difference(alloc: Global, expected: &Shown, shown: &Shown) -> Result<String, AllocError> {
    if shown.lists != expected.lists {
        return difference(alloc, "lists", &expected.lists, &shown.lists);
    }
    if shown.details != expected.details {
        return difference(alloc, "details", &expected.details, &shown.details);
    }
    if shown.offers != expected.offers {
        return difference(alloc, "made remotes", &expected.offers, &shown.offers);
    }
    String::from_str(alloc, "there is a file config in one of the two alone")
}
