//! The four parts of a ref or of a pattern of refs.

ghost use Rattle.std.specs.Prelude.{◌≡◌, Some, option_map, is_some, IfOk};
ghost use Rattle.std.specs.List.{slice_split};
ghost use Rattle.fp_name.specs.Bytes.{is_slash};
ghost use Rattle.fp_name.specs.Refs.{is_ref, ref_text, remainder_kind, parts_of, ref_of};
ghost use Rattle.fp_name.specs.Parts.{ref_in};
ghost use Rattle.fp_name.specs.Pins.{are_pin_parts, is_pin, part_matches, parts_match};

use crate::grammar::{is_arch, is_branch, is_id};
use crate::kind::RefKind;
use fp_base::Text;
use std::alloc::{AllocError, Global};

/// The parts of a text `KIND/ID/ARCH/BRANCH`, of which only the kind is checked.
#[derive(Clone, Copy)]
pub struct Parts<'a> {
    /// The first part: an application or a runtime.
    pub kind: RefKind,
    /// The second part: the ID.
    pub id: &'a str,
    /// The third part: the architecture.
    pub arch: &'a str,
    /// The last part: the branch.
    pub branch: &'a str,
}

impl Parts<'_> {
    /// Returns whether each part is in its grammar, so that the parts are a ref.
    pub fn are_ref(self) -> bool
        ensures { result ≡ is_ref (ref_in self.entry) }
    {
        is_id(self.id) && is_arch(self.arch) && is_branch(self.branch)
    }

    /// Returns whether each of the last three parts is `*` or in its grammar, so that the parts are
    /// a pattern.
    pub fn are_pin(self) -> bool
        ensures { result ≡ are_pin_parts (Some (ref_in self.entry)) }
    {
        (self.id == "*" || is_id(self.id))
            && (self.arch == "*" || is_arch(self.arch))
            && (self.branch == "*" || is_branch(self.branch))
    }

    /// Returns whether these parts, as a pattern, match other parts: the kinds are equal, and each
    /// other part of the pattern is equal to its counterpart or `*`.
    pub fn match_parts(self, other: Parts<'_>) -> bool
        ensures { result ≡ parts_match (Some (ref_in self.entry)) (ref_in other.entry) }
    {
        self.kind == other.kind
            && matches_part(self.id, other.id)
            && matches_part(self.arch, other.arch)
            && matches_part(self.branch, other.branch)
    }

    /// Joins the parts to the text `KIND/ID/ARCH/BRANCH`.
    pub fn join(self, alloc: Global) -> Result<Text, AllocError>
        ensures { IfOk result (λ text. text ≡ ref_text (ref_in self.entry)) }
    {
        let word = self.kind.word();
        let id = self.id;
        let arch = self.arch;
        let branch = self.branch;
        let text = format!(in alloc; "{word}/{id}/{arch}/{branch}")?;
        Ok(Text::from_string(text))
    }
}

/// Returns whether a part of a pattern matches a part of a ref: it is equal, or the pattern's is
/// `*`.
fn matches_part(pattern: &str, part: &str) -> bool
    ensures { result ≡ part_matches pattern.now part.now }
{
    pattern == "*" || pattern == part
}

/// Splits a text `ID/ARCH/BRANCH` and returns its parts with the kind, or `None` if it doesn't have
/// exactly two slashes.
pub fn parts_remainder(kind: RefKind, text: &str) -> Option<Parts<'_>>
    ensures { option_map ref_in result ≡ remainder_kind (slice_split is_slash text.now) kind }
{
    let (id, rest) = text.split_once('/')?;
    let (arch, branch) = rest.split_once('/')?;
    if branch.contains('/') {
        return None;
    }
    Some(Parts {
        kind,
        id,
        arch,
        branch,
    })
}

/// Splits a text `KIND/ID/ARCH/BRANCH`. Returns `None` if it doesn't have exactly three slashes, or
/// if the first part isn't a kind's word.
pub fn parts_of(text: &str) -> Option<Parts<'_>>
    ensures { option_map ref_in result ≡ parts_of text.now }
{
    let (word, rest) = text.split_once('/')?;
    let kind = RefKind::of_word(word)?;
    parts_remainder(kind, rest)
}

/// Returns whether a text is a ref.
#[tactic(auto, unfolding(crate::specs::Refs::ref_of))]
pub fn is_ref(text: &str) -> bool
    ensures { result ≡ is_some (ref_of text.now) }
{
    let Some(parts) = parts_of(text) else {
        return false;
    };
    parts.are_ref()
}

/// Returns whether a text is a pattern of refs.
#[tactic(auto, unfolding(crate::specs::Pins::is_pin))]
pub fn is_pin(text: &str) -> bool
    ensures { result ≡ is_pin text.now }
{
    let Some(parts) = parts_of(text) else {
        return false;
    };
    parts.are_pin()
}
