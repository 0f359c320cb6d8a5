//! The lines of refusals.
ghost use Rattle.std.specs.Prelude.{◌≡◌, ◌∷◌, ◌++◌, [], IfOk, codes, decimal, string_bytes};
ghost use Rattle.fp_host.specs.Paths.{path_text};
ghost use Rattle.fp_name.specs.Hex.{hex};
ghost use Rattle.fp_name.specs.Refs.{ref_text};
ghost use Rattle.fl_lines.specs.Lines.{line_of, escaped, object_text, bits_text, octal, mode_text as text_of_mode, refusal_text};
ghost use Rattle.fl_lines.specs.PrintedWords.{what_word as word_of_what};

use crate::escaping::escape;
use crate::lines::{
    decimal_of, digits_of, line_at, line_of_three, line_of_two, number_line, object_of, ref_line,
};
use crate::printed_words::{frame_rule_word, metadata_rule_word, rule_word, side_word, what_word};
use fp_base::{ObjKind, Text, What};
use fp_host::Path;
use fp_name::{Digest, RefName};
use fp_small::Refusal;
use std::alloc::{AllocError, Global};

/// Returns the line of a refusal: `error:`, the reason, and what it is about.
pub fn refusal_line(alloc: Global, refusal: &Refusal) -> Result<Text, AllocError>
    ensures { IfOk result (λ t. t ≡ refusal_text refusal.now) }
{
    match refusal {
        Refusal::BadWords { index } => number_line(alloc, "error: words", *index),
        Refusal::NoSuchRemote { remote } => line_of_two(alloc, "error: no remote", remote.as_str()),
        Refusal::RemoteExists { remote } => {
            line_of_two(alloc, "error: remote exists", remote.as_str())
        }
        Refusal::RemoteInUse { remote, name } => {
            line_of_three(
                alloc,
                "error: remote in use",
                remote.as_str(),
                name.as_str(),
            )
        }
        Refusal::WrongMode { remote, mode } => {
            remote_mode_line(alloc, remote.as_str(), mode.as_str())
        }
        Refusal::NoSuchRef { remote, name } => {
            line_of_three(alloc, "error: no ref", remote.as_str(), name.as_str())
        }
        Refusal::AlreadyInstalled { name } => ref_line(alloc, "error: installed", name),
        Refusal::NotInstalled { name } => ref_line(alloc, "error: not installed", name),
        Refusal::RuntimeMissing { name } => ref_line(alloc, "error: runtime missing", name),
        Refusal::RuntimeInUse { runtime, app } => {
            line_of_three(
                alloc,
                "error: runtime in use",
                runtime.as_str(),
                app.as_str(),
            )
        }
        Refusal::MissingObject { digest, kind } => {
            object_line(alloc, "error: missing object", digest, *kind)
        }
        Refusal::CorruptObject { digest, kind, got } => corrupt_line(alloc, digest, *kind, got),
        Refusal::MalformedObject { digest, kind, rule } => {
            let words = "error: malformed object";
            fault_line(alloc, words, digest, *kind, rule_word(*rule))
        }
        Refusal::MalformedValue { digest } => value_line(alloc, digest),
        Refusal::ModeRefused { digest, kind, mode } => mode_line(alloc, digest, *kind, *mode),
        Refusal::ReservedName { commit } => commit_line(alloc, commit),
        Refusal::BadMetadata { name, line, rule } => {
            let rule = metadata_rule_word(*rule);
            line_at(alloc, "error: metadata", name.as_str(), *line, rule)
        }
        Refusal::RefBinding { name } => ref_line(alloc, "error: ref binding", name),
        Refusal::Older {
            name,
            have,
            offered,
        } => older_line(alloc, name, *have, *offered),
        Refusal::PinExists { pin } => line_of_two(alloc, "error: pin exists", pin.as_str()),
        Refusal::NoSuchPin { pin } => line_of_two(alloc, "error: no pin", pin.as_str()),
        Refusal::Limit { what, number } => limit_line(alloc, *what, *number),
        Refusal::BadRecord { line } => number_line(alloc, "error: record", *line),
        Refusal::BadMessage { side, index, rule } => {
            let rule = frame_rule_word(*rule);
            line_at(alloc, "error: message", side_word(*side), *index, rule)
        }
        Refusal::Damaged { path } => damaged_line(alloc, path),
        Refusal::NoPrevious { name } => ref_line(alloc, "error: no previous", name),
    }
}

/// Returns the line for a remote whose repository isn't of the mode `bare-user-only`. The other
/// mode is escaped.
fn remote_mode_line(alloc: Global, remote: &str, mode: &str) -> Result<Text, AllocError>
    ensures { IfOk result (λ t. t ≡ line_of (codes "error: remote mode" ∷ remote.now ∷ escaped
        mode.now ∷ [])) }
{
    let mode = escape(alloc, mode)?;
    line_of_three(alloc, "error: remote mode", remote, mode.as_str())
}

/// Returns the line for a damaged file of the installation. The path is escaped.
fn damaged_line(alloc: Global, path: &Path) -> Result<Text, AllocError>
    ensures { IfOk result (λ t. t ≡ line_of (codes "error: damaged" ∷ escaped (path_text path.now)
        ∷ [])) }
{
    let path = escape(alloc, path.text())?;
    line_of_two(alloc, "error: damaged", path.as_str())
}

/// Returns the line of some words and an object.
fn object_line(
    alloc: Global,
    words: &str,
    digest: &Digest,
    kind: ObjKind,
) -> Result<Text, AllocError>
    ensures { IfOk result (λ t. t ≡ line_of (words.now ∷ object_text digest.now kind ∷ [])) }
{
    let object = object_of(alloc, digest, kind)?;
    line_of_two(alloc, words, object.as_str())
}

/// Returns the line of some words, an object and a word for its fault.
fn fault_line(
    alloc: Global,
    words: &str,
    digest: &Digest,
    kind: ObjKind,
    fault: &str,
) -> Result<Text, AllocError>
    ensures { IfOk result (λ t. t ≡ line_of (words.now ∷ object_text digest.now kind ∷ fault.now ∷
        [])) }
{
    let object = object_of(alloc, digest, kind)?;
    line_of_three(alloc, words, object.as_str(), fault)
}

/// Returns the line for an object whose bytes have another digest.
fn corrupt_line(
    alloc: Global,
    digest: &Digest,
    kind: ObjKind,
    got: &Digest,
) -> Result<Text, AllocError>
    ensures { IfOk result (λ t. t ≡ line_of (codes "error: corrupt object" ∷ object_text digest.now
        kind ∷ hex got.now ∷ [])) }
{
    let got = digits_of(alloc, got)?;
    fault_line(alloc, "error: corrupt object", digest, kind, got.as_str())
}

/// Returns the line for bytes that aren't the normal form of a value of a type.
fn value_line(alloc: Global, digest: &Digest) -> Result<Text, AllocError>
    ensures { IfOk result (λ t. t ≡ line_of (codes "error: malformed object" ∷
        (hex digest.now ++ codes ".value") ∷ codes "value" ∷ [])) }
{
    let mut object = digits_of(alloc, digest)?;
    object.push_str(".value")?;
    line_of_three(alloc, "error: malformed object", object.as_str(), "value")
}

/// Returns the line for an object whose mode is refused.
fn mode_line(alloc: Global, digest: &Digest, kind: ObjKind, mode: u32) -> Result<Text, AllocError>
    ensures { IfOk result (λ t. t ≡ line_of (codes "error: mode refused" ∷ object_text digest.now
        kind ∷ text_of_mode kind mode ∷ [])) }
{
    let mode = mode_of(alloc, kind, mode)?;
    fault_line(alloc, "error: mode refused", digest, kind, mode.as_str())
}

/// Returns the mode of an object in octal: the four digits of its permission bits for a file, six
/// digits for other objects.
fn mode_of(alloc: Global, kind: ObjKind, mode: u32) -> Result<String, AllocError>
    ensures { IfOk result (λ t. string_bytes t ≡ text_of_mode kind mode) }
{
    match kind {
        ObjKind::Commit | ObjKind::DirTree | ObjKind::DirMeta => octal_of(alloc, mode),
        ObjKind::File => bits_of(alloc, mode),
    }
}

/// Returns the six lowest octal digits of a mode, the highest first.
#[tactic(auto, unfolding(crate::specs::Lines::octal))]
pub fn octal_of(alloc: Global, mode: u32) -> Result<String, AllocError>
    ensures { IfOk result (λ t. string_bytes t ≡ octal mode) }
{
    let high = mode / 32768 % 8;
    let low = mode / 4096 % 8;
    let bits = bits_of(alloc, mode)?;
    format!(in alloc; "{high}{low}{bits}")
}

/// Returns the four lowest octal digits of a mode, the highest first: its permission bits.
fn bits_of(alloc: Global, mode: u32) -> Result<String, AllocError>
    ensures { IfOk result (λ t. string_bytes t ≡ bits_text mode) }
{
    let special = mode / 512 % 8;
    let user = mode / 64 % 8;
    let group = mode / 8 % 8;
    let others = mode % 8;
    format!(in alloc; "{special}{user}{group}{others}")
}

/// Returns the line for a commit whose root has an entry with the reserved name `deploy`.
fn commit_line(alloc: Global, commit: &Digest) -> Result<Text, AllocError>
    ensures { IfOk result (λ t. t ≡ line_of (codes "error: reserved name" ∷ hex commit.now ∷ [])) }
{
    let digits = digits_of(alloc, commit)?;
    line_of_two(alloc, "error: reserved name", digits.as_str())
}

/// Returns the line for a remote's commit that is older than the deployed one. Both timestamps are
/// in seconds since 1970.
fn older_line(alloc: Global, name: &RefName, have: u64, offered: u64) -> Result<Text, AllocError>
    ensures { IfOk result (λ t. t ≡ line_of (codes "error: older" ∷ ref_text name.now ∷ decimal
        have ∷ decimal offered ∷ [])) }
{
    let offered = decimal_of(alloc, offered)?;
    line_at(alloc, "error: older", name.as_str(), have, offered.as_str())
}

/// Returns the line for an exceeded limit.
fn limit_line(alloc: Global, what: What, number: u64) -> Result<Text, AllocError>
    ensures { IfOk result (λ t. t ≡ line_of (codes "error: limit" ∷ word_of_what what ∷ decimal
        number ∷ [])) }
{
    let number = decimal_of(alloc, number)?;
    line_of_three(alloc, "error: limit", what_word(what), number.as_str())
}
