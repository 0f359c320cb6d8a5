//! The lines that commands print.
ghost use Rattle.std.specs.Prelude.{◌≡◌, ◌∷◌, ◌++◌, [], true, IfOk, OnOk, codes, decimal, string_bytes};
ghost use Rattle.fp_name.specs.Hex.{hex, is_digest};
ghost use Rattle.fp_name.specs.Refs.{ref_text};
ghost use Rattle.fl_lines.specs.Lines.{line_of, object_text, op_text, pins_text, remotes_text, deployed_line, refs_text, skipped_text};

use fp_base::{ObjKind, Text};
use fp_name::{Digest, PinPattern, RefName};
use fp_small::{Op, RefRow, RemoteRow};
use std::alloc::{AllocError, Global};

/// Returns the line of two words with a space between them.
pub(crate) fn line_of_two(alloc: Global, first: &str, second: &str) -> Result<Text, AllocError>
    ensures { IfOk result (λ t. t ≡ line_of (first.now ∷ second.now ∷ [])) }
{
    let mut text = String::from_str(alloc, first)?;
    add_word(&mut text, second)?;
    text.push('\n')?;
    Ok(Text::from_string(text))
}

/// Returns the line of three words with a space between each two.
pub(crate) fn line_of_three(
    alloc: Global,
    first: &str,
    second: &str,
    third: &str,
) -> Result<Text, AllocError>
    ensures { IfOk result (λ t. t ≡ line_of (first.now ∷ second.now ∷ third.now ∷ [])) }
{
    let mut text = String::from_str(alloc, first)?;
    add_word(&mut text, second)?;
    add_word(&mut text, third)?;
    text.push('\n')?;
    Ok(Text::from_string(text))
}

/// Returns the line of three words and a decimal number after the second.
pub(crate) fn line_at(
    alloc: Global,
    first: &str,
    second: &str,
    number: u64,
    last: &str,
) -> Result<Text, AllocError>
    ensures { IfOk result (λ t. t ≡ line_of (first.now ∷ second.now ∷ decimal number ∷ last.now ∷
        [])) }
{
    let number = decimal_of(alloc, number)?;
    let mut text = String::from_str(alloc, first)?;
    add_word(&mut text, second)?;
    add_word(&mut text, number.as_str())?;
    add_word(&mut text, last)?;
    text.push('\n')?;
    Ok(Text::from_string(text))
}

/// Appends a space and a word.
fn add_word(text: &mut String, word: &str) -> Result<(), AllocError>
    ensures { OnOk result (string_bytes text.new ≡ string_bytes text.old ++ 32 ∷ word.now) }
{
    text.push(' ')?;
    text.push_str(word)
}

/// Returns a number in decimal.
pub(crate) fn decimal_of(alloc: Global, number: u64) -> Result<String, AllocError>
    ensures { IfOk result (λ t. string_bytes t ≡ decimal number) }
{
    format!(in alloc; "{number}")
}

/// Returns the line of some words and a decimal number.
pub(crate) fn number_line(alloc: Global, words: &str, number: u64) -> Result<Text, AllocError>
    ensures { IfOk result (λ t. t ≡ line_of (words.now ∷ decimal number ∷ [])) }
{
    let number = decimal_of(alloc, number)?;
    line_of_two(alloc, words, number.as_str())
}

/// Returns the line of some words and a ref.
pub(crate) fn ref_line(alloc: Global, words: &str, name: &RefName) -> Result<Text, AllocError>
    ensures { IfOk result (λ t. t ≡ line_of (words.now ∷ ref_text name.now ∷ [])) }
{
    line_of_two(alloc, words, name.as_str())
}

/// Returns the line of some words, a ref and a commit.
fn commit_line(
    alloc: Global,
    words: &str,
    name: &RefName,
    commit: &Digest,
) -> Result<Text, AllocError>
    ensures { IfOk result (λ t. t ≡ line_of (words.now ∷ ref_text name.now ∷ hex commit.now ∷ [])) }
{
    let digits = digits_of(alloc, commit)?;
    line_of_three(alloc, words, name.as_str(), digits.as_str())
}

/// Returns the lower-case hexadecimal digits of a digest.
pub fn digits_of(alloc: Global, digest: &Digest) -> Result<String, AllocError>
    ensures digits { IfOk result (λ t. string_bytes t ≡ hex digest.now) }
    ensures good { is_digest digest.now ≡ true }
{
    let digits = digest.write(alloc)?;
    digits.as_str().to_string(alloc)
}

/// Returns the name of an object: `DIGEST.KIND`.
pub fn object_of(alloc: Global, digest: &Digest, kind: ObjKind) -> Result<String, AllocError>
    ensures { IfOk result (λ t. string_bytes t ≡ object_text digest.now kind) }
{
    let mut text = digits_of(alloc, digest)?;
    text.push('.')?;
    text.push_str(kind.word())?;
    Ok(text)
}

/// Returns the line that acknowledges an operation.
pub fn op_line(alloc: Global, op: &Op) -> Result<Text, AllocError>
    ensures { IfOk result (λ t. t ≡ op_text op.now) }
{
    match op {
        Op::Install { name, commit, .. } => commit_line(alloc, "installed", name, commit),
        Op::Update { name, commit, .. } => commit_line(alloc, "updated", name, commit),
        Op::Uninstall { name } => ref_line(alloc, "uninstalled", name),
        Op::AddPin(pin) => line_of_two(alloc, "pinned", pin.as_str()),
        Op::DropPin(pin) => line_of_two(alloc, "unpinned", pin.as_str()),
        Op::AddRemote(row) => line_of_two(alloc, "remote added", row.name.as_str()),
        Op::ModifyRemote(row) => line_of_two(alloc, "remote modified", row.name.as_str()),
        Op::DropRemote(name) => line_of_two(alloc, "remote deleted", name.as_str()),
        Op::SetOverride(row) => line_of_two(alloc, "override set", row.name.as_str()),
        Op::DropOverride(name) => line_of_two(alloc, "override reset", name.as_str()),
        Op::Migrate => Text::from_str(alloc, "migrated layout 2\n"),
        Op::Rollback { name, commit } => commit_line(alloc, "rolled back", name, commit),
    }
}

/// Returns a line for each pattern, in the order given.
pub fn pins_text(alloc: Global, pins: &[PinPattern]) -> Result<Text, AllocError>
    ensures { IfOk result (λ t. t ≡ pins_text pins.now) }
{
    let mut text = String::new(alloc);
    for pin in pins {
        text.push_str(pin.as_str())?;
        text.push('\n')?;
    }
    Ok(Text::from_string(text))
}

/// Returns a line for each remote, in the order given: its name, a space and its URL.
pub fn remotes_text(alloc: Global, remotes: &[RemoteRow]) -> Result<Text, AllocError>
    ensures { IfOk result (λ t. t ≡ remotes_text remotes.now) }
{
    let mut text = String::new(alloc);
    for row in remotes {
        text.push_str(row.name.as_str())?;
        text.push(' ')?;
        text.push_str(row.url.as_str())?;
        text.push('\n')?;
    }
    Ok(Text::from_string(text))
}

/// Returns a line for each ref, in the order given: the ref, its commit and the remote that it
/// comes from.
pub fn refs_text(alloc: Global, rows: &[RefRow]) -> Result<Text, AllocError>
    ensures { IfOk result (λ t. t ≡ refs_text rows.now) }
{
    let mut text = String::new(alloc);
    for row in rows {
        push_deployed(alloc, &mut text, row)?;
    }
    Ok(Text::from_string(text))
}

/// Appends the line for a deployed ref.
fn push_deployed(alloc: Global, text: &mut String, row: &RefRow) -> Result<(), AllocError>
    ensures { OnOk result (string_bytes text.new ≡ string_bytes text.old ++ deployed_line row.now) }
{
    let digits = digits_of(alloc, &row.commit)?;
    text.push_str(row.name.as_str())?;
    add_word(text, digits.as_str())?;
    add_word(text, row.origin.as_str())?;
    text.push('\n')
}

/// Returns the line for a ref that an update of all skips, because its remote is gone or doesn't
/// offer it.
pub fn skipped_line(alloc: Global, name: &RefName) -> Result<Text, AllocError>
    ensures { IfOk result (λ t. t ≡ skipped_text name.now) }
{
    ref_line(alloc, "skipped", name)
}
