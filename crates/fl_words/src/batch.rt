//! Reading a batch.
ghost use Rattle.std.specs.Prelude.{◌≡◌, ◌<◌, ◌∷◌, ◌==◌, Ok, Some, None, IfOk, IfErr, IfSome, OnOk, position, ◌++◌, [], map, length, string_bytes};
ghost use Rattle.fl_words.specs.Forms.{command_of};
ghost use Rattle.fl_words.specs.Batch.{words_in, words_left, change_of, batch_change, IsNoRecord, IsNoText, batch_of, IsBadBatch};
ghost use Rattle.fl_words.specs.declared.batch.BatchError.TheVariants.{NoMemory};

use crate::command::{Change, Command, WordsError};
use crate::reading::read_words;
use fp_base::Items;
use fp_keyfile::first_line;
use std::alloc::{AllocError, Global};
use std::error::Error;
use std::{fmt, str};

/// The error of reading a batch.
#[derive(Clone, Copy, Debug, PartialEq, Eq)]
pub enum BatchError {
    /// A line asks for no change. The number is that of the first such line, counted from 1.
    BadRecord { line: u64 },
    /// Memory ran out.
    NoMemory,
}

impl fmt::Display for BatchError {
    fn fmt<W: fmt::Write>(&self, f: &mut fmt::Formatter<W>) -> fmt::Result {
        match self {
            BatchError::BadRecord { line } => write!(f, "bad record at {line}"),
            BatchError::NoMemory => write!(f, "out of memory"),
        }
    }
}

impl Error for BatchError {}

impl From<AllocError> for BatchError {
    ghost from_gives = { λ _ e. e ≡ NoMemory };

    fn from(_: AllocError) -> BatchError {
        BatchError::NoMemory
    }
}

/// Returns the changes that a batch asks for, one for each line. Errs with `BadRecord` if a line
/// asks for no change.
pub fn read_batch(alloc: Global, bytes: &[u8]) -> Result<Items<Change>, BatchError>
    ensures ok { IfOk result (λ changes. batch_of bytes.now ≡ Ok changes) }
    ensures bad { IfErr result (IsBadBatch bytes.now) }
{
    let mut changes = Vec::new(alloc);
    let mut rest = bytes;
    let mut number = 0u64;
    while !rest.is_empty() {
        let (line, after) = first_line(rest);
        number += 1;
        rest = after;
        match read_record(alloc, line) {
            Ok(change) => add_change(&mut changes, change)?,
            Err(WordsError::BadWords { index: _ }) => {
                return Err(BatchError::BadRecord { line: number });
            }
            Err(WordsError::NoMemory) => return Err(BatchError::NoMemory),
        }
    }
    Ok(Items::from_vec(changes))
}

/// Appends a change to a list.
fn add_change(changes: &mut Vec<Change>, change: Change) -> Result<(), AllocError>
    ensures { OnOk result (changes.new.items ≡ changes.old.items ++ change ∷ []) }
{
    changes.push(change)?;
    Ok(())
}

/// Returns the change that a line asks for. Errs with `BadWords` only if it asks for none.
#[tactic(auto, using(crate::proofs::LineWords::no_command, crate::proofs::LineWords::is_record))]
fn read_record(alloc: Global, line: &[u8]) -> Result<Change, WordsError>
    ensures ok { IfOk result (λ change. batch_change line.now ≡ Some change) }
    ensures bad { IfErr result (IsNoRecord line.now) }
{
    let words = read_line(alloc, line)?;
    match change_of(read_words(alloc, &words)?) {
        Some(change) => Ok(change),
        None => Err(WordsError::BadWords { index: 0 }),
    }
}

/// Returns the change that a command is, or `None` for another command.
fn change_of(command: Command) -> Option<Change>
    ensures { result ≡ change_of command }
{
    match command {
        Command::Change(change) => Some(change),
        Command::List(_)
        | Command::Show(_)
        | Command::Filter(_)
        | Command::Batch
        | Command::Fsck
        | Command::Export { .. }
        | Command::Exercise(_) => None,
    }
}

/// Returns the words of a line. Errs with `BadWords` if a word is no UTF-8; then the line asks for
/// no change.
#[tactic(auto, using(crate::proofs::LineWords::bad_word))]
fn read_line(alloc: Global, line: &[u8]) -> Result<Vec<String>, WordsError>
    ensures ok { IfOk result (λ words. map string_bytes words.items ≡ words_in line.now) }
    ensures bad { IfErr result (IsNoRecord line.now) }
{
    let mut words = Vec::new(alloc);
    let mut rest = Some(line);
    while let Some(text) = rest {
        let (word, after) = first_word(text);
        add_word(alloc, &mut words, word)?;
        rest = after;
    }
    Ok(words)
}

/// Appends a word to a list. Errs with `BadWords` only if the word is no UTF-8.
fn add_word(alloc: Global, words: &mut Vec<String>, word: &[u8]) -> Result<(), WordsError>
    ensures ok { OnOk result (map string_bytes words.new.items ≡ map string_bytes words.old.items
        ++ word.now ∷ []) }
    ensures bad { IfErr result (IsNoText word.now) }
{
    let Ok(text) = str::from_utf8(word) else {
        return Err(WordsError::BadWords { index: 0 });
    };
    let text = String::from_str(alloc, text)?;
    if words.push(text).is_err() {
        return Err(WordsError::NoMemory);
    }
    Ok(())
}

/// Returns the index of the first space.
fn space_place(bytes: &[u8]) -> Option<usize>
    ensures { result ≡ position (λ b. b == 32) bytes.now }
{
    bytes.iter().position(|byte| *byte == b' ')
}

/// Returns the first word, and what follows the space that ends it, or `None` if no space does.
pub(crate) fn first_word(text: &[u8]) -> (&[u8], Option<&[u8]>)
    ensures words { words_in text.now ≡ result.0.now ∷ words_left result.1 }
    ensures shorter { IfSome result.1 (λ rest. length rest.now < length text.now) }
{
    match space_place(text) {
        Some(end) => (&text[..end], Some(&text[end + 1..])),
        None => (text, None),
    }
}
