//! Reasons, for people, why a line of a batch asks for no change.
ghost use Rattle.std.specs.Prelude.{◌≡◌, ◌-◌, ◌++◌, ◌∷◌, IfOk, OnOk, map, string_bytes, slice_index_or, []};
ghost use Rattle.std.specs.Str.Lossy.{utf8_lossy};
ghost use Rattle.fp_keyfile.specs.Lines.{lines_of};
ghost use Rattle.fl_words.specs.Reasons.{words_shown, line_reason, batch_reason_text};

use crate::batch::{BatchError, first_word, read_batch};
use crate::forms::Form;
use crate::reasons::push_reason;
use fp_base::Text;
use fp_keyfile::first_line;
use std::alloc::{AllocError, Global};

/// Returns why the first bad line of a batch asks for no change, in lines that end with a newline,
/// or `None` if each line asks for one. The number of the line is that of `BadRecord`.
pub fn batch_reason(alloc: Global, bytes: &[u8]) -> Result<Option<Text>, AllocError>
    ensures { IfOk result (λ reason. reason ≡ batch_reason_text bytes.now) }
{
    match read_batch(alloc, bytes) {
        Ok(_) => Ok(None),
        Err(BatchError::BadRecord { line }) => {
            Ok(Some(line_reason(alloc, line, line_in(bytes, line))?))
        }
        Err(BatchError::NoMemory) => Err(AllocError),
    }
}

/// Returns the line of this number, counted from 1, or an empty one if there is none.
fn line_in(bytes: &[u8], number: u64) -> &[u8]
    ensures { result.now ≡ slice_index_or (lines_of bytes.now) (number - 1) [] }
{
    let mut rest = bytes;
    let mut before = 1;
    while !rest.is_empty() {
        let (line, after) = first_line(rest);
        if before >= number {
            return line;
        }
        rest = after;
        before += 1;
    }
    &[]
}

/// Returns why a line asks for no change.
fn line_reason(alloc: Global, number: u64, line: &[u8]) -> Result<Text, AllocError>
    ensures { IfOk result (λ t. t ≡ line_reason number line.now) }
{
    let words = words_shown(alloc, line)?;
    let mut text = format!(in alloc; "fpk: line {number}: ")?;
    push_reason(alloc, &mut text, "", Form::changes(), &words)?;
    Ok(Text::from_string(text))
}

/// Returns the words of a line. Bytes that are no UTF-8 are replaced by U+FFFD.
fn words_shown(alloc: Global, line: &[u8]) -> Result<Vec<String>, AllocError>
    ensures { IfOk result (λ words. map string_bytes words.items ≡ words_shown line.now) }
{
    let mut words = Vec::new(alloc);
    let mut rest = Some(line);
    while let Some(text) = rest {
        let (word, after) = first_word(text);
        show_word(alloc, &mut words, word)?;
        rest = after;
    }
    Ok(words)
}

/// Appends a word to a list. Bytes that are no UTF-8 are replaced by U+FFFD.
fn show_word(alloc: Global, words: &mut Vec<String>, word: &[u8]) -> Result<(), AllocError>
    ensures { OnOk result (map string_bytes words.new.items ≡ map string_bytes words.old.items
        ++ utf8_lossy word.now ∷ []) }
{
    let text = String::from_utf8_lossy(alloc, word)?;
    words.push(text)?;
    Ok(())
}
