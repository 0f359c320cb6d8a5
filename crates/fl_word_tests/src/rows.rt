//! Tables of test rows in texts. A row is a line: the input, `=>`, and the expected output.
//!
//! `|` ends a word of the input, or a line. `<ab*3>` stands for `ababab`.

use crate::asked::{Asked, answer};
use crate::{batches, lines, notes, reasons, words};
use std::alloc::Global;
use std::panic::Expect;
use std::process::Abort;

/// Fails the test and prints the row, unless `is_so`.
pub fn agree(rt: &impl Abort, row: &str, is_so: bool) {
    assert!(rt; is_so, "{row}");
}

/// Returns a text with each `<ab*3>` replaced by its repetitions.
fn whole(rt: &impl Abort, alloc: Global, text: &str) -> String {
    let mut whole = String::new(alloc);
    for part in text.split('<') {
        let (often, rest) = part.split_once('>').unwrap_or(("", part));
        let (once, count) = often.rsplit_once('*').unwrap_or(("", "0"));
        let often = once.repeat(alloc, count.parse::<usize>().unwrap_or(0));
        whole
            .push_str(&often.expect(rt, "memory"))
            .expect(rt, "memory");
        whole.push_str(rest).expect(rt, "memory");
    }
    whole
}

/// Returns a text with each `|` replaced by a newline.
pub fn lined(rt: &impl Abort, alloc: Global, text: &str) -> String {
    text.replace(alloc, "|", "\n").expect(rt, "memory")
}

/// Returns whether the output for a row's input is the expected one.
fn is_so(rt: &impl Abort, alloc: Global, asked: Asked, row: &str) -> bool {
    let (given, want) = row.split_once("=>").unwrap_or((row, ""));
    let answer = answer(rt, alloc, asked, &whole(rt, alloc, given));
    let want = whole(rt, alloc, want.trim_start());
    answer.as_str() == lined(rt, alloc, &want).as_str()
}

/// The tables: a function under test, and the rows of its inputs and expected outputs.
const TABLES: [(Asked, &str); 22] = [
    (Asked::Command, words::WORDS),
    (Asked::Command, words::REF_WORDS),
    (Asked::Command, words::OPTION_WORDS),
    (Asked::Command, words::LONG_WORDS),
    (Asked::Reason, reasons::REASONS),
    (Asked::Reason, reasons::FIRST_WORDS),
    (Asked::Reason, reasons::LONG_WORDS),
    (Asked::LineReason, reasons::LINES),
    (Asked::LineReason, reasons::LONG_LINES),
    (Asked::Notes, notes::NOTES),
    (Asked::Batch, batches::BATCHES),
    (Asked::Batch, batches::BAD_LINES),
    (Asked::Batch, batches::LONG_BATCHES),
    (Asked::Refusal, lines::REFUSALS),
    (Asked::Refusal, lines::DAMAGED),
    (Asked::Operation, lines::OPERATIONS),
    (Asked::Escaped, lines::ESCAPED),
    (Asked::Pins, lines::PINS),
    (Asked::Remotes, lines::REMOTES),
    (Asked::Refs, lines::REFS),
    (Asked::Info, lines::INFO),
    (Asked::WholeInfo, lines::WHOLE_INFO),
];

/// A row with a newline in a word, which can't be a line of a table.
const ESCAPED_WORD: &str =
    "batch|a\nb\\c|=> fpk: 'a\\0ab\\5cc' is one word too many|usage: fpk batch|";

#[test]
fn rows(rt: HostRuntime) {
    for (asked, rows) in &TABLES {
        for row in rows.lines() {
            agree(&rt, row, is_so(&rt, rt.alloc(), *asked, row));
        }
    }
    assert!(rt; is_so(&rt, rt.alloc(), Asked::Reason, ESCAPED_WORD));
}
