//! The functions under test, and their output as text.

use crate::batches::{bytes_of, line_reason, told_batch};
use crate::lines::{
    info, printed_operation, printed_pins, printed_refs, printed_refusal, printed_remotes,
};
use crate::words::{told_words, words_of};
use fl_lines::escape;
use fl_words::{notes, reason};
use fp_base::Text;
use std::alloc::Global;
use std::panic::Expect;
use std::process::Abort;

/// A function under test, whose input is a text.
#[derive(Clone, Copy)]
pub enum Asked {
    /// The command of the text's words, or the index of the first bad word.
    Command,
    /// The reason why the text's words are no command.
    Reason,
    /// The notes on the options among the text's words.
    Notes,
    /// The changes that the text's lines ask for, or the number of the first bad line.
    Batch,
    /// The reason why the first bad line of the text asks for no change.
    LineReason,
    /// The line of the refusal that the text stands for.
    Refusal,
    /// The line of the operation that the text stands for.
    Operation,
    /// The text, escaped.
    Escaped,
    /// The lines of the pins in the text.
    Pins,
    /// The lines of the remotes in the text.
    Remotes,
    /// The lines of the deployed refs in the text.
    Refs,
    /// The lines of `info` about an application with the extensions in the text.
    Info,
    /// The lines of `info` about an application with the extensions in the text, a runtime and a
    /// previous commit.
    WholeInfo,
}

/// Returns the output for a text.
pub fn answer(rt: &impl Abort, alloc: Global, asked: Asked, text: &str) -> Text {
    match asked {
        Asked::Command => Text::from_string(told_words(rt, alloc, &words_of(rt, alloc, text))),
        Asked::Reason => reason(alloc, &words_of(rt, alloc, text)).expect(rt, "memory"),
        Asked::Notes => notes(alloc, &words_of(rt, alloc, text)).expect(rt, "memory"),
        Asked::Batch => Text::from_string(told_batch(rt, alloc, &bytes_of(rt, alloc, text))),
        Asked::LineReason => line_reason(rt, alloc, &bytes_of(rt, alloc, text)),
        Asked::Refusal => printed_refusal(rt, alloc, text),
        Asked::Operation => printed_operation(rt, alloc, text),
        Asked::Escaped => Text::from_string(escape(alloc, text).expect(rt, "memory")),
        Asked::Pins => printed_pins(rt, alloc, text),
        Asked::Remotes => printed_remotes(rt, alloc, text),
        Asked::Refs => printed_refs(rt, alloc, text),
        Asked::Info => info(rt, alloc, text, false),
        Asked::WholeInfo => info(rt, alloc, text, true),
    }
}
