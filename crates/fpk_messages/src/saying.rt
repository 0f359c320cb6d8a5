//! Printing messages on standard error.
use fl_words::{batch_reason, notes, reason};
use fp_system::SystemError;
use std::alloc::Global;
use std::io::{self, ErrorKind};

/// The message if memory runs out.
const OUT_OF_MEMORY: &str = "fpk: out of memory\n";

/// The message on a store that lacks an object of an installed commit.
const STORE_DAMAGED: &str = "fpk: an object of the store is missing or damaged, \
                             `fpk fsck` and `ostree fsck` look for it\n";

/// The message on an installed ref whose file `metadata` is missing, no regular file or too long.
pub const METADATA_LOST: &str = "fpk: an install leaves this file in the folder of the ref, below \
                             `active`, and has it no longer than 1 MiB; uninstall the ref and \
                             install it again\n";

/// Prints lines on standard error. Failures are ignored.
pub fn say(rt: &impl Eprint, lines: &str) {
    let _said = eprint!(rt; "{lines}");
}

/// Prints on standard error that memory ran out.
pub fn say_no_memory(rt: &impl Eprint) {
    say(rt, OUT_OF_MEMORY);
}

/// Prints on standard error why the words are no command, and the forms of the commands that they
/// begin.
pub fn say_reason(rt: &impl Eprint, alloc: Global, words: &[String]) {
    match reason(alloc, words) {
        Ok(text) => say(rt, text.as_str()),
        Err(_) => say_no_memory(rt),
    }
}

/// Prints on standard error which words of a successful command do less than they seem to.
pub fn say_notes(rt: &impl Eprint, alloc: Global, words: &[String]) {
    match notes(alloc, words) {
        Ok(text) => say(rt, text.as_str()),
        Err(_) => say_no_memory(rt),
    }
}

/// Prints on standard error why the first bad line of a batch asks for no change. Prints nothing if
/// each line asks for one.
pub fn say_batch_reason(rt: &impl Eprint, alloc: Global, batch: &[u8]) {
    match batch_reason(alloc, batch) {
        Ok(Some(text)) => say(rt, text.as_str()),
        Ok(None) => {}
        Err(_) => say_no_memory(rt),
    }
}

/// Prints an error of the system on standard error, if there is one.
pub fn say_refused(rt: &impl Eprint, refused: Option<&SystemError>) {
    if let Some(error) = refused {
        let _said = eprintln!(rt; "fpk: {error}");
    }
}

/// Returns whether printing failed with `EPIPE`: the reader of a pipe is gone.
pub fn is_unread(refused: Option<&SystemError>) -> bool {
    match refused {
        Some(error) => error.is_closed_pipe(),
        None => false,
    }
}

/// Prints on standard error why a command failed. Without an error of the system, the store lacks
/// an object of an installed commit.
pub fn say_failed(rt: &impl Eprint, refused: Option<&SystemError>) {
    match refused {
        Some(_) => say_refused(rt, refused),
        None => say(rt, STORE_DAMAGED),
    }
}

/// Prints on standard error why printing failed, unless the reader of a pipe is gone.
pub fn say_unprinted(rt: &impl Eprint, error: &io::Error) {
    if error.kind() != ErrorKind::BrokenPipe {
        let _said = eprintln!(rt; "fpk: cannot print: {error}");
    }
}
