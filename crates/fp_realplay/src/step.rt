//! Calls of a host, each written as a line, and checks of what is at a path.
use crate::Log;
use crate::fixture::{bits_and_size, path};
use crate::words::{bits, pair};
use fp_base::Text;
use fp_host::{Host, HostError, Path, Stat};
use std::alloc::Global;

/// Makes the call of a line. Returns its error; none if it was done.
pub(crate) fn change<H: Host>(log: &Log<'_>, host: &mut H, line: &str) -> Option<HostError> {
    let (verb, rest) = pair(line);
    let (first, second) = pair(rest);
    let at = path(log, first);
    match verb {
        "link" => host.link(&at, &path(log, second)).err(),
        "rename" => host.rename(&at, &path(log, second)).err(),
        "say" => host.say(rest.as_bytes()).err(),
        _ => change_at(log.alloc, host, verb, &at, second),
    }
}

/// Makes the call with this verb at a path, with another word as its argument. Returns its error;
/// none if it was done.
fn change_at<H: Host>(
    alloc: Global,
    host: &mut H,
    verb: &str,
    at: &Path,
    word: &str,
) -> Option<HostError> {
    match verb {
        "mkdir" => host.make_dir(at).err(),
        "create" => host.create(at, bits(word)).err(),
        "append" => host.append(at, word.as_bytes()).err(),
        "symlink" => host.symlink(word, at).err(),
        "unlink" => host.unlink(at).err(),
        "rmdir" => host.remove_dir(at).err(),
        "sync" => host.sync().err(),
        _ => look_at(alloc, host, verb, at),
    }
}

/// Makes the call with this verb that only reads. Returns its error; none if it was done. An
/// unknown verb returns `NoMemory`, by which the line counts neither as done nor as failed.
fn look_at<H: Host>(alloc: Global, host: &mut H, verb: &str, at: &Path) -> Option<HostError> {
    match verb {
        "stat" => host.stat(at).err(),
        "read" => host.read_at(at, 0, &mut [0u8; 4]).err(),
        "readlink" => host.read_link(alloc, at).err(),
        "list" => host.list(alloc, at).err(),
        _ => Some(HostError::NoMemory),
    }
}

/// Returns whether the path has what the line says: `absent`, `dir` and the names in it, a file's
/// permission bits, size and bytes (at most 16), or a symlink's text.
pub(crate) fn shows<H: Host>(log: &Log<'_>, host: &mut H, rest: &str) -> bool {
    let (at, want) = pair(rest);
    shows_at(log.alloc, host, &path(log, at), want)
}

fn shows_at<H: Host>(alloc: Global, host: &mut H, at: &Path, want: &str) -> bool {
    match host.stat(at) {
        Ok(Stat::Absent) => want == "absent",
        Ok(Stat::Dir) => is_listed(alloc, host, at, want),
        Ok(Stat::File { id: _, mode, size }) => {
            let text = after_bits(alloc, (mode, size), want);
            holds(host, at, text)
        }
        Ok(Stat::Link) => is_link(alloc, host, at, want),
        Err(_) => false,
    }
}

fn is_link<H: Host>(alloc: Global, host: &mut H, at: &Path, want: &str) -> bool {
    match host.read_link(alloc, at) {
        Ok(text) => text.as_str() == want,
        Err(_) => false,
    }
}

/// Returns the rest of the text after the permission bits, the size and a space; none if it doesn't
/// begin with them.
fn after_bits(alloc: Global, bits: (u32, u64), text: &str) -> Option<&str> {
    let (mode, size) = bits;
    let head = bits_and_size(alloc, mode, size)?;
    match text.strip_prefix(head.as_str()) {
        Some("") => Some(""),
        rest => after_word(rest, ""),
    }
}

/// Returns whether the file's first bytes, at most 16, are these; false if there is no text.
fn holds<H: Host>(host: &mut H, at: &Path, want: Option<&str>) -> bool {
    let mut into = [0u8; 16];
    match (host.read_at(at, 0, &mut into), want) {
        (Ok(n), Some(text)) => &into[..n] == text.as_bytes(),
        _ => false,
    }
}

fn is_listed<H: Host>(alloc: Global, host: &mut H, at: &Path, want: &str) -> bool {
    match host.list(alloc, at) {
        Ok(names) => are_names(names.as_slice(), want),
        Err(_) => false,
    }
}

fn are_names(names: &[Text], want: &str) -> bool {
    let mut rest = want.strip_prefix("dir");
    for name in names {
        rest = after_word(rest, name.as_str());
    }
    rest == Some("")
}

/// Returns the rest of the text after a space and a word; none if it doesn't begin with them.
fn after_word<'a>(text: Option<&'a str>, word: &str) -> Option<&'a str> {
    text?.strip_prefix(' ')?.strip_prefix(word)
}
