//! Pipes, sockets and devices, which are never opened.
use fp_base::Text;
use fp_system::{Cause, Kind, kind_at, known, read_link};
use std::alloc::Global;
use std::fs;
use std::fs::FileType;
use std::os::unix::fs::FileTypeExt;
use std::rt::Files;

/// Returns the text of the symlink at the path. For a pipe, a socket or a device, returns a text
/// that names its type, such as `a named pipe`.
pub fn link_text<R: Files>(rt: &R, alloc: Global, at: &str) -> Result<Text, Cause> {
    match read_link(rt, alloc, at) {
        Ok(text) => Ok(text),
        Err(refused) => special_text(rt, alloc, at, refused),
    }
}

fn special_text<R: Files>(rt: &R, alloc: Global, at: &str, refused: Cause) -> Result<Text, Cause> {
    match kind_at(rt, at) {
        Ok(Kind::Other) => name_at(rt, alloc, at),
        _ => Err(refused),
    }
}

fn name_at<R: Files>(rt: &R, alloc: Global, at: &str) -> Result<Text, Cause> {
    match known(fs::symlink_metadata(rt, at)) {
        Ok(found) => text_of(alloc, name_of(found.file_type())),
        Err(e) => Err(e),
    }
}

fn text_of(alloc: Global, name: &str) -> Result<Text, Cause> {
    match name.to_string(alloc) {
        Ok(text) => Ok(Text::from_string(text)),
        Err(_) => Err(Cause::NoMemory),
    }
}

fn name_of(kind: FileType) -> &'static str {
    if kind.is_fifo() {
        "a named pipe"
    } else if kind.is_socket() {
        "a socket"
    } else if kind.is_char_device() {
        "a character device"
    } else {
        "a block device"
    }
}
