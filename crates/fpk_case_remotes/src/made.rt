//! The remotes that an installation made, read from the names and files of an image alone.
use fp_host::Entry;
use fp_memhost::Image;
use std::alloc::{AllocError, Global};

/// Returns what the made remotes offer: the files of their refs, each with its path, permission
/// bits and bytes.
pub fn offers_of(alloc: Global, image: &Image) -> Result<Vec<u8>, AllocError> {
    let mut offers = Vec::new(alloc);
    for (path, entry) in image.names.as_slice() {
        if is_offer(path.text()) {
            push_row(&mut offers, image, path.text(), entry)?;
        }
    }
    Ok(offers)
}

/// Returns the other files and symlinks of the made remotes, each with its path and content.
pub fn parts_of(alloc: Global, image: &Image) -> Result<Vec<Vec<u8>>, AllocError> {
    let mut parts = Vec::new(alloc);
    for (path, entry) in image.names.as_slice() {
        let text = path.text();
        if text.starts_with("made/") && !is_offer(text) && !matches!(entry, Entry::Dir) {
            let mut row = Vec::new(alloc);
            push_row(&mut row, image, text, entry)?;
            parts.push(row)?;
        }
    }
    Ok(parts)
}

/// Returns whether the path is below `refs/heads` of a made remote.
fn is_offer(path: &str) -> bool {
    match path.strip_prefix("made/") {
        Some(rest) => is_ref(rest),
        None => false,
    }
}

/// Returns whether `refs/heads/` comes after the first element, the name of the remote.
fn is_ref(path: &str) -> bool {
    match path.split_once('/') {
        Some((_name, rest)) => rest.starts_with("refs/heads/"),
        None => false,
    }
}

/// Appends the path of a file or symlink and its content. Nothing is appended for a directory.
fn push_row(row: &mut Vec<u8>, image: &Image, path: &str, entry: &Entry) -> Result<(), AllocError> {
    match entry {
        Entry::Dir => Ok(()),
        Entry::File(id) => push_file(row, image, path, *id),
        Entry::Link(text) => {
            let text = text.as_str();
            push_text(row, &format!(in *row.allocator(); "{path} link {text}\n")?)
        }
    }
}

fn push_file(row: &mut Vec<u8>, image: &Image, path: &str, id: u64) -> Result<(), AllocError> {
    let file = image.files.as_slice().iter().find(|file| file.id == id);
    let Some(file) = file else {
        return Ok(());
    };
    let mode = file.mode;
    push_text(row, &format!(in *row.allocator(); "{path} {mode:o} ")?)?;
    row.extend_from_slice(file.bytes.as_slice())?;
    row.push(b'\n')?;
    Ok(())
}

fn push_text(row: &mut Vec<u8>, text: &str) -> Result<(), AllocError> {
    row.extend_from_slice(text.as_bytes())?;
    Ok(())
}
