//! Hashes of images, and of the moments of a host. Two that differ have the same hash only by a
//! rare chance.
use crate::images::{layer_image, present_image};
use fp_host::{Entry, Path};
use fp_memhost::{FileRow, Image, MemHost};
use std::alloc::{AllocError, Global};

/// The hash of no bytes in FNV-1a.
const FIRST: u64 = 0xcbf2_9ce4_8422_2325;

/// The factor of FNV-1a for each byte.
const FACTOR: u64 = 0x0000_0100_0000_01b3;

/// The byte that is added after each text. It doesn't occur in UTF-8.
const END: u8 = 0xff;

/// Returns the hash with these bytes added.
fn with_bytes(sum: u64, bytes: &[u8]) -> u64 {
    let mut sum = sum;
    for byte in bytes {
        sum = with_byte(sum, *byte);
    }
    sum
}

fn with_byte(sum: u64, byte: u8) -> u64 {
    (sum ^ u64::from(byte)).wrapping_mul(FACTOR)
}

fn with_text(sum: u64, text: &str) -> u64 {
    with_byte(with_bytes(sum, text.as_bytes()), END)
}

/// Returns the hash with a number added.
pub fn with_number(sum: u64, number: u64) -> u64 {
    with_bytes(sum, &number.to_le_bytes())
}

/// Returns the hash with an image added: its names, and its files with their bytes.
fn with_image(sum: u64, image: &Image) -> u64 {
    let mut sum = sum;
    for (path, entry) in image.names.as_slice() {
        sum = with_entry(with_text(sum, path.text()), entry);
    }
    with_files(sum, image.files.as_slice())
}

fn with_entry(sum: u64, entry: &Entry) -> u64 {
    match entry {
        Entry::Dir => with_byte(sum, b'd'),
        Entry::File(id) => with_number(with_byte(sum, b'f'), *id),
        Entry::Link(text) => with_text(with_byte(sum, b'l'), text.as_str()),
    }
}

fn with_files(sum: u64, rows: &[FileRow]) -> u64 {
    let mut sum = sum;
    for row in rows {
        let bytes = row.bytes.as_slice();
        sum = with_number(sum, row.id);
        sum = with_number(sum, u64::from(row.mode));
        sum = with_number(sum, bytes.len() as u64);
        sum = with_bytes(sum, bytes);
    }
    sum
}

/// Returns the hash of an image.
pub fn image_look(image: &Image) -> u64 {
    with_image(FIRST, image)
}

/// Returns the hash of the moment after this number of calls: of its names with all entries that a
/// crash may bring back, and its files with their bytes. A call that only reads doesn't change it.
pub fn moment_look(alloc: Global, host: &MemHost, calls: u64) -> Result<u64, AllocError> {
    let choices = host.choices(calls)?;
    let choices = choices.as_slice();
    let mut sum = with_choices(FIRST, choices);
    if let Some(image) = present_image(alloc, host, calls)? {
        sum = with_image(sum, &image);
    }
    for layer in 1..=most_entries(choices) {
        if let Some(image) = layer_image(alloc, host, calls, choices, layer)? {
            sum = with_image(sum, &image);
        }
    }
    Ok(sum)
}

/// Returns the hash with names added, and with the number of earlier entries of each.
fn with_choices(sum: u64, choices: &[(Path, u64)]) -> u64 {
    let mut sum = sum;
    for (path, entries) in choices {
        sum = with_number(with_text(sum, path.text()), *entries);
    }
    sum
}

/// Returns the greatest number of earlier entries of a name.
fn most_entries(choices: &[(Path, u64)]) -> u64 {
    let mut most = 0;
    for (_path, entries) in choices {
        most = most.max(*entries);
    }
    most
}
