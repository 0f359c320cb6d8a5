//! The images that a crash may leave of a host in memory.
ghost use Rattle.std.specs.Prelude.{IfOk, IfSome};
ghost use Rattle.fp_memhost.specs.Images.{IsImage};

use fp_base::{Blob, Items};
use fp_host::{Entry, Path};
use fp_memhost::{Choice, FileRow, Image, MemHost};
use std::alloc::{AllocError, Global};

/// Returns the image that a crash after this number of calls leaves, with these names at these
/// earlier entries, these files with these bytes, and the rest as it was; none if there is no such
/// entry, or such a file isn't new since the last sync.
fn image_left(
    host: &MemHost,
    calls: u64,
    names: Vec<(Path, u64)>,
    files: Vec<(u64, Blob)>,
) -> Result<Option<Image>, AllocError>
    ensures { IfOk result (λ image. IfSome image IsImage) }
{
    let choice = Choice {
        names: Items::from_vec(names),
        files: Items::from_vec(files),
    };
    host.image_after(calls, &choice)
}

/// Returns the image that a crash after this number of calls leaves if it brings nothing back.
pub fn present_image(alloc: Global, host: &MemHost, calls: u64) -> Result<Option<Image>, AllocError>
    ensures { IfOk result (λ image. IfSome image IsImage) }
{
    image_left(host, calls, Vec::new(alloc), Vec::new(alloc))
}

/// Returns the image with every name at its oldest entry.
pub fn oldest_image(
    alloc: Global,
    host: &MemHost,
    calls: u64,
) -> Result<Option<Image>, AllocError> {
    let choices = host.choices(calls)?;
    layer_image(alloc, host, calls, choices.as_slice(), 1)
}

/// Returns the image with every listed name at its earlier entry with this number, counted from 1
/// at the oldest; at its last one if it has fewer.
pub fn layer_image(
    alloc: Global,
    host: &MemHost,
    calls: u64,
    choices: &[(Path, u64)],
    layer: u64,
) -> Result<Option<Image>, AllocError> {
    let mut names = Vec::new(alloc);
    for (path, entries) in choices {
        if *entries > 0 {
            names.push((path.copy()?, layer.min(*entries)))?;
        }
    }
    image_left(host, calls, names, Vec::new(alloc))
}

/// Returns the image with one name at an earlier entry.
fn with_name(
    alloc: Global,
    host: &MemHost,
    calls: u64,
    name: &Path,
    entry: u64,
) -> Result<Option<Image>, AllocError> {
    let mut names = Vec::new(alloc);
    names.push((name.copy()?, entry))?;
    image_left(host, calls, names, Vec::new(alloc))
}

/// Returns the image with other bytes in one file; none if the file was synced.
fn with_file(
    alloc: Global,
    host: &MemHost,
    calls: u64,
    id: u64,
    bytes: Vec<u8>,
) -> Result<Option<Image>, AllocError> {
    let mut files = Vec::new(alloc);
    files.push((id, Blob::from_vec(bytes)))?;
    image_left(host, calls, Vec::new(alloc), files)
}

/// Returns the images that are tried of a crash after this number of calls: nothing brought back,
/// every name at its oldest entry, each name alone at each earlier entry, and each new file without
/// bytes and with all its bytes set to 0xff.
pub fn outcomes(alloc: Global, host: &MemHost, calls: u64) -> Result<Vec<Image>, AllocError> {
    let mut images = Vec::new(alloc);
    let Some(present) = present_image(alloc, host, calls)? else {
        return Ok(images);
    };
    let choices = host.choices(calls)?;
    let choices = choices.as_slice();
    keep(&mut images, layer_image(alloc, host, calls, choices, 1)?)?;
    add_names(alloc, host, calls, choices, &mut images)?;
    add_files(alloc, host, calls, choices, &present, &mut images)?;
    images.push(present)?;
    Ok(images)
}

fn keep(images: &mut Vec<Image>, image: Option<Image>) -> Result<(), AllocError> {
    if let Some(image) = image {
        images.push(image)?;
    }
    Ok(())
}

fn add_names(
    alloc: Global,
    host: &MemHost,
    calls: u64,
    choices: &[(Path, u64)],
    images: &mut Vec<Image>,
) -> Result<(), AllocError> {
    for (path, entries) in choices {
        for entry in 1..=*entries {
            keep(images, with_name(alloc, host, calls, path, entry)?)?;
        }
    }
    Ok(())
}

/// Adds the images with other bytes in a new file, one of whose names is among the choices.
fn add_files(
    alloc: Global,
    host: &MemHost,
    calls: u64,
    choices: &[(Path, u64)],
    present: &Image,
    images: &mut Vec<Image>,
) -> Result<(), AllocError> {
    for row in present.files.as_slice() {
        if has_choice(choices, present, row.id) {
            add_file(alloc, host, calls, row, images)?;
        }
    }
    Ok(())
}

/// Returns whether a name of the file with this id is among the choices.
fn has_choice(choices: &[(Path, u64)], present: &Image, id: u64) -> bool {
    present.names.as_slice().iter().any(|(path, entry)| {
        matches!(entry, Entry::File(other) if *other == id)
            && choices.iter().any(|choice| choice.0.text() == path.text())
    })
}

/// Adds the images with the file without bytes and with all its bytes set to 0xff, if the file is
/// new.
fn add_file(
    alloc: Global,
    host: &MemHost,
    calls: u64,
    row: &FileRow,
    images: &mut Vec<Image>,
) -> Result<(), AllocError> {
    if let Some(image) = with_file(alloc, host, calls, row.id, Vec::new(alloc))? {
        images.push(image)?;
        let turned = vec![in alloc; 0xff; row.bytes.len()]?;
        keep(images, with_file(alloc, host, calls, row.id, turned)?)?;
    }
    Ok(())
}

/// Returns the greatest number of calls after which a crash may bring something back; 0 if there is
/// none.
pub fn last_open(host: &MemHost) -> Result<u64, AllocError> {
    let mut last = 0;
    for calls in 0..=host.calls() {
        if host.choices(calls)?.len() > 0 {
            last = calls;
        }
    }
    Ok(last)
}

/// Returns the names at which a crash after this number of calls may bring something back, each on
/// a line with the number of its earlier entries.
pub fn open_names(alloc: Global, host: &MemHost, calls: u64) -> Result<String, AllocError> {
    let mut text = String::new(alloc);
    for (path, entries) in host.choices(calls)?.as_slice() {
        push_name(&mut text, path.text(), *entries)?;
    }
    Ok(text)
}

fn push_name(text: &mut String, path: &str, entries: u64) -> Result<(), AllocError> {
    writeln!(text, "{path} {entries}")
}
