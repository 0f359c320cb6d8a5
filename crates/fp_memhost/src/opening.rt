//! Opening of an image as a scene.
ghost use Rattle.std.specs.Prelude.{◌≡◌, ◌↔◌, ℕ, Some, true, IfOk, OnOk, IsTrue, length, map};
ghost use Rattle.std.specs.List.{list_all};
ghost use Rattle.std.specs.Option.{option_copied};
ghost use Rattle.fp_host.specs.Paths.{Elements, elements_of, is_element};
ghost use Rattle.fp_memhost.specs.Names.{IsAscending, slot_of};
ghost use Rattle.fp_memhost.specs.Scenes.{seen};
ghost use Rattle.fp_memhost.specs.Images.{listed_slot, slots_of, opened, put_of};
ghost use Rattle.fp_memhost.specs.Stood.{stood_of};
ghost use Rattle.fp_memhost.specs.Opening.{is_folder, is_open, may_stand, AddsName, AddsNames, OpensFiles};

use crate::conditions::is_dir;
use crate::entry::copy_of;
use crate::files::Content;
use crate::folders::folder_above;
use crate::image::{FileRow, Image};
use crate::names::{Name, forget, put, ready};
use crate::scene::Scene;
use crate::stood::Stood;
use fp_host::{Entry, Path};
use std::alloc::{AllocError, Global};

/// Returns the first listed entry of the path with this text.
pub fn listed_entry<'a>(names: &'a [(Path, Entry)], text: &str) -> Option<&'a Entry>
    ensures { slot_of (option_copied result) ≡ listed_slot names.now (elements_of text.now) }
{
    for (path, entry) in names {
        if text == path.text() {
            return Some(entry);
        }
    }
    None
}

/// Returns whether the path with this text is listed as a directory, or is the root.
fn is_folder(names: &[(Path, Entry)], text: &str) -> bool
    requires { IsTrue (list_all is_element (elements_of text.now)) }
    ensures { result ≡ is_folder (slots_of names.now (elements_of text.now)) }
{
    match folder_above(text) {
        Some(_) => is_dir(listed_entry(names, text)),
        None => true,
    }
}

/// Returns whether each ancestor of the path is a directory.
fn is_open(names: &[(Path, Entry)], path: &Path) -> bool
    ensures { result ≡ is_open names.now path.now }
{
    let mut text = path.text();
    while let Some(up) = folder_above(text) {
        if !is_folder(names, up) {
            return false;
        }
        text = up;
    }
    true
}

/// Returns whether the name counts in the opened image: it isn't the root, and each of its
/// ancestors is a directory.
fn may_stand(names: &[(Path, Entry)], path: &Path) -> bool
    ensures { result ≡ may_stand names.now path.now }
{
    !path.is_root() && is_open(names, path)
}

/// Gives the name its entry if `counts` is true, else does nothing.
fn add_name(
    opened: &mut Vec<Name>,
    counts: bool,
    path: &Path,
    entry: &Entry,
) -> Result<(), AllocError>
    requires { IsAscending opened.old.items }
    ensures ascending { IsAscending opened.new.items }
    ensures adds { OnOk result (AddsName counts path.now (slot_of (Some entry.now))
        opened.old.items opened.new.items) }
{
    if !counts {
        return Ok(());
    }
    let entry = copy_of(entry)?;
    ready(opened, path)?;
    put(opened, path, Some(entry));
    Ok(())
}

/// Adds the listed names that count (see `may_stand`). The last one is added first, so that if a
/// name is listed twice, its first entry stays.
fn add_names(opened: &mut Vec<Name>, names: &[(Path, Entry)]) -> Result<(), AllocError>
    requires { IsAscending opened.old.items }
    ensures ascending { IsAscending opened.new.items }
    ensures adds { OnOk result (AddsNames names.now opened.old.items opened.new.items) }
{
    let mut left = names.len();
    while left > 0 {
        left -= 1;
        let (path, entry) = &names[left];
        let counts = may_stand(names, path);
        add_name(opened, counts, path, entry)?;
    }
    Ok(())
}

/// Returns the files of an image, none of them created since the last sync.
fn open_files(alloc: Global, rows: &[FileRow]) -> Result<Vec<Content>, AllocError>
    ensures { IfOk result (λ v. OpensFiles rows.now v.items) }
{
    let mut files = Vec::new(alloc);
    for row in rows {
        let bytes = row.bytes.as_slice().to_vec(alloc)?;
        files.push(Content {
            id: row.id,
            mode: row.mode,
            bytes,
            is_new: false,
        })?;
    }
    Ok(files)
}

/// Returns the listed entries as those that the view remembers.
fn remembered(alloc: Global, names: &[(Path, Entry)]) -> Result<Vec<Stood>, AllocError>
    ensures { IfOk result (λ v. map stood_of v.items ≡ map put_of names.now) }
{
    let mut stood = Vec::new(alloc);
    for (path, entry) in names {
        stood.push(Stood::new(path, Some(entry))?)?;
    }
    Ok(stood)
}

/// Returns the scene that opening the image again gives. Errs if memory runs out.
pub fn open_image(alloc: Global, image: &Image) -> Result<Scene, AllocError>
    ensures { IfOk result (λ s. seen s ≡ opened image.now) }
{
    let mut scene = Scene::empty(alloc)?;
    add_names(&mut scene.names, image.names.as_slice())?;
    forget(&mut scene.names);
    scene.files = open_files(alloc, image.files.as_slice())?;
    scene.stood = remembered(alloc, image.names.as_slice())?;
    Ok(scene)
}
