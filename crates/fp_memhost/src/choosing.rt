//! The images that a crash may leave of a scene.
ghost use Rattle.std.specs.Prelude.{◌≡◌, Some, true, IfOk, IsTrue, length};
ghost use Rattle.std.specs.List.{list_all};
ghost use Rattle.std.specs.Option.{option_copied};
ghost use Rattle.fp_host.specs.Paths.{elements_of};
ghost use Rattle.fp_host.specs.View.{IsTree};
ghost use Rattle.fp_memhost.specs.Names.{IsAscending, slot_of, earlier_of};
ghost use Rattle.fp_memhost.specs.Scenes.{seen};
ghost use Rattle.fp_memhost.specs.Images.{number_for, bytes_for, has_entry, is_open_file, can_choose, IsChosen, AreChoices};
ghost use Rattle.fp_memhost.specs.Choosing.{entry_in, bytes_of, ChoosesNames, ChoosesFiles, choices_in};

use crate::entry::copy_of;
use crate::files::{Content, is_new};
use crate::image::{Choice, FileRow, Image};
use crate::names::{Name, find};
use crate::scene::Scene;
use fp_base::{Blob, Items};
use fp_host::{Entry, Path};
use std::alloc::{AllocError, Global};

/// Returns the number of earlier entries that a crash may bring back at the name with this text.
fn count_earlier(names: &[Name], text: &str) -> usize
    requires { IsAscending names.now }
    ensures { result ≡ length (earlier_of names.now (elements_of text.now)) }
{
    match find(names, text) {
        Ok(at) => names[at].earlier.len(),
        Err(_) => 0,
    }
}

/// Returns whether each listed name has an entry with its number.
fn have_entries(scene: &Scene, numbers: &[(Path, u64)]) -> bool
    ensures { result ≡ list_all (has_entry (seen scene.now)) numbers.now }
{
    for (path, number) in numbers {
        if *number > count_earlier(&scene.names, path.text()) as u64 {
            return false;
        }
    }
    true
}

/// Returns whether each listed file was created since the last sync.
fn are_open(scene: &Scene, bytes: &[(u64, Blob)]) -> bool
    ensures { result ≡ list_all (is_open_file (seen scene.now)) bytes.now }
{
    for (id, _) in bytes {
        if !is_new(&scene.files, *id) {
            return false;
        }
    }
    true
}

/// Returns whether a crash may leave the chosen entries and bytes.
pub fn can_choose(scene: &Scene, choice: &Choice) -> bool
    ensures { result ≡ can_choose (seen scene.now) choice.now }
{
    have_entries(scene, choice.names.as_slice()) && are_open(scene, choice.files.as_slice())
}

/// Returns the number of the entry that is chosen for the name; 0 if it isn't listed.
fn number_for(numbers: &[(Path, u64)], path: &Path) -> u64
    ensures { result ≡ number_for numbers.now path.now }
{
    for (listed, number) in numbers {
        if path.is(listed) {
            return *number;
        }
    }
    0
}

/// Returns the bytes that are chosen for the file, or `None` if it isn't listed.
fn bytes_for(chosen: &[(u64, Blob)], id: u64) -> Option<&Blob>
    ensures { option_copied result ≡ bytes_for chosen.now id }
{
    for (listed, bytes) in chosen {
        if id == *listed {
            return Some(bytes);
        }
    }
    None
}

/// Returns the entry with this number: 0 is the present one, and n the n-th earlier one, the oldest
/// first.
fn entry_in(name: &Name, number: u64) -> Option<&Entry>
    ensures { slot_of (option_copied result) ≡ entry_in name.now number }
{
    if number == 0 {
        return name.entry.as_ref();
    }
    let at = (number - 1) as usize;
    if at >= name.earlier.len() {
        return None;
    }
    name.earlier[at].as_ref()
}

/// Returns the names with their chosen entries.
fn choose_names(
    alloc: Global,
    scene: &Scene,
    numbers: &[(Path, u64)],
) -> Result<Vec<(Path, Entry)>, AllocError>
    ensures { IfOk result (λ v. ChoosesNames (seen scene.now) numbers.now v.items) }
{
    let mut chosen = Vec::new(alloc);
    for name in &scene.names {
        let number = number_for(numbers, &name.path);
        if let Some(entry) = entry_in(name, number) {
            let path = name.path.copy()?;
            chosen.push((path, copy_of(entry)?))?;
        }
    }
    Ok(chosen)
}

/// Returns the bytes that are chosen for a file, or its own.
fn choose_bytes(alloc: Global, file: &Content, chosen: &[(u64, Blob)]) -> Result<Blob, AllocError>
    ensures { IfOk result (λ b. b ≡ bytes_of file.now.bytes.items
        (bytes_for chosen.now file.now.id)) }
{
    match bytes_for(chosen, file.id) {
        Some(bytes) => bytes.copy(),
        None => Ok(Blob::from_vec(file.bytes.as_slice().to_vec(alloc)?)),
    }
}

/// Returns the files with their chosen bytes.
fn choose_files(
    alloc: Global,
    files: &[Content],
    bytes: &[(u64, Blob)],
) -> Result<Vec<FileRow>, AllocError>
    ensures { IfOk result (λ v. ChoosesFiles files.now bytes.now v.items) }
{
    let mut chosen = Vec::new(alloc);
    for file in files {
        let bytes = choose_bytes(alloc, file, bytes)?;
        chosen.push(FileRow {
            id: file.id,
            mode: file.mode,
            bytes,
        })?;
    }
    Ok(chosen)
}

/// Returns the chosen image, which a crash may leave.
pub fn choose(alloc: Global, scene: &Scene, choice: &Choice) -> Result<Image, AllocError>
    requires tree { IsTree (seen scene.now) }
    requires can { can_choose (seen scene.now) choice.now ≡ true }
    ensures { IfOk result (IsChosen (seen scene.now) choice.now) }
{
    let names = choose_names(alloc, scene, choice.names.as_slice())?;
    let files = choose_files(alloc, &scene.files, choice.files.as_slice())?;
    Ok(Image {
        names: Items::from_vec(names),
        files: Items::from_vec(files),
    })
}

/// Returns the names with earlier entries, which a crash may bring back, each with the number of
/// these entries.
fn choices_in(alloc: Global, names: &[Name]) -> Result<Vec<(Path, u64)>, AllocError>
    ensures { IfOk result (λ v. v.items ≡ choices_in names.now) }
{
    let mut found = Vec::new(alloc);
    for name in names {
        if !name.earlier.is_empty() {
            found.push((name.path.copy()?, name.earlier.len() as u64))?;
        }
    }
    Ok(found)
}

/// Returns the names with earlier entries, which a crash may bring back, ascending by their texts,
/// each with the number of these entries.
pub fn choices_of(alloc: Global, scene: &Scene) -> Result<Items<(Path, u64)>, AllocError>
    ensures { IfOk result (AreChoices (seen scene.now)) }
{
    Ok(Items::from_vec(choices_in(alloc, &scene.names)?))
}
