//! The files of a host in memory.
ghost use Rattle.std.specs.Prelude.{◌≡◌, None, OnOk, OnErr, MatchOption};
ghost use Rattle.std.specs.Option.{option_copied};
ghost use Rattle.fp_memhost.specs.Files.{IsFileAt, SameFiles, AddsFile, GrowsFile, SettlesFiles, file_at, files_of, dirty_of};
ghost use Rattle.fp_memhost.specs.Appended.{size_of};

use std::alloc::AllocError;

/// A file of a host in memory.
#[derive(Drop)]
pub struct Content {
    /// The id by which entries refer to the file. If an image listed an id twice, the first one
    /// counts.
    pub id: u64,
    /// The file's permission bits.
    pub mode: u32,
    /// The file's bytes.
    pub bytes: Vec<u8>,
    /// Whether the file was created since the last sync.
    pub is_new: bool,
}

/// Returns the index of the file with this id.
pub fn find_file(files: &[Content], id: u64) -> Option<usize>
    ensures { MatchOption result (file_at files.now id ≡ None) (IsFileAt files.now id) }
{
    for (i, file) in files.iter().enumerate() {
        if file.id == id {
            return Some(i);
        }
    }
    None
}

/// Returns the file with this id.
pub fn file(files: &[Content], id: u64) -> Option<&Content>
    ensures { option_copied result ≡ file_at files.now id }
{
    match find_file(files, id) {
        Some(at) => Some(&files[at]),
        None => None,
    }
}

/// Returns whether the file with this id was created since the last sync; false if there is none.
pub fn is_new(files: &[Content], id: u64) -> bool
    ensures { result ≡ dirty_of files.now id }
{
    match file(files, id) {
        Some(file) => file.is_new,
        None => false,
    }
}

/// Adds an empty file with this id, which replaces a file with the id and counts as created since
/// the last sync. If memory runs out, nothing changes.
pub fn add_file(files: &mut Vec<Content>, id: u64, mode: u32) -> Result<(), AllocError>
    ensures ok { OnOk result (AddsFile id mode files.old.items files.new.items) }
    ensures err { OnErr result (SameFiles files.old.items files.new.items) }
{
    let file = Content {
        id,
        mode,
        bytes: Vec::new(*files.allocator()),
        is_new: true,
    };
    match find_file(files, id) {
        Some(at) => files[at] = file,
        None => files.push(file)?,
    }
    Ok(())
}

/// Appends bytes to the file with this id. Does nothing if there is none. If memory runs out,
/// nothing changes.
pub fn grow(files: &mut Vec<Content>, id: u64, bytes: &[u8]) -> Result<(), AllocError>
    ensures ok { OnOk result (GrowsFile id bytes.now files.old.items files.new.items) }
    ensures err { OnErr result (SameFiles files.old.items files.new.items) }
{
    match find_file(files, id) {
        Some(at) => {
            let file = &mut files[at];
            file.bytes.extend_from_slice(bytes)
        }
        None => Ok(()),
    }
}

/// Records a sync: no file counts as created since the last one.
pub fn settle(files: &mut Vec<Content>)
    ensures { SettlesFiles files.old.items files.new.items }
{
    for file in files.iter_mut() {
        file.is_new = false;
    }
}

/// Returns an id that no file has.
pub fn fresh_id(files: &[Content]) -> u64
    ensures { file_at files.now result ≡ None }
{
    let mut id = files.len() as u64;
    while find_file(files, id).is_some() {
        id -= 1;
    }
    id
}

/// Returns the length in bytes of the file with this id; 0 if there is none.
pub fn size_of(files: &[Content], id: u64) -> u64
    ensures { result ≡ size_of (files_of files.now id) }
{
    match file(files, id) {
        Some(file) => file.bytes.len() as u64,
        None => 0,
    }
}
