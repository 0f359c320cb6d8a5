//! Checks of what a crash left. They read its names and files alone, without the program under
//! test.
use crate::wares::MadeCommit;
use fp_base::ObjKind;
use fp_host::Entry;
use fp_memhost::Image;
use ost_commit::{BuiltObject, TreeRow};
use ost_model::Object;

/// Returns what isn't complete; none if all is, or the case has no commits. Each file and symlink
/// below `repo/objects` has to be an undamaged object of the commits. For each ref with an
/// `active`, the file `deploy` has to name that commit, and each commit that it names has to have
/// all its objects, and a directory with exactly its paths, in which each file is a hard link of
/// its object.
pub fn fault_in(image: &Image, commits: &[MadeCommit]) -> Option<&'static str> {
    if commits.is_empty() {
        return None;
    }
    if !are_objects(image, commits) {
        return Some("below repo/objects stands what is no whole object of the commits");
    }
    for (path, entry) in image.names.as_slice() {
        if let (Some(home), Entry::Link(text)) = (home_of(path.text()), entry) {
            let fault = fault_of_ref(image, commits, home, text.as_str());
            if fault.is_some() {
                return fault;
            }
        }
    }
    None
}

/// Returns the directory of the ref whose `active` is at this path; none for another path and for
/// one below `repo`.
fn home_of(path: &str) -> Option<&str> {
    match path.strip_suffix("/active") {
        Some(home) if !home.starts_with("repo/") => Some(home),
        _ => None,
    }
}

/// Returns the permission bits and bytes of the file with this id.
fn content_of(image: &Image, id: u64) -> Option<(u32, &[u8])> {
    let row = image.files.as_slice().iter().find(|row| row.id == id)?;
    Some((row.mode, row.bytes.as_slice()))
}

/// Returns whether the entry is this object, undamaged.
fn is_object(image: &Image, entry: &Entry, object: &Object) -> bool {
    match (entry, object) {
        (Entry::Link(text), Object::Link(wanted)) => text.as_str() == wanted.as_str(),
        (Entry::File(id), Object::Meta(wanted)) => has_content(image, *id, None, wanted.as_slice()),
        (Entry::File(id), Object::File { mode, bytes }) => {
            has_content(image, *id, Some(*mode), bytes.as_slice())
        }
        _ => false,
    }
}

/// Returns whether the file has these bytes, and these permission bits if any are given.
fn has_content(image: &Image, id: u64, mode: Option<u32>, bytes: &[u8]) -> bool {
    match content_of(image, id) {
        Some((came, held)) => held == bytes && mode.unwrap_or(came) == came,
        None => false,
    }
}

/// Returns whether everything below `repo/objects`, except directories, is an undamaged object of
/// the commits.
fn are_objects(image: &Image, commits: &[MadeCommit]) -> bool {
    image.names.as_slice().iter().all(|name| {
        let path = name.0.text();
        matches!(&name.1, Entry::Dir)
            || !path.starts_with("repo/objects/")
            || commits
                .iter()
                .any(|made| has_object_at(image, made, path, &name.1))
    })
}

/// Returns whether the commit has an object that belongs at this path, and the entry is this
/// object.
fn has_object_at(image: &Image, made: &MadeCommit, path: &str, entry: &Entry) -> bool {
    let objects = made.built.objects.as_slice();
    objects.iter().any(|object| is_place(path, object) && is_object(image, entry, &object.object))
}

/// Returns whether the object belongs at this path: `repo/objects/`, two digits of its digest, a
/// slash, the other 62 digits, a dot, and its kind.
fn is_place(path: &str, object: &BuiltObject) -> bool {
    let digits = object.digest.digits();
    match cut_place(path) {
        Some((first, rest, kind)) => {
            first.len() == 2
                && rest.len() == 62
                && digits.starts_with(first.as_bytes())
                && digits.ends_with(rest.as_bytes())
                && kind == object.kind.word()
        }
        None => false,
    }
}

/// Splits the path of an object into the first digits, the other ones and the kind.
fn cut_place(path: &str) -> Option<(&str, &str, &str)> {
    let (first, name) = path.strip_prefix("repo/objects/")?.split_once('/')?;
    let (rest, kind) = name.split_once('.')?;
    Some((first, rest, kind))
}

/// Returns the directory entry at the path of the object.
fn entry_of<'a>(image: &'a Image, object: &BuiltObject) -> Option<&'a Entry> {
    let names = image.names.as_slice();
    let (_, entry) = names.iter().find(|name| is_place(name.0.text(), object))?;
    Some(entry)
}

/// Returns what isn't complete of the ref with this directory, whose `active` has this text.
fn fault_of_ref(
    image: &Image,
    commits: &[MadeCommit],
    home: &str,
    active: &str,
) -> Option<&'static str> {
    let Some(Entry::File(id)) = entry_within(image, home, active, "deploy") else {
        return Some("a ref has no file deploy");
    };
    let deploy = match content_of(image, *id) {
        Some((_, bytes)) => bytes,
        None => &[],
    };
    if !commits.iter().any(|made| is_called(made, active))
        || !has_bytes(deploy, active.as_bytes())
    {
        return Some("the file deploy of a ref doesn't name its commit");
    }
    for made in commits {
        if has_bytes(deploy, &made.built.commit.digits()) {
            let fault = fault_of_commit(image, made, home);
            if fault.is_some() {
                return fault;
            }
        }
    }
    None
}

/// Returns whether these are the digits of the commit.
fn is_called(made: &MadeCommit, digits: &str) -> bool {
    made.built.commit.digits().as_slice() == digits.as_bytes()
}

fn has_bytes(bytes: &[u8], part: &[u8]) -> bool {
    (0..bytes.len()).any(|at| bytes.get(at..).unwrap_or(&[]).starts_with(part))
}

/// Returns the part of the path below `HOME/DIGITS/`.
fn inner<'a>(path: &'a str, home: &str, digits: &str) -> Option<&'a str> {
    let rest = path.strip_prefix(home)?.strip_prefix('/')?;
    rest.strip_prefix(digits)?.strip_prefix('/')
}

/// Returns the directory entry at a path below the directory of a commit.
fn entry_within<'a>(image: &'a Image, home: &str, digits: &str, path: &str) -> Option<&'a Entry> {
    let names = image.names.as_slice();
    let (_, entry) = names
        .iter()
        .find(|name| inner(name.0.text(), home, digits) == Some(path))?;
    Some(entry)
}

/// Returns what isn't complete of a commit in the directory of a ref.
fn fault_of_commit(image: &Image, made: &MadeCommit, home: &str) -> Option<&'static str> {
    let digits = made.built.commit.digits();
    let digits = str::from_utf8(&digits).unwrap_or("");
    if !has_objects(image, made) {
        return Some("an object of a deployed commit isn't there");
    }
    if !made
        .rows
        .iter()
        .all(|row| has_row(image, made, home, digits, row))
    {
        return Some("a path of a deployed commit isn't what the commit has there");
    }
    if !has_only_rows(image, made, home, digits) {
        return Some("a path in the folder of a commit is none of the commit's");
    }
    None
}

/// Returns whether all objects of the commit are present and undamaged.
fn has_objects(image: &Image, made: &MadeCommit) -> bool {
    let objects = made.built.objects.as_slice();
    objects.iter().all(|object| match entry_of(image, object) {
        Some(entry) => is_object(image, entry, &object.object),
        None => false,
    })
}

/// Returns whether a row of the commit is below its directory. A file has to be a hard link of its
/// object.
fn has_row(image: &Image, made: &MadeCommit, home: &str, digits: &str, row: &TreeRow) -> bool {
    let path = row.path().text();
    let Some(entry) = entry_within(image, home, digits, path) else {
        return false;
    };
    match (row, entry) {
        (TreeRow::Dir(_), Entry::Dir) => true,
        (TreeRow::Link { target, .. }, Entry::Link(text)) => target.as_str() == text.as_str(),
        (TreeRow::File { .. }, Entry::File(id)) => file_id(image, made, path) == Some(*id),
        _ => false,
    }
}

/// Returns the id of the file that is the object of the commit's file at this path.
fn file_id(image: &Image, made: &MadeCommit, path: &str) -> Option<u64> {
    let digest = made.file_digest(path)?;
    let objects = made.built.objects.as_slice();
    let object = objects.iter().find(|object| object.digest == digest
        && object.kind == ObjKind::File)?;
    match entry_of(image, object)? {
        Entry::File(id) => Some(*id),
        _ => None,
    }
}

/// Returns whether the directory of the commit has only the commit's paths, the directories above
/// them, and `deploy`.
fn has_only_rows(image: &Image, made: &MadeCommit, home: &str, digits: &str) -> bool {
    image.names.as_slice().iter().all(|name| {
        match (inner(name.0.text(), home, digits), &name.1) {
            (None, _) | (Some("deploy"), Entry::File(_)) => true,
            (Some(path), Entry::Dir) => made.rows.iter().any(|row| is_at_or_above(path, row)),
            (Some(path), _) => made.rows.iter().any(|row| row.path().text() == path),
        }
    })
}

/// Returns whether the directory is at the row's path or above it.
fn is_at_or_above(folder: &str, row: &TreeRow) -> bool {
    match row.path().text().strip_prefix(folder) {
        Some(rest) => rest.is_empty() || rest.starts_with('/'),
        None => false,
    }
}
