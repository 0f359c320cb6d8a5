//! Steps of a test with a store at `repo` on the host in memory.

use crate::parsed::{digest_of, path_of};
use fp_base::{Blob, ObjKind, Text};
use fp_host::{Host, HostEnd, Path, Stat};
use fp_memhost::MemHost;
use fp_name::{RefName, RemoteName};
use ost_model::Object;
use ost_refs::{RefFile, RefPlace, drop_ref, list_refs, read_ref, write_ref};
use ost_store::{Got, get, has, names, place, read_piece, remove, stage, stage_file, stage_piece};
use std::alloc::Global;
use std::panic::Expect;
use std::process::Abort;

/// The end of a step that changes something.
pub type Done = Result<(), HostEnd>;

/// The step succeeds.
pub const DONE: Done = Ok(());

/// A call of the host fails.
pub const FAULT: Done = Err(HostEnd::Fault);

/// The content of a file or text.
pub enum Content {
    /// These bytes.
    Bytes(&'static [u8]),
    /// A byte, and the number of its copies.
    Times(u8, usize),
}

/// An object.
pub enum Made {
    /// The bytes of a metadata object.
    Meta(Content),
    /// A file's permission bits and its content.
    File(u32, Content),
    /// A symlink's text.
    Link(Content),
}

/// The wanted result of getting an object.
pub enum Want {
    /// The store doesn't have the object.
    Absent,
    /// The object has this number of bytes, more than were allowed.
    TooLong(u64),
    /// The whole object.
    Made(Made),
}

/// An object's kind, and its digest as hexadecimal digits.
pub type Name = (ObjKind, &'static str);

/// The remote of a ref, empty for a ref of the store itself, and the ref.
pub type Place = (&'static str, &'static str);

/// The wanted content of a ref's file.
pub enum Said {
    /// The file is absent.
    Absent,
    /// The file isn't a digest.
    Bad,
    /// The digest `WRITTEN`.
    Written,
}

/// A step, and its wanted result.
pub enum Step {
    /// Stages an object at `repo/tmp/new0`.
    Stage(Made, Done),
    /// Stages a file at the path, with these permission bits and this content.
    File(&'static str, u32, Content),
    /// Appends bytes to the file at `repo/tmp/new0`.
    Piece(Content),
    /// Places the file at `repo/tmp/new0` as the object with this name.
    Place(Name, Done),
    /// Removes an object.
    Remove(Name, Done),
    /// Syncs the host.
    Sync,
    /// Makes a directory.
    Folder(&'static str),
    /// Checks whether the store has the object.
    Has(Name, bool),
    /// Gets an object, with this number as the maximum of its bytes.
    Get(Name, u64, Want),
    /// Reads a file's content from this offset on, with the second number as the maximum of bytes.
    Read(Name, u64, usize, Content),
    /// Checks that an object can't be read as a file.
    NoFile(Name),
    /// Lists the names below `objects`, and checks their number and the first of their paths.
    Listed(Result<usize, HostEnd>, &'static [&'static str]),
    /// Lists the names below `objects` of the store at the root, and checks their number.
    ListedInRoot(Result<usize, HostEnd>),
    /// Checks the content of the file at a path.
    Bytes(&'static str, &'static [u8]),
    /// Checks the permission bits of the file at a path.
    Mode(&'static str, u32),
    /// Checks that nothing is at the path.
    Gone(&'static str),
    /// Checks whether a crash leaves exactly the present content.
    Settled(bool),
    /// Stages this many empty files, with numbers between these two texts.
    Many(&'static str, usize, &'static str),
    /// Writes the digest `WRITTEN` to a ref.
    RefWrite(Place),
    /// Removes a ref.
    RefDrop(Place),
    /// Reads a ref.
    Ref(Place, Said),
    /// Lists the refs, and checks their number and the paths of the first ones' files.
    RefsListed(usize, &'static [&'static str]),
}

/// The digest that is written to refs.
pub const WRITTEN: &str = "0123456789abcdef0123456789abcdef0123456789abcdef0123456789abcdef";

fn bytes_of(rt: &impl Abort, alloc: Global, content: &Content) -> Vec<u8> {
    match content {
        Content::Bytes(bytes) => bytes.to_vec(alloc).expect(rt, "memory"),
        Content::Times(byte, count) => vec![in alloc; *byte; *count].expect(rt, "memory"),
    }
}

/// Makes the content's bytes.
pub fn blob_of(rt: &impl Abort, alloc: Global, content: &Content) -> Blob {
    Blob::from_vec(bytes_of(rt, alloc, content))
}

fn text_of(rt: &impl Abort, alloc: Global, content: &Content) -> Text {
    let text = String::from_utf8(bytes_of(rt, alloc, content));
    Text::from_string(text.expect(rt, "a text"))
}

fn object_of(rt: &impl Abort, alloc: Global, made: &Made) -> Object {
    match made {
        Made::Meta(content) => Object::Meta(blob_of(rt, alloc, content)),
        Made::File(mode, content) => Object::File {
            mode: *mode,
            bytes: blob_of(rt, alloc, content),
        },
        Made::Link(content) => Object::Link(text_of(rt, alloc, content)),
    }
}

fn is_staged(
    rt: &impl Abort,
    alloc: Global,
    host: &mut MemHost,
    tmp: &Path,
    made: &Made,
    want: Done,
) -> bool {
    let object = object_of(rt, alloc, made);
    stage(alloc, host, tmp, &object) == want
}

/// Appends bytes to the file at the path, and returns whether that succeeded.
fn is_grown(
    rt: &impl Abort,
    alloc: Global,
    host: &mut MemHost,
    path: &Path,
    content: &Content,
) -> bool {
    stage_piece(host, path, &bytes_of(rt, alloc, content)) == DONE
}

fn is_made(
    rt: &impl Abort,
    alloc: Global,
    host: &mut MemHost,
    at: &str,
    mode: u32,
    content: &Content,
) -> bool {
    let path = path_of(rt, alloc, at);
    stage_file(alloc, host, &path, mode) == DONE && is_grown(rt, alloc, host, &path, content)
}

fn is_placed(
    rt: &impl Abort,
    alloc: Global,
    host: &mut MemHost,
    root: &Path,
    tmp: &Path,
    name: Name,
    want: Done,
) -> bool {
    place(alloc, host, root, tmp, &digest_of(rt, name.1), name.0) == want
}

fn is_removed(
    rt: &impl Abort,
    alloc: Global,
    host: &mut MemHost,
    root: &Path,
    name: Name,
    want: Done,
) -> bool {
    remove(alloc, host, root, &digest_of(rt, name.1), name.0) == want
}

fn is_folder_made(rt: &impl Abort, alloc: Global, host: &mut MemHost, at: &str) -> bool {
    host.make_dir(&path_of(rt, alloc, at)) == Ok(())
}

fn has_object(
    rt: &impl Abort,
    alloc: Global,
    host: &mut MemHost,
    root: &Path,
    name: Name,
    want: bool,
) -> bool {
    has(alloc, host, root, &digest_of(rt, name.1), name.0) == Ok(want)
}

/// Returns whether this is the object; of a file only its mode and size are compared.
fn is_same(got: &Got, want: &Object) -> bool {
    match (got, want) {
        (Got::Meta(bytes), Object::Meta(want)) => bytes.as_slice() == want.as_slice(),
        (Got::Link(text), Object::Link(want)) => text.as_str() == want.as_str(),
        (Got::File { mode, size }, Object::File { mode: bits, bytes }) => {
            *mode == *bits && *size == bytes.len() as u64
        }
        _ => false,
    }
}

/// Returns whether this is the wanted result.
fn is_wanted(rt: &impl Abort, alloc: Global, got: &Got, want: &Want) -> bool {
    match want {
        Want::Absent => matches!(got, Got::Absent),
        Want::TooLong(bytes) => matches!(got, Got::TooLong(size) if *size == *bytes),
        Want::Made(made) => is_same(got, &object_of(rt, alloc, made)),
    }
}

fn is_got(
    rt: &impl Abort,
    alloc: Global,
    host: &mut MemHost,
    root: &Path,
    name: Name,
    most: u64,
    want: &Want,
) -> bool {
    match get(alloc, host, root, &digest_of(rt, name.1), name.0, most) {
        Ok(got) => is_wanted(rt, alloc, &got, want),
        Err(_) => false,
    }
}

/// Reads a file's content from an offset on.
fn read(
    rt: &impl Abort,
    alloc: Global,
    host: &mut MemHost,
    root: &Path,
    name: Name,
    at: u64,
    into: &mut [u8],
) -> Result<usize, HostEnd> {
    read_piece(alloc, host, root, &digest_of(rt, name.1), at, into)
}

fn is_read(
    rt: &impl Abort,
    alloc: Global,
    host: &mut MemHost,
    root: &Path,
    name: Name,
    at: u64,
    most: usize,
    content: &Content,
) -> bool {
    let mut into = vec![in alloc; b'.'; most].expect(rt, "memory");
    match read(rt, alloc, host, root, name, at, &mut into) {
        Ok(count) => into.get(..count) == Some(bytes_of(rt, alloc, content).as_slice()),
        Err(_) => false,
    }
}

fn is_no_file(rt: &impl Abort, alloc: Global, host: &mut MemHost, root: &Path, name: Name) -> bool {
    let mut into = [b'.'; 4];
    read(rt, alloc, host, root, name, 0, &mut into) == Err(HostEnd::Fault)
}

/// Returns whether the first paths are these.
fn begin_with(paths: &[Path], first: &[&str]) -> bool {
    for (path, want) in paths.iter().zip(first) {
        if path.text() != *want {
            return false;
        }
    }
    true
}

fn are_listed(
    alloc: Global,
    host: &mut MemHost,
    root: &Path,
    want: Result<usize, HostEnd>,
    first: &[&str],
) -> bool {
    match names(alloc, host, root) {
        Ok(paths) => want == Ok(paths.len()) && begin_with(paths.as_slice(), first),
        Err(end) => want == Err(end),
    }
}

fn has_bytes(rt: &impl Abort, alloc: Global, host: &mut MemHost, at: &str, want: &[u8]) -> bool {
    let mut into = [b'.'; 128];
    match host.read_at(&path_of(rt, alloc, at), 0, &mut into) {
        Ok(count) => into.get(..count) == Some(want),
        Err(_) => false,
    }
}

fn has_mode(rt: &impl Abort, alloc: Global, host: &mut MemHost, at: &str, want: u32) -> bool {
    match host.stat(&path_of(rt, alloc, at)) {
        Ok(Stat::File { mode, .. }) => mode == want,
        _ => false,
    }
}

fn is_gone(rt: &impl Abort, alloc: Global, host: &mut MemHost, at: &str) -> bool {
    host.stat(&path_of(rt, alloc, at)) == Ok(Stat::Absent)
}

fn is_settled(rt: &impl Abort, host: &MemHost) -> bool {
    let choices = host.choices(host.calls());
    choices.expect(rt, "memory").is_empty()
}

fn is_one_made(
    rt: &impl Abort,
    alloc: Global,
    host: &mut MemHost,
    front: &str,
    number: usize,
    end: &str,
) -> bool {
    let at = format!(in alloc; "{front}{number}{end}").expect(rt, "memory");
    stage_file(alloc, host, &path_of(rt, alloc, &at), 0) == DONE
}

fn are_made(
    rt: &impl Abort,
    alloc: Global,
    host: &mut MemHost,
    front: &str,
    count: usize,
    end: &str,
) -> bool {
    for number in 0..count {
        if !is_one_made(rt, alloc, host, front, number, end) {
            return false;
        }
    }
    true
}

fn place_of(rt: &impl Abort, alloc: Global, place: Place) -> RefPlace {
    let name = RefName::parse(alloc, place.1.as_bytes()).expect(rt, "a ref");
    if place.0.is_empty() {
        return RefPlace::Head(name);
    }
    let origin = RemoteName::parse(alloc, place.0.as_bytes()).expect(rt, "a name");
    RefPlace::Remote(origin, name)
}

fn is_written(
    rt: &impl Abort,
    alloc: Global,
    host: &mut MemHost,
    root: &Path,
    place: &RefPlace,
) -> bool {
    write_ref(alloc, host, root, place, &digest_of(rt, WRITTEN)) == DONE
}

/// Returns whether a ref's file has the wanted content.
fn is_said(rt: &impl Abort, said: RefFile, want: &Said) -> bool {
    match want {
        Said::Absent => said == RefFile::Absent,
        Said::Bad => said == RefFile::Bad,
        Said::Written => said == RefFile::Digest(digest_of(rt, WRITTEN)),
    }
}

fn says(
    rt: &impl Abort,
    alloc: Global,
    host: &mut MemHost,
    root: &Path,
    place: &RefPlace,
    want: &Said,
) -> bool {
    match read_ref(alloc, host, root, place) {
        Ok(said) => is_said(rt, said, want),
        Err(_) => false,
    }
}

/// Returns whether the ref has its file at this path.
fn is_at(rt: &impl Abort, root: &Path, place: &RefPlace, want: &str) -> bool {
    let path = ost_refs::path_of(root, place).expect(rt, "memory");
    path.text() == want
}

/// Returns whether the first refs have their files at these paths.
fn are_at(rt: &impl Abort, root: &Path, places: &[RefPlace], first: &[&str]) -> bool {
    for (place, want) in places.iter().zip(first) {
        if !is_at(rt, root, place, want) {
            return false;
        }
    }
    true
}

fn are_refs_listed(
    rt: &impl Abort,
    alloc: Global,
    host: &mut MemHost,
    root: &Path,
    count: usize,
    first: &[&str],
) -> bool {
    match list_refs(alloc, host, root) {
        Ok(places) => places.len() == count && are_at(rt, root, places.as_slice(), first),
        Err(_) => false,
    }
}

/// Does a step, and returns whether its result is the wanted one.
fn is_so(
    rt: &impl Abort,
    alloc: Global,
    host: &mut MemHost,
    root: &Path,
    tmp: &Path,
    step: &Step,
) -> bool {
    match step {
        Step::Stage(made, want) => is_staged(rt, alloc, host, tmp, made, *want),
        Step::File(at, mode, content) => is_made(rt, alloc, host, at, *mode, content),
        Step::Piece(content) => is_grown(rt, alloc, host, tmp, content),
        Step::Place(name, want) => is_placed(rt, alloc, host, root, tmp, *name, *want),
        Step::Remove(name, want) => is_removed(rt, alloc, host, root, *name, *want),
        Step::Sync => host.sync() == Ok(()),
        Step::Folder(at) => is_folder_made(rt, alloc, host, at),
        Step::Has(name, want) => has_object(rt, alloc, host, root, *name, *want),
        Step::Get(name, most, want) => is_got(rt, alloc, host, root, *name, *most, want),
        Step::Read(name, at, most, content) => {
            is_read(rt, alloc, host, root, *name, *at, *most, content)
        }
        Step::NoFile(name) => is_no_file(rt, alloc, host, root, *name),
        Step::Listed(want, first) => are_listed(alloc, host, root, *want, first),
        Step::ListedInRoot(want) => are_listed(alloc, host, &Path::root(alloc), *want, &[]),
        Step::Bytes(at, want) => has_bytes(rt, alloc, host, at, want),
        Step::Mode(at, want) => has_mode(rt, alloc, host, at, *want),
        Step::Gone(at) => is_gone(rt, alloc, host, at),
        Step::Settled(want) => is_settled(rt, host) == *want,
        Step::Many(front, count, end) => are_made(rt, alloc, host, front, *count, end),
        Step::RefWrite(place) => is_written(rt, alloc, host, root, &place_of(rt, alloc, *place)),
        Step::RefDrop(place) => drop_ref(alloc, host, root, &place_of(rt, alloc, *place)) == DONE,
        Step::Ref(place, want) => says(rt, alloc, host, root, &place_of(rt, alloc, *place), want),
        Step::RefsListed(count, first) => are_refs_listed(rt, alloc, host, root, *count, first),
    }
}

/// Ends the test and prints the step's number, unless the step is right.
fn agree(rt: &impl Abort, name: &str, step: usize, is_so: bool) {
    assert!(rt; is_so, "{name}: step {step}");
}

/// Does the steps on an empty host, one after another.
fn host_after(
    rt: &impl Abort,
    alloc: Global,
    root: &Path,
    tmp: &Path,
    name: &str,
    steps: &[Step],
) -> MemHost {
    let mut host = MemHost::new(alloc).expect(rt, "memory");
    for (at, step) in steps.iter().enumerate() {
        agree(rt, name, at, is_so(rt, alloc, &mut host, root, tmp, step));
    }
    host
}

/// Returns the number of the host's calls for listing the refs of the store.
fn calls_of(rt: &impl Abort, alloc: Global, host: &mut MemHost, root: &Path) -> u64 {
    let before = host.calls();
    let refs = list_refs(alloc, host, root).expect(rt, "a list");
    drop(refs);
    host.calls().saturating_sub(before)
}

/// Does the steps on an empty host, and returns the number of the host's calls for listing the refs
/// of the store.
pub fn calls_after(rt: &impl Abort, alloc: Global, steps: &[Step]) -> u64 {
    let root = path_of(rt, alloc, "repo");
    let tmp = path_of(rt, alloc, "repo/tmp/new0");
    let mut host = host_after(rt, alloc, &root, &tmp, "a list", steps);
    let calls = calls_of(rt, alloc, &mut host, &root);
    drop(host);
    calls
}

/// Does the steps of each story on an empty host. Ends the test at the first step that is wrong.
pub fn tell_all(rt: &impl Abort, alloc: Global, stories: &[(&str, &[Step])]) {
    let root = path_of(rt, alloc, "repo");
    let tmp = path_of(rt, alloc, "repo/tmp/new0");
    for (name, steps) in stories {
        let host = host_after(rt, alloc, &root, &tmp, name, steps);
        drop(host);
    }
}
