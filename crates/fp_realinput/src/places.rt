//! Looking up and reading the paths of remotes.
ghost use Rattle.std.specs.Prelude.{◌≤◌, IfOk, length};
ghost use Rattle.fp_host.specs.Remote.{HasNodeBits};

use fp_host::{Node, Path};
use fp_system::{
    Call, Cause, Folders, Found, Kind, Reader, SystemError, join, kind_at, look, read_link,
};
use std::alloc::Global;
use std::rt::Files;

/// The directories of remotes that were looked up, and the file that was read last.
pub struct Places<'a, R: Files> {
    rt: &'a R,
    alloc: Global,
    folders: Folders,
    // The system path of the call.
    at: String,
    // The path at which a regular file was last found.
    file: String,
    reader: Reader<R::File>,
}

impl<R: Files> Drop for Places<'_, R> {
    fn drop(self) {
        let Places {
            rt: _,
            alloc: _,
            folders: _,
            at: _,
            file: _,
            reader: _,
        } = self;
    }
}

impl<'a, R: Files> Places<'a, R> {
    /// Creates the places of a system, with nothing looked up yet.
    pub fn new(rt: &'a R, alloc: Global) -> Self {
        Places {
            rt,
            alloc,
            folders: Folders::none(alloc),
            at: String::new(alloc),
            file: String::new(alloc),
            reader: Reader::nothing(alloc),
        }
    }

    /// Returns the allocator.
    pub fn alloc(&self) -> Global {
        self.alloc
    }

    /// Writes the system path to `at`, and returns whether each path above it, below the URL's
    /// directory, is a directory. Errs with `IsSymlink` if one is a symlink.
    fn reach(&mut self, url: &str, path: &Path) -> Result<bool, Cause> {
        match write_path(url, path, &mut self.at) {
            Ok(below) => self.folders.look_above(self.rt, &self.at, below),
            Err(e) => Err(e),
        }
    }

    /// Returns what is at the path of the remote; `Absent` if something above it is no directory.
    /// Errs with `BadUrl`, with `IsSymlink` if a symlink is above the path, with `IsOther` for a
    /// socket, pipe or device, and with each error of the system.
    pub fn node(&mut self, alloc: Global, url: &str, path: &Path) -> Result<Node, Cause>
        ensures bits { IfOk result HasNodeBits }
    {
        match self.reach(url, path) {
            Ok(true) => node_at(self.rt, alloc, &self.at, &mut self.file),
            Ok(false) => Ok(Node::Absent),
            Err(e) => Err(e),
        }
    }

    /// Reads the file at the path from the byte offset `from` on, until the buffer is full or the
    /// file ends. Returns the number of bytes read, 0 if no regular file is there. Errs with
    /// `BadUrl`, with `IsSymlink` if a symlink is above the path, and with each error of the
    /// system.
    pub fn read_at(
        &mut self,
        url: &str,
        path: &Path,
        from: u64,
        into: &mut [u8],
    ) -> Result<usize, Cause>
        ensures bound { IfOk result (λ n. n ≤ length into.old) }
    {
        match self.reach(url, path) {
            Ok(true) => read_piece(self.rt, &self.at, &self.file, &mut self.reader, from, into),
            Ok(false) => Ok(0),
            Err(e) => Err(e),
        }
    }
}

/// Returns the path in the URL, which is absolute if the URL is valid; empty without `file://`.
fn folder_of_url(url: &str) -> &str {
    url.strip_prefix("file://").unwrap_or("")
}

/// Replaces the content of `into` with the system path: the URL's directory, a slash and the
/// elements. Returns the byte offset of the elements. Errs with `BadUrl` or `NoMemory`.
fn write_path(url: &str, path: &Path, into: &mut String) -> Result<usize, Cause> {
    let folder = folder_of_url(url);
    if !folder.starts_with('/') {
        return Err(Cause::BadUrl);
    }
    match join(folder, path.text(), into) {
        Ok(()) => Ok(folder.len().saturating_add(1)),
        Err(e) => Err(e),
    }
}

/// Returns the error of a call at a path of a remote.
pub fn refusal(alloc: Global, call: Call, url: &str, path: &Path, cause: Cause) -> SystemError {
    let mut at = String::new(alloc);
    match write_path(url, path, &mut at) {
        Ok(_) => SystemError::with_path(call, at, cause),
        Err(_) => SystemError::on(alloc, Call::Locate, url, cause),
    }
}

fn node_at<R: Files>(rt: &R, alloc: Global, at: &str, file: &mut String) -> Result<Node, Cause>
    ensures { IfOk result HasNodeBits }
{
    match look(rt, at) {
        Ok(found) => node_of(rt, alloc, at, &found, file),
        Err(e) => Err(e),
    }
}

fn node_of<R: Files>(
    rt: &R,
    alloc: Global,
    at: &str,
    found: &Found,
    file: &mut String,
) -> Result<Node, Cause>
    ensures { IfOk result HasNodeBits }
{
    match found.kind {
        Kind::Absent => Ok(Node::Absent),
        Kind::Dir => Ok(Node::Dir),
        Kind::Link => link_at(rt, alloc, at),
        Kind::File => {
            remember(at, file);
            Ok(Node::File {
                mode: found.permission_bits(),
                size: found.size,
            })
        }
        Kind::Other => Err(Cause::IsOther),
    }
}

fn link_at<R: Files>(rt: &R, alloc: Global, at: &str) -> Result<Node, Cause>
    ensures { IfOk result HasNodeBits }
{
    match read_link(rt, alloc, at) {
        Ok(text) => Ok(Node::Link(text)),
        Err(e) => Err(e),
    }
}

/// Remembers the path, if there is memory to do so.
fn remember(at: &str, into: &mut String) {
    into.clear();
    if into.push_str(at).is_err() {
        into.clear();
    }
}

/// Reads the file at the path. Anything but a regular file has no bytes.
fn read_piece<R: Files>(
    rt: &R,
    at: &str,
    file: &str,
    reader: &mut Reader<R::File>,
    from: u64,
    into: &mut [u8],
) -> Result<usize, Cause>
    ensures { IfOk result (λ n. n ≤ length into.old) }
{
    match begin(rt, at, file, reader, from) {
        Ok(true) => reader.read(from, into),
        Ok(false) => Ok(0),
        Err(e) => Err(e),
    }
}

/// Opens the file, unless the read continues the open one. Returns whether a regular file is there.
fn begin<R: Files>(
    rt: &R,
    at: &str,
    file: &str,
    reader: &mut Reader<R::File>,
    from: u64,
) -> Result<bool, Cause> {
    if !reader.begins(at, from) {
        return Ok(true);
    }
    match is_file(rt, at, file) {
        Ok(true) => open(rt, at, reader),
        none => none,
    }
}

fn open<R: Files>(rt: &R, at: &str, reader: &mut Reader<R::File>) -> Result<bool, Cause> {
    match reader.open(rt, at) {
        Ok(()) => Ok(true),
        Err(e) => Err(e),
    }
}

/// Returns whether a regular file is at the path. The file that was found last isn't looked up
/// again.
fn is_file<R: Files>(rt: &R, at: &str, file: &str) -> Result<bool, Cause> {
    if at == file {
        return Ok(true);
    }
    match kind_at(rt, at) {
        Ok(kind) => Ok(kind == Kind::File),
        Err(e) => Err(e),
    }
}
