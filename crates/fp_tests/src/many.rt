//! Long texts, many bytes and many files for tests.

use fp_host::{Host, Path};
use fp_memhost::MemHost;
use std::alloc::Global;
use std::panic::Expect;
use std::process::Abort;

/// Returns this many bytes, each of them 7.
pub fn bytes(rt: &impl Abort, alloc: Global, count: usize) -> Vec<u8> {
    vec![in alloc; 7u8; count].expect(rt, "memory")
}

/// Repeats a text for each number from 0 to `count` - 1, with its four digits in place of each `#`.
pub fn numbered(rt: &impl Abort, alloc: Global, text: &str, count: usize) -> String {
    let mut all = String::new(alloc);
    for number in 0..count {
        let digits = format!(in alloc; "{number:04}").expect(rt, "memory");
        let part = text.replace(alloc, "#", &digits).expect(rt, "memory");
        all.push_str(&part).expect(rt, "memory");
    }
    all
}

/// Returns the path of the file with this number in the directory.
pub fn path(rt: &impl Abort, alloc: Global, folder: &Path, number: usize) -> Path {
    let name = format!(in alloc; "n{number:04}").expect(rt, "memory");
    folder.join(&name).expect(rt, "an element")
}

/// Makes this many nested directories, and returns the path of the innermost.
pub fn make_folders(rt: &impl Abort, alloc: Global, host: &mut MemHost, count: usize) -> Path {
    let mut path = Path::root(alloc);
    for _ in 0..count {
        path = path.child("e").expect(rt, "memory");
        host.make_dir(&path).expect(rt, "a folder");
    }
    path
}

/// Creates 1,100 empty files in the directory.
pub fn fill(rt: &impl Abort, alloc: Global, host: &mut MemHost, folder: &Path) {
    for number in 0..1_100 {
        let at = path(rt, alloc, folder, number);
        host.create(&at, 0o644).expect(rt, "a new file");
    }
}

/// Returns the number of names in the directory.
pub fn count(rt: &impl Abort, alloc: Global, host: &mut MemHost, folder: &Path) -> usize {
    host.list(alloc, folder).expect(rt, "names").len()
}
