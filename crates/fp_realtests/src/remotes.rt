//! Directories as remotes.
use fp_host::{Path, Remotes};
use fp_realinput::DirRemotes;
use fp_realplay::{Kind, Log, Logged, clear, path, play_disk, tell, url_of};

/// The files of the remote.
const MADE: &str = "\
folder remote
file remote/file hello world
bits remote/file 640
leads remote/link file
";

/// A directory as a remote, and URLs that aren't those of a remote.
const REMOTES: &str = "\
# remote
disk
folder remote
file remote/file hello world
bits remote/file 640
leads remote/link file

-- A path, how many bytes it has from the seventh on, and what stands there.

remote remote
node . 0 dir
node file 5 640 11
node link 0 file
node file/below 0 absent
node none 0 absent

# others
-- All faults are counted, and the last is told.

remote .
url
url /
url file:/
url file://
url file://x/
url FILE:///
url https:///
faults 14 cannot find the remote https:///: a url is file:// and an absolute path
";

#[test]
fn folders_are_remotes_and_other_urls_are_faults(rt: HostRuntime) {
    assert!(rt; tell(&rt, &rt, REMOTES));
}

/// Returns whether a path is looked up once when its node is asked for, and not again when it is
/// read.
fn reads_found<M: Remotes>(
    log: &Log<'_>,
    remotes: &mut M,
    folder: &str,
    file: &str,
    at: &Path,
) -> bool {
    let found = remotes.node(log.alloc, folder, at).is_ok() && log.is_one("look", file);
    let read = remotes.read_at(folder, at, 6, &mut [0u8; 8]).ok() == Some(5);
    found && read && log.is_noted("")
}

fn looks_once(rt: &HostRuntime, log: &Log<'_>, folder: &str, file: &str, at: &Path) -> bool {
    let system = Logged { rt, log };
    let mut remotes = DirRemotes::new(&system, log.alloc);
    reads_found(log, &mut remotes, folder, file, at)
}

/// Returns whether a file of the remote is looked up only once.
fn is_found(rt: &HostRuntime, log: &Log<'_>) -> bool {
    let folder = url_of(rt, log, "remote");
    let file = url_of(rt, log, "remote/file");
    let at = path(log, "file");
    let place = file.strip_prefix("file://").unwrap_or("");
    looks_once(rt, log, &folder, place, &at)
}

#[test]
fn a_found_file_is_looked_at_once(rt: HostRuntime) {
    let log = Log::new(rt.alloc(), Kind::TellingLooks);
    clear(&rt, "remote");
    play_disk(&rt, &log, MADE);
    assert!(rt; is_found(&rt, &log) && log.all_held(&rt));
    clear(&rt, "remote");
}
