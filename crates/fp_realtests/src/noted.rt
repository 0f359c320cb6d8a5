//! The progress notes a list of the store's objects. By that, fpk knows that a change looked at all
//! of them.
use fp_host::Host;
use fp_progress::{Progress, Task, Watched};
use fp_realhost::HostDir;
use fp_realplay::{Kind, Log, clear, path};
use fp_realroot::{Access, System};
use std::fs;
use std::panic::Expect;
use std::thread::Threads;

/// Returns whether a list of this directory is noted as one of the store's objects.
fn is_noted<T: System + Threads>(rt: &HostRuntime, maker: &T, log: &Log<'_>, folder: &str) -> bool {
    let progress = Progress::new(rt, log.alloc, Task::Other, false);
    let system = Watched::host(rt, &progress);
    match HostDir::with_maker(&system, maker, rt, log.alloc, "noted", Access::Look) {
        Ok(mut host) => {
            let listed = host.list(log.alloc, &path(log, folder));
            host.finish();
            listed.is_ok() && progress.has_listed_objects()
        }
        Err(_) => false,
    }
}

#[test]
fn a_list_of_the_objects_is_noted(rt: HostRuntime) {
    let log = Log::new(rt.alloc(), Kind::Plain);
    clear(&rt, "noted");
    fs::create_dir_all(&rt, "noted/repo/objects").expect(&rt, "folders");
    let of_objects = is_noted(&rt, &rt, &log, "repo/objects");
    let of_repo = is_noted(&rt, &rt, &log, "repo");
    clear(&rt, "noted");
    assert!(rt; of_objects && !of_repo);
}
