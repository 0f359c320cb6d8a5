//! The host, remotes and source in memory, with much content and many calls that fail.

use crate::many;
use fp_base::{Blob, Items};
use fp_host::{Host, Path, Remotes, Source, Stat, Taken};
use fp_memhost::{Choice, MemHost, MemNode, MemRemotes, MemSource};
use std::alloc::Global;
use std::panic::Expect;
use std::process::Abort;

/// Returns whether the file has 1 MiB after a crash now that brings nothing back.
fn is_left(rt: &impl Abort, alloc: Global, host: &MemHost, at: &Path) -> bool {
    let choice = Choice {
        names: Items::new(alloc),
        files: Items::new(alloc),
    };
    let image = host.image_after(host.calls(), &choice).expect(rt, "memory");
    let image = image.expect(rt, "an image");
    if !image.is_good() {
        return false;
    }
    let mut again = MemHost::from_image(alloc, image).expect(rt, "memory");
    matches!(again.stat(at), Ok(Stat::File { size, .. }) if size == 1 << 20)
}

/// Creates 1,100 files, the last of 1 MiB, prints 1 MiB, and syncs. Returns whether all files are
/// there, a crash could bring something back at each name before the sync, the output is kept, and
/// the last file is whole after a crash.
fn is_kept(rt: &impl Abort, alloc: Global, host: &mut MemHost, bytes: &[u8]) -> bool {
    let root = Path::root(alloc);
    many::fill(rt, alloc, host, &root);
    let last = many::path(rt, alloc, &root, 1_099);
    host.append(&last, bytes).expect(rt, "a file");
    host.say(bytes).expect(rt, "said");
    let choices = host.choices(host.calls()).expect(rt, "memory").len();
    let are_all = many::count(rt, alloc, host, &root) == 1_100 && choices == 1_100;
    host.sync().expect(rt, "a sync");
    are_all && host.printed().len() == 1 << 20 && is_left(rt, alloc, host, &last)
}

#[test]
fn much_is_kept(rt: HostRuntime) {
    let mut host = MemHost::new(rt.alloc()).expect(&rt, "memory");
    let bytes = many::bytes(&rt, rt.alloc(), 1 << 20);
    assert!(rt; is_kept(&rt, rt.alloc(), &mut host, &bytes));
    drop(host);
}

/// The first 100 calls make 100 nested directories. The calls with the numbers from 100 to 1,199
/// fail.
#[test]
fn many_calls_fail(rt: HostRuntime) {
    let alloc = rt.alloc();
    let mut host = MemHost::new(alloc).expect(&rt, "memory");
    let mut list = Vec::new(alloc);
    for number in 100..1_200 {
        list.push((number, false)).expect(&rt, "memory");
    }
    host.fail_calls(&list).expect(&rt, "memory");
    let path = many::make_folders(&rt, alloc, &mut host, 100);
    assert!(rt; host.stat(&path).is_err() && host.calls() == 101);
    drop(host);
}

/// Puts a file with these bytes at the path of a remote. Returns whether that was done.
fn is_put(remotes: &mut MemRemotes, at: &Path, bytes: Vec<u8>) -> bool {
    let node = MemNode::File {
        mode: 0o644,
        bytes: Blob::from_vec(bytes),
    };
    remotes.can_put("lab", at, &node) && remotes.put("lab", at, node).is_ok()
}

/// 1,100 files are put into a remote. The last, of 1 MiB, is read back.
#[test]
fn remotes_hold_much(rt: HostRuntime) {
    let alloc = rt.alloc();
    let root = Path::root(alloc);
    let mut remotes = MemRemotes::new(alloc).expect(&rt, "memory");
    for number in 0..1_099 {
        let at = many::path(&rt, alloc, &root, number);
        assert!(rt; is_put(&mut remotes, &at, many::bytes(&rt, alloc, 1)));
    }
    let last = many::path(&rt, alloc, &root, 1_099);
    let mut into = many::bytes(&rt, alloc, 1 << 20);
    assert!(rt; is_put(&mut remotes, &last, many::bytes(&rt, alloc, 1 << 20)));
    assert!(rt; remotes.read_at("lab", &last, 0, &mut into) == Ok(1 << 20));
    drop(remotes);
}

/// A source of 1 MiB returns all bytes at once.
#[test]
fn a_source_gives_much(rt: HostRuntime) {
    let bytes = Blob::from_vec(many::bytes(&rt, rt.alloc(), 1 << 20));
    let mut into = many::bytes(&rt, rt.alloc(), 1 << 20);
    let mut source = MemSource::new(bytes, 1 << 20, None);
    assert!(rt; source.take(&mut into) == Taken::Took(1 << 20));
    assert!(rt; source.take(&mut into) == Taken::End);
}
