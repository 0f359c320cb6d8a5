//! The content of generated remotes, compared to what the `ostree` command makes of the same trees.

use fl_gen::{GenRemotes, exercise_commands};
use fp_host::{Path, Remotes};
use std::alloc::Global;
use std::test::Fail;

/// Reads the commit's digest, in hexadecimal, from the file of a ref at the URL.
fn commit_at(
    alloc: Global,
    remotes: &mut GenRemotes,
    url: &str,
    name: &str,
) -> Result<[u8; 64], Fail> {
    let mut digits = [0; 64];
    let place = format!(in alloc; "refs/heads/{name}")?;
    let path = Path::parse(alloc, &place)?;
    let _count = remotes.read_at(url, &path, 0, &mut digits);
    Ok(digits)
}

/// `ostree commit --no-xattrs --owner-uid=0 --owner-gid=0 --subject=gen --timestamp=@1` gives the
/// first digest, and with `--timestamp=@2` the second.
#[test]
fn as_ostree(rt: HostRuntime) -> Result<(), Fail> {
    let alloc = rt.alloc();
    let mut remotes = GenRemotes::new(&rt, alloc, 4)?;
    let app = commit_at(
        alloc,
        &mut remotes,
        "file:///gen/1",
        "app/org.gen.App3/x86_64/1",
    )?;
    let runtime = commit_at(
        alloc,
        &mut remotes,
        "file:///gen/2",
        "runtime/org.gen.Run3/x86_64/1",
    )?;
    assert!(rt; app == *b"89265cc080b80ee910baab6f8ee03a95e0559eb5db02d064abdbc46f3047e975");
    assert!(rt; runtime == *b"84e72133945fd3050a09de1a6ecc4737005e698172a25a6eaca1ee6aa82107a7");
    Ok(())
}

/// For four applications there are ten commands: a new remote, four installs, the remote's new URL,
/// an update of all, two uninstalls, and the uninstall of unused runtimes.
#[test]
fn ten_commands(rt: HostRuntime) -> Result<(), Fail> {
    assert!(rt; exercise_commands(rt.alloc(), 4)?.len() == 10);
    Ok(())
}
