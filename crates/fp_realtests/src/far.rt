//! The progress line of a command on a terminal.
use fp_progress::{Progress, Task, Watched};
use fp_realplay::{Kind, Log, Logged, clear, pair, play_disk};
use fp_realroot::System;
use std::alloc::Global;
use std::fs;
use std::rt::Files;
use std::thread::Threads;

const REF: &str = "far/hub/refs/heads/app/org.x.App/x86_64/1";

const COMMIT: &str =
    "far/hub/objects/7f/2461fb4eec56b10606e193425ebfd413e516485530fe77cf1637c1836c0360.commit";

const TOP: &str =
    "far/hub/objects/20/80b6f2e1ac2513d7b5d83f5508bfe399e3a74c006b1ea165e2cd8d16674a04.dirtree";

const BELOW: &str =
    "far/hub/objects/ee/1d22aa3479482c1f93a50cbaf934b58f69c76487b1ddcf30adf71b992c9afb.dirtree";

const META: &str =
    "far/hub/objects/44/6a0ef11b7cc167f3b603e585c7eeeeb675faa412d5ec73f62988eb0b6c5488.dirmeta";

const FILE_A: &str =
    "far/hub/objects/23/01b5923720c3edc1f0467addb5c287fd5559e3e0cd1396e7f1edb6b01be9f0.file";

const FILE_B: &str =
    "far/hub/objects/7e/01018c6be16a179700240a1569b195fb7c3fb81781fed2fba0dd1d226c39af.file";

const FILE_C: &str =
    "far/hub/objects/6e/56590e2bb5709ac248a8207966749ea44c0fa06551d263704596ba4fd93dd4.file";

/// The path of a ref with a long ID.
const LONG_REF: &str =
    "far/hub/refs/heads/app/org.example.a.b.c.d.e.f.g.h.i.j.k.l.m.n.o.p.q.r.s.t.u.v.w.x\
    .y.z.Long.Name/x86_64/1";

/// The directories that exist before the calls.
const FOLDERS: &str = "\
folder far/hub/refs/heads/app/org.x.App/x86_64
folder far/hub/refs/heads/app/org.example.a.b.c.d.e.f.g.h.i.j.k.l.m.n.o.p.q.r.s.t.u.v.w.x\
    .y.z.Long.Name/x86_64
folder far/hub/objects/20
folder far/hub/objects/ee
folder far/hub/objects/7f
folder far/hub/objects/44
folder far/hub/objects/23
folder far/hub/objects/7e
folder far/hub/objects/6e
folder far/repo/objects/23
";

/// The content of both refs: the digest of the commit.
const NAMED: &[u8] = b"7f2461fb4eec56b10606e193425ebfd413e516485530fe77cf1637c1836c0360\n";

/// The dirtree that `ostree commit` wrote for a tree with the files `a` and `b` and a directory
/// with the file `c`.
const TOP_TREE: &[u8] =
    b"a\x00\x23\x01\xb5\x92\x37\x20\xc3\xed\xc1\xf0\x46\x7a\xdd\xb5\xc2\x87\xfd\x55\x59\xe3\xe0\
    \xcd\x13\x96\xe7\xf1\xed\xb6\xb0\x1b\xe9\xf0\x02b\x00\x7e\x01\x01\x8c\x6b\xe1\x6a\x17\x97\
    \x00\x24\x0a\x15\x69\xb1\x95\xfb\x7c\x3f\xb8\x17\x81\xfe\xd2\xfb\xa0\xdd\x1d\x22\x6c\x39\
    \xaf\x02\x23\x46d\x00\xee\x1d\x22\xaa\x34\x79\x48\x2c\x1f\x93\xa5\x0c\xba\xf9\x34\xb5\x8f\
    \x69\xc7\x64\x87\xb1\xdd\xcf\x30\xad\xf7\x1b\x99\x2c\x9a\xfb\x44\x6a\x0e\xf1\x1b\x7c\xc1\
    \x67\xf3\xb6\x03\xe5\x85\xc7\xee\xee\xb6\x75\xfa\xa4\x12\xd5\xec\x73\xf6\x29\x88\xeb\x0b\
    \x6c\x54\x88\x22\x02\x44\x48";

/// The dirtree that `ostree commit` wrote for the directory with the file `c`.
const TREE_BELOW: &[u8] =
    b"c\x00\x6e\x56\x59\x0e\x2b\xb5\x70\x9a\xc2\x48\xa8\x20\x79\x66\x74\x9e\xa4\x4c\x0f\xa0\x65\
    \x51\xd2\x63\x70\x45\x96\xba\x4f\xd9\x3d\xd4\x02\x23\x24";

/// The calls of an install, each with the progress line after it.
const INSTALL: &str = "\
fetch ref: installing ..
fetch commit: installing org.x.App ..
fetch top: installing org.x.App ..
fetch meta: installing org.x.App 5 objects found
fetch below: installing org.x.App 5 objects found
fetch meta: installing org.x.App 8 objects found
fetch commit: installing org.x.App 1 of 8 objects, 0 KiB
fetch top: installing org.x.App 2 of 8 objects, 0 KiB
fetch meta: installing org.x.App 2 of 8 objects, 0 KiB
fetch a: installing org.x.App 4 of 8 objects, 0 KiB
fetch b: installing org.x.App 5 of 8 objects, 0 KiB
fetch a: installing org.x.App 5 of 8 objects, 0 KiB
fetch c: installing org.x.App 8 of 8 objects, 0 KiB
sync: installing org.x.App 2 files synced
rename a far/repo/objects/23/other.file: installing org.x.App 1 object stored
link b far/laid: installing org.x.App 1 of 3 files linked
link b far/out: installing org.x.App 2 of 3 files linked
remove far/laid: installing org.x.App 1 file removed
remove far/out: installing org.x.App 2 files removed
";

/// The calls of an update that finds all objects but the commit and one file in the store, each
/// with the progress line after it.
const UPDATE: &str = "\
fetch ref: updating ..
fetch commit: updating org.x.App ..
read top: updating org.x.App ..
read meta: updating org.x.App 5 objects found
read below: updating org.x.App 5 objects found
read meta: updating org.x.App 8 objects found
fetch commit: updating org.x.App 1 of 8 objects, 0 KiB
fetch c: updating org.x.App 8 of 8 objects, 0 KiB
";

/// The reads of a check of objects, each with the progress line after it.
const CHECK: &str = "\
read commit: checking 1 object, 0 KiB
read top: checking 2 objects, 0 KiB
read a: checking 3 objects, 0 KiB
";

/// The calls of an uninstall of an application with a long ID, each with the progress line after
/// it. Only the end of the ID is shown, so that a line has at most 79 columns.
const UNINSTALL: &str = "\
fetch long-ref: uninstalling ..
fetch commit: uninstalling ..a.b.c.d.e.f.g.h.i.j.k.l.m.n.o.p.q.r.s.t.u.v.w.x.y.z.Long.Name ..
sync: uninstalling ..g.h.i.j.k.l.m.n.o.p.q.r.s.t.u.v.w.x.y.z.Long.Name 2 files synced
";

fn put(rt: &HostRuntime, log: &Log<'_>, at: &str, bytes: &[u8]) {
    log.demand(fs::write(rt, at, bytes).is_ok(), 0, at);
}

/// Writes the refs and the objects. Only the dirtrees have real content; of the other objects, only
/// the names matter.
fn write_all(rt: &HostRuntime, log: &Log<'_>) {
    play_disk(rt, log, FOLDERS);
    put(rt, log, REF, NAMED);
    put(rt, log, LONG_REF, NAMED);
    put(rt, log, TOP, TOP_TREE);
    put(rt, log, BELOW, TREE_BELOW);
    put(rt, log, COMMIT, b"");
    put(rt, log, META, b"");
    put(rt, log, FILE_A, b"hi");
    put(rt, log, FILE_B, b"ho");
    put(rt, log, FILE_C, b"hu");
}

/// Returns the path that a word stands for, or the word itself.
fn place(word: &str) -> &str {
    match word {
        "ref" => REF,
        "long-ref" => LONG_REF,
        "commit" => COMMIT,
        "top" => TOP,
        "below" => BELOW,
        "meta" => META,
        "a" => FILE_A,
        "b" => FILE_B,
        "c" => FILE_C,
        other => other,
    }
}

/// Makes a call and returns whether it was done: a read of a file of the remote or of the host, a
/// sync of two directories, a rename, a link or a removal.
fn is_done<T: Threads + Sync>(
    threads: &T,
    host: &Watched<'_, Logged<'_>>,
    remotes: &Watched<'_, Logged<'_>>,
    ask: &str,
) -> bool {
    let (verb, rest) = pair(ask);
    let (first, to) = pair(rest);
    let at = place(first);
    match verb {
        "fetch" => fs::read(remotes, at).is_ok(),
        "read" => fs::read(host, at).is_ok(),
        "sync" => host.sync_paths(threads, &["far/hub", "far/repo"]).is_none(),
        "rename" => host.rename(at, to).is_ok(),
        "link" => host.hard_link(at, to).is_ok(),
        "remove" => host.remove_file(at).is_ok(),
        _ => false,
    }
}

/// Returns the last progress line that was printed since the last time, without the spaces at its
/// end; none if there was none.
fn last_line(alloc: Global, log: &Log<'_>) -> Option<String> {
    let noted = log.take();
    let (_, said) = noted.as_str().rsplit_once("complain \r")?;
    let (line, _) = said.split_once("; ")?;
    line.trim_end().to_string(alloc).ok()
}

/// Returns whether the printed line is the expected one on a terminal, or there is none elsewhere.
fn is_right(said: Option<&String>, is_terminal: bool, want: &str) -> bool {
    match said {
        Some(line) => is_terminal && line.as_str() == want,
        None => !is_terminal,
    }
}

/// Makes the calls as a command with this task, and checks the progress line after each. If
/// standard error is no terminal, no line may be printed.
fn ask_all<'a, T: Threads + Sync>(
    rt: &'a HostRuntime,
    threads: &T,
    log: &'a Log<'_>,
    told: (Task, bool),
    asks: &str,
) {
    let (task, is_terminal) = told;
    let system = Logged { rt, log };
    let progress = Progress::new(&system, log.alloc, task, is_terminal);
    let host = Watched::host(&system, &progress);
    let remotes = Watched::remotes(&system, &progress);
    for (i, row) in asks.lines().enumerate() {
        let (ask, want) = row.split_once(": ").unwrap_or((row, ""));
        log.demand(is_done(threads, &host, &remotes, ask), i, ask);
        let said = last_line(log.alloc, log);
        log.demand(is_right(said.as_ref(), is_terminal, want), i, want);
    }
}

/// Sets up the directory, makes and checks the calls there, and clears it.
fn ask_there<T: Threads + Sync>(
    rt: &HostRuntime,
    threads: &T,
    log: &Log<'_>,
    told: (Task, bool),
    asks: &str,
) {
    clear(rt, "far");
    write_all(rt, log);
    ask_all(rt, threads, log, told, asks);
    clear(rt, "far");
}

/// Returns whether a command with this task prints the expected lines on a terminal, and none
/// elsewhere.
fn says<T: Threads + Sync>(rt: &HostRuntime, threads: &T, task: Task, asks: &str) -> bool {
    let log = Log::new(rt.alloc(), Kind::Slow);
    ask_there(rt, threads, &log, (task, true), asks);
    ask_there(rt, threads, &log, (task, false), asks);
    log.all_held(rt)
}

#[test]
fn a_line_says_how_far_a_command_is(rt: HostRuntime) {
    assert!(rt;
        says(&rt, &rt, Task::Install, INSTALL)
            && says(&rt, &rt, Task::Update, UPDATE)
            && says(&rt, &rt, Task::Check, CHECK)
            && says(&rt, &rt, Task::Uninstall, UNINSTALL)
    );
}
