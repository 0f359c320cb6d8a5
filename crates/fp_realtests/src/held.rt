//! The locks of an installation: a change locks a file, and a reader locks the directory.
use fp_realplay::{pair, tell, tell_each};
use fp_realroot::{holders_at, place_of};
use std::alloc::Global;

/// A root directory that is made while a command reads.
const LATE: &str = "\
# late_root
-- A folder that comes after a look found none isn't looked into: what came first there would be
told without the rest. Once it prints, the look begins anew.

disk
folder late_root

look late_root/root
stat config
shows config absent
folder late_root/root
file late_root/root/config new
stat config
shows config absent
say
shows config 644 3 new
";

#[test]
fn a_folder_that_was_absent_stays_so_to_a_look(rt: HostRuntime) {
    assert!(rt; tell(&rt, &rt, LATE));
}

/// A file or directory that is replaced or removed while its lock is waited for.
const REPLACED: &str = "\
# lost replacing 1
-- A lock file stands there.

disk
folder lost
file lost/.lock

logged-look lost
stat none
list .
asks lock lost; complain fpk: waiting for another fpk that works on lost; wait for lost; \
    lock lost; complain fpk: waiting for another fpk that works on lost; wait for lost
shared lost

# lost replacing 1
-- A lock file stands there.

disk
folder lost
file lost/.lock

logged lost
stat none
list .
asks lock lost/.lock; complain fpk: waiting for another fpk that works on lost; \
    wait for lost/.lock; lock lost/.lock; \
    complain fpk: waiting for another fpk that works on lost; wait for lost/.lock
held lost/.lock

# lost removing 1
-- Who looks makes no folder where it was taken away.

-- A lock file stands there.

disk
folder lost
file lost/.lock

logged-look lost
stat none
list .
asks lock lost; complain fpk: waiting for another fpk that works on lost; wait for lost

disk
absent lost

# lost removing 1
-- A lock file stands there.

disk
folder lost
file lost/.lock

logged lost
stat none
list .
asks lock lost/.lock; complain fpk: waiting for another fpk that works on lost; \
    wait for lost/.lock; create lost/.lock; lock lost/.lock; \
    complain fpk: waiting for another fpk that works on lost; wait for lost/.lock; \
    write lost/.lock
held lost/.lock
";

#[test]
fn the_lock_that_is_held_is_of_the_file_that_stands_there(rt: HostRuntime) {
    assert!(rt; tell(&rt, &rt, REPLACED));
}

/// A file or directory that is replaced 99 times while its lock is waited for, and is locked then;
/// and one that is replaced each time, for which the call fails.
const OFTEN: &str = "\
# lost replacing 99
-- What is opened for either gets a lock, or doesn't.

-- A lock file stands there.

disk
folder lost
file lost/.lock

logged lost
stat none
list .

# lost replacing 99
-- A lock file stands there.

disk
folder lost
file lost/.lock

logged-look lost
stat none
list .

# lost replacing 4294967295
-- A lock file stands there.

disk
folder lost
file lost/.lock

logged lost
fails stat none
fails list .

# lost replacing 4294967295
-- A lock file stands there.

disk
folder lost
file lost/.lock

logged-look lost
fails stat none
fails list .
";

#[test]
fn a_lock_is_not_waited_for_without_end(rt: HostRuntime) {
    assert!(rt; tell(&rt, &rt, OFTEN));
}

/// The locks that a change and a reader hold after each call, and how they wait.
const KEPT_OUT: &str = "\
# held
-- What a host is opened for, its call, and of the lock file and of the folder whether others
could share the lock then, and have it alone. What is printed holds no lock, so that an input may
be waited for. Afterwards nobody holds one.

change held
stat none
held held/.lock
free held

disk
free held/.lock

look held
stat none
free held/.lock
shared held

disk
free held

change held
say
free held/.lock

disk
free held/.lock
free held

# prints
-- What looks lets its lock go when it prints, and takes it again where it looks once more. What
changes keeps it.

change prints
stat none
say
held prints/.lock

look prints
stat none
shared prints
say
free prints
list .
shared prints

# read
-- Who may not change an installation may still open its lock file.

change read
stat none

disk
mode read/.lock 644

# looked
-- Each change is refused, and the last one says why.

-- Each needs a host that changes.

look looked/root
fails mkdir d
fails create f 644
fails link f g
fails symlink l x
fails unlink f
fails rmdir d
faults 6 cannot remove the folder looked/root/d: it was opened only to be looked at

disk
absent looked

# busy busy
-- What a host is opened for, and what is noted of it when it looks twice.

disk
folder busy

logged-look busy
stat none
list .
asks lock busy; complain fpk: waiting for another fpk that works on busy; wait for busy

logged busy
stat none
list .
asks create busy/.lock; lock busy/.lock; \
    complain fpk: waiting for another fpk that works on busy; wait for busy/.lock; \
    write busy/.lock

logged-look busy
stat none
list .
asks lock busy; complain fpk: waiting for another fpk that works on busy; wait for busy
";

#[test]
fn the_lock_keeps_others_out(rt: HostRuntime) {
    assert!(rt; tell(&rt, &rt, KEPT_OUT));
}

/// A change that keeps readers out only from the first call whose effect they may notice to the
/// next sync. A row of `SEEN` is that call.
const STEPS: &str = "\
# seen
-- What a change does before a look may see any of it: it adds names, and does what it likes at
its place of work.

change seen
mkdir app
mkdir app/d
mkdir repo
mkdir repo/objects
mkdir repo/tmp
mkdir repo/tmp/d
rmdir repo/tmp/d
create app/f 644
append app/f text
link app/f app/g
symlink app/l f
create repo/tmp/a 644
append repo/tmp/a text
rename repo/tmp/a repo/objects/a
create repo/tmp/b 644
create repo/tmp/c 644
rename repo/tmp/b repo/tmp/c
symlink repo/tmp/l x
unlink repo/tmp/l
list app
held seen/.lock
free seen
{}
held seen
say
held seen
sync
free seen
held seen/.lock
";

/// Calls whose effect a reader may notice: each removes a name, replaces a file, or moves one into
/// or out of what readers read.
const SEEN: &str = "\
unlink app/f
--
rmdir app/d
--
rename repo/tmp/c app/new
--
rename repo/tmp/c app/f
--
rename repo/tmp/c repo/objects/a
--
rename app/f repo/tmp/f
--
rename app/f repo/objects/f";

#[test]
fn a_look_is_kept_out_of_few_steps_of_a_change(rt: HostRuntime) {
    assert!(rt; tell_each(&rt, &rt, STEPS, SEEN));
}

/// A change that waits for readers before it removes a name, and one that can't take their lock.
const WAITING: &str = "\
# busy busy
disk
folder busy
file busy/.lock 00000000-0000-0000-0000-000000000000|

-- Where somebody looks, a change waits before it takes a name away, and only then.

logged busy
symlink a x
asks lock busy/.lock; complain fpk: waiting for another fpk that works on busy; \
    wait for busy/.lock; write over busy/.lock; link busy/a
symlink b x
asks link busy/b
rename a c
asks lock busy; complain fpk: waiting for another fpk that looks at busy; wait for busy; \
    rename to busy/c
unlink b
asks remove busy/b
sync
asks sync .; sync busy; sync busy; write over busy/.lock

# unhad failing lock unhad
-- Where the lock can't be had, nothing is taken away, and what was added stays.

logged unhad
create f 644
symlink l x
fails unlink f
fails rename l f
stat f
shows f 644 0
stat l
shows l x
";

#[test]
fn a_change_waits_for_those_who_look(rt: HostRuntime) {
    assert!(rt; tell(&rt, &rt, WAITING));
}

/// Commands that wait for more than ten seconds, and print that again.
const STUCK: &str = "\
# stuck stuck
disk
folder stuck

logged stuck
stat none
list .
asks create stuck/.lock; lock stuck/.lock; \
    complain fpk: waiting for another fpk that works on stuck; \
    wait 10 seconds for stuck/.lock; complain fpk: still waiting for the lock of stuck/.lock; \
    wait for stuck/.lock; write stuck/.lock

logged-look stuck
stat none
list .
asks lock stuck; complain fpk: waiting for another fpk that works on stuck; \
    wait 10 seconds for stuck; complain fpk: still waiting for the lock of stuck; wait for stuck
";

#[test]
fn who_waits_for_long_says_so_again(rt: HostRuntime) {
    assert!(rt; tell(&rt, &rt, STUCK));
}

/// Locks as `/proc/locks` lists them, of three files. Two readers hold the lock of one of them, and
/// a change waits for it.
const LISTED: &str = "1: POSIX  ADVISORY  WRITE 3568 fd:00:2531452 0 EOF\n\
    2: FLOCK  ADVISORY  READ  3548 fe:00:131 0 EOF\n\
    2: -> FLOCK  ADVISORY  WRITE 3517 fe:00:131 0 EOF\n\
    3: FLOCK  ADVISORY  READ  3465 fe:00:131 0 EOF\n\
    4: FLOCK  ADVISORY  WRITE 4074 103:01:131 0 EOF\n\
    5: LEASE  ACTIVE    READ  21568 fe:00:131 0 EOF\n";

/// The device and inode numbers of files, and the processes that hold the flock(2) lock of each.
const HOLDERS: &str = "\
65024 131: 3548 3465
66305 131: 4074
65024 13:
64768 2531452:
1050668 131:
";

/// The numbers of devices, and how `/proc/locks` writes the file with the inode 7 of each.
const DEVICES: &str = "\
65024 fe:00:7
66305 103:01:7
1050668 08:12c:7
37 00:25:7
";

/// Returns whether the text is these words, each after a space.
fn are_words(words: &[&str], want: &str) -> bool {
    let mut rest = Some(want);
    for word in words {
        rest = after_word(rest, word);
    }
    rest == Some("")
}

fn after_word<'a>(text: Option<&'a str>, word: &str) -> Option<&'a str> {
    text?.strip_prefix(' ')?.strip_prefix(word)
}

fn number(word: &str) -> u64 {
    match word.parse::<u64>() {
        Ok(found) => found,
        Err(_) => 0,
    }
}

fn are_held(alloc: Global, row: &str) -> bool {
    let (file, want) = row.split_once(':').unwrap_or((row, ""));
    let (device, inode) = pair(file);
    let Ok(place) = place_of(alloc, number(device), number(inode)) else {
        return false;
    };
    match holders_at(alloc, LISTED, &place) {
        Ok(found) => are_words(found.as_slice(), want),
        Err(_) => false,
    }
}

fn is_place(alloc: Global, row: &str) -> bool {
    let (device, want) = pair(row);
    match place_of(alloc, number(device), 7) {
        Ok(place) => place.as_str() == want,
        Err(_) => false,
    }
}

/// Returns the first wrong row of both tables; none if all rows hold.
fn wrong_row(alloc: Global) -> Option<&'static str> {
    for row in HOLDERS.lines() {
        if !are_held(alloc, row.trim_end()) {
            return Some(row);
        }
    }
    for row in DEVICES.lines() {
        if !is_place(alloc, row) {
            return Some(row);
        }
    }
    None
}

#[test]
fn who_holds_a_lock_is_found(rt: HostRuntime) {
    assert!(rt; wrong_row(rt.alloc()).is_none());
}
