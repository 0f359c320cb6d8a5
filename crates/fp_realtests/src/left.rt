//! What an earlier command may have left unsynced, and the mark in the lock file that shows it.
use fp_realplay::{tell, tell_each};

/// A command that crashes, a text in the lock file, and a command that finds nothing to sync.
const IDLES: &str = "\
# left
-- What a run does that is stopped.

logged left/root
mkdir app
asks make left; make left/root; create left/root/.lock; lock left/root/.lock; \
    write left/root/.lock; make left/root/app
create app/f 0
asks
symlink app/l f
asks link left/root/app/l
list .
asks create left/root/app/f; sync left/root/app/f

disk
file left/root/.lock {}

logged left/root
stat app
asks lock left/root/.lock
sync
asks

disk
holds left/root/.lock {}
";

/// Texts that are no mark: a cleared one, and the boot ids of other starts of the machine.
const CLEARED: &str = "\
------------------------------------|
--
00000000-0000-0000-0000-000000000000|
--
fedcba98-7654-3210-fedc-ba9876543210|";

/// A command that crashes, a text in the lock file, and a command that syncs everything and clears
/// the mark.
const CATCHES_UP: &str = "\
# left
-- What a run does that is stopped.

logged left/root
mkdir app
asks make left; make left/root; create left/root/.lock; lock left/root/.lock; \
    write left/root/.lock; make left/root/app
create app/f 0
asks
symlink app/l f
asks link left/root/app/l
list .
asks create left/root/app/f; sync left/root/app/f

disk
file left/root/.lock {}

-- The next run that syncs makes all of it last, and the one after it nothing.

logged left/root
stat app
asks lock left/root/.lock
sync
asks sync .; sync left; sync left/root; sync left/root/.lock; sync left/root/app; \
    sync left/root/app/f; write over left/root/.lock
sync
asks

disk
holds left/root/.lock ------------------------------------|
";

/// Texts that count as a mark, since they are neither a cleared one nor a boot id. A crash may have
/// left one half overwritten.
const MARKS: &str = "\
unknown-----------------------------|
--
00000000-0000-0000-0000-0000000000000
--
00000000-0000-0000-0000-00000000000g|
--
00000000-000000000-0000-000000000000|
--
00000000-0000-0000------------------|";

/// A command that crashes, a text in the lock file that is shorter than a mark, and a command that
/// syncs everything.
const FILLS_UP: &str = "\
# left
-- What a run does that is stopped.

logged left/root
mkdir app
asks make left; make left/root; create left/root/.lock; lock left/root/.lock; \
    write left/root/.lock; make left/root/app
create app/f 0
asks
symlink app/l f
asks link left/root/app/l
list .
asks create left/root/app/f; sync left/root/app/f

disk
file left/root/.lock {}

-- The same where what stands in the lock file is shorter than a mark.

logged left/root
stat app
asks lock left/root/.lock
sync
asks sync .; sync left; sync left/root; sync left/root/.lock; sync left/root/app; \
    sync left/root/app/f; write left/root/.lock
sync
asks

disk
holds left/root/.lock ------------------------------------|
";

/// Texts shorter than a mark, which count as one. The last is empty: the lock file may have been
/// replaced by an empty file.
const SHORT: &str = "\
unknown|
--
pinned app/*/*/*|
--
00000000-0000-0000-0000-000000000000
--
";

/// A command that crashes, a text in the lock file that is longer than a mark, and a command that
/// syncs everything and truncates the file.
const CUTS_OFF: &str = "\
# left
-- What a run does that is stopped.

logged left/root
mkdir app
asks make left; make left/root; create left/root/.lock; lock left/root/.lock; \
    write left/root/.lock; make left/root/app
create app/f 0
asks
symlink app/l f
asks link left/root/app/l
list .
asks create left/root/app/f; sync left/root/app/f

disk
file left/root/.lock {}

-- The same where it is longer.

logged left/root
stat app
asks lock left/root/.lock
sync
asks sync .; sync left; sync left/root; sync left/root/.lock; sync left/root/app; \
    sync left/root/app/f; write over left/root/.lock; cut left/root/.lock
sync
asks

disk
holds left/root/.lock ------------------------------------|
";

/// Texts with a line too many, which count as a mark.
const LONG: &str = "\
00000000-0000-0000-0000-000000000000||
--
------------------------------------|pinned app/*/*/*|";

#[test]
fn what_stands_in_the_lock_file_tells_of_a_stop(rt: HostRuntime) {
    assert!(rt;
        tell_each(&rt, &rt, IDLES, CLEARED)
            && tell_each(&rt, &rt, CATCHES_UP, MARKS)
            && tell_each(&rt, &rt, FILLS_UP, SHORT)
            && tell_each(&rt, &rt, CUTS_OFF, LONG)
    );
}

/// A command that crashes and those after it: one that syncs everything, also if the system reports
/// no boot id, and one whose sync fails.
const LEFT: &str = "\
# left
-- What a run does that is stopped.

logged left/root
mkdir app
asks make left; make left/root; create left/root/.lock; lock left/root/.lock; \
    write left/root/.lock; make left/root/app
create app/f 0
asks
symlink app/l f
asks link left/root/app/l
list .
asks create left/root/app/f; sync left/root/app/f

-- The next run that syncs makes all of it last, and the one after it nothing.

logged left/root
stat app
asks lock left/root/.lock
sync
asks sync .; sync left; sync left/root; sync left/root/.lock; sync left/root/app; \
    sync left/root/app/f; write over left/root/.lock
sync
asks

disk
holds left/root/.lock ------------------------------------|

logged left/root
stat app
asks lock left/root/.lock
sync
asks

# left denying /proc/sys/kernel/random/boot_id
-- Where the system doesn't tell its start, each text is a mark but those that are none anywhere.
The next change writes one that is a mark to all.

-- What a run does that is stopped.

logged left/root
mkdir app
asks make left; make left/root; create left/root/.lock; lock left/root/.lock; \
    write left/root/.lock; make left/root/app
create app/f 0
asks
symlink app/l f
asks link left/root/app/l
list .
asks create left/root/app/f; sync left/root/app/f

disk
holds left/root/.lock unknown-----------------------------|

-- The next run that syncs makes all of it last, and the one after it nothing.

logged left/root
stat app
asks lock left/root/.lock
sync
asks sync .; sync left; sync left/root; sync left/root/.lock; sync left/root/app; \
    sync left/root/app/f; write over left/root/.lock
sync
asks

disk
holds left/root/.lock ------------------------------------|

logged left/root
stat app
asks lock left/root/.lock
sync
asks

disk
file left/root/.lock 00000000-0000-0000-0000-000000000000|

-- The next run that syncs makes all of it last, and the one after it nothing.

logged left/root
stat app
asks lock left/root/.lock
sync
asks sync .; sync left; sync left/root; sync left/root/.lock; sync left/root/app; \
    sync left/root/app/f; write over left/root/.lock
sync
asks

disk
holds left/root/.lock ------------------------------------|
file left/root/.lock 00000000-0000-0000-0000-000000000000|

-- A change that comes before all is synced.

logged left/root
mkdir app/d
asks lock left/root/.lock; write over left/root/.lock; make left/root/app/d
mkdir app/e
asks make left/root/app/e
unlink app/l
asks lock left/root; remove left/root/app/l

disk
holds left/root/.lock unknown-----------------------------|

# left failing sync left/root/app/f
-- The next run fails at what was left.

-- What a run does that is stopped.

logged left/root
mkdir app
asks make left; make left/root; create left/root/.lock; lock left/root/.lock; \
    write left/root/.lock; make left/root/app
create app/f 0
asks
symlink app/l f
asks link left/root/app/l
list .
asks create left/root/app/f; sync left/root/app/f

logged left/root
fails sync
fails sync
";

#[test]
fn what_was_left_is_made_to_last(rt: HostRuntime) {
    assert!(rt; tell(&rt, &rt, LEFT));
}

/// Directories without a lock file. Only files and directories at fpk's names are synced, and no
/// symlink is followed.
const OURS: &str = "\
# old
-- What stands in a root without a lock file: each name of ours, and names that are others'.

disk
folder old/root/app/id
file old/root/config
folder old/root/exports
folder old/root/made
folder old/root/overrides
file old/root/pins
file old/root/remotes.conf
folder old/root/repo
file old/root/repo/theirs
folder old/root/runtime
folder old/root/theirs/app
file old/root/theirs/app/config
file old/root/.profile
file old/root/apps

-- A folder that was there without a lock file may hold what was left, at our names.

logged old/root
stat f
asks create old/root/.lock; lock old/root/.lock; write old/root/.lock
sync
asks sync .; sync old; sync old/root; sync old/root/.lock; sync old/root/app; \
    sync old/root/app/id; sync old/root/config; sync old/root/exports; sync old/root/made; \
    sync old/root/overrides; sync old/root/pins; sync old/root/remotes.conf; \
    sync old/root/repo; sync old/root/repo/theirs; sync old/root/runtime; \
    write over old/root/.lock

# old
-- A symlink at a name of ours leads to what isn't.

disk
folder old/root
folder old/theirs/deep
leads old/root/app ../theirs

logged old/root
stat f
asks create old/root/.lock; lock old/root/.lock; write old/root/.lock
sync
asks sync .; sync old; sync old/root; sync old/root/.lock; write over old/root/.lock
";

#[test]
fn what_is_ours_is_made_to_last(rt: HostRuntime) {
    assert!(rt; tell(&rt, &rt, OURS));
}

/// Directories above the root and below it that can't be opened, which a sync leaves out.
const DENIED: &str = "\
# old denying old
-- What stands in a root without a lock file.

disk
folder old/root/repo
file old/root/config

-- The folder above the root may not be opened.

logged old/root
stat f
asks create old/root/.lock; lock old/root/.lock; write old/root/.lock
sync
asks sync .; sync old/root; sync old/root/.lock; sync old/root/config; sync old/root/repo; \
    write over old/root/.lock

# old denying old/root/repo
-- What stands in a root without a lock file.

disk
folder old/root/repo
file old/root/config

-- A folder below it may not.

logged old/root
stat f
asks create old/root/.lock; lock old/root/.lock; write old/root/.lock
sync
asks sync .; sync old; sync old/root; sync old/root/.lock; sync old/root/config; \
    write over old/root/.lock
";

#[test]
fn what_may_not_be_opened_is_left_alone(rt: HostRuntime) {
    assert!(rt; tell(&rt, &rt, DENIED));
}
