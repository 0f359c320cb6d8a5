//! The calls of the system in order, and the effects of their failures.
use fp_realplay::{tell, tell_each};

/// Calls of a host, and the calls of the system that each makes. The last tale includes lookups.
const IN_ORDER: &str = "\
# order
-- Calls, and what the system is asked for each.

both order/root
list .
asks make order; make order/root; create order/root/.lock; lock order/root/.lock
stat none
asks
mkdir d
asks write order/root/.lock; make order/root/d
create d/f 644
asks
append d/f some
asks
sync
asks create order/root/d/f; write order/root/d/f; sync order/root/d/f; sync .; sync order; \
    sync order/root; sync .; sync order; sync order/root; sync order/root/d; \
    write over order/root/.lock
sync
asks
create new 600
asks write over order/root/.lock
append new more
asks
append new bytes
asks
sync
asks create order/root/new; write order/root/new; sync order/root/new; sync order/root; \
    write over order/root/.lock
rename new d/f
asks write over order/root/.lock; lock order/root; rename to order/root/d/f
sync
asks sync order/root; sync order/root/d; write over order/root/.lock
symlink d/l text
asks write over order/root/.lock; link order/root/d/l
unlink d/f
asks lock order/root; remove order/root/d/f
sync
asks sync order/root/d; write over order/root/.lock
say words
asks print words
stat d
asks
sync
asks
mkdir repo
asks write over order/root/.lock; make order/root/repo
mkdir repo/objects
asks make order/root/repo/objects
create x 644
asks
rename x repo/objects/x
asks create order/root/x; sync order/root/x; lock order/root; date order/root/x; \
    rename to order/root/repo/objects/x
sync
asks sync order/root/repo/objects/x; sync order/root; sync order/root/repo; \
    sync order/root/repo/objects; write over order/root/.lock

# date
-- An object that waits for the store is dated when it is made, and again where it was written
since.

logged date/root
stat none
asks make date; make date/root; create date/root/.lock; lock date/root/.lock
mkdir repo
asks write date/root/.lock; make date/root/repo
mkdir repo/objects
asks make date/root/repo/objects
mkdir repo/tmp
asks make date/root/repo/tmp
mkdir repo/tmp/pull
asks make date/root/repo/tmp/pull
mkdir repo/tmp/pull/objects
asks make date/root/repo/tmp/pull/objects
create repo/tmp/pull/objects/a 644
asks
append repo/tmp/pull/objects/a a
asks
create repo/tmp/pull/objects/b 644
asks
rename repo/tmp/pull/objects/a repo/objects/a
asks create date/root/repo/tmp/pull/objects/a; write date/root/repo/tmp/pull/objects/a; \
    date date/root/repo/tmp/pull/objects/a; sync date/root/repo/tmp/pull/objects/a; \
    create date/root/repo/tmp/pull/objects/b; date date/root/repo/tmp/pull/objects/b; \
    sync date/root/repo/tmp/pull/objects/b; rename to date/root/repo/objects/a
create repo/tmp/pull/objects/c 644
asks
append repo/tmp/pull/objects/b b
asks write date/root/repo/tmp/pull/objects/b
rename repo/tmp/pull/objects/b repo/objects/b
asks date date/root/repo/tmp/pull/objects/b; rename to date/root/repo/objects/b
rename repo/tmp/pull/objects/c repo/objects/c
asks create date/root/repo/tmp/pull/objects/c; date date/root/repo/tmp/pull/objects/c; \
    sync date/root/repo/tmp/pull/objects/c; rename to date/root/repo/objects/c

# looks telling-looks
-- What is looked at: the root, and what isn't known to be there or absent. A file that was
written while it had two names is looked at again. What goes away isn't looked at before.

logged looks/root
stat none
asks look looks/root; make looks; make looks/root; create looks/root/.lock; \
    lock looks/root/.lock; look looks/root/.lock; look looks/root/none
mkdir d
asks write looks/root/.lock; make looks/root/d; look looks/root/d
mkdir e
asks make looks/root/e
mkdir e/f
asks make looks/root/e/f
stat d
asks
stat d/x
asks
create d/x 644
asks
stat d/x
asks
append d/x more
asks
stat d/x
asks
read d/x
asks
list d
asks
list e
asks
list .
asks create looks/root/d/x; write looks/root/d/x; sync looks/root/d/x; look looks/root/
link d/x d/y
asks link looks/root/d/y
stat d/y
asks
append d/y more
asks write looks/root/d/y
stat d/x
asks look looks/root/d/x
stat d/x
asks
stat d/y
asks look looks/root/d/y
rename d/x d/z
asks lock looks/root; rename to looks/root/d/z
stat d/e/f
asks
unlink d/y
asks remove looks/root/d/y
symlink d/l text
asks link looks/root/d/l
unlink d/l
asks remove looks/root/d/l
stat none/x
asks look looks/root/none
stat none/y/z
asks
mkdir none
asks make looks/root/none
stat none/x
asks
symlink e/f/l text
asks link looks/root/e/f/l
list e/f
asks
unlink e/f/l
asks remove looks/root/e/f/l
rmdir e/f
asks remove looks/root/e/f
stat e/f/l
asks
mkdir e/f
asks make looks/root/e/f
stat e/f/l
asks
create e/f/l 644
asks

-- A file that another run made, and that was looked at, gets a second name without another look.

logged looks/root
stat d/z
asks look looks/root; look looks/root/.lock; lock looks/root/.lock; look looks/root/.lock; \
    look looks/root/d; look looks/root/d/z
link d/z d/u
asks link looks/root/d/u
unlink d/u
asks lock looks/root; remove looks/root/d/u
";

#[test]
fn the_system_is_asked_in_order(rt: HostRuntime) {
    assert!(rt; tell(&rt, &rt, IN_ORDER));
}

/// A tale of a call of the system that fails. A row of `FAILURES` takes the place of the braces.
const FAILING: &str = "\
# fails failing {}
";

/// Rows of a call of the system that fails, the call of the host that fails by it, and whether a
/// sync succeeds afterwards.
const FAILURES: &str = "\
make fails/root
both fails/root
fails mkdir d
fails sync
--
create fails/root/.lock
both fails/root
fails mkdir d
fails sync
--
lock fails/root/.lock
both fails/root
fails mkdir d
fails sync
--
write fails/root/.lock
both fails/root
fails mkdir d
sync
--
write over fails/root/.lock
both fails/root
mkdir d
create d/f 644
append d/f some
fails sync
fails sync
--
make fails/root/d
both fails/root
fails mkdir d
sync
--
create fails/root/d/f
both fails/root
mkdir d
create d/f 644
append d/f some
fails sync
fails sync
--
write fails/root/d/f
both fails/root
mkdir d
create d/f 644
append d/f some
fails sync
fails sync
--
sync fails
both fails/root
mkdir d
create d/f 644
append d/f some
fails sync
fails sync
--
sync fails/root/d
both fails/root
mkdir d
create d/f 644
append d/f some
fails sync
fails sync
--
sync fails/root/d/f
both fails/root
mkdir d
create d/f 644
append d/f some
fails sync
fails sync
--
print words
both fails/root
mkdir d
create d/f 644
append d/f some
sync
fails say words
sync";

#[test]
fn what_the_system_fails_at_is_not_done(rt: HostRuntime) {
    assert!(rt; tell_each(&rt, &rt, FAILING, FAILURES));
}

/// A file that was renamed before a sync, and a root that an earlier command made.
const STANDING: &str = "\
# moved failing sync moved/root/y
-- A file that was renamed is synced by its path.

logged moved/root
create x 644
append x some
rename x y
fails sync
fails sync

# bare
-- An earlier run made the root and its lock file, which stayed empty, and changed nothing in it.

logged bare/root
stat none
asks make bare; make bare/root; create bare/root/.lock; lock bare/root/.lock

-- What the next one changes lasts only with the folders above.

logged bare/root
mkdir d
asks lock bare/root/.lock; write bare/root/.lock; make bare/root/d
sync
asks sync .; sync bare; sync bare/root; sync bare/root/.lock; sync bare/root; \
    sync bare/root/d; write over bare/root/.lock
";

#[test]
fn what_stands_there_is_synced(rt: HostRuntime) {
    assert!(rt; tell(&rt, &rt, STANDING));
}

/// Names that are added and removed, and the syncs of their files and directories.
const NAMES: &str = "\
# names
-- What takes a name away or gives a second one makes its folder last, and a file that waits for a
sync is synced by the name that is left.

both names/root
mkdir d
asks make names; make names/root; create names/root/.lock; lock names/root/.lock; \
    write names/root/.lock; make names/root/d
mkdir d/e
asks make names/root/d/e
mkdir g
asks make names/root/g
create d/f 644
asks
sync
asks create names/root/d/f; sync names/root/d/f; sync .; sync names; sync names/root; sync .; \
    sync names; sync names/root; sync names/root/d; sync names/root/d/e; sync names/root/g; \
    write over names/root/.lock
link d/f g/f
asks write over names/root/.lock; link names/root/g/f
sync
asks sync names/root/g; write over names/root/.lock
unlink d/f
asks write over names/root/.lock; lock names/root; remove names/root/d/f
sync
asks sync names/root/d; write over names/root/.lock
rmdir d/e
asks write over names/root/.lock; lock names/root; remove names/root/d/e
sync
asks sync names/root/d; write over names/root/.lock
symlink g/l x
asks write over names/root/.lock; link names/root/g/l
sync
asks sync names/root/g; write over names/root/.lock
create d/x 644
asks write over names/root/.lock
link d/x g/x
asks create names/root/d/x; sync names/root/d/x; link names/root/g/x
unlink d/x
asks lock names/root; remove names/root/d/x
sync
asks sync names/root/g/x; sync names/root/d; sync names/root/g; write over names/root/.lock
";

#[test]
fn changed_names_are_synced(rt: HostRuntime) {
    assert!(rt; tell(&rt, &rt, NAMES));
}

/// A copy in place of a hard link, and one that fails.
const COPIED: &str = "\
# crowded crowded
-- Where a file may have no more names, the second name gets a copy, which is synced as a new \
    file.

both crowded/root
create a 640
asks make crowded; make crowded/root; create crowded/root/.lock; lock crowded/root/.lock; \
    write crowded/root/.lock
append a bytes
asks
sync
asks create crowded/root/a; write crowded/root/a; sync crowded/root/a; sync .; sync crowded; \
    sync crowded/root; sync .; sync crowded; sync crowded/root; write over crowded/root/.lock
link a b
asks write over crowded/root/.lock; create crowded/root/b; write crowded/root/b
sync
asks sync crowded/root/b; sync crowded/root; write over crowded/root/.lock
two a b
stat b
shows b 640 5 bytes
unlink b
shows . dir a

# uncopied crowded create uncopied/root/b
both uncopied/root
create a 640
sync
fails link a b
sync
";

#[test]
fn a_file_with_no_more_names_is_copied(rt: HostRuntime) {
    assert!(rt; tell(&rt, &rt, COPIED));
}

/// Hundreds of new files that wait, and syncs of them.
const MANY: &str = "\
# many
-- How many files are made, and the sync that fails. Where 800 files wait, they are made before
the next one is created, and the sync makes the others. They are made in the order in which they
were created, up to the first that fails.

both many/root
makes 60
synced 0
sync
synced 60
sync

# many failing sync many/root/f47
both many/root
makes 60
synced 0
fails sync
synced 48

# many
both many/root
makes 810
synced 800
sync
synced 10
sync

# many failing sync many/root/f05
both many/root
makes 810
synced 6
fails sync
synced 10
";

#[test]
fn many_files_are_synced(rt: HostRuntime) {
    assert!(rt; tell(&rt, &rt, MANY));
}
