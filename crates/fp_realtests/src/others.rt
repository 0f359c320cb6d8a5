//! Directories that aren't fpk's, and the directories above an installation.
use fp_realplay::{tell, tell_each};

/// A tale in which a change is refused and makes nothing. A row of `OTHERS` takes the place of the
/// braces.
const REFUSED: &str = "\
# others
disk
{}

change others/root
fails stat config
faults 1 ..: nothing shows that its folder is an installation of fpk's

disk
absent others/root/.lock
";

/// The content of `exports` and `repo/tmp` in directories that fpk didn't make.
const OTHERS: &str = "\
folder others/root/exports/photos
file others/root/exports/photos/a.jpg a
--
folder others/root/repo/tmp/mine
file others/root/repo/tmp/mine/draft d
--
folder others/root/exports
file others/root/exports/new0
--
folder others/root/exports
leads others/root/exports/link none
--
folder others/root/repo/tmp/new0
--
folder others/root/repo/tmp
leads others/root/repo/tmp/new0 none
--
folder others/root/repo/tmp
file others/root/repo/tmp/new
--
folder others/root/repo/tmp
file others/root/repo/tmp/new1
file others/root/repo/tmp/new1x";

#[test]
fn a_folder_of_others_is_not_changed(rt: HostRuntime) {
    assert!(rt; tell_each(&rt, &rt, REFUSED, OTHERS));
}

/// Files that aren't fpk's: the error names them, they stay, and they can be read. With a `config`
/// beside them, a change is done.
const KEPT: &str = "\
# others
-- What stands there is named, is kept, and may be looked at.

disk
folder others/root/exports/photos
file others/root/exports/photos/a.jpg a

change others/root
fails mkdir made
faults 1 cannot take over others/root/exports/photos: nothing shows that its folder is an \
    installation of fpk's

disk
holds others/root/exports/photos/a.jpg a

look others/root
stat exports
shows . dir exports

disk
folder others/root/config
folder others/root/repo/tmp/mine
file others/root/repo/tmp/mine/draft d

-- A change is done.

change others/root
stat none
sync

disk
holds others/root/repo/tmp/mine/draft d
mode others/root/.lock 644

# others
disk
folder others/root/repo/tmp/mine
file others/root/repo/tmp/mine/draft d

change others/root
fails mkdir made
faults 1 cannot take over others/root/repo/tmp/mine: nothing shows that its folder is an \
    installation of fpk's

disk
holds others/root/repo/tmp/mine/draft d
";

#[test]
fn what_is_of_others_is_named_and_kept(rt: HostRuntime) {
    assert!(rt; tell(&rt, &rt, KEPT));
}

/// A tale in which a change is done. A row of `OURS` takes the place of the braces.
const TAKEN: &str = "\
# others
disk
{}

-- A change is done.

change others/root
stat none
sync
";

/// The content of directories that are fpk's or may become so: nothing, other names at the top,
/// what `export` and `override` make, the new files of a first command that crashed, a lock file,
/// and each file that marks an installation. In the last row the directory is absent.
const OURS: &str = "\
folder others/root
--
folder others/root/exported/photos
file others/root/tmp
--
folder others/root/made/lab/objects
--
folder others/root/overrides
file others/root/overrides/global
folder others/root/exports
--
folder others/root/repo/tmp
file others/root/repo/tmp/new0
file others/root/repo/tmp/new12
--
folder others/root/exports/share
file others/root/.lock
--
folder others/root/exports/share
file others/root/config
--
folder others/root/exports/share
file others/root/pins
--
folder others/root/exports/share
file others/root/remotes.conf
--
folder others/root/exports/share
folder others/root/repo/tmp/pull
file others/root/repo/config
--
";

#[test]
fn a_folder_that_may_be_ours_is_taken(rt: HostRuntime) {
    assert!(rt; tell_each(&rt, &rt, TAKEN, OURS));
}

/// Directories above the root that don't support a sync, and one whose sync fails otherwise.
const ABOVE: &str = "\
# others
-- The folders of `/proc` above it take no sync: Linux answers EINVAL.

change /proc/self/cwd/others/root
mkdir d
sync

disk
holds others/root/.lock ------------------------------------|

# others failing sync others
-- What fails otherwise above the root is told, and no later sync succeeds.

logged others/root
mkdir d
fails sync
fails sync
";

#[test]
fn folders_above_may_take_no_sync(rt: HostRuntime) {
    assert!(rt; tell(&rt, &rt, ABOVE));
}
