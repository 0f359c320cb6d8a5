//! Symlinks above a path, which no call follows.
use fp_realplay::tell;

/// Symlinks in the place of a directory, of a remote's directory and of the lock file; and an
/// absent root, where a reader makes nothing.
const LINKS: &str = "\
# links
-- No call follows the symlink, and each is a fault; nor is a symlink followed that the host put
in the place of a folder.

-- A folder `links` with a root whose `repo` leads to the folder `outside` beside it, and that is
itself reached by the symlink `way`.

disk
folder links/root/d
folder links/outside/tmp
file links/outside/tmp/file kept
leads links/root/repo ../outside
leads links/way root

change links/way
fails stat repo/tmp
fails stat repo/tmp/file
fails list repo
fails list repo/tmp
fails read repo/tmp/file
fails readlink repo/tmp/file
fails mkdir repo/new
fails create repo/new 644
fails append repo/tmp/file x
fails link repo/tmp/file new
fails symlink repo/new x
fails rename repo/tmp/file new
fails unlink repo/tmp/file
fails rmdir repo/tmp
faults 14 cannot remove the folder links/way/repo/tmp: a symlink is in the place of a folder

-- What a symlink that is put in the place of a folder meanwhile does.

change links/way
create d/f 644
unlink d/f
rmdir d
symlink d ../outside
stat d
readlink d
fails unlink d/tmp/file
faults 1

disk
holds links/outside/tmp/file kept

# links_there
-- Both calls of a remote fail below a symlink, and the symlink itself is shown.

disk
folder links_there/outside/tmp
folder links_there/root
file links_there/outside/tmp/file kept
leads links_there/root/repo ../outside

remote links_there/root
node repo/tmp/file 0 a fault
node repo 0 ../outside
faults 2 ../links_there/root/repo/tmp/file: a symlink is in the place of a folder

# unmade
-- A look at a folder that is not there makes nothing.

look unmade/root
list .
stat .
stat d/f
sync

disk
absent unmade

# links_lock
-- The symlink is not followed by a change, and a look doesn't ask for it.

-- A lock file that leads to a file outside.

disk
folder links_lock/root
file links_lock/outside kept
leads links_lock/root/.lock ../outside

change links_lock/root
fails mkdir d
faults 1 cannot use the folder links_lock/root: its .lock is no regular file

look links_lock/root
stat d

disk
holds links_lock/outside kept
";

#[test]
fn no_symlink_is_followed(rt: HostRuntime) {
    assert!(rt; tell(&rt, &rt, LINKS));
}
