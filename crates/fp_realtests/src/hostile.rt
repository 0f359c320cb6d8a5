//! Files that other programs put in the way, and low limits of open files and of a file's size.
use fp_realplay::tell;

/// A device, and a symlink at the path of a copy.
const IN_THE_WAY: &str = "\
# none
-- A device is told as a symlink, and never opened.

look /dev
stat .
shows null a character device
fails read null
faults 1 cannot read /dev/null: it is no regular file

# leading crowded
-- Where a symlink stands in the place of a copy, what it leads to stays as it is.

logged leading
create kept 644
append kept words
symlink b kept
create a 644
fails link a b
stat b
shows kept 644 5 words
";

#[test]
fn what_is_in_the_way_is_left_alone(rt: HostRuntime) {
    assert!(rt; tell(&rt, &rt, IN_THE_WAY));
}

/// A process that may have four open files, one of which is the lock file.
const FEW: &str = "\
# few narrow 4
-- With four open files, the lock among them, each call is done: what is open is synced and
closed. New files are made so, too.

logged few
create a 644
create b 644
create c 644
create d 644
list .
append a bytes
append b bytes
append c bytes
append d bytes
read b
append a more
append b more
append c more
append d more
create e 644
append e bytes
sync
create f 644
append f bytes
unlink d
sync
stat .
shows a 644 9 bytesmore
stat .
shows e 644 5 bytes
";

#[test]
fn few_open_files_are_enough(rt: HostRuntime) {
    assert!(rt; tell(&rt, &rt, FEW));
}

/// Limits of a file's size as Linux reports them, with and without one set by `ulimit`.
const LARGE: &str = "\
# large limited large/limits
disk
folder large
file large/limits Limit                     Soft Limit           Hard Limit           Units     \
    |Max cpu time              unlimited            unlimited            seconds   |Max file \
    size             100                  200                  bytes     |

-- A file that would be larger than it may be stays as it is, whether it waits or is made.

logged large/root
create f 644
append f fifty bytes and one more are here, so two are large
fails append f fifty bytes and one more are here, so two are large
list .
fails append f fifty bytes and one more are here, so two are large
append f more
sync

disk
holds large/root/f fifty bytes and one more are here, so two are largemore
holds large/root/.lock ------------------------------------|

# large limited large/limits
-- Where no mark may be written, nothing is made.

disk
folder large
file large/limits Max file size             36                   unlimited            bytes     |

logged large/root
fails stat f
fails mkdir d

disk
absent large/root

# large limited large/limits
disk
folder large
file large/limits Max file size             unlimited            unlimited            bytes     |

logged large/root
create f 644
append f fifty bytes and one more are here, so two are large
append f fifty bytes and one more are here, so two are large
sync

disk
mode large/root/f 644
";

#[test]
fn a_file_that_may_not_be_so_large_is_an_error(rt: HostRuntime) {
    assert!(rt; tell(&rt, &rt, LARGE));
}
