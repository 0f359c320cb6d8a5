//! The permission bits of files that their owner may not read.
use fp_realplay::tell;

/// Files, and a copy in place of a hard link, whose `stat` reports the bits asked for. On the disk,
/// the owner may read them and the sticky bit marks those that he wasn't to read.
const BITS: &str = "\
# bits
-- On the disk the owner may read each, and the sticky bit tells which he was not to.

-- Calls, a path, and what it shows after each: the bits that were asked for.

change bits
create dark 0
shows dark 0 0
append dark text
shows dark 0 4 text
create run 111
shows run 111 0
create plain 755
shows plain 755 0
link dark second
shows second 0 4 text
rename run moved
shows moved 111 0
sync
shows . dir dark moved plain second

disk
mode bits/dark 1400
mode bits/moved 1511
mode bits/plain 755

-- The same in another run.

look bits
stat .
shows dark 0 4 text
stat .
shows moved 111 0
stat .
shows second 0 4 text

change bits
stat .
fails create sticky 1644
faults 1 cannot create bits/sticky: these are no permission bits

# dark crowded
-- A copy in the place of a second name has the same bits.

logged dark
create dark 0
shows dark 0 0
append dark text
shows dark 0 4 text
link dark copy
shows copy 0 4 text
sync
shows . dir copy dark

disk
mode dark/copy 1400
";

#[test]
fn bits_are_told_as_they_were_asked_for(rt: HostRuntime) {
    assert!(rt; tell(&rt, &rt, BITS));
}
