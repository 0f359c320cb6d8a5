//! The modification times of stored files.
use fp_realplay::tell;

/// A file that is moved to the store's objects gets the modification time 0, another doesn't.
const DATED: &str = "\
# stored
change stored
mkdir repo
mkdir repo/objects
create new 644
append new bytes
rename new repo/objects/old
create new 644
append new bytes
rename new kept

disk
dated stored/repo/objects/old 1970
dated stored/kept later
";

#[test]
fn stored_files_are_dated_1970(rt: HostRuntime) {
    assert!(rt; tell(&rt, &rt, DATED));
}
