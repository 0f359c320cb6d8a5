//! The effect of each call on a real directory.
use fp_realplay::tell;

/// Calls that are done, with their effects; calls that fail; the ids of files; and reads at
/// offsets.
const CALLS: &str = "\
# asked
-- Calls, a path, and what it shows after each.

change asked/root
sync
shows . dir
mkdir d
shows . dir d
mkdir d/e
shows d dir e
create d/f 664
shows d/f 664 0
append d/f hello
shows d/f 664 5 hello
link d/f g
shows g 664 5 hello
append g  world
shows d/f 664 11 hello world
sync
shows d dir e f
create d/ü 775
shows d/ü 775 0
create d/f- 400
shows d/f- 400 0
append d/f- sealed
shows d/f- 400 6 sealed
symlink d/B ../g
shows d/B ../g
create h 0
shows . dir d g h
append h dark
shows d dir B e f f- ü
sync
shows none absent
rename d/f- g
shows g 400 6 sealed
sync
shows d dir B e f ü
rename d/B d/f
shows d/f ../g
rmdir d/e
shows d dir f ü
unlink d/f
shows d/f absent
unlink h
shows g/below absent
sync
shows none/below absent

# refused
-- Each call is a fault, and the last one is told.

-- Calls whose condition doesn't hold there.

change refused
mkdir folder
shows folder dir
symlink link old
shows link old
create old 644
shows old 644 0
create folder/old 644
shows folder dir old
sync
shows none absent
stat late/below
shows late/below absent
symlink late folder
shows late folder
create new 644
shows . dir folder late link new old
fails mkdir .
fails mkdir link
fails mkdir none/below
fails create link 644
fails create none 10000
fails append old x
fails append link x
fails append none x
fails link folder none
fails link link none
fails link old new
fails symlink none
fails symlink folder x
fails rename folder none
fails rename old folder
fails rename old old
fails unlink folder
fails unlink none
fails rmdir .
fails rmdir link
fails rmdir folder
fails stat late/below
fails read folder
fails read link
fails read none
fails list old
fails list none
fails readlink folder
fails readlink old
faults 29 cannot read the link refused/old: Invalid argument (os error 22)

# unlinked
-- What is no file or symlink isn't taken away, and why is told.

-- What stands where nothing is taken away: folders of an earlier run and of this one, and files.

disk
folder unlinked/root/folder
file unlinked/root/file

change unlinked/root
fails unlink folder
faults 1 ..: it is neither a regular file nor a symlink

change unlinked/root
mkdir new
fails unlink new
faults 1 ..: it is neither a regular file nor a symlink

change unlinked/root
fails unlink folder/none
faults 1 cannot remove unlinked/root/folder/none: No such file or directory (os error 2)

change unlinked/root
fails unlink file/below
faults 1 cannot remove unlinked/root/file/below: No such file or directory (os error 2)

change unlinked/root
fails unlink .
faults 1

disk
holds unlinked/root/file

# above
-- A file in the place of the root is a fault.

disk
folder above
file above/file

look above/file/root
fails stat .
faults 1 cannot use the folder above/file/root: Not a directory (os error 20)

# ids
-- Hard links have one id.

change ids
create a 644
shows a 644 0
create b 644
shows b 644 0
link a c
shows c 644 0
one a c
two a b

# pieces
-- Bytes are read in pieces.

disk
folder pieces
file pieces/file hello world

-- A place in `hello world`, how many bytes come from there, and the buffer after.

look pieces
bytes file 0 4 hell
bytes file 6 4 worl
bytes file 9 2 ld..
bytes file 11 0 ....
bytes file 18446744073709551615 0 ....
";

#[test]
fn folders_do_what_they_are_asked(rt: HostRuntime) {
    assert!(rt; tell(&rt, &rt, CALLS));
}
