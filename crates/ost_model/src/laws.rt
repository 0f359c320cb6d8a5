//! Laws of stores and commits. Each is the contract of a function with an empty body.
ghost use Rattle.std.specs.Prelude.{◌≡◌, codes};
ghost use Rattle.ost_model.specs.declared.limits.TheConstants.{MOST_OBJECTS, MOST_LEVELS, MOST_METADATA_OBJECT_BYTES, MOST_FILE_BYTES, MOST_METADATA_FILE_BYTES, STORED_BITS, LOWEST_TYPE_BIT, DIRECTORY_TYPE, REGULAR_MODE, LINK_MODE, REF_BINDING, STORE_CONFIG};
ghost use Rattle.ost_model.specs.Laws.{OrderIsLocal, FaultIsLocal, LookIsLocal, DirsAreReached, FilesAreReached, PathsHaveNoFault, StandingIsLocal, StoreIsLocal, StoreGoesOn, NothingIsAStore, ObjectsAreNamed, ObjectsAreNoFolders, NamesAreApart, GoodTreesAreRead, GoodCommitsAreRead, WalkFaultsAreFaults, FirstOfTwo, OpensWithHeads, OpensAsRead, WalkGoesOn, WalkEnds, WalkFindsTheFirst, HostsStore, HostsSupply, ACommitIsSupplied};

/// States that a commit's order and its first fault depend only on the objects of that order, and
/// that the same holds for the entries at its paths, if the commit has no fault.
pub fn orders_depend_on_their_objects()
    ensures order { OrderIsLocal }
    ensures fault { FaultIsLocal }
    ensures look { LookIsLocal }
{}

/// States that the directories and files at the paths of a commit without a fault are in its order,
/// and that lookups of its paths meet no fault.
pub fn what_is_found_is_reached()
    ensures dirs { DirsAreReached }
    ensures files { FilesAreReached }
    ensures paths { PathsHaveNoFault }
{}

/// States that a commit checked out in a directory stays so as long as its paths and its objects
/// stay.
pub fn standing_depends_on_its_paths()
    ensures { StandingIsLocal }
{}

/// States that a store whose objects match their names stays one if nothing below `objects`
/// changes, or if paths there only disappear or get what a store may have there. With nothing below
/// `objects`, there is such a store.
pub fn stores_depend_on_their_names()
    ensures same { StoreIsLocal }
    ensures goes_on { StoreGoesOn }
    ensures nothing { NothingIsAStore }
{}

/// States that a store whose objects match their names has, at the path of an object, that object
/// or nothing, and nothing below that path.
pub fn stores_hold_what_their_names_say()
    ensures named { ObjectsAreNamed }
    ensures no_folders { ObjectsAreNoFolders }
{}

/// States that the path of an object determines its digest and its kind.
pub fn names_are_apart()
    ensures { NamesAreApart }
{}

/// States that dirtrees and commits without a fault can be read, and that a walk over only the
/// metadata objects of an order without a fault finds no fault.
pub fn good_objects_are_read()
    ensures trees { GoodTreesAreRead }
    ensures commits { GoodCommitsAreRead }
    ensures walks { WalkFaultsAreFaults }
{}

/// States that the first fault of two lists, one after the other, is that of the first list, else
/// that of the second.
pub fn the_first_fault_of_two()
    ensures { FirstOfTwo }
{}

/// States that the places of a directory are those of its dirtree, its dirmeta and its files, and
/// then those of its directories.
pub fn directories_are_listed_as_read()
    ensures heads { OpensWithHeads }
    ensures all { OpensAsRead }
{}

/// States that a walk over a work list with the invariant `Walked` visits the places of the
/// commit's order, and finds its first fault.
pub fn walks_meet_the_order()
    ensures goes_on { WalkGoesOn }
    ensures ends { WalkEnds }
    ensures first { WalkFindsTheFirst }
{}

/// States that the conditions on hosts and remotes can be met: each host that reports its content
/// stores some objects, and together with remotes that report theirs it supplies some. There is a
/// remote that supplies an empty store with a commit without a fault.
pub fn objects_are_supplied()
    ensures stores { HostsStore }
    ensures supplies { HostsSupply }
    ensures commit { ACommitIsSupplied }
{}

/// States the limits of a commit and its objects as numbers.
pub fn limits_as_numbers()
    ensures objects { MOST_OBJECTS ≡ 200000 }
    ensures levels { MOST_LEVELS ≡ 64 }
    ensures metadata_object { MOST_METADATA_OBJECT_BYTES ≡ 16777216 }
    ensures file { MOST_FILE_BYTES ≡ 1073741824 }
    ensures metadata_file { MOST_METADATA_FILE_BYTES ≡ 1048576 }
{}

/// States the modes of OSTree's objects as numbers: 0775, 010000, 04, 0100000 and 0120777 in octal.
pub fn modes_as_numbers()
    ensures stored { STORED_BITS ≡ 0x1FD }
    ensures types { LOWEST_TYPE_BIT ≡ 0x1000 }
    ensures directory { DIRECTORY_TYPE ≡ 4 }
    ensures regular { REGULAR_MODE ≡ 0x8000 }
    ensures link { LINK_MODE ≡ 0xA1FF }
{}

/// States the texts of a store and of a commit, letter by letter.
pub fn texts_as_letters()
    ensures config { STORE_CONFIG.now ≡ codes "[core]\nrepo_version=1\nmode=bare-user-only\n" }
    ensures binding { REF_BINDING.now ≡ codes "ostree.ref-binding" }
{}
