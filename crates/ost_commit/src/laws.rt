//! Laws of the definitions that the contracts use, for crates that build on them. Each is the
//! contract of a function that does nothing.
ghost use Rattle.std.specs.Prelude.{◌≡◌, ◌∷◌, ℕ, List};
ghost use Rattle.fp_host.specs.Paths.{Elements};
ghost use Rattle.ost_commit.specs.declared.row.TreeRow.{TreeRow};
ghost use Rattle.ost_commit.specs.Rows.{Said, no_entry};
ghost use Rattle.ost_commit.specs.Sizes.{IsLargeDirectory};
ghost use Rattle.ost_commit.specs.declared.limits.TheConstants.{MOST_NAMES, DIRECTORY_MODE};

/// The maximum number of names in a tree is 40,000, and the mode of its directories is 040755
/// (octal).
pub fn limits_as_numbers()
    ensures names { MOST_NAMES ≡ 40000 }
    ensures directory { DIRECTORY_MODE ≡ 0x41ED }
{}

/// A directory whose dirtree is too large isn't empty.
pub fn large_directories_have_names()
    ensures { (rows : List TreeRow) (said : Elements → Said) (large : IsLargeDirectory rows said)
        → ((x : List ℕ) → said (x ∷ large.path) ≡ no_entry) → ⊥ }
{}
