//! Laws of the definitions in the contract. Each law is the contract of a function with an empty
//! body.
ghost use Rattle.std.specs.Prelude.{◌≡◌, ℕ, List, true};
ghost use Rattle.fp_host.specs.View.{View, IsTree};
ghost use Rattle.fp_name.specs.Refs.{Ref, is_ref};
ghost use Rattle.dep_states.specs.Sound.{IsSound};
ghost use Rattle.fl_make.specs.Laws.{RowsHaveOneCommit, DescriptionsHaveOneCommit};
ghost use Rattle.fl_make.specs.Making.{CanMake};

/// States that in a sound installation nothing is in the way of a remote that is made.
pub fn sound_installations_take_remotes()
    ensures { (v : View) (remote : List ℕ) (r : Ref) → IsTree v → IsSound v → is_ref r ≡ true
        → CanMake remote r v }
{}

/// States that two commits that are built of the same rows, ref, subject and timestamp have the
/// same digest, and so have two commits of the tree that the same bytes describe, bound to the same
/// ref.
pub fn a_description_has_one_commit()
    ensures rows { RowsHaveOneCommit }
    ensures described { DescriptionsHaveOneCommit }
{}
