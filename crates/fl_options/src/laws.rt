//! Laws of all options, which follow from the definitions. Each law is the contract of a function
//! with an empty body.

ghost use Rattle.std.specs.Prelude.{◌≡◌, ◌++◌, ◌∷◌, [], List, ℕ, false, codes};
ghost use Rattle.fl_meta.specs.Entries.{mention_of};
ghost use Rattle.fl_meta.specs.declared.permission.PermList.TheVariants as lists;
ghost use Rattle.fl_meta.specs.declared.permission.Value.TheVariants as values;
ghost use Rattle.fl_options.specs.Options.{IsOfFile, is_option, option_layer};

/// States that what an option mentions is what an override that can be written mentions. So it can
/// itself be written to a file.
pub fn options_are_of_files()
    ensures { (word : List ℕ) → IsOfFile (option_layer word) }
{}

/// States that a word isn't an option if its name ends in an odd number of backslashes. In a list
/// they would escape the separator.
pub fn open_names_are_no_options()
    ensures place { is_option (codes "--filesystem=/a" ++ 92 ∷ []) ≡ false }
    ensures denial { is_option (codes "--nofilesystem=/a" ++ 92 ∷ []) ≡ false }
    ensures folder { is_option (codes "--persist=a" ++ 92 ∷ 92 ∷ 92 ∷ []) ≡ false }
    ensures even { option_layer (codes "--persist=a" ++ 92 ∷ 92 ∷ []) ≡ mention_of lists.Persistent
        (codes "a" ++ 92 ∷ 92 ∷ []) values.On ∷ [] }
{}
