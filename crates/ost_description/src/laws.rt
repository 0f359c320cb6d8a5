//! Laws of the definitions that the contracts use, for crates that build on them. Each is the
//! contract of a function that does nothing.

ghost use Rattle.std.specs.Prelude.{◌≡◌, ◌∷◌, ◌++◌, ◌+◌, ℕ, List, None, Some, false, length};
ghost use Rattle.std.specs.List.{list_any};
ghost use Rattle.ost_commit.specs.Refusals.{first_refused};
ghost use Rattle.ost_description.specs.declared.description.Description.{Description};
ghost use Rattle.ost_description.specs.declared.limits.TheConstants.{MOST_SUBJECT_BYTES};
ghost use Rattle.ost_description.specs.Descriptions.{described, checked_description, row_in};
ghost use Rattle.ost_description.specs.Writing.{IsWritable, description_text, is_newline};

/// A written description reads back, or is refused at the first row that `commit_tree` refuses.
/// With a malformed line after its rows, it is refused at that line, unless it has such a row.
pub fn written_descriptions_read_back()
    ensures reads { (d : Description) → IsWritable d
        → described (description_text d) ≡ checked_description d None (first_refused d.rows) }
    ensures stops { (d : Description) (line rest : List ℕ) → IsWritable d
        → list_any is_newline line ≡ false → row_in line ≡ None
        → described (description_text d ++ (line ++ 10 ∷ rest))
        ≡ checked_description d (Some (length d.rows + 3)) (first_refused d.rows) }
{}

/// The maximum number of bytes of a subject is 1,024.
pub fn limits_as_numbers()
    ensures { MOST_SUBJECT_BYTES ≡ 1024 }
{}
