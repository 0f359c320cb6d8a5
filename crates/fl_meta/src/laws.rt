//! Laws of the definitions in the contracts, for crates that build on them. Each law is the
//! contract of a function with an empty body.

ghost use Rattle.std.specs.Prelude.{◌≡◌, ◌↔◌, ◌⊎◌, ◌++◌, ◌∷◌, ◌+◌, [], true, false, ℕ, List, codes, replicate};
ghost use Rattle.fp_keyfile.specs.Grammar.{ends_so};
ghost use Rattle.fl_meta.specs.declared.limits.TheConstants.{MOST_BUS_NAME_BYTES};
ghost use Rattle.fl_meta.specs.declared.permission.Permission.{Permission};
ghost use Rattle.fl_meta.specs.Cuts.{HasNoEnding};
ghost use Rattle.fl_meta.specs.Order.{is_same};
ghost use Rattle.fl_meta.specs.Places.{place_in};
ghost use Rattle.fl_meta.specs.Separators.{is_backslash, ends_escaped, entries_of};
ghost use Rattle.fl_meta.specs.Tidy.{IsTidy, without_endings};

/// States that permissions are equal exactly if they have the same list and the same name.
pub fn permissions_are_equal_by_parts()
    ensures { (p q : Permission) → (is_same p q ≡ true) ↔ (p ≡ q) }
{}

/// States that the place that a text names is its own normal form.
pub fn a_place_names_itself()
    ensures { (text : List ℕ) → place_in (place_in text) ≡ place_in text }
{}

/// States that a text that is in normal form except for its endings names the text without them.
pub fn a_normal_text_stays()
    ensures { (text : List ℕ) → IsTidy (without_endings text) → place_in text ≡
        without_endings text }
{}

/// States the normal form of a place: it is `/`, or it has neither `//` nor `/./` and ends neither
/// in `/` nor in `/.`; and it has no ending.
pub fn a_place_is_normal()
    ensures tidy { (text : List ℕ) → (place_in text ≡ codes "/") ⊎ IsTidy (place_in text) }
    ensures no_ending { (text : List ℕ) → HasNoEnding (place_in text) }
{}

/// States that an odd number of backslashes at the end of a text escapes the next byte, and an even
/// number doesn't; a `;` that isn't escaped ends an entry.
pub fn an_odd_number_of_backslashes_escapes()
    ensures even { (text : List ℕ) (n : ℕ) → ends_so is_backslash text ≡ false →
        ends_escaped (text ++ replicate (n + n) 92) ≡ false }
    ensures odd { (text : List ℕ) (n : ℕ) → ends_so is_backslash text ≡ false →
        ends_escaped (text ++ replicate (n + n + 1) 92) ≡ true }
    ensures end { (entry rest : List ℕ) → entries_of entry ≡ entry ∷ [] →
        ends_escaped entry ≡ false → entries_of (entry ++ 59 ∷ rest) ≡ entry ∷ entries_of rest }
{}

/// States that a name on a bus has at most 255 bytes (D-Bus specification, "Valid Names").
pub fn bus_names_are_short()
    ensures { MOST_BUS_NAME_BYTES ≡ 255 }
{}
