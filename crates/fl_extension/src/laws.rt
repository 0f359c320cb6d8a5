//! Laws of the definitions in the contracts, for crates that build on them. Each law is the
//! contract of a function with an empty body.

ghost use Rattle.std.specs.Prelude.{◌≡◌, ◌↔◌, ◌∷◌, ◌++◌, [], ℕ, List, true, false, map, codes, Contains, IsTrue};
ghost use Rattle.std.specs.List.{flat_map, list_all, list_any};
ghost use Rattle.std.specs.Str.{bytes_eq};
ghost use Rattle.fp_host.specs.Reads.{is_ascending};
ghost use Rattle.fp_keyfile.specs.Grammar.{is_key, is_key_byte};
ghost use Rattle.fp_keyfile.specs.KeyFile.{are_distinct, is_good};
ghost use Rattle.fp_keyfile.specs.declared.group.Group.{Group};
ghost use Rattle.fp_name.specs.Refs.{Ref};
ghost use Rattle.fl_extension.specs.Points.{branch_of, candidates_of, each_once, is_directory, name_of, point_of, points_of};
ghost use Rattle.fl_extension.specs.declared.point.Point.{Point};

/// States that the points of a key file are those of its groups, ascending by their names, and that
/// no other list is this.
pub fn points_ascend()
    ensures ascending { (file : List Group) (r : Ref) → IsTrue (is_good file) → is_ascending
        (map name_of (points_of file r)) ≡ true }
    ensures each { (file : List Group) (r : Ref) (p : Point) → Contains (points_of file r) p ↔
        Contains (flat_map (point_of r) file) p }
    ensures alone { (file : List Group) (r : Ref) (points : List Point) → IsTrue (is_good file) →
        is_ascending (map name_of points) ≡ true
        → ((p : Point) → Contains points p ↔ Contains (flat_map (point_of r) file) p)
        → points ≡ points_of file r }
{}

/// States that no two candidates of a point have the same branch, and that of a list of versions
/// each counts once, at its first position.
pub fn candidates_stand_once()
    ensures branches { (g : Group) (r : Ref) (name : List ℕ) → are_distinct (map branch_of
        (candidates_of g r name)) ≡ true }
    ensures distinct { (texts : List (List ℕ)) → are_distinct (each_once texts) ≡ true }
    ensures each { (texts : List (List ℕ)) (text : List ℕ) → list_any (bytes_eq text)
        (each_once texts) ≡ list_any (bytes_eq text) texts }
    ensures first { each_once (codes "2" ∷ codes "1" ∷ codes "2" ∷ codes "3" ∷ codes "1" ∷ []) ≡
        codes "2" ∷ codes "1" ∷ codes "3" ∷ [] }
{}

/// States that the path that a launch writes for a directory, after a `/`, is a key of a key file,
/// and that a text with a blank at its end is no directory.
pub fn directories_are_keys()
    ensures key { (front directory : List ℕ) → list_all is_key_byte front ≡ true → is_directory
        directory ≡ true → is_key (47 ∷ (front ++ directory)) ≡ true }
    ensures blank { is_directory (codes "share ") ≡ false }
    ensures tab { is_directory (codes "share" ++ 9 ∷ []) ≡ false }
    ensures inner { is_directory (codes "share/a b") ≡ true }
{}
