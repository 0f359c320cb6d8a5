//! Laws of the definitions in the contracts, for crates that build on them. Each law is the
//! contract of a function with an empty body.

ghost use Rattle.std.specs.Prelude.{◌≡◌, ℕ, List, Ok, Some, None, IfOk, IsTrue, ◌&&◌, if◌then◌else◌};
ghost use Rattle.std.specs.Str.{bytes_eq, is_utf8};
ghost use Rattle.fp_keyfile.specs.declared.group.Group.{Group};
ghost use Rattle.fp_keyfile.specs.Grammar.{is_name, is_key, is_value};
ghost use Rattle.fp_keyfile.specs.KeyFile.{names_of, keys_at, with_name, value_at, with_pair, without_pair, file_of, text_of, is_good};

/// States that the text of a valid file parses to that file.
pub fn written_reads_back()
    ensures { (file : List Group) → IsTrue (is_good file) → file_of (text_of file) ≡ Ok file }
{}

/// States that each parsed file is valid: it can be written, and has no duplicate names or keys.
pub fn read_is_good()
    ensures { (bytes : List ℕ) → IfOk (file_of bytes) (λ file. IsTrue (is_good file)) }
{}

/// States that after a value is set, its pair has this value, and each other pair has its previous
/// value.
pub fn set_gives_the_value()
    ensures { (file : List Group) (name key value n k : List ℕ) → value_at
        (with_pair file name key value) n k
        ≡ (if bytes_eq name n && bytes_eq key k then Some value else value_at file n k) }
{}

/// States that after a value is set, names and keys keep their order, and a new one comes last.
pub fn set_keeps_the_order()
    ensures names { (file : List Group) (name key value : List ℕ) → names_of
        (with_pair file name key value) ≡ with_name (names_of file) name }
    ensures keys { (file : List Group) (name key value n : List ℕ) → keys_at
        (with_pair file name key value) n
        ≡ (if bytes_eq name n then with_name (keys_at file name) key else keys_at file n) }
{}

/// States that a valid file is valid after a valid value is set.
pub fn set_is_good()
    ensures { (file : List Group) (name key value : List ℕ) → IsTrue (is_good file)
        → IsTrue (is_name name) → IsTrue (is_utf8 name) → IsTrue (is_key key) → IsTrue (is_utf8 key)
        → IsTrue (is_value value) → IsTrue (is_utf8 value)
        → IsTrue (is_good (with_pair file name key value)) }
{}

/// States that after a pair is removed, it is missing, and each other pair has its previous value.
pub fn remove_takes_the_value()
    ensures { (file : List Group) (name key n k : List ℕ) → IsTrue (is_good file) → value_at
        (without_pair file name key) n k
        ≡ (if bytes_eq name n && bytes_eq key k then None else value_at file n k) }
{}

/// States that a valid file is valid after a pair is removed.
pub fn remove_is_good()
    ensures { (file : List Group) (name key : List ℕ) → IsTrue (is_good file) → IsTrue
        (is_good (without_pair file name key)) }
{}
