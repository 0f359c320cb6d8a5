//! Laws of the definitions in the contracts, for crates that build on them. Each law is the
//! contract of a function with an empty body.

ghost use Rattle.std.specs.Prelude.{◌≡◌, ◌≢◌, ◌↔◌, ◌⊎◌, ◌<◌, ◌+◌, ℕ, List, length, true, false, Some, Contains};
ghost use Rattle.std.specs.Prelude.{map, not, ◌∷◌, [], None, codes};
ghost use Rattle.std.specs.List.{filter};
ghost use Rattle.std.specs.List.Sorted.{IsPermutation};
ghost use Rattle.std.specs.Str.{bytes_eq};
ghost use Rattle.fp_host.specs.Paths.{Elements, absent, IsAbove};
ghost use Rattle.fp_host.specs.Outcome.{IsSettled};
ghost use Rattle.fp_host.specs.View.{View, IsTree};
ghost use Rattle.fp_host.specs.Calls.{makes_dir, creates, appends, renames, syncs, done, CanCreate};
ghost use Rattle.fp_host.specs.Frame.{Keeps, Only, NoPath};
ghost use Rattle.fp_host.specs.Reads.{is_ascending};
ghost use Rattle.fp_keyfile.specs.KeyFile.{are_distinct};
ghost use Rattle.fp_name.specs.Pins.{is_pin};
ghost use Rattle.fp_small.specs.declared.limits.TheConstants.{FILE_MODE, MOST_CONFIG_BYTES, MOST_ELEMENTS, MOST_PINS, MOST_REFS, MOST_REMOTES, MOST_TEXT_BYTES};
ghost use Rattle.fp_small.specs.Order.{inserted, removed, replaced, has_name, sorted_by};
ghost use Rattle.fp_small.specs.Unsynced.{Unsynced, MakesNoFile, MakesOneFile};
ghost use Rattle.fp_small.specs.Files.{KeepsFiles, SameFiles, MakesFile};
ghost use Rattle.fp_small.specs.Shares.{Shares};
ghost use Rattle.fp_small.specs.Stage.{IsReady};
ghost use Rattle.fp_small.specs.Folders.{AreFree};
ghost use Rattle.fp_small.specs.Places.{IsBare};
ghost use Rattle.fp_small.specs.Replace.{CanReplace};
ghost use Rattle.fp_small.specs.Clear.{CanClear, CanEmpty};
ghost use Rattle.fp_small.specs.Config.{IsSettings, config_of, config_text, is_row, name_of};
ghost use Rattle.fp_small.specs.Old.{remotes_of, pins_of, AreRows, ArePatterns};
ghost use Rattle.fp_small.specs.declared.config.Settings.{Settings};
ghost use Rattle.fp_small.specs.declared.state.RemoteRow.{RemoteRow};

/// States that the text of a `config` parses to the settings that it was written from.
pub fn written_config_reads_back()
    ensures { (s : Settings) → IsSettings s → config_of (config_text s) ≡ Some s }
{}

/// States that the settings of a parsed `config` are valid, so that they can be written.
pub fn read_config_is_good()
    ensures { (bytes : List ℕ) (s : Settings) → config_of bytes ≡ Some s → IsSettings s }
{}

/// States that the remotes and pins of layout 1's two files are valid, so that they can be written.
pub fn read_old_files_are_good()
    ensures remotes { (bytes : List ℕ) (rows : List RemoteRow) → remotes_of bytes ≡ Some rows →
        AreRows rows }
    ensures pins { (bytes : List ℕ) (pins : List (List ℕ)) → pins_of bytes ≡ Some pins →
        ArePatterns pins }
{}

/// States that with one more pin the settings stay valid, if it is a new pattern and there are
/// fewer than 1,024 pins, and that they then have exactly this pin and the previous ones.
pub fn added_pin()
    ensures good { (s : Settings) (p : List ℕ) → IsSettings s → is_pin p ≡ true →
        (Contains s.pins p → ⊥) → length s.pins < MOST_PINS
        → IsSettings (record s { pins = inserted (λ q. q) s.pins p }) }
    ensures has { (pins : List (List ℕ)) (p q : List ℕ) → Contains (inserted (λ x. x) pins p) q ↔
        ((q ≡ p) ⊎ Contains pins q) }
{}

/// States that without a pin the settings stay valid, and have exactly the other pins.
pub fn dropped_pin()
    ensures good { (s : Settings) (p : List ℕ) → IsSettings s → IsSettings
        (record s { pins = removed (λ q. q) s.pins p }) }
    ensures has { (pins : List (List ℕ)) (p q : List ℕ) → Contains (removed (λ x. x) pins p) q ↔
        (Contains pins q × (q ≢ p)) }
{}

/// States that with one more remote the settings stay valid, if it is valid, its name is new, and
/// there are fewer than 256 remotes.
pub fn added_remote()
    ensures { (s : Settings) (row : RemoteRow) → IsSettings s → is_row row ≡ true → has_name
        name_of s.remotes row.name ≡ false → length s.remotes < MOST_REMOTES
        → IsSettings (record s { remotes = inserted name_of s.remotes row }) }
{}

/// States that the settings stay valid if a remote is replaced by another valid one of its name.
pub fn modified_remote()
    ensures { (s : Settings) (row : RemoteRow) → IsSettings s → is_row row ≡ true → has_name
        name_of s.remotes row.name ≡ true
        → IsSettings (record s { remotes = replaced name_of s.remotes row }) }
{}

/// States that without a remote the settings stay valid.
pub fn dropped_remote()
    ensures { (s : Settings) (name : List ℕ) → IsSettings s → IsSettings
        (record s { remotes = removed name_of s.remotes name }) }
{}

/// States that sorting by names keeps each element as often as it occurs, and that the names then
/// ascend strictly if they are distinct.
pub fn sorted_lists<T>()
    ensures keeps { (name : T → List ℕ) (xs : List T) → IsPermutation xs (sorted_by name xs) }
    ensures ascends { (name : T → List ℕ) (xs : List T) → are_distinct (map name xs) ≡ true →
        is_ascending (map name (sorted_by name xs)) ≡ true }
{}

/// States that after a remote is inserted, the rows are the previous ones and it, and that after
/// the remotes of a name are removed, the rows are all others, in order.
pub fn rows_of_remotes()
    ensures added { (rows : List RemoteRow) (row : RemoteRow) → IsPermutation (row ∷ rows)
        (inserted name_of rows row) }
    ensures dropped { (rows : List RemoteRow) (name : List ℕ) → removed name_of rows name ≡ filter
        (λ row. not (bytes_eq row.name name)) rows }
{}

/// States that making a directory syncs nothing and creates no file, and that creating a file syncs
/// nothing and creates at most one. If steps that sync nothing lead to a settled view, the view
/// before them was settled too. So a function that syncs can't have the clause `Unsynced`, unless
/// nothing waited for a sync.
pub fn unsynced_views()
    ensures folder { (v : View) (p : Elements) → MakesNoFile v (done (makes_dir p) v) }
    ensures file { (v : View) (p : Elements) (id mode : ℕ) → v.files id ≡ None
        → MakesOneFile v (done (creates p mode id) v) }
    ensures settled { (u w : View) → IsTree u → Unsynced u w → IsSettled w → IsSettled u }
{}

/// States that a file that is created, written and synced is the one file that was made, and is
/// ready to be moved to its final name.
pub fn made_files()
    ensures made { (v : View) (p : Elements) (bytes : List ℕ) (id : ℕ) → CanCreate p FILE_MODE v
        → v.files id ≡ None
        → MakesFile p bytes v (done syncs
        (done (appends p bytes) (done (creates p FILE_MODE id) v))) }
    ensures ready { (v : View) (p : Elements) (bytes : List ℕ) (id : ℕ) → CanCreate p FILE_MODE v
        → v.files id ≡ None
        → IsReady p bytes (done syncs (done (appends p bytes) (done (creates p FILE_MODE id) v))) }
{}

/// States when each new file that isn't empty was put at the name `p` (`Shares`): if no file was
/// created, if no new file was given bytes, or if only one was created, at `p`. If this holds for
/// each of two steps, it holds for both together, provided that the second step keeps the files
/// that were there. If it holds for the name `p`, it holds for `p` and `q`.
pub fn shared_files()
    ensures same { (p : Elements) (v w : View) → SameFiles v w → Shares (Only p) v w }
    ensures empty { (p : Elements) (v w : View) →
        Keeps (λ q spot. Unit {0}) (λ q e. Unit {0}) NoPath v w → Shares (Only p) v w }
    ensures on { (p : Elements) (u v w : View) → Shares (Only p) u v → Shares (Only p) v w
        → KeepsFiles v w → Shares (Only p) u w }
    ensures wider { (p q : Elements) (u w : View) → Shares (Only p) u w
        → Shares (λ x. (x ≡ p) ⊎ (x ≡ q)) u w }
    ensures made { (p : Elements) (bytes : List ℕ) (u w : View) → MakesFile p bytes u w
        → Shares (Only p) u w }
{}

/// States that a file that is created, written, synced and renamed was put at its new name
/// (`Shares`), and that for a file that isn't renamed this holds only if the file is empty.
pub fn shared_file()
    ensures renamed { (v : View) (p q : Elements) (bytes : List ℕ) (id : ℕ)
        → CanCreate p FILE_MODE v
        → v.files id ≡ None → p ≢ q → Shares (Only q) v (done (renames p q)
        (done syncs (done (appends p bytes) (done (creates p FILE_MODE id) v)))) }
    ensures left { (v : View) (p q : Elements) (bytes : List ℕ) (id : ℕ) → CanCreate p FILE_MODE v
        → v.files id ≡ None → v.stood ≡ [] → p ≢ q
        → Shares (Only q) v (done (appends p bytes) (done (creates p FILE_MODE id) v))
        → bytes ≡ [] }
{}

/// States that in a view with nothing but the root, directories can be made, a file can be written
/// in the root, and each path can be cleared. A directory can't be emptied if a path below it has
/// one element too many.
pub fn bare_views()
    ensures folders { (v : View) (paths : List Elements) → IsBare v → AreFree paths v }
    ensures file { (v : View) (name : List ℕ) → IsBare v → name ≢ codes "repo"
        → CanReplace (name ∷ []) v }
    ensures cleared { (v : View) (x : List ℕ) (up : Elements) → IsBare v → CanClear (x ∷ up) v }
    ensures too_deep { (v : View) (p q : Elements) → IsAbove p q → v.names q ≢ absent
        → length q ≡ MOST_ELEMENTS + 1 → CanEmpty p v → ⊥ }
{}

/// States the limits of an installation as numbers. Files are created with the permission bits
/// 0o644.
pub fn limits_as_numbers()
    ensures mode { FILE_MODE ≡ 420 }
    ensures path { MOST_ELEMENTS ≡ 128 }
    ensures refs { MOST_REFS ≡ 4096 }
    ensures remotes { MOST_REMOTES ≡ 256 }
    ensures pins { MOST_PINS ≡ 1024 }
    ensures config { MOST_CONFIG_BYTES ≡ 2097152 }
    ensures text { MOST_TEXT_BYTES ≡ 1048576 }
{}
