//! Laws of the definitions in the contracts, for crates that build on them. Each is the contract of
//! a function with an empty body.

ghost use Rattle.std.specs.Prelude.{◌≡◌, ◌≢◌, ℕ, List, [], ◌∷◌, ◌++◌, true, Some, None, Contains};
ghost use Rattle.fp_host.specs.Paths.{Elements, absent, file, link, IsAbove};
ghost use Rattle.fp_host.specs.View.{View, IsTree};
ghost use Rattle.fp_host.specs.Calls.{creates, syncs, done, CanCreate};
ghost use Rattle.fp_host.specs.Outcome.{Nothing, shows, IsSettled};
ghost use Rattle.fp_host.specs.Frame.{Keeps, Only, NoName};
ghost use Rattle.fp_name.specs.Hex.{is_digest};
ghost use Rattle.ost_store.specs.declared.naming.TheConstants.{REST_DIGITS};
ghost use Rattle.fp_base.specs.declared.object.ObjKind.{ObjKind};
ghost use Rattle.fp_base.specs.declared.object.ObjKind.TheVariants as kinds;
ghost use Rattle.ost_model.specs.declared.object.Object.{Object};
ghost use Rattle.ost_model.specs.Objects.{object_path, name_fault, store, Named};
ghost use Rattle.ost_model.specs.Order.{In};
ghost use Rattle.ost_model.specs.Stores.{objects_folder};
ghost use Rattle.fp_small.specs.Clear.{IsWithin};
ghost use Rattle.fp_small.specs.declared.limits.TheConstants.{FILE_MODE};
ghost use Rattle.fp_small.specs.Unsynced.{Unsynced};
ghost use Rattle.fp_small.specs.Files.{KeepsFiles, MakesFile};
ghost use Rattle.fp_small.specs.Shares.{Shares};
ghost use Rattle.ost_store.specs.Created.{WasPutSince, Creates, NoObject};
ghost use Rattle.ost_store.specs.Gathers.{Gathers};
ghost use Rattle.ost_store.specs.Stage.{IsStaged, IsHeld, Stages};
ghost use Rattle.ost_store.specs.Stays.{Stays};
ghost use Rattle.ost_store.specs.Place.{Places, TakesAway, WasPlaced, IsReadyAs, LeavesObject, LeavesStore, with_new_file};

/// States that an object that was staged and then synced is ready to be placed, if it matches its
/// digest. A staged object is at its path.
pub fn staged_objects_are_ready()
    ensures ready { (t : Elements) (object : Object) (d : List ℕ) (kind : ObjKind) (v w : View) →
        IsHeld t object v → w ≡ done syncs v → IsTree w
        → name_fault d kind (Some object) ≡ None → IsReadyAs d kind t w }
    ensures held { (t : Elements) (object : Object) (v : View) → IsStaged t object v → IsHeld t
        object v }
{}

/// States that a name keeps its entry and its file's content while an object is staged neither
/// there nor below it, while another file is appended to, while an object is placed from another
/// path, neither there nor below it, and while another name is removed.
pub fn names_elsewhere_stay()
    ensures staged { (q t : Elements) (object : Object) (u w : View) → Stages t object u w →
        (IsWithin q t → ⊥) → Stays q u w }
    ensures grown { (q t : Elements) (u w : View) → Keeps Nothing NoName (Only t) u w → u.names q ≢
        u.names t → Stays q u w }
    ensures placed { (q t p : Elements) (u w : View) → Places t p u w → (IsWithin q p → ⊥) → q ≢ t
        → Stays q u w }
    ensures removed { (q p : Elements) (u w : View) → TakesAway p u w → q ≢ p → Stays q u w }
{}

/// States that a name that stays keeps its object and its node; and if nothing is synced, what is
/// staged there stays staged, and what is ready stays ready.
pub fn what_stays_is_kept()
    ensures held { (q : Elements) (object : Object) (u w : View) → Stays q u w → IsHeld q object u
        → IsHeld q object w }
    ensures staged { (q : Elements) (object : Object) (u w : View) → Stays q u w → Unsynced u w →
        IsStaged q object u → IsStaged q object w }
    ensures ready { (q : Elements) (d : List ℕ) (kind : ObjKind) (u w : View) → Stays q u w →
        IsTree u → IsTree w → Unsynced u w
        → IsReadyAs d kind q u → IsReadyAs d kind q w }
    ensures shown { (q : Elements) (u w : View) → Stays q u w → IsTree u → IsTree w → shows w q ≡
        shows u q }
{}

/// States where new files with bytes are. The only file that is made is at its path. A file that
/// isn't empty can't be at an absent path. If new files with bytes are at one path alone, and what
/// is there is placed, they were put at the path where it is placed.
pub fn gathered_files()
    ensures made { (p : Elements) (bytes : List ℕ) (u w : View) → MakesFile p bytes u w
        → Gathers (Only p) u w }
    ensures nowhere { (p q : Elements) (bytes : List ℕ) (u w : View) → MakesFile p bytes u w
        → w.names q ≡ absent → Gathers (Only q) u w → bytes ≡ [] }
    ensures placed { (t p : Elements) (u v w : View) → Gathers (Only t) u v → Places t p v w
        → WasPlaced t p v w → Shares (Only p) u w }
{}

/// States that an object that was placed is in the store, and that the store's other objects stay
/// as they were. They also stay if an object is removed.
pub fn placed_objects_are_there()
    ensures there { (root t : Elements) (d : List ℕ) (kind : ObjKind) (u w : View) → Places t
        (object_path root d kind) u w
        → WasPlaced t (object_path root d kind) u w → IsTree u → IsTree w → IsReadyAs d kind t u
        → Named d kind (shows w (object_path root d kind)) }
    ensures others { (root t : Elements) (d e : List ℕ) (k m : ObjKind) (u w : View) → Places t
        (object_path root d k) u w → is_digest d ≡ true → is_digest e ≡ true
        → ((e ≡ d) × (m ≡ k) → ⊥) → object_path root e m ≢ t → IsTree u → IsTree w
        → store root (shows w) e m ≡ store root (shows u) e m }
    ensures removed { (root : Elements) (d e : List ℕ) (k m : ObjKind) (u w : View)
        → TakesAway (object_path root d k) u w → is_digest d ≡ true → is_digest e ≡ true
        → ((e ≡ d) × (m ≡ k) → ⊥) → IsTree u → IsTree w
        → store root (shows w) e m ≡ store root (shows u) e m }
{}

/// States that staging an object at a path that isn't below `objects` leaves stores intact: at the
/// path of each object every crash still leaves that object or nothing, and a store whose objects
/// match their names stays one. The directories made above the path aren't below `objects` either.
/// Appending to a staged file changes no store, wherever the file is.
pub fn staged_names_are_true()
    ensures name { (root t : Elements) (object : Object) (d : List ℕ) (kind : ObjKind) (u w : View)
        → Stages t object u w → (IsAbove (objects_folder root) t → ⊥)
        → LeavesObject root d kind u → LeavesObject root d kind w }
    ensures store { (root t : Elements) (object : Object) (u w : View) → Stages t object u w →
        (IsAbove (objects_folder root) t → ⊥) → LeavesStore root u → LeavesStore root w }
    ensures piece { (root t : Elements) (u w : View) → Keeps Nothing NoName (Only t) u w →
        LeavesStore root u → LeavesStore root w }
{}

/// States that placing an object that matches its digest leaves stores intact: at its path every
/// crash still leaves that object or nothing, and a store whose objects match their names stays
/// one.
pub fn placed_names_are_true()
    ensures name { (root t : Elements) (d : List ℕ) (kind : ObjKind) (u w : View) → Places t
        (object_path root d kind) u w → IsReadyAs d kind t u
        → LeavesObject root d kind u → LeavesObject root d kind w }
    ensures store { (root t : Elements) (d : List ℕ) (kind : ObjKind) (u w : View) → is_digest d ≡
        true → Places t (object_path root d kind) u w → IsReadyAs d kind t u
        → LeavesStore root u → LeavesStore root w }
{}

/// States that removing a name leaves stores intact: at the path of each object every crash still
/// leaves that object or nothing, and a store whose objects match their names stays one.
pub fn names_left_are_true()
    ensures name { (root p : Elements) (d : List ℕ) (kind : ObjKind) (u w : View)
        → TakesAway p u w → LeavesObject root d kind u → LeavesObject root d kind w }
    ensures store { (root p : Elements) (u w : View) → TakesAway p u w
        → LeavesStore root u → LeavesStore root w }
{}

/// States that the conditions on views can be met. If nothing is below `objects` and all is synced,
/// every crash leaves a store whose objects match their names. If every crash does, it leaves at
/// the path of each object that object or nothing. There is a dirmeta that is ready to be placed
/// once its file is created, written and synced.
pub fn views_can_have_stores()
    ensures empty { (root : Elements) (v : View) → IsTree v → IsSettled v
        → ((rest : Elements) (xx : List ℕ) → v.names (rest ++ (xx ∷ objects_folder root)) ≡ absent)
        → LeavesStore root v }
    ensures object { (root : Elements) (d : List ℕ) (kind : ObjKind) (v : View)
        → is_digest d ≡ true → LeavesStore root v → LeavesObject root d kind v }
    ensures ready { (d : List ℕ) × (bytes : List ℕ) × ((t : Elements) (id : ℕ) (v : View)
        → CanCreate t FILE_MODE v → v.files id ≡ None → IsTree (with_new_file t id bytes v)
        → IsReadyAs d kinds.DirMeta t (with_new_file t id bytes v)) }
{}

/// States how objects are made. If nothing happens, none is made, unless a symlink was put at its
/// path before. If some are made, and none before or after, then these are made in all. A file that
/// is created is put at its name. A file put below `objects` since then is an object that was made,
/// and no two files were put at the path of one object.
pub fn made_objects()
    ensures none { (root : Elements) (v : View) → Creates root NoObject v v }
    ensures on { (root : Elements) (os : List (List ℕ × ObjKind)) (u v w : View)
        → Creates root (In os) u v → Creates root NoObject v w → KeepsFiles u v → KeepsFiles v w
        → Creates root (In os) u w }
    ensures off { (root : Elements) (os : List (List ℕ × ObjKind)) (u v w : View)
        → Creates root NoObject u v → Creates root (In os) v w → KeepsFiles u v → KeepsFiles v w
        → Creates root (In os) u w }
    ensures created { (q : Elements) (mode id : ℕ) (v : View)
        → (Contains v.stood (q, file id) → ⊥)
        → WasPutSince q id v (done (creates q mode id) v) }
    ensures some { (root q : Elements) (id : ℕ) (u w : View) → WasPutSince q id u w
        → IsAbove (objects_folder root) q → Creates root NoObject u w → ⊥ }
    ensures twice { (root : Elements) (o : List ℕ × ObjKind) (i j : ℕ) (u w : View)
        → WasPutSince (object_path root o.0 o.1) i u w
        → WasPutSince (object_path root o.0 o.1) j u w
        → i ≢ j → Creates root (λ x. x ≡ o) u w → ⊥ }
    ensures lacking { (root : Elements) (o : List ℕ × ObjKind) (v : View)
        → ((text : List ℕ) → Contains v.stood (object_path root o.0 o.1, link text) → ⊥)
        → Creates root (λ x. x ≡ o) v v → ⊥ }
{}

/// States as a number how many digits of its digest are in an object's file name.
pub fn digits_as_number()
    ensures { REST_DIGITS ≡ 62 }
{}
