//! Laws of the definitions that the contract uses, for crates that build on it. Each is the
//! contract of a function that does nothing.
ghost use Rattle.std.specs.Prelude.{◌≡◌, ◌↔◌, ℕ, List, true, false};
ghost use Rattle.fp_host.specs.Paths.{Elements};
ghost use Rattle.fp_host.specs.View.{View, IsTree};
ghost use Rattle.fp_host.specs.Calls.{unlinks, done};
ghost use Rattle.fp_host.specs.Outcome.{shows};
ghost use Rattle.fp_name.specs.Hex.{is_digest};
ghost use Rattle.fp_base.specs.declared.object.ObjKind.{ObjKind};
ghost use Rattle.ost_model.specs.Objects.{store};
ghost use Rattle.ost_model.specs.Used.{IsUsed};
ghost use Rattle.ost_prune.specs.Prune.{is_commit, CommitsFirst, IsStored, IsUnused, LeavesAsBefore, Prunes, WasPruned};
ghost use Rattle.ost_store.specs.Names.{name_in};

/// Pruning leaves an object that a commit of `keep` uses as it was: the name still has its entry,
/// and a crash leaves only what a crash before could have left there.
pub fn used_objects_stay()
    ensures name { (root : Elements) (keep : List (List ℕ)) (object : List ℕ × ObjKind)
        (u w : View) → is_digest object.0 ≡ true
        → Prunes root keep u w
        → IsUsed (store root (shows u)) keep object
        → w.names (name_in root object) ≡ u.names (name_in root object) }
    ensures stop { (root : Elements) (keep : List (List ℕ)) (object : List ℕ × ObjKind)
        (u w : View) → is_digest object.0 ≡ true
        → Prunes root keep u w → IsUsed (store root (shows u)) keep object
        → LeavesAsBefore u w (name_in root object) }
{}

/// After pruning, the store has exactly those objects that it had before and that are not unused.
pub fn used_objects_are_left()
    ensures { (root : Elements) (keep : List (List ℕ)) (number : ℕ) (object : List ℕ × ObjKind)
        (u w : View) → IsTree u → IsTree w
        → is_digest object.0 ≡ true → Prunes root keep u w → WasPruned root keep number u w
        → IsStored root w object
        ↔ (IsStored root u object × (IsUnused root keep u object → ⊥)) }
{}

/// Removing the name of an unused commit first keeps the order. Removing that of another unused
/// object while an unused commit is present breaks it.
pub fn commits_go_first()
    ensures kept { (root : Elements) (keep : List (List ℕ)) (commit : List ℕ × ObjKind) (u : View)
        → IsUnused root keep u commit → is_commit commit ≡ true
        → CommitsFirst root keep u (done (unlinks (name_in root commit)) u) }
    ensures broken { (root : Elements) (keep : List (List ℕ)) (commit other : List ℕ × ObjKind)
        (u : View) → IsUnused root keep u commit → is_commit commit ≡ true
        → IsUnused root keep u other → is_commit other ≡ false
        → CommitsFirst root keep u (done (unlinks (name_in root other)) u) → ⊥ }
{}
