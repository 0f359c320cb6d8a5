//! Laws of the definitions in the contracts, for crates that build on them. Each is the contract of
//! a function with an empty body.
ghost use Rattle.std.specs.Prelude.{◌≡◌, ◌≢◌, ℕ, List, ◌∷◌, None};
ghost use Rattle.fp_host.specs.Paths.{Elements, absent};
ghost use Rattle.fp_host.specs.Outcome.{IsSettled, shows};
ghost use Rattle.fp_host.specs.View.{View, IsTree};
ghost use Rattle.fp_base.specs.declared.object.ObjKind.{ObjKind};
ghost use Rattle.fp_small.specs.Places.{IsBare, repo, tmp};
ghost use Rattle.ost_model.specs.Objects.{object_path, store};
ghost use Rattle.ost_model.specs.Order.{first_fault};
ghost use Rattle.ost_store.specs.Place.{LeavesStore};
ghost use Rattle.ost_pull.specs.Work.{Works};
ghost use Rattle.ost_pull.specs.Pulls.{CanPull, HasPulled, HasTrueFiles, IsApart, Pulls};

/// States that at each moment of a pull every crash leaves a store whose objects match their names,
/// if every crash did before, and that the path of each object that exists keeps its entry.
pub fn pulls_keep_stores()
    ensures store { (root t : Elements) (u w : View) → IsApart root t → Pulls root t u w
        → LeavesStore root u → LeavesStore root w }
    ensures names { (root t : Elements) (d : List ℕ) (kind : ObjKind) (u w : View) → IsApart root t
        → Pulls root t u w → u.names (object_path root d kind) ≢ absent
        → w.names (object_path root d kind) ≡ u.names (object_path root d kind) }
{}

/// States that two parts of a pull, one after the other, are a part of a pull, and that work in its
/// directory is one.
pub fn pulls_go_on()
    ensures goes_on { (root t : Elements) (u v w : View) → IsApart root t → Pulls root t u v
        → Pulls root t v w
        → Pulls root t u w }
    ensures work { (root t : Elements) (u w : View) → IsApart root t → Works t u w
        → Pulls root t u w }
{}

/// States that the conditions of a pull can be met: a work directory in `repo/tmp` is apart from
/// the objects of `repo`, and on a host with nothing but its root, which is synced, a pull can be
/// done there.
pub fn pulls_can_be_done()
    ensures apart { (name : List ℕ) → IsApart repo (name ∷ tmp) }
    ensures bare { (name : List ℕ) (v : View) → IsBare v → IsTree v → IsSettled v
        → CanPull repo (name ∷ tmp) v }
{}

/// States that the promise of a pull holds if all is synced and the store has the whole commit
/// without a fault.
pub fn commits_can_be_there()
    ensures { (root : Elements) (commit : List ℕ) (v : View) → IsTree v → IsSettled v
        → first_fault (store root (shows v)) commit ≡ None
        → HasPulled root (store root (shows v)) commit v }
{}

/// States that the condition of `pull_trusting` holds if every crash leaves a store whose objects
/// match their names. Pulls keep such stores.
pub fn true_stores_have_true_files()
    ensures { (root : Elements) (v : View) → LeavesStore root v → HasTrueFiles root v }
{}
