//! Laws about the conditions of the steps. Each law is the contract of a function with an empty
//! body.
ghost use Rattle.std.specs.Prelude.{◌≡◌, ℕ, List, true, false, None, Bool};
ghost use Rattle.fp_host.specs.Outcome.{shows};
ghost use Rattle.fp_host.specs.Paths.{absent};
ghost use Rattle.fp_host.specs.View.{View, IsTree};
ghost use Rattle.fp_name.specs.Refs.{Ref, is_ref};
ghost use Rattle.fp_small.specs.Places.{repo, tmp};
ghost use Rattle.fp_small.specs.declared.state.State.{State};
ghost use Rattle.ost_model.specs.Objects.{store};
ghost use Rattle.ost_model.specs.Order.{first_fault};
ghost use Rattle.ost_pull.specs.Pulls.{CanPull};
ghost use Rattle.dep_states.specs.Names.{commit_dir};
ghost use Rattle.dep_states.specs.Sound.{Opens};
ghost use Rattle.op_change.specs.Furnishing.{CanFurnish};
ghost use Rattle.op_change.specs.Places.{pull_work};
ghost use Rattle.op_change.specs.Readying.{CanReady};
ghost use Rattle.op_change.specs.Rooms.{CanMakeRoom};

/// States that each step before a commit is recorded can be done in a view of which every crash
/// leaves the same state: room can be made, a commit can be pulled, the store can be set up, and a
/// commit without a fault in the store can be checked out if its directory is absent.
pub fn steps_can_be_done()
    ensures room { (s : State) (v : View) (name : Ref) (commit : List ℕ) (kept : Bool) → IsTree v
        → Opens s v → CanMakeRoom tmp (commit_dir name commit) kept v }
    ensures pull { (s : State) (v : View) → IsTree v → Opens s v → CanPull repo pull_work v }
    ensures ready { (s : State) (v : View) → IsTree v → Opens s v → CanReady v }
    ensures furnish { (s : State) (v : View) (name : Ref) (commit : List ℕ) (kept : Bool)
        → IsTree v → Opens s v
        → is_ref name ≡ true → (kept ≡ false → v.names (commit_dir name commit) ≡ absent)
        → first_fault (store repo (shows v)) commit ≡ None
        → CanFurnish commit (commit_dir name commit) kept v }
{}
