//! Laws of updates of all deployed refs. Each law is the contract of a function with an empty body.
ghost use Rattle.std.specs.Prelude.{◌≡◌, [], ◌∷◌, None};
ghost use Rattle.fp_host.specs.Remote.{Holdings};
ghost use Rattle.fp_small.specs.declared.state.Layout.TheVariants.{Two};
ghost use Rattle.dep_states.specs.After.{HasOrder, IsGood, after_all};
ghost use Rattle.fl_words.specs.declared.command.Change.TheVariants.{UpdateAll};
ghost use Rattle.fl_change.specs.World.{World};
ghost use Rattle.fl_change.specs.Answer.{ops_of};
ghost use Rattle.fl_change.specs.Turns.{changing};
ghost use Rattle.fl_change.specs.Current.{IsCurrent};
ghost use Rattle.fl_change.specs.Premises.{HasNoUpdate};

/// States that an update of all that isn't refused leaves layout 2 and nothing to update: the
/// remote of each deployed ref is gone, doesn't offer the ref, or offers the deployed commit.
pub fn updates_leave_all_current()
    ensures current { (held : Holdings) (x : World) → IsGood x.state
        → (changing (UpdateAll ∷ []) held x).refusal ≡ None
        → IsCurrent held (after_all x.state (ops_of (changing (UpdateAll ∷ []) held x))) }
    ensures layout { (held : Holdings) (x : World) → IsGood x.state
        → (changing (UpdateAll ∷ []) held x).refusal ≡ None
        → (after_all x.state (ops_of (changing (UpdateAll ∷ []) held x))).layout ≡ Two }
{}

/// States that an update of all has no operation and isn't refused if the state has nothing to
/// update, whatever objects the store has.
pub fn updates_of_what_is_current_are_idle()
    ensures { (held : Holdings) (y : World) → y.state.layout ≡ Two → HasOrder y.state
        → IsCurrent held y.state → HasNoUpdate held y }
{}

/// States that an update of all after one that wasn't refused, with the same remotes, has no
/// operation, isn't refused, and pulls nothing.
pub fn second_updates_are_idle()
    ensures { (held : Holdings) (x y : World) → IsGood x.state
        → (changing (UpdateAll ∷ []) held x).refusal ≡ None
        → y.state ≡ after_all x.state (ops_of (changing (UpdateAll ∷ []) held x))
        → HasOrder y.state → HasNoUpdate held y }
{}
