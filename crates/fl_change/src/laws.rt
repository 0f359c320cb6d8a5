//! Laws of worlds, of changes one after another, and of changes of the settings. Each law is the
//! contract of a function with an empty body.
ghost use Rattle.std.specs.Prelude.{◌≡◌, ◌≤◌, ◌<◌, ◌+◌, ℕ, List, [], ◌∷◌, true, false, length, Some, None};
ghost use Rattle.fp_base.specs.declared.object.ObjKind.{ObjKind};
ghost use Rattle.fp_base.specs.declared.what.What.TheVariants as whats;
ghost use Rattle.fp_host.specs.Remote.{Holdings};
ghost use Rattle.fp_name.specs.Refs.{Ref};
ghost use Rattle.fp_small.specs.Config.{name_of};
ghost use Rattle.fp_small.specs.Order.{has_name};
ghost use Rattle.fp_small.specs.declared.limits.TheConstants.{MOST_PINS, MOST_REMOTES};
ghost use Rattle.fp_small.specs.declared.op.Op.{Op};
ghost use Rattle.fp_small.specs.declared.op.Op.TheVariants as ops;
ghost use Rattle.fp_small.specs.declared.refusal.Refusal.{Refusal};
ghost use Rattle.fp_small.specs.declared.refusal.Refusal.TheVariants as refusals;
ghost use Rattle.fp_small.specs.declared.state.Layout.TheVariants.{One, Two};
ghost use Rattle.fp_small.specs.declared.state.RefRow.{RefRow};
ghost use Rattle.fp_small.specs.declared.state.RemoteRow.{RemoteRow};
ghost use Rattle.fp_small.specs.declared.state.State.{State};
ghost use Rattle.ost_model.specs.Objects.{Have};
ghost use Rattle.ost_model.specs.Order.{Place, In, order};
ghost use Rattle.dep_states.specs.After.{Done, after_all, plain};
ghost use Rattle.op_change.specs.Applied.{op_refusal};
ghost use Rattle.fl_words.specs.declared.command.Change.{Change};
ghost use Rattle.fl_words.specs.declared.command.Change.TheVariants as changes;
ghost use Rattle.fl_meta.specs.Names.{is_among};
ghost use Rattle.fl_change.specs.World.{World, kept_commits, is_used, used_of, world_after, worlds_after};
ghost use Rattle.fl_change.specs.Answer.{Answer, done_answer, nothing, op_answer, refusal_answer, IsUnpulled};
ghost use Rattle.fl_change.specs.Settings.{first_from};
ghost use Rattle.fl_change.specs.Turns.{change_over, changing, in_turn};
ghost use Rattle.fl_change.specs.Premises.{after_piece, done_piece};

/// States that a world has exactly the objects that the commits of its state use, and that
/// operations change its state as they change any state.
pub fn worlds_have_what_is_used()
    ensures used { (s : State) (have : Have) (commit : List ℕ) (p : Place)
        → In (kept_commits s) commit → In (order have commit) p
        → used_of s have p.digest p.kind ≡ have p.digest p.kind }
    ensures alone { (s : State) (have : Have) (d : List ℕ) (kind : ObjKind)
        → is_used s have d kind ≡ false → used_of s have d kind ≡ None }
    ensures twice { (s : State) (have : Have) → used_of s (used_of s have) ≡ used_of s have }
    ensures state { (held : Holdings) (x : World) (ops : List Done)
        → (worlds_after held x ops).state ≡ after_all x.state ops }
{}

/// States how changes are made one after another. After a change that does nothing, the next one is
/// made in the same world; after one that does an operation, in the world that this leaves. A
/// refused change ends them.
pub fn changes_go_in_turn()
    ensures none { (held : Holdings) (x : World) → in_turn [] held x ≡ nothing }
    ensures stays { (held : Holdings) (x : World) (change : Change) (more : List Change)
        → change_over change held x ≡ nothing
        → in_turn (change ∷ more) held x ≡ in_turn more held x }
    ensures done { (held : Holdings) (x : World) (change : Change) (more : List Change)
        (d : Done) (next : Answer) → change_over change held x ≡ done_answer d
        → in_turn more held (world_after held x d) ≡ next
        → in_turn (change ∷ more) held x ≡ after_piece (done_piece d) next }
    ensures refused { (held : Holdings) (x : World) (change : Change) (more : List Change)
        (refusal : Refusal) → change_over change held x ≡ refusal_answer refusal
        → in_turn (change ∷ more) held x ≡ refusal_answer refusal }
{}

/// States that an installation of layout 1 is migrated before the first change, even if that is
/// refused, and that one of layout 2 isn't migrated.
pub fn migration_comes_first()
    ensures migrates { (held : Holdings) (x : World) (more : List Change) (next : Answer)
        → x.state.layout ≡ One → in_turn more held (world_after held x (plain ops.Migrate)) ≡ next
        → changing more held x ≡ after_piece (done_piece (plain ops.Migrate)) next }
    ensures stays { (held : Holdings) (x : World) (more : List Change) → x.state.layout ≡ Two
        → changing more held x ≡ in_turn more held x }
{}

/// States that nothing is pulled for a change that the state refuses, as for a pin that exists
/// already. The refusals of an operation are found in what is pulled.
pub fn some_refusals_pull_nothing()
    ensures pin { (held : Holdings) (x : World) (pin : List ℕ)
        → is_among x.state.pins pin ≡ true
        → IsUnpulled (change_over (changes.Pin pin) held x).refusal }
    ensures operation { (have : Have) (op : Op) (refusal : Refusal)
        → op_refusal have op ≡ Some refusal → IsUnpulled (Some refusal) → ⊥ }
{}

/// States that a pattern is pinned unless it is pinned already or there are 1,024 pins, and that it
/// is unpinned if it is pinned.
pub fn pins_answer()
    ensures exists { (held : Holdings) (x : World) (pin : List ℕ)
        → is_among x.state.pins pin ≡ true
        → change_over (changes.Pin pin) held x ≡ refusal_answer (refusals.PinExists pin) }
    ensures limit { (held : Holdings) (x : World) (pin : List ℕ)
        → is_among x.state.pins pin ≡ false → MOST_PINS ≤ length x.state.pins
        → change_over (changes.Pin pin) held x
        ≡ refusal_answer (refusals.Limit whats.Pins (MOST_PINS + 1)) }
    ensures pins { (held : Holdings) (x : World) (pin : List ℕ)
        → is_among x.state.pins pin ≡ false → length x.state.pins < MOST_PINS
        → change_over (changes.Pin pin) held x ≡ op_answer (ops.AddPin pin) }
    ensures absent { (held : Holdings) (x : World) (pin : List ℕ)
        → is_among x.state.pins pin ≡ false
        → change_over (changes.Unpin pin) held x ≡ refusal_answer (refusals.NoSuchPin pin) }
    ensures unpins { (held : Holdings) (x : World) (pin : List ℕ)
        → is_among x.state.pins pin ≡ true
        → change_over (changes.Unpin pin) held x ≡ op_answer (ops.DropPin pin) }
{}

/// States that a remote is added unless its name exists already or there are 256 remotes, and that
/// it is modified if it exists.
pub fn remotes_answer()
    ensures exists { (held : Holdings) (x : World) (row : RemoteRow)
        → has_name name_of x.state.remotes row.name ≡ true
        → change_over (changes.RemoteAdd row) held x
        ≡ refusal_answer (refusals.RemoteExists row.name) }
    ensures limit { (held : Holdings) (x : World) (row : RemoteRow)
        → has_name name_of x.state.remotes row.name ≡ false → MOST_REMOTES ≤ length x.state.remotes
        → change_over (changes.RemoteAdd row) held x
        ≡ refusal_answer (refusals.Limit whats.Remotes (MOST_REMOTES + 1)) }
    ensures adds { (held : Holdings) (x : World) (row : RemoteRow)
        → has_name name_of x.state.remotes row.name ≡ false → length x.state.remotes < MOST_REMOTES
        → change_over (changes.RemoteAdd row) held x ≡ op_answer (ops.AddRemote row) }
    ensures absent { (held : Holdings) (x : World) (row : RemoteRow)
        → has_name name_of x.state.remotes row.name ≡ false
        → change_over (changes.RemoteModify row) held x
        ≡ refusal_answer (refusals.NoSuchRemote row.name) }
    ensures modifies { (held : Holdings) (x : World) (row : RemoteRow)
        → has_name name_of x.state.remotes row.name ≡ true
        → change_over (changes.RemoteModify row) held x ≡ op_answer (ops.ModifyRemote row) }
{}

/// States that a remote is deleted if it exists and no deployed ref comes from it. The refusal
/// names the first ref that does.
pub fn deleted_remotes_answer()
    ensures absent { (held : Holdings) (x : World) (name : List ℕ)
        → has_name name_of x.state.remotes name ≡ false
        → change_over (changes.RemoteDelete name) held x
        ≡ refusal_answer (refusals.NoSuchRemote name) }
    ensures in_use { (held : Holdings) (x : World) (name : List ℕ) (user : Ref)
        → has_name name_of x.state.remotes name ≡ true → first_from name x.state.refs ≡ Some user
        → change_over (changes.RemoteDelete name) held x
        ≡ refusal_answer (refusals.RemoteInUse name user) }
    ensures deletes { (held : Holdings) (x : World) (name : List ℕ)
        → has_name name_of x.state.remotes name ≡ true → first_from name x.state.refs ≡ None
        → change_over (changes.RemoteDelete name) held x ≡ op_answer (ops.DropRemote name) }
    ensures none { (name : List ℕ) → first_from name [] ≡ None }
    ensures first { (name : List ℕ) (row : RefRow) (more : List RefRow) → row.origin ≡ name
        → first_from name (row ∷ more) ≡ Some row.name }
    ensures next { (name : List ℕ) (row : RefRow) (more : List RefRow)
        → (row.origin ≡ name → ⊥) → first_from name (row ∷ more) ≡ first_from name more }
{}
