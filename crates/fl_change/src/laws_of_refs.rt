//! Laws of changes of refs, and of resets of overrides. Each law is the contract of a function with
//! an empty body.
ghost use Rattle.std.specs.Prelude.{◌≡◌, ℕ, List, [], ◌∷◌, ◌++◌, map, true, false, Some, None, Ok, Err, Contains, codes};
ghost use Rattle.fp_base.specs.declared.object.ObjKind.{ObjKind};
ghost use Rattle.fp_base.specs.declared.object.ObjKind.TheVariants as kinds;
ghost use Rattle.fp_host.specs.Paths.{Elements, IsAbove, file};
ghost use Rattle.fp_host.specs.Remote.{Holdings};
ghost use Rattle.fp_host.specs.View.{View};
ghost use Rattle.fp_name.specs.Hex.{is_digest};
ghost use Rattle.fp_name.specs.Refs.{Ref};
ghost use Rattle.fp_small.specs.Files.{KeepsFiles};
ghost use Rattle.fp_small.specs.Places.{repo};
ghost use Rattle.fp_small.specs.declared.op.Op.{Op};
ghost use Rattle.fp_small.specs.declared.op.Op.TheVariants as ops;
ghost use Rattle.fp_small.specs.declared.refusal.Refusal.{Refusal};
ghost use Rattle.fp_small.specs.declared.refusal.Refusal.TheVariants as refusals;
ghost use Rattle.fp_small.specs.declared.state.OverrideRow.{OverrideRow};
ghost use Rattle.fp_small.specs.declared.state.Previous.{Previous};
ghost use Rattle.fp_small.specs.declared.state.RefRow.{RefRow};
ghost use Rattle.fp_small.specs.declared.state.RemoteRow.{RemoteRow};
ghost use Rattle.ost_model.specs.Order.{In, order};
ghost use Rattle.ost_model.specs.Stores.{objects_folder};
ghost use Rattle.ost_store.specs.Created.{Creates};
ghost use Rattle.ost_walk.specs.Steps.{place_name};
ghost use Rattle.ost_refs.specs.Offers.{offered};
ghost use Rattle.dep_states.specs.After.{Done, plain, row_at};
ghost use Rattle.dep_states.specs.Deployed.{platform, commit, commit_text, deployed_state};
ghost use Rattle.dep_states.specs.Shown.{at_name, override_key};
ghost use Rattle.op_change.specs.Applied.{op_refusal};
ghost use Rattle.fl_extension.specs.Found.{has_ref};
ghost use Rattle.fl_installed.specs.Users.{first_user, installed_metas, installed_points};
ghost use Rattle.fl_plan.specs.Plans.{plan_of};
ghost use Rattle.fl_plan.specs.Targets.{targets_of};
ghost use Rattle.fl_plan.specs.Unused.{unused_of};
ghost use Rattle.fl_lines.specs.Lines.{op_text, skipped_text};
ghost use Rattle.fl_words.specs.declared.command.Change.TheVariants as changes;
ghost use Rattle.fl_change.specs.World.{World, supplied, world_after};
ghost use Rattle.fl_change.specs.Answer.{done_answer, nothing, op_answer, refusal_answer};
ghost use Rattle.fl_change.specs.Created.{LacksFor, CreatesInTurn};
ghost use Rattle.fl_change.specs.Refs.{ops_over, skipped, target_over};
ghost use Rattle.fl_change.specs.Sample as sample;
ghost use Rattle.fl_change.specs.Turns.{change_over};
ghost use Rattle.fl_change.specs.Premises.{Does, GoesBackTo, IsDeployedFrom, IsOfNoOffer, MayInstall, NamesRuntime, after_piece, done_piece, drops_over, remote_named, targets_over};

/// States how operations are done one after another. Each prints its line, and the next is done in
/// the world that it leaves. The first whose commit is refused ends them, and nothing is printed
/// for those after it.
pub fn operations_go_in_turn()
    ensures none { (held : Holdings) (x : World) → ops_over [] held x ≡ nothing }
    ensures done { (held : Holdings) (x : World) (op : Op) (more : List Op) (d : Done)
        → Does held x op d → ops_over (op ∷ more) held x
        ≡ after_piece (done_piece d) (ops_over more held (world_after held x d)) }
    ensures refused { (held : Holdings) (x : World) (op : Op) (more : List Op)
        (refusal : Refusal) → op_refusal (supplied held x op) op ≡ Some refusal
        → ops_over (op ∷ more) held x ≡ refusal_answer refusal }
{}

/// States the refusals of an install in their order: the remote doesn't exist, the ref is deployed,
/// or the plan is refused. Otherwise the operations of the plan are done.
pub fn installs_answer()
    ensures no_remote { (held : Holdings) (x : World) (remote : List ℕ) (name : Ref)
        → remote_named x remote ≡ None
        → change_over (changes.Install remote name) held x
        ≡ refusal_answer (refusals.NoSuchRemote remote) }
    ensures installed { (held : Holdings) (x : World) (remote : List ℕ) (name : Ref)
        (from : RemoteRow) (row : RefRow) → remote_named x remote ≡ Some from
        → row_at x.state name ≡ Some row
        → change_over (changes.Install remote name) held x
        ≡ refusal_answer (refusals.AlreadyInstalled name) }
    ensures refused { (held : Holdings) (x : World) (remote : List ℕ) (name : Ref)
        (from : RemoteRow) (refusal : Refusal) → MayInstall x remote name from
        → plan_of held x.have x.state from name ≡ Err refusal
        → change_over (changes.Install remote name) held x ≡ refusal_answer refusal }
    ensures planned { (held : Holdings) (x : World) (remote : List ℕ) (name : Ref)
        (from : RemoteRow) (plan : List Op) → MayInstall x remote name from
        → plan_of held x.have x.state from name ≡ Ok plan
        → change_over (changes.Install remote name) held x ≡ ops_over plan held x }
{}

/// States the refusals of an update of one ref in their order: the ref isn't deployed, the remote
/// that it comes from doesn't exist, or the plan is refused, for example because the remote doesn't
/// offer the ref. Otherwise the operations of the plan are done. If there are none, nothing is
/// printed.
pub fn updates_answer()
    ensures not_installed { (held : Holdings) (x : World) (name : Ref)
        → row_at x.state name ≡ None
        → change_over (changes.UpdateOne name) held x
        ≡ refusal_answer (refusals.NotInstalled name) }
    ensures no_remote { (held : Holdings) (x : World) (name : Ref) (row : RefRow)
        → row_at x.state name ≡ Some row → remote_named x row.origin ≡ None
        → change_over (changes.UpdateOne name) held x
        ≡ refusal_answer (refusals.NoSuchRemote row.origin) }
    ensures refused { (held : Holdings) (x : World) (name : Ref) (from : RemoteRow)
        (refusal : Refusal) → IsDeployedFrom x name from
        → plan_of held x.have x.state from name ≡ Err refusal
        → change_over (changes.UpdateOne name) held x ≡ refusal_answer refusal }
    ensures planned { (held : Holdings) (x : World) (name : Ref) (from : RemoteRow)
        (plan : List Op) → IsDeployedFrom x name from
        → plan_of held x.have x.state from name ≡ Ok plan
        → change_over (changes.UpdateOne name) held x ≡ ops_over plan held x }
    ensures up_to_date { (held : Holdings) (x : World) (name : Ref) (from : RemoteRow)
        → IsDeployedFrom x name from → plan_of held x.have x.state from name ≡ Ok []
        → change_over (changes.UpdateOne name) held x ≡ nothing }
{}

/// States what an update of all does for one ref. The ref is skipped if its remote is gone or
/// doesn't offer it. Any other refusal is final, as that of a remote with the wrong mode.
pub fn targets_answer()
    ensures remote_gone { (held : Holdings) (x : World) (name : Ref) (row : RefRow)
        → row_at x.state name ≡ Some row → remote_named x row.origin ≡ None
        → target_over name held x ≡ skipped name }
    ensures not_offered { (held : Holdings) (x : World) (name : Ref) (from : RemoteRow)
        (remote : List ℕ) (missed : Ref) → IsDeployedFrom x name from
        → offered held from name ≡ Err (refusals.NoSuchRef remote missed)
        → target_over name held x ≡ skipped name }
    ensures wrong_mode { (held : Holdings) (x : World) (name : Ref) (from : RemoteRow)
        (remote mode : List ℕ) → IsDeployedFrom x name from
        → offered held from name ≡ Err (refusals.WrongMode remote mode)
        → target_over name held x ≡ refusal_answer (refusals.WrongMode remote mode) }
    ensures refused { (held : Holdings) (x : World) (name : Ref) (from : RemoteRow)
        (refusal : Refusal) → IsDeployedFrom x name from
        → plan_of held x.have x.state from name ≡ Err refusal → (IsOfNoOffer refusal → ⊥)
        → target_over name held x ≡ refusal_answer refusal }
    ensures planned { (held : Holdings) (x : World) (name : Ref) (from : RemoteRow)
        (plan : List Op) → IsDeployedFrom x name from
        → plan_of held x.have x.state from name ≡ Ok plan
        → target_over name held x ≡ ops_over plan held x }
{}

/// States how an update of all goes on. It updates the refs that are deployed at its start. After a
/// ref that is skipped or has no update, the next one is updated in the same world; after one that
/// is updated, in the world that this leaves. A ref that is refused ends the update.
pub fn updates_of_all_go_on()
    ensures begins { (held : Holdings) (x : World)
        → change_over changes.UpdateAll held x ≡ targets_over (targets_of x.state None) held x }
    ensures none { (held : Holdings) (x : World) → targets_over [] held x ≡ nothing }
    ensures skips { (held : Holdings) (x : World) (name : Ref) (more : List Ref)
        → target_over name held x ≡ skipped name → targets_over (name ∷ more) held x
        ≡ after_piece (record { text = skipped_text name; op = None }) (targets_over more held x) }
    ensures stays { (held : Holdings) (x : World) (name : Ref) (more : List Ref)
        → target_over name held x ≡ nothing
        → targets_over (name ∷ more) held x ≡ targets_over more held x }
    ensures brings { (held : Holdings) (x : World) (name : Ref) (more : List Ref) (op : Op)
        (d : Done) → target_over name held x ≡ ops_over (op ∷ []) held x
        → Does held x op d → targets_over (name ∷ more) held x
        ≡ after_piece (done_piece d) (targets_over more held (world_after held x d)) }
    ensures refused { (held : Holdings) (x : World) (name : Ref) (more : List Ref)
        (refusal : Refusal) → target_over name held x ≡ refusal_answer refusal
        → targets_over (name ∷ more) held x ≡ refusal_answer refusal }
{}

/// States that a ref is uninstalled if it is deployed and no deployed application names it as its
/// runtime. The refusal names the first application that does.
pub fn uninstalls_answer()
    ensures not_installed { (held : Holdings) (x : World) (name : Ref)
        → row_at x.state name ≡ None
        → change_over (changes.Uninstall name) held x
        ≡ refusal_answer (refusals.NotInstalled name) }
    ensures in_use { (held : Holdings) (x : World) (name app : Ref) (row : RefRow)
        → row_at x.state name ≡ Some row → first_user x.have name x.state.refs ≡ Some app
        → change_over (changes.Uninstall name) held x
        ≡ refusal_answer (refusals.RuntimeInUse name app) }
    ensures done { (held : Holdings) (x : World) (name : Ref) (row : RefRow)
        → row_at x.state name ≡ Some row → first_user x.have name x.state.refs ≡ None
        → change_over (changes.Uninstall name) held x ≡ op_answer (ops.Uninstall name) }
{}

/// States that the runtimes that nothing needs at the start are uninstalled one after another, and
/// are not checked again in between. If there are none, nothing is printed.
pub fn unused_runtimes_go()
    ensures begins { (held : Holdings) (x : World)
        → change_over changes.UninstallUnused held x
        ≡ drops_over (unused_of x.state (installed_metas x.have x.state.refs)
        (installed_points x.have x.state.refs)) held x }
    ensures none { (held : Holdings) (x : World) → drops_over [] held x ≡ nothing }
    ensures taken { (held : Holdings) (x : World) (name : Ref) (more : List Ref) (row : RefRow)
        → row_at x.state name ≡ Some row → drops_over (name ∷ more) held x
        ≡ after_piece (done_piece (plain (ops.Uninstall name)))
        (drops_over more held (world_after held x (plain (ops.Uninstall name)))) }
{}

/// States the refusals of a rollback in their order: the ref isn't deployed, it has no previous
/// commit, the metadata of that commit is refused, or the runtime that this metadata names isn't
/// deployed.
pub fn rollbacks_answer()
    ensures not_installed { (held : Holdings) (x : World) (name : Ref)
        → row_at x.state name ≡ None
        → change_over (changes.Rollback name) held x
        ≡ refusal_answer (refusals.NotInstalled name) }
    ensures no_previous { (held : Holdings) (x : World) (name : Ref) (row : RefRow)
        → row_at x.state name ≡ Some row → row.previous ≡ None
        → change_over (changes.Rollback name) held x
        ≡ refusal_answer (refusals.NoPrevious name) }
    ensures bad_metadata { (held : Holdings) (x : World) (name : Ref) (previous : Previous)
        (refusal : Refusal) → GoesBackTo x name previous (Err refusal)
        → change_over (changes.Rollback name) held x ≡ refusal_answer refusal }
    ensures runtime_missing { (held : Holdings) (x : World) (name : Ref) (previous : Previous)
        (runtime : Ref) → NamesRuntime x name previous (Some runtime)
        → has_ref x.state runtime ≡ false
        → change_over (changes.Rollback name) held x
        ≡ refusal_answer (refusals.RuntimeMissing runtime) }
    ensures runtime_there { (held : Holdings) (x : World) (name : Ref) (previous : Previous)
        (runtime : Ref) → NamesRuntime x name previous (Some runtime)
        → has_ref x.state runtime ≡ true
        → change_over (changes.Rollback name) held x
        ≡ op_answer (ops.Rollback name previous.commit) }
    ensures no_runtime { (held : Holdings) (x : World) (name : Ref) (previous : Previous)
        → NamesRuntime x name previous None
        → change_over (changes.Rollback name) held x
        ≡ op_answer (ops.Rollback name previous.commit) }
{}

/// States that a reset removes the override if there is one; otherwise it does and prints nothing.
pub fn resets_answer()
    ensures none { (held : Holdings) (x : World) (name : List ℕ)
        → at_name override_key x.state.overrides name ≡ None
        → change_over (changes.OverrideReset name) held x ≡ nothing }
    ensures done { (held : Holdings) (x : World) (name : List ℕ) (row : OverrideRow)
        → at_name override_key x.state.overrides name ≡ Some row
        → change_over (changes.OverrideReset name) held x ≡ op_answer (ops.DropOverride name) }
{}

/// States what is done with a sample runtime that a remote offers with all its objects. Its install
/// prints its line and deploys it. After that, the same install is refused, an update of all does
/// and prints nothing, a rollback is refused since there is no previous commit, and an uninstall
/// leads back to the first state.
pub fn sample_runtime_is_installed()
    ensures done { change_over (changes.Install (codes "hub") platform) sample.holdings sample.fresh
        ≡ done_answer sample.install }
    ensures text { op_text sample.install.op
        ≡ codes "installed runtime/org.x.Platform/x86_64/1 " ++ (commit_text ++ 10 ∷ []) }
    ensures state { sample.installed.state ≡ deployed_state }
    ensures again { change_over (changes.Install (codes "hub") platform)
        sample.holdings sample.installed
        ≡ refusal_answer (refusals.AlreadyInstalled platform) }
    ensures uninstalled { change_over (changes.Uninstall platform) sample.holdings sample.installed
        ≡ op_answer (ops.Uninstall platform) }
    ensures gone { sample.uninstalled.state ≡ sample.fresh.state }
    ensures not_rolled_back { change_over (changes.Rollback platform)
        sample.holdings sample.installed ≡ refusal_answer (refusals.NoPrevious platform) }
    ensures idle { change_over changes.UpdateAll sample.holdings sample.installed ≡ nothing }
{}

/// States that a sample runtime is updated from its remote, both by an update of the ref and by an
/// update of all, and that its old commit becomes the previous one. If the remote offers an older
/// commit, both are refused.
pub fn sample_runtime_is_updated()
    ensures done { change_over (changes.UpdateOne platform) sample.holdings (sample.world_since 7)
        ≡ done_answer sample.update }
    ensures done_of_all { change_over changes.UpdateAll sample.holdings (sample.world_since 7)
        ≡ done_answer sample.update }
    ensures text { op_text sample.update.op
        ≡ codes "updated runtime/org.x.Platform/x86_64/1 " ++ (commit_text ++ 10 ∷ []) }
    ensures state { sample.updated.state ≡ sample.updated_state }
    ensures older { change_over (changes.UpdateOne platform) sample.holdings (sample.world_since 8)
        ≡ refusal_answer (refusals.Older platform 8 7) }
    ensures older_of_all { change_over changes.UpdateAll sample.holdings (sample.world_since 8)
        ≡ refusal_answer (refusals.Older platform 8 7) }
{}

/// States that an install lacks exactly the objects of its commit that the world doesn't have, and
/// an uninstall none. The install of the sample runtime lacks its commit object, unless the runtime
/// is installed already.
pub fn operations_lack_what_is_not_there()
    ensures lacked { (held : Holdings) (x : World) (name : Ref) (origin commit : List ℕ)
        (o : List ℕ × ObjKind) → is_digest o.0 ≡ true
        → In (map place_name (order (supplied held x (ops.Install name origin commit)) commit)) o
        → x.have o.0 o.1 ≡ None → LacksFor held x (ops.Install name origin commit) o }
    ensures other { (held : Holdings) (x : World) (name : Ref) (origin commit : List ℕ)
        (o : List ℕ × ObjKind)
        → (In (map place_name (order (supplied held x (ops.Install name origin commit)) commit)) o
        → ⊥) → LacksFor held x (ops.Install name origin commit) o → ⊥ }
    ensures had { (held : Holdings) (x : World) (op : Op) (o : List ℕ × ObjKind)
        → (x.have o.0 o.1 ≡ None → ⊥) → LacksFor held x op o → ⊥ }
    ensures plainly { (held : Holdings) (x : World) (name : Ref) (o : List ℕ × ObjKind)
        → LacksFor held x (ops.Uninstall name) o → ⊥ }
    ensures sample { LacksFor sample.holdings sample.fresh sample.install.op
        (commit, kinds.Commit) }
    ensures again { LacksFor sample.holdings sample.installed sample.install.op
        (commit, kinds.Commit)
        → ⊥ }
{}

/// States that operations make objects one after another, each exactly those that it lacks in the
/// world that the previous ones leave. If there is no operation, no file is put below the store's
/// `objects`.
pub fn operations_create_what_is_lacked()
    ensures none { (held : Holdings) (x : World) (v : View) → CreatesInTurn held x [] v v }
    ensures alone { (held : Holdings) (x : World) (d : Done) (u w : View) → KeepsFiles u w
        → Creates repo (LacksFor held x d.op) u w → CreatesInTurn held x (d ∷ []) u w }
    ensures nothing_else { (held : Holdings) (x : World) (u w : View) (q : Elements) (id : ℕ)
        → CreatesInTurn held x [] u w → IsAbove (objects_folder repo) q
        → (Contains u.stood (q, file id) → ⊥) → Contains w.stood (q, file id) → ⊥ }
    ensures in_order { (held : Holdings) (x : World) (d : Done) (more : List Done) (u w : View)
        → CreatesInTurn held x (d ∷ more) u w
        → (v : View) × KeepsFiles u v × KeepsFiles v w × Creates repo (LacksFor held x d.op) u v
        × CreatesInTurn held (world_after held x d) more v w }
{}
