//! Laws of changing a ref's deployed commit. Each law is the contract of a function with an empty
//! body.
ghost use Rattle.std.specs.Prelude.{◌≡◌, ◌≢◌, ℕ, List, None, true};
ghost use Rattle.fp_host.specs.Paths.{Elements};
ghost use Rattle.fp_host.specs.View.{View, IsTree};
ghost use Rattle.fp_host.specs.Outcome.{Disk, Follows, IsSettled, shows};
ghost use Rattle.fp_name.specs.Hex.{is_digest};
ghost use Rattle.fp_name.specs.Refs.{Ref, is_ref};
ghost use Rattle.fp_small.specs.declared.state.State.{State};
ghost use Rattle.fp_small.specs.declared.state.RefRow.{RefRow};
ghost use Rattle.dep_states.specs.After.{row_at};
ghost use Rattle.dep_states.specs.Deployed.{deployed_row};
ghost use Rattle.dep_states.specs.Names.{commit_dir, deploy};
ghost use Rattle.dep_states.specs.Shown.{Shows};
ghost use Rattle.dep_states.specs.Sound.{Sound, Opens, Spares};
ghost use Rattle.dep_states.specs.Switch.{IsWith, OpensEither};
ghost use Rattle.dep_switch.specs.Retiring.{RetiresAt, IsPlanOf, CanRetire};
ghost use Rattle.dep_switch.specs.Rows.{IsAt};
ghost use Rattle.dep_switch.specs.Samples.{undeployed_disk, undeployed_state};
ghost use Rattle.dep_switch.specs.Staging.{CanStage, WasStaged, LeadsTo, CanSwitch};
ghost use Rattle.dep_switch.specs.Writing.{FileAt};
ghost use Rattle.dep_switch.specs.declared.retiring.RetirePlan.{RetirePlan};
ghost use Rattle.dep_switch.specs.declared.staged.Staged.{Staged};

/// States that after the removal of an `active` each crash leaves the old state or the one without
/// the ref, and a sound installation.
pub fn a_retirement_is_old_or_new()
    ensures { (u w : View) (s t : State) (name : Ref) → is_ref name ≡ true → IsWith s name None t
        → Follows (RetiresAt name) u w → Opens s u → OpensEither s t w }
{}

/// States that the `deploy` of a commit that isn't deployed may be written, also if the commit is
/// kept as the previous one.
pub fn a_deploy_may_be_written()
    ensures { (s : State) (v : View) (name : Ref) (commit : List ℕ) → is_digest commit ≡ true
        → Opens s v → (IsAt s name commit → ⊥)
        → Spares v (FileAt (deploy (commit_dir name commit))) }
{}

/// States that a switch can be staged in the sample image that has a commit's directory, its
/// objects and a `deploy`, but no `active` of the ref.
pub fn a_switch_can_be_staged()
    ensures shown { Shows undeployed_disk undeployed_state }
    ensures sound { Sound undeployed_disk }
    ensures stages { (v : View) → IsTree v → IsSettled v
        → ((p : Elements) → shows v p ≡ undeployed_disk p)
        → CanStage undeployed_state deployed_row v }
{}

/// States that a switch can be done once it was staged.
pub fn what_is_staged_can_be_switched()
    ensures { (s : State) (row : RefRow) (staged : Staged) (u w : View) → LeadsTo s row staged
        → CanStage s row u → WasStaged s row u w → CanSwitch staged w }
{}

/// States that each plan for a ref can be done, if the state that each crash leaves has the ref.
pub fn a_deployed_ref_can_be_retired()
    ensures { (s : State) (v : View) (plan : RetirePlan) → IsPlanOf plan.name plan → Opens s v
        → row_at s plan.name ≢ None → CanRetire s plan v }
{}
