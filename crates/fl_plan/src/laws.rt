//! Laws of the definitions in the contracts, for crates that build on them, and worked plans. Each
//! law is the contract of a function with an empty body.

ghost use Rattle.std.specs.Prelude.{◌≡◌, ◌<◌, ◌+◌, ℕ, List, [], ◌∷◌, map, true, false, codes, Option, Some, None, Ok, Err};
ghost use Rattle.fp_base.specs.declared.what.What.TheVariants as whats;
ghost use Rattle.fp_host.specs.Reads.{is_ascending};
ghost use Rattle.fp_host.specs.Remote.{Holdings};
ghost use Rattle.fp_name.specs.Refs.{Ref};
ghost use Rattle.fp_small.specs.Config.{name_of};
ghost use Rattle.fp_small.specs.declared.limits.TheConstants.{MOST_REFS};
ghost use Rattle.fp_small.specs.declared.op.Op.{Op};
ghost use Rattle.fp_small.specs.declared.op.Op.TheVariants.{Install, Update};
ghost use Rattle.fp_small.specs.declared.refusal.Refusal.{Refusal};
ghost use Rattle.fp_small.specs.declared.refusal.Refusal.TheVariants as refusals;
ghost use Rattle.fp_small.specs.declared.state.State.{State};
ghost use Rattle.fp_small.specs.declared.state.RemoteRow.{RemoteRow};
ghost use Rattle.dep_states.specs.Deployed.{platform, commit, deployed_state};
ghost use Rattle.dep_states.specs.Samples.{hub};
ghost use Rattle.dep_states.specs.Shown.{at_name};
ghost use Rattle.fl_extension.specs.declared.point.Point.{Point};
ghost use Rattle.fl_extension.specs.Found.{has_ref, row_of};
ghost use Rattle.ost_model.specs.Objects.{Have};
ghost use Rattle.ost_refs.specs.Offers.{offered};
ghost use Rattle.fl_plan.specs.Extensions.{is_done};
ghost use Rattle.fl_plan.specs.Offered as shop;
ghost use Rattle.fl_plan.specs.Offers.{first_of, first_offer, in_turn, offer_of, offer_with};
ghost use Rattle.fl_plan.specs.Plans.{is_at, number_after, op_of, plan_of, time_of};
ghost use Rattle.fl_plan.specs.Sample as sample;
ghost use Rattle.fl_plan.specs.Taking.{Settles};
ghost use Rattle.fl_plan.specs.Targets.{targets_of};
ghost use Rattle.fl_plan.specs.Unused.{unused_of};
ghost use Rattle.fl_plan.specs.Worked.{Basis, ComeTogether, ExtensionRefused, Fills, HasItsRuntime, IsTargetWith, PlanIs, RuntimeRefused, extension_offer, head_at, plan_for, runtime_offer};
ghost use Rattle.fl_plan.specs.declared.offer.Offer.{Offer};

/// States what a plan is refused for: if the target's remote refuses it or the target's head is
/// refused, `Older` included, the plan is refused with the same refusal. A plan is refused with
/// `NoSuchRef` only if the target's remote refuses the target with it, never for a runtime or an
/// extension.
pub fn plans_refuse()
    ensures own { (held : Holdings) (stored : Have) (state : State) (remote : RemoteRow)
        (name : Ref) (refusal : Refusal) → offered held remote name ≡ Err refusal
        → plan_of held stored state remote name ≡ Err refusal }
    ensures head { (b : Basis) (target : Offer) (refusal : Refusal)
        → offered b.held target.remote target.name ≡ Ok target.commit
        → is_at target.commit (row_of b.state target.name) ≡ false
        → head_at b target (time_of (row_of b.state target.name)) ≡ Err refusal
        → plan_for b target ≡ Err refusal }
    ensures absent { (held : Holdings) (stored : Have) (state : State) (remote : RemoteRow)
        (name : Ref) (other : List ℕ) (missed : Ref)
        → plan_of held stored state remote name ≡ Err (refusals.NoSuchRef other missed)
        → offered held remote name ≡ Err (refusals.NoSuchRef other missed) }
{}

/// States that an update whose offered commit is deployed has no operations.
pub fn up_to_date()
    ensures { (b : Basis) (target : Offer)
        → offered b.held target.remote target.name ≡ Ok target.commit
        → is_at target.commit (row_of b.state target.name) ≡ true
        → plan_for b target ≡ Ok [] }
{}

/// States that a runtime without extensions is one operation.
pub fn runtimes_come_alone()
    ensures { (b : Basis) (target : Offer) → IsTargetWith b target None []
        → PlanIs b target (target ∷ []) }
{}

/// States that an application without extensions whose runtime is installed is one operation, if
/// the limit of refs isn't exceeded.
pub fn runtime_is_installed()
    ensures planned { (b : Basis) (target : Offer) → HasItsRuntime b target []
        → PlanIs b target (target ∷ []) }
    ensures limited { (b : Basis) (target : Offer) → HasItsRuntime b target []
        → MOST_REFS < number_after b.state (target ∷ [])
        → plan_for b target ≡ Err (refusals.Limit whats.Refs (MOST_REFS + 1)) }
{}

/// States the plan of an application whose runtime isn't installed. The runtime comes first, from
/// the first remote that offers it; the application's own remote is asked first. If no remote
/// offers it, the plan is refused with `RuntimeMissing`. If the head of the first offer is refused,
/// so is the plan: no other remote is tried.
pub fn runtime_comes_along()
    ensures planned { (b : Basis) (target runtime : Offer)
        → ComeTogether b runtime [] target [] → PlanIs b target (runtime ∷ target ∷ []) }
    ensures missing { (b : Basis) (target : Offer) (runtime : Ref) (points : List Point)
        → IsTargetWith b target (Some runtime) points → has_ref b.state runtime ≡ false
        → runtime_offer b target runtime ≡ None
        → plan_for b target ≡ Err (refusals.RuntimeMissing runtime) }
    ensures refused { (b : Basis) (target : Offer) (runtime : Ref) (points : List Point)
        (refusal : Refusal) → IsTargetWith b target (Some runtime) points
        → RuntimeRefused b target runtime refusal → plan_for b target ≡ Err refusal }
    ensures own_first { (other own : RemoteRow) → (other.name ≡ own.name → ⊥)
        → in_turn own.name (other ∷ own ∷ []) ≡ own ∷ other ∷ [] }
    ensures second { (held : Holdings) (first second : RemoteRow) (runtime : Ref)
        (refusal : Refusal) (d : List ℕ)
        → offered held first runtime ≡ Err refusal → offered held second runtime ≡ Ok d
        → first_offer held (first ∷ second ∷ []) runtime ≡ Some (offer_with second runtime d) }
{}

/// States the plan of an application with an automatic extension: the extension comes after it, if
/// its remote offers one. Nothing comes for a point that is filled or isn't automatic, and nothing
/// if no candidate is offered. If the head of the first candidate that is offered is refused, so is
/// the plan: no later candidate is tried. This holds for an extension of a runtime that is
/// installed along, too.
pub fn extension_comes_along()
    ensures planned { (b : Basis) (target extension : Offer) (point : Point)
        → HasItsRuntime b target (point ∷ []) → Fills b (target ∷ []) target point extension
        → PlanIs b target (target ∷ extension ∷ []) }
    ensures filled { (b : Basis) (target : Offer) (point : Point)
        → HasItsRuntime b target (point ∷ []) → is_done b.state (target ∷ []) point ≡ true
        → PlanIs b target (target ∷ []) }
    ensures not_offered { (b : Basis) (target : Offer) (point : Point)
        → HasItsRuntime b target (point ∷ []) → is_done b.state (target ∷ []) point ≡ false
        → extension_offer b target point ≡ None → PlanIs b target (target ∷ []) }
    ensures refused { (b : Basis) (target : Offer) (point : Point) (points : List Point)
        (refusal : Refusal) → HasItsRuntime b target (point ∷ points)
        → ExtensionRefused b (target ∷ []) target point refusal
        → plan_for b target ≡ Err refusal }
    ensures of_runtime_refused { (b : Basis) (target runtime : Offer) (mine points : List Point)
        (point : Point) (refusal : Refusal)
        → ComeTogether b runtime (point ∷ points) target mine
        → ExtensionRefused b (runtime ∷ target ∷ []) runtime point refusal
        → plan_for b target ≡ Err refusal }
{}

/// States that of a point's candidates, the first that the remote offers is chosen.
pub fn candidates_in_order()
    ensures first { (held : Holdings) (remote : RemoteRow) (candidate : Ref) (more : List Ref)
        (d : List ℕ) → offered held remote candidate ≡ Ok d
        → first_of (offer_of held remote) (candidate ∷ more)
        ≡ Some (offer_with remote candidate d) }
    ensures next { (held : Holdings) (remote : RemoteRow) (candidate : Ref) (more : List Ref)
        (refusal : Refusal) → offered held remote candidate ≡ Err refusal
        → first_of (offer_of held remote) (candidate ∷ more)
        ≡ first_of (offer_of held remote) more }
{}

/// States the plan of an application and a runtime that is installed along, each with one
/// extension: the runtime, the application, the runtime's extension from the runtime's remote, and
/// the application's extension from its own remote.
pub fn extensions_come_last()
    ensures { (b : Basis) (target runtime first second : Offer) (p q : Point)
        → ComeTogether b runtime (p ∷ []) target (q ∷ [])
        → Fills b (runtime ∷ target ∷ []) runtime p first
        → Fills b (runtime ∷ target ∷ first ∷ []) target q second
        → PlanIs b target (runtime ∷ target ∷ first ∷ second ∷ []) }
{}

/// States for the small installation the order of an update, and which runtimes are unused, by the
/// ref whose point finds the extension. The points of an unused runtime keep nothing.
pub fn small_installation()
    ensures targets { targets_of sample.installation None
        ≡ sample.locale ∷ sample.unneeded ∷ sample.pinned ∷ sample.platform ∷ sample.app ∷ [] }
    ensures of_application { unused_of sample.installation sample.metas (sample.points sample.app)
        ≡ sample.unneeded ∷ [] }
    ensures of_named { unused_of sample.installation sample.metas (sample.points sample.platform)
        ≡ sample.unneeded ∷ [] }
    ensures of_pinned { unused_of sample.installation sample.metas (sample.points sample.pinned)
        ≡ sample.unneeded ∷ [] }
    ensures of_unused { unused_of sample.installation sample.metas (sample.points sample.unneeded)
        ≡ sample.locale ∷ sample.unneeded ∷ [] }
    ensures no_points { unused_of sample.installation sample.metas []
        ≡ sample.locale ∷ sample.unneeded ∷ [] }
{}

/// States for the small installation which points are done, which operations offers become, and the
/// number of refs after two of them.
pub fn small_plans()
    ensures filled { is_done sample.installation []
        (sample.point (sample.missing ∷ sample.locale ∷ [])) ≡ true }
    ensures open_point { is_done sample.installation [] (sample.point (sample.missing ∷ []))
        ≡ false }
    ensures coming { is_done sample.installation (offer_with sample.lab sample.missing [] ∷ [])
        (sample.point (sample.missing ∷ [])) ≡ true }
    ensures manual { is_done sample.installation []
        (record (sample.point (sample.missing ∷ [])) { auto = false }) ≡ true }
    ensures update { op_of sample.installation (offer_with sample.lab sample.app [])
        ≡ Update sample.app (codes "lab") [] }
    ensures install { op_of sample.installation (offer_with sample.lab sample.missing [])
        ≡ Install sample.missing (codes "lab") [] }
    ensures number { number_after sample.installation (offer_with sample.lab sample.app []
        ∷ offer_with sample.lab sample.missing [] ∷ []) ≡ 6 }
{}

/// States plans over a store that has a commit under its true digest, and a remote that offers it:
/// an install, an update, a refused update to an older commit, and an update with nothing to do. So
/// the conditions of the other laws can be met.
pub fn plans_can_be_made()
    ensures installs { plan_of shop.holdings shop.stored (shop.with_rows []) hub platform
        ≡ Ok (Install platform (codes "hub") commit ∷ []) }
    ensures updates { plan_of shop.holdings shop.stored (shop.with_rows (shop.row_since 7 ∷ []))
        hub platform ≡ Ok (Update platform (codes "hub") commit ∷ []) }
    ensures older { plan_of shop.holdings shop.stored (shop.with_rows (shop.row_since 8 ∷ []))
        hub platform ≡ Err (refusals.Older platform 8 7) }
    ensures stays { plan_of shop.holdings shop.stored deployed_state hub platform ≡ Ok [] }
{}

/// States the result of a plan for a ref: either the offered commit is deployed and there are no
/// operations, or each operation brings a commit that a remote of the state offers, and one of them
/// is for the ref.
pub fn plans_settle()
    ensures { (b : Basis) (remote : RemoteRow) (name : Ref) (ops : List Op)
        → is_ascending (map name_of b.state.remotes) ≡ true
        → at_name name_of b.state.remotes remote.name ≡ Some remote
        → plan_of b.held b.stored b.state remote name ≡ Ok ops
        → Settles b.held b.state remote name ops }
{}
