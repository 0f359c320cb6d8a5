//! Laws of updates of the sample installation: one has an operation.
ghost use Rattle.std.specs.Prelude.{◌≡◌, ◌∷◌, [], Ok};
ghost use Rattle.fp_small.specs.Places.{repo};
ghost use Rattle.ost_model.specs.Objects.{store};
ghost use Rattle.fl_plan.specs.Plans.{plan_of};
ghost use Rattle.fl_samples.specs.Image.{app, locale, platform, hub, whole_disk, whole_state};
ghost use Rattle.fl_samples.specs.Operations.{onward};
ghost use Rattle.fl_samples.specs.Remote.{holdings};

/// States that an update of the application is exactly one operation, and updates of the runtime
/// and the extension have none, if the remote offers another commit of the application, and the
/// deployed ones of the runtime and the extension.
pub fn an_update_is_planned()
    ensures app { plan_of holdings (store repo whole_disk) whole_state hub app ≡ Ok (onward ∷ []) }
    ensures extension { plan_of holdings (store repo whole_disk) whole_state hub locale ≡ Ok [] }
    ensures runtime { plan_of holdings (store repo whole_disk) whole_state hub platform ≡ Ok [] }
{}
