//! Laws of the sample installation: it is sound and settled, and can be opened. Each law is the
//! contract of a function with an empty body.
ghost use Rattle.std.specs.Prelude.{◌≡◌, ◌∷◌};
ghost use Rattle.fp_host.specs.Paths.{Elements};
ghost use Rattle.fp_host.specs.View.{View, IsTree};
ghost use Rattle.fp_host.specs.Outcome.{IsSettled, shows};
ghost use Rattle.fp_small.specs.declared.op.Op.TheVariants.{Migrate};
ghost use Rattle.dep_states.specs.After.{May, IsGood, after_op};
ghost use Rattle.dep_states.specs.Shown.{Shows};
ghost use Rattle.dep_states.specs.Sound.{Sound, Opens, IsSound};
ghost use Rattle.dep_states.specs.Settled.{Settled};
ghost use Rattle.fl_samples.specs.Image.{whole_disk, whole_state};
ghost use Rattle.fl_samples.specs.Operations.{back, onward, away, back_row, onward_row, runtime_rows, with_rows, old_disk, old_view, old_state};
ghost use Rattle.fl_samples.specs.Views.{whole_view};

/// States that the image shows its state, is sound, and is settled. It has an application with a
/// previous commit, its runtime, its extension, an override and a pin.
pub fn a_whole_image_is_sound()
    ensures shown { Shows whole_disk whole_state }
    ensures sound { Sound whole_disk }
    ensures settled { Settled whole_disk }
{}

/// States that a host can have the view `whole_view` with exactly the sample image, and that every
/// crash leaves a sound image of its state. The same holds of each other settled view that shows
/// the image.
pub fn a_whole_view_opens()
    ensures tree { IsTree whole_view }
    ensures settled { IsSettled whole_view }
    ensures shown { (p : Elements) → shows whole_view p ≡ whole_disk p }
    ensures opens { Opens whole_state whole_view }
    ensures sound { IsSound whole_view }
    ensures each { (v : View) → IsTree v → IsSettled v
        → ((p : Elements) → shows v p ≡ whole_disk p) → Opens whole_state v }
{}

/// States that operations can be done on the sample installation, and the state after each: the
/// application goes back to its previous commit, is updated to the commit that its remote offers,
/// or is uninstalled. `May` and `IsGood` are all that an operation needs.
pub fn operations_may_be_done()
    ensures good { IsGood whole_state }
    ensures back { May whole_state back }
    ensures onward { May whole_state onward }
    ensures away { May whole_state away }
    ensures after_back { after_op whole_state 0 back ≡ with_rows (back_row ∷ runtime_rows) }
    ensures after_onward { after_op whole_state 3 onward ≡ with_rows (onward_row ∷ runtime_rows) }
    ensures after_away { after_op whole_state 0 away ≡ with_rows runtime_rows }
{}

/// States that the sample installation in layout 1 is sound, can be opened and migrated, and has
/// the state of layout 2 then.
pub fn an_old_installation_may_migrate()
    ensures shown { Shows old_disk old_state }
    ensures sound { Sound old_disk }
    ensures tree { IsTree old_view }
    ensures settled { IsSettled old_view }
    ensures opens { Opens old_state old_view }
    ensures good { IsGood old_state }
    ensures may { May old_state Migrate }
    ensures after { after_op old_state 0 Migrate ≡ whole_state }
{}
