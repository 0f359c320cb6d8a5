//! Laws of undisturbed commands' conditions: there are installations that meet them.
ghost use Rattle.std.specs.Prelude.{◌≡◌, ℕ, List, Option, Some, None};
ghost use Rattle.fp_host.specs.Moments.{Moments};
ghost use Rattle.fp_host.specs.Remote.{Holdings};
ghost use Rattle.fp_host.specs.View.{View, IsTree};
ghost use Rattle.dep_states.specs.Sound.{IsSound};
ghost use Rattle.fl_words.specs.Forms.{command_of};
ghost use Rattle.fl_top.specs.Exports.{HasExports, IsAtRest, IsInStep};
ghost use Rattle.fl_top.specs.Whole.{IsFit, StartsFit};
ghost use Rattle.fl_samples.specs.Image.{whole_disk};
ghost use Rattle.fl_samples.specs.Views.{whole_view};

use fl_make::laws::sound_installations_take_remotes;

/// States that an installation that is sound after every crash is fit for each command: no path in
/// its store is too long for `fsck`, and nothing is in the way of a remote that `export` makes. A
/// host that doesn't report its content is fit, too.
pub fn sound_installations_are_fit()
    ensures fit { (words : List (List ℕ)) (v : View) → IsTree v → IsSound v
        → IsFit (command_of words) v }
    ensures starts { (words : List (List ℕ)) (m : Moments) → IsTree m.now → IsSound m.now
        → StartsFit (command_of words) (Some m) }
    ensures untold { (words : List (List ℕ)) → StartsFit (command_of words) None }
{
    sound_installations_take_remotes();
}

/// States that the sample installation is at rest: it is settled, and after every crash its exports
/// are those of its application.
pub fn all_is_at_rest()
    ensures exports { HasExports whole_disk }
    ensures rests { IsAtRest whole_view }
    ensures in_step { (holds : Option Holdings) (u : View) → IsInStep ⊥ holds u whole_view }
{}
