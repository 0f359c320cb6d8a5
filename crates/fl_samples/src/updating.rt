//! Laws of the result of an update of the sample installation.
ghost use Rattle.std.specs.Prelude.{◌≡◌, Ok};
ghost use Rattle.fl_change.specs.Answer.{done_answer};
ghost use Rattle.fl_samples.specs.Image.{whole_disk};
ghost use Rattle.fl_samples.specs.Remote.{holdings};
ghost use Rattle.fl_samples.specs.Update.{update_words, whole_world, moved_on};
ghost use Rattle.fl_top.specs.Answer.{answer, Given, IsOver};

/// States that an update moves the application to the offered commit and isn't refused, if the
/// remote offers another commit. This is the answer over what the image shows (`IsOver`).
pub fn an_update_has_an_operation()
    ensures answered { (given : Given) → given.held ≡ holdings
        → answer update_words given (Ok whole_world) ≡ done_answer moved_on }
    ensures counts { (given : Given)
        → IsOver (answer update_words given) whole_disk (Ok whole_world) }
{}
