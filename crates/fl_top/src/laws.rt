//! Laws of commands. Each law is the contract of a function with an empty body.
ghost use Rattle.std.specs.Prelude.{◌≡◌, ◌∷◌, [], ℕ, List, Option, Some, None, Result};
ghost use Rattle.fp_host.specs.Paths.{Elements, absent};
ghost use Rattle.fp_host.specs.Remote.{Holdings};
ghost use Rattle.fp_host.specs.View.{View, IsTree};
ghost use Rattle.fp_host.specs.Outcome.{Disk, Leaves, IsSettled, shows};
ghost use Rattle.fp_small.specs.Files.{KeepsFiles};
ghost use Rattle.fp_small.specs.declared.state.State.{State};
ghost use Rattle.dep_states.specs.Shown.{Shows};
ghost use Rattle.dep_states.specs.Sound.{IsSound};
ghost use Rattle.fl_words.specs.Forms.{command_of};
ghost use Rattle.fl_words.specs.declared.command.Listing.TheVariants as listings;
ghost use Rattle.fl_export.specs.Placed.{ExportsAre};
ghost use Rattle.fl_export.specs.Sample as sample;
ghost use Rattle.fl_installed.specs.Deployed.{DeployedFiles};
ghost use Rattle.fl_change.specs.Answer.{text_answer};
ghost use Rattle.fl_change.specs.Changes.{IsStill};
ghost use Rattle.fl_top.specs.declared.input.TheConstants.{MOST_INPUT};
ghost use Rattle.fl_top.specs.Answer.{answer, listing_answer, Given, IsOver};
ghost use Rattle.fl_top.specs.Exports.{IsAtRest, IsInStep};
ghost use Rattle.fl_top.specs.ExportSample.{desktop_text, placed_disk, stale_disk, listed_text};
ghost use Rattle.fl_change.specs.World.{World};
ghost use Rattle.fl_top.specs.History.{Stretch, History, Reopens, IsReached};
ghost use Rattle.fl_top.specs.Told.{Told};
ghost use Rattle.fl_top.specs.Moment.{RunsWords};
ghost use Rattle.fl_top.specs.Stored.{FilesAreStored, KnownIsStored, LaunchIsStored};
ghost use Rattle.fl_top.specs.Updated.{HasNothingToDo, WasUpdated};

/// States that all answers of words that count (`IsOver`) are equal, and that one counts over each
/// sound installation, and over any image if the words are no command.
pub fn one_answer_counts()
    ensures same { (words : List (List ℕ)) (given : Given) (disk : Disk)
        (shown other : Result World Elements)
        → IsOver (answer words given) disk shown → IsOver (answer words given) disk other
        → answer words given shown ≡ answer words given other }
    ensures sound { (words : List (List ℕ)) (given : Given) (v : View) → IsSound v
        → (shown : Result World Elements) × IsOver (answer words given) (shows v) shown }
    ensures no_command { (words : List (List ℕ)) (given : Given) (disk : Disk)
        → command_of words ≡ None
        → (shown : Result World Elements) × IsOver (answer words given) disk shown }
{}

/// States that commands that run one after another, with a crash at any moment between or within
/// them, keep a sound installation sound. Each state that a crash may leave at the end is reached
/// from one that a crash could have left at the start, by a prefix of each command's operations
/// that includes those that the command acknowledged.
pub fn runs_join()
    ensures sound { (u w : View) (stretches : List Stretch) → IsSound u → History u stretches w →
        IsSound w }
    ensures reached { (u w : View) (stretches : List Stretch) → IsSound u → History u stretches w →
        (disk : Disk) → Leaves w disk → (t : State) → Shows disk t → IsReached u stretches disk t }
{}

/// States that an installation without changes that wait for a sync is opened again as itself after
/// a crash. So `runs_join` isn't said of nothing.
pub fn settled_views_reopen()
    ensures { (v : View) → IsTree v → IsSettled v → Reopens v v }
{}

/// States that the promise of exports can be met, and that it can be broken. An empty installation
/// meets it. An image with just the exports of a small application has exactly its exports; one
/// that also has another application's symlink doesn't.
pub fn exports_can_stand()
    ensures bare { (holds : Option Holdings) (u v : View) → IsTree v → IsSettled v
        → ((x : List ℕ) (up : Elements) → v.names (x ∷ up) ≡ absent) → IsInStep ⊥ holds u v }
    ensures placed { ExportsAre (sample.exports sample.stable desktop_text) placed_disk }
    ensures stale { ExportsAre (sample.exports sample.stable desktop_text) stale_disk → ⊥ }
{}

/// States that an update of all refs that was done leaves nothing to do. Another one, over what the
/// first left and with the same remotes, has no operation and no refusal. If the installation is at
/// rest, at every moment of it no name has changed, each old file keeps its mode and bytes, and
/// each new file is empty.
pub fn idle_updates_write_nothing()
    ensures answer { (words : List (List ℕ)) (first : Told) (given : Given) (held : Holdings)
        (u v : View) (shown : Result World Elements) → WasUpdated words first held u v
        → given.held ≡ held → IsOver (answer words given) (shows v) shown
        → HasNothingToDo (answer words given shown) }
    ensures unwritten { (words : List (List ℕ)) (first second : Told) (held : Holdings)
        (u v w : View) → WasUpdated words first held u v → second.holds ≡ Some held
        → IsAtRest v → RunsWords words second v w → IsStill v w × KeepsFiles v w }
{}

/// States that in a sound installation each deployed `metadata` file is the one of its commit in
/// the store. So `info`, `launch` and the policies that `filter` takes of a launch give the same
/// result from both.
pub fn deployed_files_are_stored()
    ensures files { FilesAreStored }
    ensures known { KnownIsStored }
    ensures launch { LaunchIsStored }
{}

/// States what `list --exports` prints of a small application.
pub fn exports_are_listed()
    ensures { (files : DeployedFiles) → listing_answer files listings.Exports (record {
      state = sample.state (sample.row sample.stable ∷ []);
      have = sample.have;
    }) ≡ text_answer listed_text }
{}

/// States the maximum length of the input as a number: 64 MiB.
pub fn limits_as_numbers()
    ensures { MOST_INPUT ≡ 67108864 }
{}
