//! Laws of the generator. Each law is the contract of a function with an empty body, or with one
//! that only cites other laws.
ghost use Rattle.std.specs.Prelude.{◌≡◌, ◌<◌, ◌%◌, ℕ, List, [], ◌∷◌, length, take, codes};
ghost use Rattle.fp_host.specs.Remote.{Holdings};
ghost use Rattle.fp_name.specs.Refs.{Ref, ref_text};
ghost use Rattle.ost_model.specs.Order.{In};
ghost use Rattle.fl_words.specs.declared.command.Change.{Change};
ghost use Rattle.fl_words.specs.declared.command.Change.TheVariants as changes;
ghost use Rattle.fl_gen.specs.declared.filling.TheConstants.{SUBJECT};
ghost use Rattle.fl_gen.specs.declared.limits.TheConstants.{RUNTIMES, LIBRARIES, OWN_FILES, SHARED_FILES, CHANGED_FILES, FILE_BYTES, BYTE_END};
ghost use Rattle.fl_gen.specs.Made.{app_metadata, app_ref, app_rows, app_ware, made_bytes, runtime_metadata, runtime_ref, runtime_rows, runtime_ware, start_at};
ghost use Rattle.fl_gen.specs.Generator.{IsGenerated, first_url, second_url};
ghost use Rattle.fl_gen.specs.Offered.{Offers};
ghost use Rattle.fl_gen.specs.Exercise.{exercise_changes, gen_at, install_of};

use ost_export::laws::exports_are_offers;

/// States that the generated remotes offer each runtime and each application: in the first version
/// at the first URL, and in the second version at the second.
pub fn what_is_generated_is_offered()
    ensures runtimes { (apps : ℕ) (held : Holdings) → IsGenerated apps held → (r : ℕ) → r < RUNTIMES
        → Offers held first_url 1 (runtime_ware 1 r) × Offers held second_url 2 (runtime_ware 2 r) }
    ensures applications { (apps : ℕ) (held : Holdings) → IsGenerated apps held → (k : ℕ) → k < apps
        → Offers held first_url 1 (app_ware 1 k) × Offers held second_url 2 (app_ware 2 k) }
{
    exports_are_offers();
}

/// States that each install among the commands is of one of the generated applications, from the
/// remote `gen`.
pub fn what_is_installed_is_generated()
    ensures { (apps : ℕ) (remote : List ℕ) (name : Ref)
        → In (exercise_changes apps) (changes.Install remote name)
        → (k : ℕ) × (k < apps) × (name ≡ app_ref k) × (remote ≡ codes "gen") }
{}

/// States the commands for one application and for four.
pub fn commands_of_few_applications()
    ensures one { exercise_changes 1 ≡ changes.RemoteAdd (gen_at (codes "file:///gen/1"))
        ∷ changes.Install (codes "gen") (app_ref 0)
        ∷ changes.RemoteModify (gen_at (codes "file:///gen/2"))
        ∷ changes.UpdateAll
        ∷ changes.UninstallUnused ∷ [] }
    ensures four { exercise_changes 4 ≡ changes.RemoteAdd (gen_at first_url)
        ∷ install_of 0 ∷ install_of 1 ∷ install_of 2 ∷ install_of 3
        ∷ changes.RemoteModify (gen_at second_url)
        ∷ changes.UpdateAll
        ∷ changes.Uninstall (app_ref 1) ∷ changes.Uninstall (app_ref 3)
        ∷ changes.UninstallUnused ∷ [] }
{}

/// States examples of generated names, texts and bytes.
pub fn what_is_made_of_small_numbers()
    ensures refs { ref_text (runtime_ref 3) ≡ codes "runtime/org.gen.Run3/x86_64/1" }
    ensures apps { ref_text (app_ref 63) ≡ codes "app/org.gen.App63/x86_64/1" }
    ensures runtime { runtime_metadata 2 ≡ codes "[Runtime]\nname=org.gen.Run2\n" }
    ensures application { app_metadata 5
        ≡ codes "[Application]\nname=org.gen.App5\nruntime=org.gen.Run1/x86_64/1\n" }
    ensures rows { length (runtime_rows 1 0) ≡ 33 }
    ensures more_rows { length (app_rows 1 0) ≡ 82 }
    // The file `files/f7` of the application 40, in the second version.
    ensures changed { take 4 (made_bytes (start_at 280 3 2 7)) ≡ 52 ∷ 53 ∷ 54 ∷ 55 ∷ [] }
    // The file `files/f8` is the same in each version.
    ensures kept { start_at 280 3 2 8 ≡ 304 }
{}

/// States the amounts that the generator makes, and the subject of each commit.
pub fn limits_as_numbers()
    ensures runtimes { RUNTIMES ≡ 4 }
    ensures libraries { LIBRARIES ≡ 32 }
    ensures own { OWN_FILES ≡ 64 }
    ensures shared { SHARED_FILES ≡ 16 }
    ensures changed { CHANGED_FILES ≡ 8 }
    ensures bytes { FILE_BYTES ≡ 4096 }
    ensures end { BYTE_END ≡ 251 }
    ensures subject { SUBJECT.now ≡ codes "gen" }
{}
