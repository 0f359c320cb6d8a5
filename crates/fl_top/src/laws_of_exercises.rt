//! Laws of exercises. Each law is the contract of a function with an empty body.
ghost use Rattle.std.specs.Prelude.{◌≡◌, ◌++◌, ◌∷◌, [], ℕ, Some, None, codes};
ghost use Rattle.fp_host.specs.Remote.{Holdings};
ghost use Rattle.fp_small.specs.declared.refusal.Refusal.{Refusal};
ghost use Rattle.fl_change.specs.World.{World};
ghost use Rattle.fl_top.specs.Exercising.{changed_state, changes_answer, end_text, exercising};
ghost use Rattle.fl_top.specs.Sample.{three_refs};

/// States that an exercise answers what its changes answer, if one is refused; else its own line
/// comes last, for the state that the changes leave.
pub fn exercises_end_with_their_line()
    ensures refused { (apps : ℕ) (held : Holdings) (x : World) (r : Refusal)
        → (changes_answer apps held x).refusal ≡ Some r
        → exercising apps held x ≡ changes_answer apps held x }
    ensures done { (apps : ℕ) (held : Holdings) (x : World)
        → (changes_answer apps held x).refusal ≡ None
        → exercising apps held x ≡ record {
          pieces = (changes_answer apps held x).pieces ++ record {
            text = end_text apps (changed_state apps held x);
            op = None;
          } ∷ [];
          refusal = None;
        } }
{}

/// States the last line of an exercise that leaves two applications and a runtime.
pub fn refs_are_counted()
    ensures { end_text 4 three_refs ≡ codes "exercise 4: 2 applications, 1 runtimes\n" }
{}
