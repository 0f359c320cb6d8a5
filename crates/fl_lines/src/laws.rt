//! Laws of all printed texts, which follow from the definitions. Each law is the contract of a
//! function with an empty body.
ghost use Rattle.std.specs.Prelude.{◌≡◌, ℕ, List, true, not};
ghost use Rattle.std.specs.List.{list_all};
ghost use Rattle.std.specs.Option.{is_some};
ghost use Rattle.fl_lines.specs.Lines.{escaped, refusal_text};
ghost use Rattle.fl_lines.specs.Advice.{advice_of};
ghost use Rattle.fp_base.specs.Parts.{is_control};
ghost use Rattle.fp_small.specs.declared.refusal.Refusal.{Refusal};

/// States that an escaped text has no control byte, and that no two texts are escaped alike.
pub fn escapes_tell_texts()
    ensures printable { (text : List ℕ) → list_all (λ b. not (is_control b)) (escaped text) ≡ true }
    ensures apart { (a b : List ℕ) → escaped a ≡ escaped b → a ≡ b }
{}

/// States that the line of each refusal has a sentence that explains it.
pub fn refusals_are_explained()
    ensures { (refusal : Refusal) → is_some (advice_of (refusal_text refusal)) ≡ true }
{}
