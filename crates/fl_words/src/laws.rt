//! Laws of all words, which follow from the definitions. Each law is the contract of a function
//! with an empty body.
ghost use Rattle.std.specs.Prelude.{◌≡◌, ◌<◌, ◌≤◌, ◌+◌, ◌++◌, ℕ, List, Some, Ok, true, length, take};
ghost use Rattle.std.specs.List.{list_all};
ghost use Rattle.fl_words.specs.Batch.{batch_of};
ghost use Rattle.fl_words.specs.declared.forms.Form.{Form};
ghost use Rattle.fl_words.specs.Forms.{command_of, bad_index, reads};
ghost use Rattle.fl_words.specs.Reasons.{begins};
ghost use Rattle.fl_words.specs.Words.{Begins, words_of, is_change, is_command};

use crate::command::{Change, Command};
use crate::limits::MOST_APPS;

/// States that the words of each command are read as that command, and no other words are.
pub fn words_read_back()
    ensures written { (c : Command) → is_command c ≡ true → command_of (words_of c) ≡ Some c }
    ensures read { (words : List (List ℕ)) (c : Command) → command_of words ≡ Some c →
        (words ≡ words_of c) × (is_command c ≡ true) }
{}

/// States that the bad index is the least i such that the first i + 1 words begin no command, or
/// the number of words if there is no such i.
pub fn bad_index_is_least()
    ensures before { (words : List (List ℕ)) (i : ℕ) → i < bad_index words → Begins
        (take (i + 1) words) }
    ensures there { (words : List (List ℕ)) → bad_index words < length words → ¬ Begins
        (take (bad_index words + 1) words) }
    ensures within { (words : List (List ℕ)) → bad_index words ≤ length words }
{}

/// States that a form's usage is shown exactly if the words before the wrong one can go on to be
/// words of the form.
pub fn usage_is_of_forms_begun()
    ensures told { (words : List (List ℕ)) (n : ℕ) (form : Form) → begins words n form ≡ true →
        (more : List (List ℕ)) × (reads (take n words ++ more) form ≡ true) }
    ensures only { (words more : List (List ℕ)) (n : ℕ) (form : Form) → n ≤ length words → reads
        (take n words ++ more) form ≡ true → begins words n form ≡ true }
{}

/// States that the patterns, names, refs, URLs and options in each change of a batch are valid.
pub fn batches_hold_changes()
    ensures { (bytes : List ℕ) (changes : List Change) → batch_of bytes ≡ Ok changes → list_all
        is_change changes ≡ true }
{}

/// States the maximum number of applications in an exercise.
pub fn limits_are()
    ensures apps { MOST_APPS ≡ 64 }
{}
