//! Laws of overrides that are changed by options. Each law is the contract of a function with an
//! empty body.
ghost use Rattle.std.specs.Prelude.{◌≡◌, ◌<◌, ◌≤◌, ℕ, List, [], ◌∷◌, ◌++◌, true, codes};
ghost use Rattle.fp_base.specs.declared.what.What.TheVariants as whats;
ghost use Rattle.fp_host.specs.Remote.{Holdings};
ghost use Rattle.fp_keyfile.specs.declared.group.Group.{Group};
ghost use Rattle.fp_keyfile.specs.KeyFile.{is_good, text_of};
ghost use Rattle.fp_small.specs.declared.op.Op.TheVariants as ops;
ghost use Rattle.fp_small.specs.declared.refusal.Refusal.TheVariants as refusals;
ghost use Rattle.dep_states.specs.Shown.{small_most};
ghost use Rattle.fl_meta.specs.declared.mentions.Source.TheVariants as sources;
ghost use Rattle.fl_meta.specs.declared.permission.Permission.{Permission};
ghost use Rattle.fl_meta.specs.Mentions.{file_mentions};
ghost use Rattle.fl_context.specs.Grants.{last_mention};
ghost use Rattle.fl_options.specs.Options.{layer_of};
ghost use Rattle.fl_words.specs.declared.command.Change.TheVariants as changes;
ghost use Rattle.fl_change.specs.World.{World};
ghost use Rattle.fl_change.specs.Answer.{op_answer, refusal_answer};
ghost use Rattle.fl_change.specs.Overrides.{changed_file};
ghost use Rattle.fl_change.specs.Turns.{change_over};
ghost use Rattle.fl_change.specs.Premises.{override_len, override_with};

/// States that an override is changed by options, unless its text would have more than 1 MiB.
pub fn changed_overrides_answer()
    ensures limit { (held : Holdings) (x : World) (name : List ℕ) (options : List (List ℕ))
        → small_most < override_len x name options
        → change_over (changes.OverrideChange name options) held x
        ≡ refusal_answer (refusals.Limit whats.Override (override_len x name options)) }
    ensures done { (held : Holdings) (x : World) (name : List ℕ) (options : List (List ℕ))
        → override_len x name options ≤ small_most
        → change_over (changes.OverrideChange name options) held x
        ≡ op_answer (ops.SetOverride (override_with x name options)) }
{}

/// States that a changed override has, of each permission, the last mention in the old override
/// followed by the options.
pub fn changed_overrides_have_the_last()
    ensures { (file : List Group) (options : List (List ℕ)) (p : Permission) → is_good file ≡ true
        → last_mention (file_mentions sources.Override (changed_file file options)) p
        ≡ last_mention (file_mentions sources.Override file ++ layer_of options) p }
{}

/// States that options create an override if there is none, and that the last option for a
/// permission counts.
pub fn sample_options_make_overrides()
    ensures denied { text_of (changed_file [] (codes "--unshare=network" ∷ []))
        ≡ codes "[Context]\nshared=!network;\n" }
    ensures last { text_of (changed_file [] (codes "--env=A=1" ∷ codes "--env=A=2" ∷ []))
        ≡ codes "[Environment]\nA=2\n" }
{}
