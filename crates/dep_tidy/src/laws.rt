//! Laws of tidy installations. Each law is the contract of a function with an empty body.
ghost use Rattle.std.specs.Prelude.{◌≡◌, ◌≢◌, ◌⊎◌, ◌↔◌, ◌++◌, ◌∷◌, [], ℕ, List, Contains};
ghost use Rattle.fp_host.specs.Paths.{Elements, Slot};
ghost use Rattle.fp_host.specs.Outcome.{Disk, gone};
ghost use Rattle.fp_name.specs.Hex.{hex};
ghost use Rattle.fp_name.specs.Refs.{Ref};
ghost use Rattle.fp_small.specs.Places.{tmp};
ghost use Rattle.fp_small.specs.Clear.{IsWithin};
ghost use Rattle.fp_small.specs.declared.state.State.{State};
ghost use Rattle.fp_small.specs.declared.state.RefRow.{RefRow};
ghost use Rattle.dep_states.specs.Names.{config, remotes_conf, pins_file, overrides_folder, ref_file};
ghost use Rattle.dep_states.specs.Shown.{there, ref_seen};
ghost use Rattle.dep_states.specs.Sound.{IsKeptBy};
ghost use Rattle.dep_states.specs.Settled.{Settled, HasBytes};
ghost use Rattle.dep_tidy.specs.Kept.{kept_of};
ghost use Rattle.dep_tidy.specs.Tidy.{MayTidy, SettledButWork, SettledButRef, IsSmallPlace};

/// States that an image is `Settled` exactly if it is `SettledButWork` and nothing is below
/// `repo/tmp`.
pub fn settled_is_without_work()
    ensures { (disk : Disk) → Settled disk
        ↔ (SettledButWork disk
        × ((x : List ℕ) (rest : Elements) → disk (rest ++ (x ∷ tmp)) ≡ gone)) }
{}

/// States that an image stays `SettledButWork` if nothing changes but `config`, `overrides`,
/// `repo`, `repo/tmp`, and what is below `overrides` and `repo/tmp`. If there are files of layout
/// 1, `config` must not be new.
pub fn small_changes_leave_the_rest_settled()
    ensures { (i j : Disk) → ((p : Elements) → (IsSmallPlace p → ⊥) → j p ≡ i p)
        → (j config ≢ gone → (i config ≢ gone) ⊎ ((i remotes_conf ≡ gone) × (i pins_file ≡ gone)))
        → SettledButWork i → SettledButWork j }
{}

/// States that an image is `SettledButWork` if it is `SettledButRef` and that ref has its ref file,
/// and that an image that is `SettledButWork` is `SettledButRef` for each ref.
pub fn a_ref_with_its_file_is_settled()
    ensures with_file { (disk : Disk) (name : Ref) → SettledButRef name disk
        → ((row : RefRow) → ref_seen disk name ≡ there row
        → HasBytes (hex row.commit ++ 10 ∷ []) (disk (ref_file row.origin name)))
        → SettledButWork disk }
    ensures whatever_the_ref { (disk : Disk) (name : Ref) → SettledButWork disk
        → SettledButRef name disk }
{}

/// States that the commits that rows keep are each row's commit and its previous one.
pub fn rows_keep_their_commits()
    ensures { (rows : List RefRow) (commit : List ℕ) → Contains (kept_of rows) commit
        ↔ ((row : RefRow) × Contains rows row × IsKeptBy row commit) }
{}

/// States that tidying changes neither `config` nor `overrides`, nor any name below `overrides`.
pub fn settings_arent_tidied()
    ensures config { (s : State) (e : Slot) → MayTidy s config e → ⊥ }
    ensures overrides { (s : State) (q : Elements) (e : Slot) → IsWithin overrides_folder q
        → MayTidy s q e → ⊥ }
{}
