//! Laws of images and the states that they show. Each law is the contract of a function with an
//! empty body.
ghost use Rattle.std.specs.Prelude.{◌≡◌, ◌≢◌, ◌⊎◌, ◌↔◌, ◌≤◌, ◌++◌, ◌∷◌, ℕ, List, [], length, map, true, Some, None, Result, Ok, Err};
ghost use Rattle.fp_host.specs.Paths.{Elements, absent, IsAbove};
ghost use Rattle.fp_host.specs.View.{View, Inode, IsTree};
ghost use Rattle.fp_host.specs.Calls.{CanCreate, creates, appends, links, done};
ghost use Rattle.fp_host.specs.Outcome.{Disk, Follows, Nothing, IsSettled, gone, folder, shows};
ghost use Rattle.fp_base.specs.declared.object.ObjKind.{ObjKind};
ghost use Rattle.fp_host.specs.Reads.{is_ascending};
ghost use Rattle.fp_keyfile.specs.KeyFile.{file_of, text_of, is_good};
ghost use Rattle.fp_keyfile.specs.declared.group.Group.{Group};
ghost use Rattle.fp_name.specs.Hex.{is_digest};
ghost use Rattle.fp_name.specs.Refs.{Ref, is_ref};
ghost use Rattle.fp_small.specs.Config.{IsSettings, config_text};
ghost use Rattle.fp_small.specs.Clear.{IsWithin};
ghost use Rattle.fp_small.specs.Files.{KeepsFiles};
ghost use Rattle.fp_small.specs.Places.{repo, tmp};
ghost use Rattle.fp_small.specs.declared.config.Settings.{Settings};
ghost use Rattle.fp_small.specs.declared.op.Op.TheVariants.{Install, Update, Uninstall, SetOverride, DropOverride, Rollback};
ghost use Rattle.fp_small.specs.declared.state.State.{State};
ghost use Rattle.fp_small.specs.declared.state.RefRow.{RefRow};
ghost use Rattle.fp_small.specs.declared.state.OverrideRow.{OverrideRow};
ghost use Rattle.fp_small.specs.declared.state.Previous.{Previous};
ghost use Rattle.ost_model.specs.Objects.{object_path};
ghost use Rattle.ost_model.specs.Order.{In};
ghost use Rattle.ost_model.specs.Stores.{IsStore};
ghost use Rattle.ost_model.specs.declared.limits.TheConstants.{STORE_CONFIG};
ghost use Rattle.ost_refs.specs.Places.{place_path};
ghost use Rattle.ost_refs.specs.declared.place.RefPlace.{RefPlace};
ghost use Rattle.dep_states.specs.After.{HasOrder, IsGood, row_at, ref_row, as_previous, after_op};
ghost use Rattle.dep_states.specs.Frames.{KeptIn, InDir, IsUnused, ObjectGone, IsNewObject, Pulls};
ghost use Rattle.dep_states.specs.Small.{IsSetting, IsLayered};
ghost use Rattle.dep_states.specs.Switch.{IsWith, SwitchesAt, Stages, OpensEither};
ghost use Rattle.dep_states.specs.Lasting.{Says, IsLasting};
ghost use Rattle.dep_states.specs.Links.{WasStored, Links};
ghost use Rattle.dep_states.specs.Names.{active, commit_dir, config, deploy, repo_config, remotes_conf, pins_file, override_path};
ghost use Rattle.dep_states.specs.Shown.{there, seen_of, settings_seen, override_seen, at_name, override_key, setup_of, Shows, IsShown, config_most};
ghost use Rattle.dep_states.specs.Zones.{Allowed, IsFileOrGone, IsFolderOrGone, anything, outward, zone};
ghost use Rattle.dep_states.specs.Damaged.{Damages, Gives};
ghost use Rattle.dep_states.specs.Sound.{Keeps, Sound, Fixed, Permits, Opens, IsSound, Spares, Spared, InTmp, OldGone, HasConfig};
ghost use Rattle.dep_states.specs.Settled.{Settled};
ghost use Rattle.dep_states.specs.Deployed.{deployed_disk, deployed_state};
ghost use Rattle.dep_states.specs.Samples.{no_disk, empty_disk, empty_state, config_disk, settings_state, worked_disk, worked_state, damaged_disk, dashed_ref};

// ---- what is shown

/// States that an image gives at most one result: a state, or a first damaged path, and not both.
pub fn one_result_is_given()
    ensures { (disk : Disk) (a b : Result State Elements) → Gives disk a → Gives disk b → a ≡ b }
{}

/// States that an image with finitely many names shows a state if nothing in it is damaged.
pub fn undamaged_images_show_a_state()
    ensures { (disk : Disk) (names : List Elements)
        → ((p : Elements) → (disk p ≡ gone → ⊥) → In names p)
        → ((p : Elements) → Damages disk p → ⊥) → IsShown disk }
{}

/// States that of two damaged refs, one because its `deploy` has another commit, the image gives
/// the path that is first by its bytes: that of `org.x.A-b`, though `org.x.A` is the first of the
/// IDs.
pub fn the_first_path_is_by_bytes()
    ensures { Gives damaged_disk (Err (active dashed_ref)) }
{}

/// States that a state that an image shows can be written: names, URLs and patterns are valid,
/// ascending and within their limits, a `deploy` can have each row, and a key file each override.
pub fn what_is_shown_can_be_written()
    ensures { (disk : Disk) (s : State) → Shows disk s → IsGood s }
{}

/// States that an image keeps exactly the commits that its state keeps.
pub fn the_state_tells_what_is_kept()
    ensures { (disk : Disk) (s : State) (name : Ref) (commit : List ℕ) → is_ref name ≡ true
        → Shows disk s
        → Keeps disk name commit ↔ KeptIn s name commit }
{}

// ---- worked images

/// States that the image with the root alone shows the empty state of layout 2, is sound, and is
/// settled.
pub fn the_empty_image_is_sound()
    ensures shown { Shows empty_disk empty_state }
    ensures sound { Sound empty_disk }
    ensures settled { Settled empty_disk }
{}

/// States that an image with a `config`, two refs, one of them with a previous commit, and an
/// override shows its state.
pub fn the_worked_image_shows_its_state()
    ensures { Shows worked_disk worked_state }
{}

/// States that an image with one deployed ref, its objects and its ref file shows its state, is
/// sound, and is settled.
pub fn the_deployed_image_is_sound()
    ensures shown { Shows deployed_disk deployed_state }
    ensures sound { Sound deployed_disk }
    ensures settled { Settled deployed_disk }
{}

/// States that two images are sound: one without even a root, and the root with a `config` as it is
/// written, which shows its settings.
pub fn sound_images()
    ensures nothing { Sound no_disk }
    ensures written { (s : Settings) → IsSettings s → length (config_text s) ≤ config_most
        → Sound (config_disk (config_text s))
        × Shows (config_disk (config_text s)) (settings_state s) }
{}

/// States that a view with the root alone is sound if nothing waits for a sync.
pub fn a_bare_view_is_sound()
    ensures { (v : View) → IsTree v → IsSettled v
        → ((x : List ℕ) (up : Elements) → v.names (x ∷ up) ≡ absent) → IsSound v }
{}

/// States the maximum number of elements of a path: a path of 128 elements that fpk doesn't use may
/// be a directory, one of 129 may not.
pub fn paths_have_a_longest()
    ensures longest { (p : Elements) → length p ≡ 128 → zone (outward p) ≡ anything
        → Allowed p folder }
    ensures too_long { (p : Elements) → length p ≡ 129 → Allowed p folder → ⊥ }
{}

// ---- steps

/// States that a step after which a crash shows nothing new keeps the state and keeps the view
/// sound.
pub fn steps_that_give_nothing()
    ensures opens { (old new : View) (s : State) → Follows Nothing old new → Opens s old
        → Opens s new }
    ensures sound { (old new : View) → Follows Nothing old new → IsSound old → IsSound new }
{}

/// States that a step keeps the state and keeps the view sound, if a crash may newly show nothing
/// at a fixed path, and elsewhere only what may be there. Then `config` stays, too.
pub fn steps_that_spare()
    ensures opens { (old new : View) (s : State) → Follows (Spared old) old new → Opens s old
        → Opens s new }
    ensures sound { (old new : View) → Follows (Spared old) old new → IsSound old → IsSound new }
    ensures config { (old new : View) → Follows (Spared old) old new → HasConfig old
        → HasConfig new }
{}

/// States that any node below `repo/tmp` may be placed and removed.
pub fn work_may_come_and_go()
    ensures { (v : View) → Spares v InTmp }
{}

/// States that the files of layout 1 may be removed once each crash leaves a `config`.
pub fn old_files_may_go()
    ensures { (v : View) → HasConfig v → Spares v OldGone }
{}

/// States that the content of a commit's directory may change if the state doesn't keep the commit.
pub fn unkept_folders_may_change()
    ensures { (s : State) (v : View) (name : Ref) (commit : List ℕ) → is_digest commit ≡ true
        → Opens s v
        → (KeptIn s name commit → ⊥) → Spares v (InDir name commit) }
{}

/// States that an object that no kept commit uses may be removed.
pub fn unused_objects_may_go()
    ensures { (v : View) (d : List ℕ) (kind : ObjKind) → IsUnused v d kind
        → Spares v (ObjectGone d kind) }
{}

/// States that an object may be placed at a path that is absent. So a pull, which works below
/// `repo/tmp` and adds new objects, keeps the state and keeps the view sound. Several pulls in turn
/// are one pull.
pub fn new_objects_may_come()
    ensures spares { (s : State) (v : View) → Opens s v → Spares v (IsNewObject v) }
    ensures pulls { (s : State) (u w : View) → Opens s u → Pulls InTmp u w → Opens s w }
    ensures nothing { (u : View) → Pulls InTmp u u }
    ensures one_after_another { (u v w : View) → Pulls InTmp u v → Pulls InTmp v w
        → Pulls InTmp u w }
{}

/// States that a view in which nothing waits for a sync opens as the state that it shows now, if it
/// is sound now.
pub fn what_is_settled_is_opened()
    ensures { (s : State) (v : View) → IsTree v → IsSettled v → Shows (shows v) s → Sound (shows v)
        → Opens s v }
{}

/// States that views can be opened. If nothing waits for a sync, the root alone opens as the empty
/// state of layout 2, and the sample image with a deployed ref opens as its state.
pub fn views_can_be_opened()
    ensures bare { (v : View) → IsTree v → IsSettled v
        → ((x : List ℕ) (up : Elements) → v.names (x ∷ up) ≡ absent) → Opens empty_state v }
    ensures deployed { (v : View) → IsTree v → IsSettled v
        → ((p : Elements) → shows v p ≡ deployed_disk p) → Opens deployed_state v }
{}

/// States that each crash leaves a `config`, if nothing waits for a sync and `config` exists.
pub fn settled_config_stays()
    ensures { (v : View) → IsTree v → IsSettled v → (shows v config ≡ gone → ⊥) → HasConfig v }
{}

/// States that a view that opens as a state is sound.
pub fn opened_is_sound()
    ensures { (s : State) (v : View) → Opens s v → IsSound v }
{}

/// States that in a sound image `config` and the files of layout 1 are files or absent, `repo` and
/// `repo/tmp` are directories or absent, and each object matches its digest.
pub fn what_a_sound_image_holds()
    ensures config { (disk : Disk) → Sound disk → IsFileOrGone (disk config) }
    ensures remotes { (disk : Disk) → Sound disk → IsFileOrGone (disk remotes_conf) }
    ensures pins { (disk : Disk) → Sound disk → IsFileOrGone (disk pins_file) }
    ensures repo { (disk : Disk) → Sound disk → IsFolderOrGone (disk repo) }
    ensures tmp { (disk : Disk) → Sound disk → IsFolderOrGone (disk tmp) }
    ensures store { (disk : Disk) → Sound disk → IsStore repo disk }
{}

// ---- small files

/// States what a change of the settings leaves. If an image has the nodes of another one at all
/// fixed paths except the files of the settings, it shows the state with the settings that are read
/// from it. It is sound if the other one is, and if it has only nodes that may be there.
pub fn settings_may_change()
    ensures shown { (i j : Disk) (s t : State)
        → ((p : Elements) → Fixed i p → (IsSetting p → ⊥) → j p ≡ i p)
        → settings_seen j ≡ there (setup_of t) → t.refs ≡ s.refs
        → t.overrides ≡ s.overrides → Shows i s
        → Shows j t }
    ensures sound { (i j : Disk) → ((p : Elements) → Fixed i p → (IsSetting p → ⊥) → j p ≡ i p)
        → ((p : Elements) → (j p ≡ i p) ⊎ Permits i p (j p)) → Sound i → Sound j }
{}

/// States what a change of one override leaves. If an image has the nodes of another one at all
/// fixed paths except that override's, it shows the state with the override that is read from it,
/// or without one. It is sound if the other one is, and if it has only nodes that may be there.
pub fn an_override_may_change()
    ensures shown { (i j : Disk) (s t : State) (layer : List ℕ)
        → ((p : Elements) → Fixed i p → (p ≡ override_path layer → ⊥) → j p ≡ i p)
        → IsLayered s layer t → override_seen j layer
        ≡ seen_of (at_name override_key t.overrides layer)
        → Shows i s → Shows j t }
    ensures sound { (i j : Disk) (layer : List ℕ)
        → ((p : Elements) → Fixed i p → (p ≡ override_path layer → ⊥) → j p ≡ i p)
        → ((p : Elements) → (j p ≡ i p) ⊎ Permits i p (j p)) → Sound i → Sound j }
{}

/// States that setting or dropping an override changes no other part of the state.
pub fn operations_change_one_override()
    ensures set { (s : State) (row : OverrideRow) (time : ℕ)
        → is_ascending (map override_key s.overrides) ≡ true
        → IsLayered s row.name (after_op s time (SetOverride row)) }
    ensures drop { (s : State) (name : List ℕ) (time : ℕ)
        → is_ascending (map override_key s.overrides) ≡ true
        → IsLayered s name (after_op s time (DropOverride name)) }
{}

// ---- operations on refs

/// States that an operation on a ref changes the row of that ref and no other part of the state.
pub fn operations_change_one_row()
    ensures install { (s : State) (name : Ref) (remote commit : List ℕ) (time : ℕ) → HasOrder s
        → row_at s name ≡ None → IsWith s name (Some (ref_row name remote commit time None))
        (after_op s time (Install name remote commit)) }
    ensures update { (s : State) (name : Ref) (remote commit : List ℕ) (time : ℕ) (row : RefRow)
        → HasOrder s → row_at s name ≡ Some row
        → IsWith s name (Some (ref_row name remote commit time (as_previous row)))
        (after_op s time (Update name remote commit)) }
    ensures uninstall { (s : State) (name : Ref) (time : ℕ) → HasOrder s
        → IsWith s name None (after_op s time (Uninstall name)) }
    ensures rollback { (s : State) (commit : List ℕ) (time : ℕ) (row : RefRow) (p : Previous)
        → HasOrder s → row_at s row.name ≡ Some row → row.previous ≡ Some p
        → IsWith s row.name
        (Some (ref_row row.name row.origin p.commit p.timestamp (as_previous row)))
        (after_op s time (Rollback row.name commit)) }
{}

/// States what the rename of a symlink from `repo/tmp` to `active` leaves. If the new commit is
/// checked out beside the state, each crash leaves the old state or the one with the new row, and a
/// sound image.
pub fn a_switch_is_old_or_new()
    ensures { (u w : View) (s t : State) (name : Ref) (row : RefRow) (rest : Elements)
        → is_ref name ≡ true
        → IsWith s name (Some row) t → Follows (SwitchesAt name row (rest ++ tmp)) u w
        → Stages s name row u
        → OpensEither s t w }
{}

// ---- where files last

/// States what may last. No file below `repo/tmp` lasts, and in a commit's directory only the
/// `deploy` does. At an override's path only the text of its own groups lasts, and at the path of
/// the store's `config` only its one text. Each of these files has the permission bits 0644.
pub fn what_lasts()
    ensures no_work { (q : Elements) (f : Inode) → IsWithin tmp q → IsLasting q f → ⊥ }
    ensures record { (name : Ref) (commit : List ℕ) (q : Elements) (f : Inode)
        → IsAbove (commit_dir name commit) q
        → IsLasting q f → q ≡ deploy (commit_dir name commit) }
    ensures overrides { (name : List ℕ) (f : Inode) → IsLasting (override_path name) f
        → (groups : List Group) × (is_good groups ≡ true) × Says (text_of groups) f
        × (file_of f.bytes ≡ Ok groups) }
    ensures config { (f : Inode) → IsLasting repo_config f → Says STORE_CONFIG.now f }
{}

/// States what `Links` allows in commits' directories. It holds of a step that changes no name, of
/// two steps in turn if it holds of each and the second keeps the files, and of a hard link to an
/// object's file, at any path. It doesn't hold of a file that is written into a commit's directory,
/// unless that is the `deploy` or was put below the store's objects.
pub fn what_is_linked()
    ensures still { (u w : View) → ((q : Elements) → w.names q ≡ u.names q) → Links u w }
    ensures on { (u v w : View) → Links u v → Links v w → KeepsFiles v w → Links u w }
    ensures linked { (v : View) (d : List ℕ) (kind : ObjKind) (q : Elements) → IsTree v
        → Links v (done (links (object_path repo d kind) q) v) }
    ensures written { (v : View) (name : Ref) (commit bytes : List ℕ) (q : Elements) (mode id : ℕ)
        → CanCreate q mode v → (WasStored id v → ⊥) → IsAbove (commit_dir name commit) q
        → q ≢ deploy (commit_dir name commit)
        → Links v (done (appends q bytes) (done (creates q mode id) v)) → ⊥ }
{}
