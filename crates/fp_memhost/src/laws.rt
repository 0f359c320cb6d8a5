//! Laws of what a crash may leave. Each law is the contract of a function with an empty body.
ghost use Rattle.std.specs.Prelude.{◌≡◌, ◌∷◌, ◌++◌, [], ℕ, true, Some};
ghost use Rattle.fp_host.specs.Paths.{Elements, Slot, absent};
ghost use Rattle.fp_host.specs.View.{View, Inode, IsTree, MayBe};
ghost use Rattle.fp_host.specs.Calls.{renames, syncs, done, half};
ghost use Rattle.fp_host.specs.Outcome.{Disk, Leaves, spot_of};
ghost use Rattle.fp_memhost.specs.Stops.{first, second, with_entry, with_row};

/// States that a crash may leave any possible entry at one name, while all other names keep their
/// present entries.
pub fn names_are_chosen_one_by_one()
    ensures { (v : View) (p : Elements) (e : Slot) → MayBe v p e → Leaves v (with_entry v p e) }
{}

/// States that a crash may leave any bytes in a file created since the last sync, with its
/// permission bits.
pub fn new_files_may_hold_any_bytes()
    ensures { (v : View) (id : ℕ) (f g : Inode) → v.dirty id ≡ true → v.files id ≡ Some f
        → f.mode ≡ g.mode → Leaves v (with_row v id g) }
{}

/// States that after a rename a crash may still bring back the previous entries of both names.
pub fn a_rename_keeps_what_was()
    ensures from { (v : View) → (done (renames first second) v).names first ≡ absent }
    ensures to { (v : View) → (done (renames first second) v).names second ≡ v.names first }
    ensures was_from { (v : View) → (done (renames first second) v).earlier first
        ≡ v.earlier first ++ v.names first ∷ [] }
    ensures was_to { (v : View) → (done (renames first second) v).earlier second
        ≡ v.earlier second ++ v.names second ∷ [] }
{}

/// States that a rename that failed and wasn't done leaves both names, and that a crash may leave
/// each as if it had been done.
pub fn a_failed_rename_may_be_done()
    ensures names { (v : View) → (half (renames first second) v).names ≡ v.names }
    ensures from { (v : View) → (half (renames first second) v).earlier first
        ≡ v.earlier first ++ absent ∷ [] }
    ensures to { (v : View) → (half (renames first second) v).earlier second
        ≡ v.earlier second ++ v.names first ∷ [] }
{}

/// States that after a sync every crash leaves exactly the present content.
pub fn a_sync_keeps_what_stands()
    ensures { (v : View) (disk : Disk) → IsTree (done syncs v) → Leaves (done syncs v) disk
        → (q : Elements) → disk q ≡ spot_of v.files (v.names q) }
{}
