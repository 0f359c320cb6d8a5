//! Laws of the definitions in the contracts, for crates that build on them. Each law is the
//! contract of a function with an empty body.

ghost use Rattle.std.specs.Prelude.{◌≡◌, ◌⊎◌, ℕ, List, [], ◌∷◌, ◌++◌, None, Contains};
ghost use Rattle.fp_host.specs.Paths.{Elements, Slot, absent, file};
ghost use Rattle.fp_host.specs.View.{View};
ghost use Rattle.fp_host.specs.Calls.{Change, Called, creates, appends, renames, unlinks, syncs, done};
ghost use Rattle.fp_host.specs.Frame.{Keeps, NoPath};
ghost use Rattle.fp_host.specs.declared.limits.TheConstants.{MOST_ELEMENT_BYTES, MOST_LINK_BYTES, PERMISSION_BITS, PIECE_BYTES};

/// States that a view remembers what was put at each name: whatever a call does, the memory only
/// grows, what it newly remembers is now at its name, and each name that the call changed is
/// remembered with its new entry.
pub fn remembered_names()
    ensures stays { (change : Change) (v w : View) (x : Elements × Slot) → Called change v w
        → Contains v.stood x → Contains w.stood x }
    ensures stands { (change : Change) (v w : View) (x : Elements × Slot) → Called change v w
        → Contains w.stood x → Contains v.stood x ⊎ (w.names x.0 ≡ x.1) }
    ensures told { (change : Change) (v w : View) (q : Elements) → Called change v w
        → (w.names q ≡ v.names q) ⊎ Contains w.stood (q, w.names q) }
{}

/// States that a file that is created, renamed and removed is remembered at both names, also after
/// a sync.
pub fn remembered_file()
    ensures { (v : View) (p q : Elements) (id mode : ℕ) → v.stood ≡ []
        → (done syncs (done (unlinks q) (done (renames p q) (done (creates p mode id) v)))).stood
        ≡ (p, file id) ∷ (q, file id) ∷ (p, absent) ∷ (q, absent) ∷ [] }
{}

/// States that within a frame that allows no file to be given bytes, a new file stays empty,
/// whatever names the frame allows to change.
pub fn kept_files_are_empty()
    ensures { (v : View) (p : Elements) (id mode : ℕ) (bytes : List ℕ) → v.files id ≡ None
        → Keeps (λ q spot. Unit {0}) (λ q e. Unit {0}) NoPath v
        (done (appends p bytes) (done (creates p mode id) v)) → bytes ≡ [] }
{}

/// States that within a frame that allows only one name to change, a new file can only be created
/// at that name.
pub fn kept_puts_are_allowed()
    ensures { (v : View) (p q : Elements) (id mode : ℕ) → v.stood ≡ []
        → Keeps (λ r spot. Unit {0}) (λ r e. r ≡ q) NoPath v (done (creates p mode id) v) → p ≡ q }
{}

/// States the limits of a host as numbers. Those for elements and texts of symlinks are Linux's
/// (`NAME_MAX`, and `PATH_MAX` without its terminating zero byte); the permission bits are 0o7777.
pub fn limits_as_numbers()
    ensures element { MOST_ELEMENT_BYTES ≡ 255 }
    ensures link { MOST_LINK_BYTES ≡ 4095 }
    ensures bits { PERMISSION_BITS ≡ 4095 }
    ensures piece { PIECE_BYTES ≡ 65536 }
{}
