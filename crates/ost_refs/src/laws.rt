//! Laws of the definitions that the contracts use, for crates that build on them. Each is the
//! contract of a function that does nothing.

ghost use Rattle.std.specs.Prelude.{◌≡◌, ℕ, List, true};
ghost use Rattle.fp_host.specs.Paths.{Elements};
ghost use Rattle.fp_host.specs.View.{View};
ghost use Rattle.fp_host.specs.Outcome.{shows};
ghost use Rattle.fp_name.specs.Hex.{is_digest};
ghost use Rattle.fp_small.specs.Replace.{WasReplaced};
ghost use Rattle.ost_refs.specs.Places.{place_path};
ghost use Rattle.ost_refs.specs.Files.{ref_bytes, ref_file, ref_in};
ghost use Rattle.ost_refs.specs.Changes.{WasDropped};
ghost use Rattle.ost_refs.specs.declared.reading.TheConstants.{REF_FILE_BYTES};
ghost use Rattle.ost_refs.specs.declared.limits.TheConstants.{MOST_MODE_BYTES, MOST_STORE_CONFIG_BYTES};
ghost use Rattle.ost_refs.specs.declared.listing.TheConstants.{HEAD_DEPTH, REMOTE_DEPTH};
ghost use Rattle.ost_refs.specs.declared.place.RefPlace.{RefPlace};
ghost use Rattle.ost_refs.specs.declared.place.RefFile.TheVariants.{Digest, Absent};

/// The file of a ref reads as the digest that was written, and no other content reads as this
/// digest.
pub fn ref_files_read_back()
    ensures written { (d : List ℕ) → is_digest d ≡ true → ref_file (ref_bytes d) ≡ Digest d }
    ensures read { (bytes d : List ℕ) → ref_file bytes ≡ Digest d → (bytes ≡ ref_bytes d) ×
        (is_digest d ≡ true) }
{}

/// After a write the ref reads as the written commit, and after a removal as absent.
pub fn changed_refs_are_read()
    ensures written { (root : Elements) (place : RefPlace) (d : List ℕ) (u w : View) → is_digest d
        ≡ true → WasReplaced (place_path root place) (ref_bytes d) u w
        → ref_in (shows w (place_path root place)) ≡ Digest d }
    ensures dropped { (root : Elements) (place : RefPlace) (w : View) → WasDropped
        (place_path root place) w
        → ref_in (shows w (place_path root place)) ≡ Absent }
{}

/// Different places of a store have different paths.
pub fn places_have_paths_of_their_own()
    ensures { (root : Elements) (a b : RefPlace) → place_path root a ≡ place_path root b → a ≡ b }
{}

/// The file of a ref has 65 bytes. The paths of refs have 4 elements below `refs/heads` and 5 below
/// `refs/remotes`.
pub fn places_as_numbers()
    ensures bytes { REF_FILE_BYTES ≡ 65 }
    ensures heads { HEAD_DEPTH ≡ 4 }
    ensures remotes { REMOTE_DEPTH ≡ 5 }
{}

/// The `config` of a store has at most 1,048,576 bytes, and the mode in it at most 32.
pub fn limits_as_numbers()
    ensures config { MOST_STORE_CONFIG_BYTES ≡ 1048576 }
    ensures mode { MOST_MODE_BYTES ≡ 32 }
{}
