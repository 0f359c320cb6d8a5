//! Laws of all names. Each law is the contract of a function with an empty body.

ghost use Rattle.std.specs.Prelude.{◌≡◌, ◌↔◌, ℕ, List, true, false, Some};
ghost use Rattle.std.specs.Ordering.{nat_cmp};
ghost use Rattle.std.specs.Cmp.Lexicographic.{slice_cmp};
ghost use Rattle.std.specs.Str.{bytes_eq};
ghost use Rattle.fp_name.specs.FileNames.{is_file_name};
ghost use Rattle.fp_name.specs.Grammar.{is_id, is_arch, is_branch, is_remote_name};
ghost use Rattle.fp_name.specs.Hex.{hex as hex_text, unhex, is_digest};
ghost use Rattle.fp_name.specs.Refs.{Ref, is_ref, ref_text, ref_of};
ghost use Rattle.fp_name.specs.Pins.{is_pin, pin_matches};
ghost use Rattle.fp_name.specs.declared.limits.TheConstants.{DIGEST_DIGITS, MOST_NAME_BYTES, MOST_REMOTE_NAME_BYTES, MOST_URL_BYTES};

use crate::app_id::AppId;
use crate::digest::Digest;
use crate::pin_pattern::PinPattern;
use crate::ref_name::RefName;
use crate::remote_name::RemoteName;
use crate::remote_url::RemoteUrl;
use fp_base::Text;

/// States that refs read back: the text of a valid ref parses to that ref, and a text that parses
/// to a ref is that ref's text.
pub fn refs_read_back()
    ensures written { (r : Ref) → is_ref r ≡ true → ref_of (ref_text r) ≡ Some r }
    ensures read { (text : List ℕ) (r : Ref) → ref_of text ≡ Some r → (text ≡ ref_text r) ×
        (is_ref r ≡ true) }
{}

/// States that digests read back: the text of a digest parses to that digest, and a text that
/// parses to a digest is that digest's text.
pub fn digests_read_back()
    ensures written { (d : List ℕ) → is_digest d ≡ true → unhex (hex_text d) ≡ Some d }
    ensures read { (text d : List ℕ) → unhex text ≡ Some d → (text ≡ hex_text d) ×
        (is_digest d ≡ true) }
{}

/// States that each part of a ref, the name of a remote and the text of a digest may be file names.
pub fn names_are_file_names()
    ensures ids { (text : List ℕ) → is_id text ≡ true → is_file_name text ≡ true }
    ensures archs { (text : List ℕ) → is_arch text ≡ true → is_file_name text ≡ true }
    ensures branches { (text : List ℕ) → is_branch text ≡ true → is_file_name text ≡ true }
    ensures remotes { (text : List ℕ) → is_remote_name text ≡ true → is_file_name text ≡ true }
    ensures digests { (d : List ℕ) → is_digest d ≡ true → is_file_name (hex_text d) ≡ true }
{}

/// States that the text of a ref is a pattern that matches this ref alone.
pub fn refs_are_patterns()
    ensures pattern { (r : Ref) → is_ref r ≡ true → is_pin (ref_text r) ≡ true }
    ensures alone { (r s : Ref) → is_ref r ≡ true → (pin_matches (ref_text r) s ≡ true) ↔ (s ≡ r) }
{}

/// States that names are ordered by the bytes of their texts, and digests by their own bytes.
pub fn names_are_ordered_by_text()
    ensures texts { (a b : List ℕ) → ⟦<Text as Ord>⟧.cmp a b ≡ slice_cmp nat_cmp a b }
    ensures digests { (a b : List ℕ) → ⟦<Digest as Ord>⟧.cmp a b ≡ slice_cmp nat_cmp a b }
    ensures ids { (a b : List ℕ) → ⟦<AppId as Ord>⟧.cmp a b ≡ slice_cmp nat_cmp a b }
    ensures remotes { (a b : List ℕ) → ⟦<RemoteName as Ord>⟧.cmp a b ≡ slice_cmp nat_cmp a b }
    ensures urls { (a b : List ℕ) → ⟦<RemoteUrl as Ord>⟧.cmp a b ≡ slice_cmp nat_cmp a b }
    ensures patterns { (a b : List ℕ) → ⟦<PinPattern as Ord>⟧.cmp a b ≡ slice_cmp nat_cmp a b }
    ensures refs { (a b : Ref) → ⟦<RefName as Ord>⟧.cmp a b ≡ slice_cmp nat_cmp (ref_text a)
        (ref_text b) }
{}

/// States that names are equal exactly if their texts are, and digests exactly if their bytes are.
pub fn names_are_equal_by_text()
    ensures texts { (a b : List ℕ) → ⟦<Text as PartialEq>⟧.eq a b ≡ bytes_eq a b }
    ensures digests { (a b : List ℕ) → ⟦<Digest as PartialEq>⟧.eq a b ≡ bytes_eq a b }
    ensures ids { (a b : List ℕ) → ⟦<AppId as PartialEq>⟧.eq a b ≡ bytes_eq a b }
    ensures remotes { (a b : List ℕ) → ⟦<RemoteName as PartialEq>⟧.eq a b ≡ bytes_eq a b }
    ensures urls { (a b : List ℕ) → ⟦<RemoteUrl as PartialEq>⟧.eq a b ≡ bytes_eq a b }
    ensures patterns { (a b : List ℕ) → ⟦<PinPattern as PartialEq>⟧.eq a b ≡ bytes_eq a b }
    ensures refs { (a b : Ref) → ⟦<RefName as PartialEq>⟧.eq a b ≡ bytes_eq (ref_text a)
        (ref_text b) }
{}

/// States the limits of names as numbers. A digest is a SHA-256 digest, with two digits for each
/// byte.
pub fn limits_as_numbers()
    ensures name { MOST_NAME_BYTES ≡ 255 }
    ensures remote_name { MOST_REMOTE_NAME_BYTES ≡ 64 }
    ensures url { MOST_URL_BYTES ≡ 1024 }
    ensures digest { DIGEST_DIGITS ≡ 64 }
{}
