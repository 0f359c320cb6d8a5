//! Laws of the definitions in the contracts, for crates that build on them. Each is the contract of
//! a function with an empty body.
ghost use Rattle.std.specs.Prelude.{◌≡◌, ◌≢◌, ℕ, List, None, true, Ok};
ghost use Rattle.fp_host.specs.Paths.{Elements, absent, IsAbove};
ghost use Rattle.fp_host.specs.View.{View, IsTree};
ghost use Rattle.fp_host.specs.Outcome.{Disk};
ghost use Rattle.fp_name.specs.Hex.{is_digest};
ghost use Rattle.fp_name.specs.Refs.{Ref};
ghost use Rattle.fp_small.specs.declared.state.RemoteRow.{RemoteRow};
ghost use Rattle.fp_base.specs.declared.object.ObjKind.{ObjKind};
ghost use Rattle.fp_small.specs.Clear.{IsWithin};
ghost use Rattle.fp_small.specs.Places.{IsBare, repo, tmp};
ghost use Rattle.ost_model.specs.Objects.{Have, object_path, store};
ghost use Rattle.ost_model.specs.Remotes.{remote_at};
ghost use Rattle.ost_model.specs.Order.{first_fault};
ghost use Rattle.ost_refs.specs.Places.{place_path};
ghost use Rattle.ost_refs.specs.declared.place.RefPlace.{RefPlace};
ghost use Rattle.ost_commit.specs.declared.row.TreeRow.{TreeRow};
ghost use Rattle.ost_commit.specs.declared.built.Built.{Built};
ghost use Rattle.ost_commit.specs.Objects.{have_of};
ghost use Rattle.ost_commit.specs.Built.{BuiltCommit};
ghost use Rattle.ost_refs.specs.Offers.{offered};
ghost use Rattle.ost_export.specs.Remotes.{held_at};
ghost use Rattle.ost_export.specs.Staging.{AreWhole};
ghost use Rattle.ost_export.specs.Storing.{IsNoWork};
ghost use Rattle.ost_export.specs.Exports.{AreFit, CanExport, Exports, IsOffered, IsSpared, ref_path};

/// States that at each moment of an export these are as they were: the store's other refs, each
/// object that was there, and everything that is neither in the store nor above it nor in
/// `repo/tmp`.
pub fn exports_spare_the_rest()
    ensures refs { (have : Have) (root : Elements) (r : Ref) (commit : List ℕ) (place : RefPlace)
        (u w : View) → IsNoWork root → place_path root place ≢ ref_path root r
        → Exports have root r commit u w → IsSpared (place_path root place) u w }
    ensures objects { (have : Have) (root : Elements) (r : Ref) (commit d : List ℕ)
        (kind : ObjKind) (u w : View) → IsNoWork root
        → u.names (object_path root d kind) ≢ absent
        → Exports have root r commit u w → IsSpared (object_path root d kind) u w }
    ensures elsewhere { (have : Have) (root q : Elements) (r : Ref) (commit : List ℕ)
        (u w : View) → (IsWithin root q → ⊥) → (IsAbove q root → ⊥) → (IsWithin tmp q → ⊥)
        → q ≢ repo → Exports have root r commit u w → IsSpared q u w }
{}

/// States that each commit built from rows meets the conditions of an export: its objects match
/// their digests and occur once each, and it has no fault.
pub fn built_commits_are_whole()
    ensures { (rows : List TreeRow) (r : Ref) (subject : List ℕ) (timestamp : ℕ) (built : Built)
        → BuiltCommit rows r subject timestamp built → AreWhole built.objects
        × (first_fault (have_of built.objects) built.commit ≡ None) }
{}

/// States that the conditions on hosts can be met: on a host with nothing but its root, and on one
/// with nothing at the store's directory.
pub fn exports_can_be_done()
    ensures bare { (root : Elements) (r : Ref) (v : View) → IsBare v → CanExport root r v }
    ensures fit { (have : Have) (root : Elements) (v : View) → IsTree v → v.names root ≡ absent
        → AreFit have root v }
{}

/// States that a store after an export, as a remote at any URL, offers the commit under the ref,
/// and that the remote's objects are the store's.
pub fn exports_are_offers()
    ensures offered { (have : Have) (root : Elements) (r : Ref) (commit : List ℕ) (disk : Disk)
        (remote : RemoteRow) → is_digest commit ≡ true → IsOffered have root r commit disk
        → offered (held_at root disk) remote r ≡ Ok commit }
    ensures objects { (root : Elements) (disk : Disk) (url d : List ℕ) (kind : ObjKind)
        → remote_at (held_at root disk) url d kind ≡ store root disk d kind }
{}
