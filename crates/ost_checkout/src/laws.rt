//! Laws of the definitions in the contract, for crates that build on it. Each is the contract of a
//! function with an empty body.
ghost use Rattle.std.specs.Prelude.{◌≡◌, ℕ, List};
ghost use Rattle.fp_host.specs.Paths.{Elements};
ghost use Rattle.fp_host.specs.View.{View};
ghost use Rattle.fp_host.specs.Outcome.{Disk, Leaves};
ghost use Rattle.fp_small.specs.Clear.{IsWithin};
ghost use Rattle.ost_checkout.specs.Checkout.{IsApart, ChecksOut};

/// States that nothing changes outside the checkout's directory: each name keeps its entry, and
/// each crash leaves there what some crash before would have left.
pub fn names_outside_stay()
    ensures name { (root : Elements) (commit : List ℕ) (to q : Elements) (u w : View)
        → IsApart root to → ChecksOut root commit to u w
        → (IsWithin to q → ⊥) → w.names q ≡ u.names q }
    ensures stop { (root : Elements) (commit : List ℕ) (to : Elements) (u w : View)
        → IsApart root to → ChecksOut root commit to u w
        → (disk : Disk) → Leaves w disk
        → (before : Disk) × Leaves u before
        × ((q : Elements) → (IsWithin to q → ⊥) → disk q ≡ before q) }
{}
