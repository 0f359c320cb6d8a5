//! An index of names, so that their list need not be searched.

ghost use Rattle.std.specs.Prelude.{◌≡◌, ℕ, List, Some, IfOk, if◌then◌else◌};
ghost use Rattle.std.specs.Option.{unwrap_or};
ghost use Rattle.std.specs.Str.{bytes_eq};
ghost use Rattle.fp_keyfile.specs.Index.{place_in};

use std::alloc::AllocError;
use std::collections::BTreeMap;

/// Returns the index of a name. A missing name is added with the index `next`. Errs if memory runs
/// out.
pub(crate) fn place_or_next<'a>(
    places: &mut BTreeMap<&'a str, usize>,
    name: &'a str,
    next: usize,
) -> Result<usize, AllocError>
    ensures place { IfOk result (λ at. at ≡ unwrap_or (place_in places.old name.now) next) }
    ensures after { IfOk result (λ at. (other : List ℕ) → place_in places.new other
        ≡ (if bytes_eq name.now other then Some at else place_in places.old other)) }
{
    Ok(*places.entry(name)?.or_insert(next))
}
