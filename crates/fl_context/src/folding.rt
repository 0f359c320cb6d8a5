//! Folding layers into grants.

ghost use Rattle.std.specs.Prelude.{◌≡◌, IfOk};
ghost use Rattle.fl_meta.specs.declared.permission.Permission.{Permission};
ghost use Rattle.fl_context.specs.Grants.{joined, last_mention, value_in, IsAscending};
ghost use Rattle.fl_context.specs.Latest.{merged};

use crate::grants::Grants;
use crate::latest::{Latest, copied, take_layer};
use fl_meta::Layer;
use std::alloc::{AllocError, Global};

/// Returns the last mention of each permission in all layers, in ascending order of permissions.
#[tactic(auto, unfolding(crate::specs::Latest::merged, crate::specs::Latest::merged_onto))]
fn merge(alloc: Global, layers: &[&Layer]) -> Result<Layer, AllocError>
    ensures merged { IfOk result (λ layer. layer ≡ merged (joined layers.now)) }
    ensures ascending { IfOk result IsAscending }
{
    let mut latest = Latest::new(alloc);
    for layer in layers {
        take_layer(&mut latest, layer)?;
    }
    copied(alloc, &latest)
}

/// Returns the grants of layers: each permission that they mention, with the value of its last
/// mention. A later layer takes precedence over an earlier one.
pub fn fold(alloc: Global, layers: &[&Layer]) -> Result<Grants, AllocError>
    ensures last { IfOk result (λ grants. (p : Permission) → value_in grants p ≡ last_mention
        (joined layers.now) p) }
    ensures ascending { IfOk result IsAscending }
{
    Ok(Grants::from_layer(merge(alloc, layers)?))
}
