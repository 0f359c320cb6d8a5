//! The last mention of each permission so far.

ghost use Rattle.std.specs.Prelude.{◌≡◌, [], OnOk, IfOk};
ghost use Rattle.fl_context.specs.Grants.{IsAscending};
ghost use Rattle.fl_context.specs.Latest.{mentions_of, with_mention, merged_onto};

use fl_meta::{Layer, Mention, Permission, Value};
use std::alloc::{AllocError, Global};
use std::collections::BTreeMap;

/// The last value of each permission so far.
pub(crate) type Latest<'a> = BTreeMap<&'a Permission, &'a Value>;

/// Records a mention as the last one of its permission.
pub(crate) fn take_mention<'a>(
    latest: &mut Latest<'a>,
    mention: &'a Mention,
) -> Result<(), AllocError>
    ensures { OnOk result (mentions_of latest.new ≡ with_mention (mentions_of latest.old)
        mention.now) }
{
    latest.insert(&mention.permission, &mention.value)?;
    Ok(())
}

/// Records the mentions of a layer, in order.
#[tactic(auto, unfolding(crate::specs::Latest::merged_onto))]
pub(crate) fn take_layer<'a>(latest: &mut Latest<'a>, layer: &'a Layer) -> Result<(), AllocError>
    ensures { OnOk result (mentions_of latest.new ≡ merged_onto (mentions_of latest.old)
        layer.now) }
{
    for mention in layer.as_slice() {
        take_mention(latest, mention)?;
    }
    Ok(())
}

/// Returns a mention with copies of a permission and its value.
fn mention_of(permission: &Permission, value: &Value) -> Result<Mention, AllocError>
    ensures { IfOk result (λ m. m ≡ record { permission = permission.now; value = value.now }) }
{
    Ok(Mention {
        permission: permission.copy()?,
        value: value.copy()?,
    })
}

/// Copies the last mentions, in ascending order of permissions.
pub(crate) fn copied(alloc: Global, latest: &Latest<'_>) -> Result<Layer, AllocError>
    ensures mentions { IfOk result (λ layer. layer ≡ mentions_of latest.now) }
    ensures ascending { IfOk result IsAscending }
{
    let mut layer = Layer::new(alloc);
    for (permission, value) in latest.iter() {
        layer.push(mention_of(permission, value)?)?;
    }
    Ok(layer)
}
