//! The limits of an order.
ghost use Rattle.std.specs.Prelude.{◌≡◌};
ghost use Rattle.ost_walk.specs.Steps.{limit_of};

use crate::ends::ObjectFault;
use ost_model::{MOST_LEVELS, MOST_OBJECTS};

/// Returns the limit that is exceeded by an object with `count` objects before it in the order, in
/// a directory at this depth below the root, or `None` if it exceeds no limit.
pub(crate) fn limit_of(count: usize, depth: u32) -> Option<ObjectFault>
    ensures { result ≡ limit_of count depth }
{
    if count >= MOST_OBJECTS {
        return Some(ObjectFault::TooMany);
    }
    if depth > MOST_LEVELS {
        return Some(ObjectFault::TooDeep);
    }
    None
}
