//! The client's name.

ghost use Rattle.std.specs.Prelude.{◌≡◌, ◌≤◌, length, IfOk, option_map};
ghost use Rattle.std.specs.Option.{ForSome};
ghost use Rattle.bus_frame.specs.declared.limits.TheConstants.{MOST_NAME_BYTES};

use fp_base::Text;
use std::alloc::{AllocError, Global};

/// A bus name of at most 255 bytes.
#[derive(Drop)]
pub struct Name {
    /// The name's text.
    pub text: Text,
    ghost short: { length text ≤ MOST_NAME_BYTES },
}

/// Copies the client's name, if it is known. Errs only if memory runs out.
pub fn name_of(alloc: Global, client: Option<&str>) -> Result<Option<Name>, AllocError>
    requires { ForSome client (λ t. length t.now ≤ MOST_NAME_BYTES) }
    ensures { IfOk result
        (λ c. option_map (λ name. name.text) c ≡ option_map (λ t. t.now) client.entry) }
{
    match client {
        Some(client) => {
            let text = Text::from_str(alloc, client)?;
            Ok(Some(Name { text }))
        }
        None => Ok(None),
    }
}
