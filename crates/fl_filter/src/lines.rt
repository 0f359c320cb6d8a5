//! The line of a message that goes to a side.
ghost use Rattle.std.specs.Prelude.{◌≡◌, IfOk};
ghost use Rattle.fl_filter.specs.Filtered.{out_text};

use bus_proxy::Out;
use fl_lines::side_word;
use fp_base::Text;
use std::alloc::{AllocError, Global};

/// Returns the line of a message: the side to which it goes, a space, its bytes in lower-case
/// hexadecimal, and a newline.
pub(crate) fn out_line(alloc: Global, out: &Out) -> Result<Text, AllocError>
    ensures { IfOk result (λ line. line ≡ out_text out.now) }
{
    let side = side_word(out.to);
    let digits = hex::encode(alloc, out.bytes.as_slice())?;
    Ok(Text::from_string(format!(in alloc; "{side} {digits}\n")?))
}
