//! The lines for exported files.
ghost use Rattle.std.specs.Prelude.{◌≡◌, IfOk};
ghost use Rattle.fl_lines.specs.Lines.{export_line as line_of_export};

use crate::escaping::escape;
use crate::lines::line_of_two;
use fp_base::Text;
use fp_host::Path;
use fp_name::RefName;
use std::alloc::{AllocError, Global};

/// Returns the line for an exported file: its path below `exports`, and the ref that exports it.
pub fn export_line(alloc: Global, path: &Path, name: &RefName) -> Result<Text, AllocError>
    ensures { IfOk result (λ t. t ≡ line_of_export path.now name.now) }
{
    let path = escape(alloc, path.text())?;
    line_of_two(alloc, path.as_str(), name.as_str())
}
