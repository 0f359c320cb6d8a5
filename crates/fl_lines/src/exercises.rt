//! The last line of an exercise.
ghost use Rattle.std.specs.Prelude.{◌≡◌, IfOk};
ghost use Rattle.fl_lines.specs.Lines.{exercise_text};

use fp_base::Text;
use std::alloc::{AllocError, Global};

/// Returns the last line of an exercise: its number of applications, and the numbers of
/// applications and runtimes that are deployed at its end.
pub fn exercise_line(
    alloc: Global,
    count: u32,
    applications: u64,
    runtimes: u64,
) -> Result<Text, AllocError>
    ensures { IfOk result (λ t. t ≡ exercise_text count applications runtimes) }
{
    let text = format!(in alloc;
        "exercise {count}: {applications} applications, {runtimes} runtimes\n"
    )?;
    Ok(Text::from_string(text))
}
