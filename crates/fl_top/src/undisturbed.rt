//! Running a command without failures.
ghost use Rattle.std.specs.Prelude.{map, string_bytes};
ghost use Rattle.fp_host.specs.Moments.{Rose};
ghost use Rattle.ost_walk.specs.Ends.{around};
ghost use Rattle.fl_top.specs.Whole.{EndsUndisturbed};

use crate::running::run;
use fp_host::{Host, Remotes, Source};
use std::alloc::Global;
use std::thread::Threads;

/// Runs the command of these words as `run` does. If the installation is sound after each crash at
/// the start, and no count of faults rises, the whole answer is given, with its status; or memory
/// runs out, which is status 6, and the acknowledged operations stay done. Condition: if a commit
/// may be brought, the remotes tell what they hold; for `fsck`, no path below the store's `objects`
/// has more than 128 elements; for `export`, nothing is in the way of the remote that it makes.
pub fn run_undisturbed<H: Host, R: Remotes, I: Source>(
    rt: &(impl Threads + Sync),
    alloc: Global,
    words: &[String],
    input: &mut I,
    host: &mut H,
    remotes: &mut R,
) -> u8
    ensures { (Rose (I.faults input.old) (I.faults input.new) → ⊥)
        → EndsUndisturbed (map string_bytes words.now) (I.left input.old) result
        (around H.Host R.Remotes host.old remotes.old)
        (around H.Host R.Remotes host.new remotes.new) }
{
    run(rt, alloc, words, input, host, remotes)
}
