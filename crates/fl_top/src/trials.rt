//! The changes of an exercise, and its last line.
ghost use Rattle.std.specs.Prelude.{◌≡◌, Bool, IfOk, count_by};
ghost use Rattle.fp_host.specs.OverHost.{AtReturn};
ghost use Rattle.fp_name.specs.Pins.{same_kind};
ghost use Rattle.ost_walk.specs.Ends.{around};
ghost use Rattle.dep_states.specs.After.{IsGood};
ghost use Rattle.dep_states.specs.Sound.{Opens};
ghost use Rattle.fl_gen.specs.Exercise.{exercise_changes};
ghost use Rattle.fl_change.specs.Performs.{Acts, Rests, SettlesOver};
ghost use Rattle.fl_change.specs.Turns.{MayDo};
ghost use Rattle.fl_top.specs.Exercising.{is_of, end_text, end_answer, exercising};

use dep_states::Opened;
use fl_change::{RunEnd, change_all};
use fl_gen::exercise_commands;
use fl_lines::exercise_line;
use fl_words::AppCount;
use fp_base::Text;
use fp_host::{Host, Remotes};
use fp_name::RefKind;
use fp_small::{RefRow, State};
use std::alloc::{AllocError, Global};
use std::thread::Threads;

/// Makes the changes of an exercise on an opened installation, one after another up to the first
/// refusal, over these remotes. If none is refused, prints the numbers of deployed applications and
/// runtimes. Sets `acted` once an operation was done. The installation is settled at the end, done
/// or refused.
pub fn make_exercise<H: Host, R: Remotes>(
    rt: &(impl Threads + Sync),
    alloc: Global,
    host: &mut H,
    remotes: &mut R,
    acted: &mut bool,
    opened: Opened,
    apps: &AppCount,
) -> Result<Opened, RunEnd>
    requires good { IsGood opened }
    ensures acts { Acts (Opens opened) (MayDo (exercise_changes apps.now))
        (exercising apps.now) opened acted.old acted.new result
        (around H.Host R.Remotes host.old remotes.old)
        (around H.Host R.Remotes host.new remotes.new) }
    ensures settles { AtReturn H.Host host.old host.new
        (SettlesOver (R.holds remotes.old) opened result) }
{
    let changes = exercise_commands(alloc, apps.number())?;
    let changed = change_all(rt, alloc, host, remotes, acted, opened, changes.as_slice())?;
    say_end(alloc, host, remotes, changed, apps)
}

/// Prints the numbers of deployed applications and runtimes. Does no operation.
fn say_end<H: Host, R: Remotes>(
    alloc: Global,
    host: &mut H,
    remotes: &mut R,
    opened: Opened,
    apps: &AppCount,
) -> Result<Opened, RunEnd>
    ensures acts { (acted : Bool) → Acts (Rests opened) (MayDo (exercise_changes apps.now))
        (end_answer apps.now) opened acted acted result
        (around H.Host R.Remotes host.old remotes.old)
        (around H.Host R.Remotes host.new remotes.new) }
{
    let line = end_line(alloc, opened.state(), apps)?;
    host.say(line.as_str().as_bytes())?;
    Ok(opened)
}

/// Returns the last line of an exercise that leaves this state.
fn end_line(alloc: Global, state: &State, apps: &AppCount) -> Result<Text, AllocError>
    ensures { IfOk result (λ t. t ≡ end_text apps.now state.now) }
{
    let applications = count_of(state.refs.as_slice(), RefKind::App);
    let runtimes = count_of(state.refs.as_slice(), RefKind::Runtime);
    exercise_line(alloc, apps.number(), applications, runtimes)
}

/// Returns the number of rows with a ref of this kind.
fn count_of(rows: &[RefRow], kind: RefKind) -> u64
    ensures { result ≡ count_by (is_of kind) rows.now }
{
    let mut count = 0u64;
    for row in rows {
        count += u64::from(is_of(row, kind));
    }
    count
}

/// Returns whether a row has a ref of this kind.
fn is_of(row: &RefRow, kind: RefKind) -> bool
    ensures { result ≡ is_of kind row.now }
{
    match kind {
        RefKind::App => row.name.kind() == RefKind::App,
        RefKind::Runtime => row.name.kind() == RefKind::Runtime,
    }
}
