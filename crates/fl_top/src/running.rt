//! Running a command.
ghost use Rattle.std.specs.Prelude.{◌≡◌, ◌≢◌, ◌≤◌, ◌⊎◌, true, false, Option, Some, map, string_bytes, IfOk, OnOk, IsErrOf};
ghost use Rattle.fp_host.specs.OverHost.{AtReturn, ChangesNothing, FailsAlone, FailsOnly};
ghost use Rattle.fp_host.specs.Moments.{Goes, Rose};
ghost use Rattle.fp_host.specs.Remote.{Holdings};
ghost use Rattle.fp_small.specs.declared.refusal.Refusal.TheVariants.{BadWords};
ghost use Rattle.ost_walk.specs.Ends.{around};
ghost use Rattle.fl_lines.specs.Lines.{refusal_text};
ghost use Rattle.fl_words.specs.declared.command.Command.TheVariants.{Show as Showing, Filter as Filtering, Batch};
ghost use Rattle.fl_change.specs.Says.{Says, SaidBy, Refuses};
ghost use Rattle.fl_change.specs.Turns.{changing, MayDo};
ghost use Rattle.fp_host.specs.Outcome.{shows};
ghost use Rattle.dep_states.specs.Sound.{IsSound};
ghost use Rattle.fl_top.specs.Fsck.{HasReport};
ghost use Rattle.fl_top.specs.Exports.{IsInStep};
ghost use Rattle.fl_top.specs.Asked.{OpsBy, AsksRemotes, UpdatesBy};
ghost use Rattle.fl_change.specs.Current.{updates_all};
ghost use Rattle.fl_change.specs.Performs.{AreToldFor};
ghost use Rattle.fl_top.specs.Contract.{RunsCommandLine, feed_of};
ghost use Rattle.fl_top.specs.Return.{GoesOn, ChangesHaveEnded, CommandHasEnded, CommandWasRun, IsClosedBy};
ghost use Rattle.fl_top.specs.Moment.{RunsChanges, RunsCommand};
ghost use Rattle.fl_top.specs.Taken.{Takes, TakenBy, ReadsInput};
ghost use Rattle.fl_top.specs.Told.{Checks, IsChange, told_start, IsReady, HasCauses};
ghost use Rattle.fl_top.specs.Status.{IsAnswered, IsOfCommand, reads_input};

use crate::checking::check;
use crate::command_end::CommandEnd;
use crate::exercising::{exercise, exercise_in, run_exercise};
use crate::exporting::export;
use crate::filtering::filter_bytes;
use crate::input::read_input;
use crate::listing::list;
use crate::refresh::bring_in_step;
use crate::showing::shown_text;
use dep_open::open;
use fl_change::{RunEnd, change_all};
use fl_lines::refusal_line;
use fl_words::{Change, Command, PolicySource, Shown, WordsError, read_batch, read_words};
use fp_base::Text;
use fp_host::{Host, HostEnd, Remotes, Source};
use fp_small::Refusal;
use par_digest::{Gate, NoGate};
use std::alloc::{AllocError, Global};
use std::thread::Threads;

/// Runs the command of these words on the installation in the host, prints its answer on the host,
/// and returns the exit status: 0 if it was done, 1 if it was refused, 2 if the words are no
/// command, 3 if the host failed or its content didn't meet the command's condition (`HasCauses`),
/// 4 if the remotes failed, 5 if the input failed, 6 if memory ran out. `docs/THEOREM.md` explains
/// the contract.
pub fn run<H: Host, R: Remotes, I: Source>(
    rt: &(impl Threads + Sync),
    alloc: Global,
    words: &[String],
    input: &mut I,
    host: &mut H,
    remotes: &mut R,
) -> u8
    ensures { RunsCommandLine (map string_bytes words.now) result
        (around H.Host R.Remotes host.old remotes.old)
        (around H.Host R.Remotes host.new remotes.new)
        (feed_of I.Source input.old) (feed_of I.Source input.new) }
{
    run_gated(rt, alloc, words, input, host, remotes, &NoGate)
}

/// Runs the command of these words as `run` does, whatever the gate does. Only `fsck` uses the
/// gate: it calls the gate's hooks for each batch of objects whose digests it computes.
pub fn run_gated<H: Host, R: Remotes, I: Source, G: Gate + Sync>(
    rt: &(impl Threads + Sync),
    alloc: Global,
    words: &[String],
    input: &mut I,
    host: &mut H,
    remotes: &mut R,
    gate: &G,
) -> u8
    ensures { RunsCommandLine (map string_bytes words.now) result
        (around H.Host R.Remotes host.old remotes.old)
        (around H.Host R.Remotes host.new remotes.new)
        (feed_of I.Source input.old) (feed_of I.Source input.new) }
{
    match read_words(alloc, words) {
        Ok(command) => match exercise_in(command) {
            Ok(apps) => run_exercise(rt, alloc, input, host, apps, gate),
            Err(command) => run_command(rt, alloc, input, host, remotes, command, gate),
        },
        Err(WordsError::BadWords { index }) => refuse_words(alloc, host, index),
        Err(WordsError::NoMemory) => 6,
    }
}

/// Runs a command over these remotes, prints the line of its refusal if it is refused, and returns
/// the exit status. Condition: see `HasCauses`.
pub(crate) fn run_command<T: Threads + Sync, H: Host, R: Remotes, I: Source, G: Gate + Sync>(
    rt: &T,
    alloc: Global,
    input: &mut I,
    host: &mut H,
    remotes: &mut R,
    command: Command,
    gate: &G,
) -> u8
    ensures status { IsOfCommand command result }
    ensures any_moment { Goes (H.moments host.old) (H.moments host.new)
        (RunsCommand command (told_start (I.left input.old) (R.holds remotes.old) (H.moments host.old)))
        (CommandWasRun command (told_start (I.left input.old) (R.holds remotes.old) (H.moments host.old))
        result) }
    ensures fault_has_cause { FailsOnly H.Host host.old host.new
        (HasCauses (Some command)) (AreToldFor (OpsBy command (I.left input.old))
        (R.holds remotes.old) × (result ≡ 3)) }
    ensures found { Checks (Some command) → IsAnswered result → AtReturn H.Host host.old host.new
        (λ u w. HasReport (shows u)) }
    ensures exports { IsChange (Some command) → result ≡ 0 → AreToldFor
        (OpsBy command (I.left input.old)) (R.holds remotes.old) → AtReturn H.Host host.old host.new
        (λ u w. IsSound u → IsInStep (UpdatesBy command (I.left input.old))
        (R.holds remotes.old) u w) }
    ensures remotes { AsksRemotes (OpsBy command (I.left input.old)) (result ≡ 4)
        (R.holds remotes.old) (R.holds remotes.new) (R.faults remotes.old) (R.faults remotes.new) }
    ensures input { ReadsInput (Some command) result (ChangesNothing H.Host host.old host.new)
        (I.left input.old) (I.left input.new) (I.faults input.old) (I.faults input.new) }
{
    match perform(rt, alloc, input, host, remotes, command, gate) {
        Ok(()) => 0,
        Err(CommandEnd::Refused(refusal)) => refuse(alloc, host, refusal, 1),
        Err(CommandEnd::Fault) => 3,
        Err(CommandEnd::RemoteFault) => 4,
        Err(CommandEnd::InputFault) => 5,
        Err(CommandEnd::NoMemory) => 6,
    }
}

/// Does the work of a command, and prints all of its answer except the line of a refusal.
fn perform<T: Threads + Sync, H: Host, R: Remotes, I: Source, G: Gate + Sync>(
    rt: &T,
    alloc: Global,
    input: &mut I,
    host: &mut H,
    remotes: &mut R,
    command: Command,
    gate: &G,
) -> Result<(), CommandEnd>
    ensures any_moment { Goes (H.moments host.old) (H.moments host.new)
        (RunsCommand command (told_start (I.left input.old) (R.holds remotes.old) (H.moments host.old)))
        (CommandHasEnded command (told_start (I.left input.old) (R.holds remotes.old) (H.moments host.old))
        result) }
    ensures fault_has_cause { FailsOnly H.Host host.old host.new
        (HasCauses (Some command)) (AreToldFor (OpsBy command (I.left input.old))
        (R.holds remotes.old) × IsErrOf result CommandEnd.Fault) }
    ensures found { Checks (Some command) → IsClosedBy result → AtReturn H.Host host.old host.new
        (λ u w. HasReport (shows u)) }
    ensures exports { IsChange (Some command) → OnOk result (AreToldFor
        (OpsBy command (I.left input.old)) (R.holds remotes.old) → AtReturn H.Host host.old host.new
        (λ u w. IsSound u → IsInStep (UpdatesBy command (I.left input.old))
        (R.holds remotes.old) u w)) }
    ensures remotes { AsksRemotes (OpsBy command (I.left input.old))
        (IsErrOf result CommandEnd.RemoteFault) (R.holds remotes.old) (R.holds remotes.new)
        (R.faults remotes.old) (R.faults remotes.new) }
    ensures input { IsErrOf result CommandEnd.InputFault → (reads_input command ≡ true) × Rose
        (I.faults input.old) (I.faults input.new) × ChangesNothing H.Host host.old host.new }
    ensures taken { Takes command result (I.left input.old) (I.left input.new) }
    ensures later { I.faults input.old ≤ I.faults input.new }
{
    match command {
        Command::Change(change) => Ok(make_changes(rt, alloc, host, remotes, &[change])?),
        Command::List(listing) => Ok(list(alloc, host, listing)?),
        Command::Show(thing) => show(alloc, input, host, &thing),
        Command::Filter(source) => filter(alloc, input, host, &source),
        Command::Batch => batch(rt, alloc, input, host, remotes),
        Command::Fsck => Ok(check(rt, alloc, host, gate)?),
        Command::Export { remote, name } => export(rt, alloc, input, host, &remote, &name),
        Command::Exercise(apps) => Ok(exercise(rt, alloc, host, remotes, &apps)?),
    }
}

/// Prints what `show` answers for the input. Doesn't look at the installation.
fn show<H: Host, I: Source>(
    alloc: Global,
    input: &mut I,
    host: &mut H,
    thing: &Shown,
) -> Result<(), CommandEnd>
    ensures any_moment { (holds : Option Holdings) → GoesOn (Showing thing.now) (I.left input.old)
        holds result (H.moments host.old) (H.moments host.new) }
    ensures fault_has_cause { FailsAlone H.Host host.old host.new
        (IsErrOf result CommandEnd.Fault) }
    ensures no_remote_fault { IsErrOf result CommandEnd.RemoteFault → ⊥ }
    ensures input { IsErrOf result CommandEnd.InputFault → Rose
        (I.faults input.old) (I.faults input.new) × ChangesNothing H.Host host.old host.new }
    ensures taken { TakenBy result (I.left input.old) (I.left input.new) }
    ensures later { I.faults input.old ≤ I.faults input.new }
{
    let given = read_input(alloc, input)?;
    let text = shown_text(alloc, thing, given.as_slice())?;
    Ok(say(host, text.as_str().as_bytes())?)
}

/// Prints the messages that the rules of a source forward. The input is the recording.
fn filter<H: Host, I: Source>(
    alloc: Global,
    input: &mut I,
    host: &mut H,
    source: &PolicySource,
) -> Result<(), CommandEnd>
    ensures any_moment { (holds : Option Holdings) → GoesOn (Filtering source.now) (I.left input.old)
        holds result (H.moments host.old) (H.moments host.new) }
    ensures fault_has_cause { FailsAlone H.Host host.old host.new
        (IsErrOf result CommandEnd.Fault) }
    ensures no_remote_fault { IsErrOf result CommandEnd.RemoteFault → ⊥ }
    ensures input { IsErrOf result CommandEnd.InputFault → Rose
        (I.faults input.old) (I.faults input.new) × ChangesNothing H.Host host.old host.new }
    ensures taken { TakenBy result (I.left input.old) (I.left input.new) }
    ensures later { I.faults input.old ≤ I.faults input.new }
{
    let bytes = read_input(alloc, input)?;
    Ok(filter_bytes(alloc, host, source, bytes.as_slice())?)
}

/// Reads all changes from the lines of the input, and then makes them one after another.
fn batch<T: Threads + Sync, H: Host, R: Remotes, I: Source>(
    rt: &T,
    alloc: Global,
    input: &mut I,
    host: &mut H,
    remotes: &mut R,
) -> Result<(), CommandEnd>
    ensures any_moment { Goes (H.moments host.old) (H.moments host.new)
        (RunsCommand Batch (told_start (I.left input.old) (R.holds remotes.old) (H.moments host.old)))
        (CommandHasEnded Batch (told_start (I.left input.old) (R.holds remotes.old) (H.moments host.old))
        result) }
    ensures exports { OnOk result (AreToldFor (OpsBy Batch (I.left input.old))
        (R.holds remotes.old) → AtReturn H.Host host.old host.new
        (λ u w. IsSound u → IsInStep (UpdatesBy Batch (I.left input.old))
        (R.holds remotes.old) u w)) }
    ensures fault_has_cause { FailsOnly H.Host host.old host.new
        IsReady (AreToldFor (OpsBy Batch (I.left input.old))
        (R.holds remotes.old) × IsErrOf result CommandEnd.Fault) }
    ensures remotes { AsksRemotes (OpsBy Batch (I.left input.old))
        (IsErrOf result CommandEnd.RemoteFault) (R.holds remotes.old) (R.holds remotes.new)
        (R.faults remotes.old) (R.faults remotes.new) }
    ensures input { IsErrOf result CommandEnd.InputFault → Rose
        (I.faults input.old) (I.faults input.new) × ChangesNothing H.Host host.old host.new }
    ensures taken { TakenBy result (I.left input.old) (I.left input.new) }
    ensures later { I.faults input.old ≤ I.faults input.new }
{
    let bytes = read_input(alloc, input)?;
    let changes = read_batch(alloc, bytes.as_slice())?;
    Ok(make_changes(rt, alloc, host, remotes, changes.as_slice())?)
}

/// Opens the installation and makes the changes one after another, up to the first refusal. Then
/// refreshes `exports`; if a change was refused, only if an operation was done before.
fn make_changes<T: Threads + Sync, H: Host, R: Remotes>(
    rt: &T,
    alloc: Global,
    host: &mut H,
    remotes: &mut R,
    changes: &[Change],
) -> Result<(), RunEnd>
    ensures any_moment { Goes (H.moments host.old) (H.moments host.new)
        (RunsChanges (R.holds remotes.old) (MayDo changes.now) (changing changes.now))
        (ChangesHaveEnded (R.holds remotes.old) (changing changes.now) result) }
    ensures exports { OnOk result (AreToldFor (MayDo changes.now) (R.holds remotes.old)
        → AtReturn H.Host host.old host.new (λ u w. IsSound u
        → IsInStep (updates_all changes.now ≡ true) (R.holds remotes.old) u w)) }
    ensures fault_has_cause { FailsOnly H.Host host.old host.new
        IsReady (AreToldFor (MayDo changes.now) (R.holds remotes.old)
        × IsErrOf result RunEnd.Fault) }
    ensures remotes { AsksRemotes (MayDo changes.now) (IsErrOf result RunEnd.RemoteFault)
        (R.holds remotes.old) (R.holds remotes.new) (R.faults remotes.old) (R.faults remotes.new) }
{
    let opened = open(alloc, host)?;
    let mut acted = false;
    let changed = change_all(rt, alloc, host, remotes, &mut acted, opened, changes);
    bring_in_step(alloc, host, changed, acted)
}

/// Prints the line of words that are no command, and returns the exit status: 2, or 3 or 6 if that
/// failed.
fn refuse_words<H: Host>(alloc: Global, host: &mut H, index: u64) -> u8
    ensures status { (result ≡ 2) ⊎ ((result ≡ 3) ⊎ (result ≡ 6)) }
    ensures any_moment { Goes (H.moments host.old) (H.moments host.new)
        (Says (refusal_text (BadWords index))) (Refuses (refusal_text (BadWords index)) 2 result) }
    ensures fault_has_cause { FailsAlone H.Host host.old host.new (result ≡ 3) }
{
    refuse(alloc, host, Refusal::BadWords { index }, 2)
}

/// Prints the line of a refusal, and returns this exit status, or 3 or 6 if that failed.
fn refuse<H: Host>(alloc: Global, host: &mut H, refusal: Refusal, status: u8) -> u8
    requires { status ≢ 3 }
    ensures status { (result ≡ status) ⊎ ((result ≡ 3) ⊎ (result ≡ 6)) }
    ensures any_moment { Goes (H.moments host.old) (H.moments host.new)
        (Says (refusal_text refusal)) (Refuses (refusal_text refusal) status result) }
    ensures fault_has_cause { FailsAlone H.Host host.old host.new (result ≡ 3) }
{
    match say_refusal(alloc, host, refusal) {
        Ok(()) => status,
        Err(HostEnd::Fault) => 3,
        Err(HostEnd::NoMemory) => 6,
    }
}

/// Prints the line of a refusal.
fn say_refusal<H: Host>(alloc: Global, host: &mut H, refusal: Refusal) -> Result<(), HostEnd>
    ensures any_moment { Goes (H.moments host.old) (H.moments host.new)
        (Says (refusal_text refusal)) (SaidBy (refusal_text refusal) result) }
    ensures fault_has_cause { FailsAlone H.Host host.old host.new (IsErrOf result HostEnd.Fault) }
{
    let line = last_line(alloc, refusal)?;
    host.say(line.as_str().as_bytes())?;
    Ok(())
}

/// Returns the line of a refusal.
fn last_line(alloc: Global, refusal: Refusal) -> Result<Text, AllocError>
    ensures { IfOk result (λ t. t ≡ refusal_text refusal) }
{
    refusal_line(alloc, &refusal)
}

/// Prints a text.
pub(crate) fn say<H: Host>(host: &mut H, text: &[u8]) -> Result<(), HostEnd>
    ensures any_moment { Goes (H.moments host.old) (H.moments host.new) (Says text.now)
        (SaidBy text.now result) }
    ensures fault_has_cause { FailsAlone H.Host host.old host.new (IsErrOf result HostEnd.Fault) }
{
    host.say(text)?;
    Ok(())
}
