//! Running an exercise: changes over generated remotes.
ghost use Rattle.std.specs.Prelude.{◌≡◌, ◌≤◌, false, Option, Some, IfOk, IfErr, OnOk, IsErrOf};
ghost use Rattle.fp_host.specs.OverHost.{AtReturn, FailsOnly};
ghost use Rattle.fp_host.specs.Moments.{Goes};
ghost use Rattle.fp_host.specs.Remote.{Holdings};
ghost use Rattle.dep_states.specs.Sound.{IsSound};
ghost use Rattle.fl_words.specs.declared.command.Command.TheVariants.{Exercise as Exercising};
ghost use Rattle.fl_gen.specs.Exercise.{exercise_changes};
ghost use Rattle.fl_change.specs.Turns.{MayDo};
ghost use Rattle.fl_top.specs.Exercising.{exercising};
ghost use Rattle.fl_top.specs.Asked.{AsksRemotes};
ghost use Rattle.fl_change.specs.Performs.{AreToldFor};
ghost use Rattle.fl_top.specs.Exercises.{is_exercise, IsExercised};
ghost use Rattle.fl_top.specs.Exports.{IsInStep};
ghost use Rattle.fl_top.specs.Told.{IsReady, HasCauses};
ghost use Rattle.fl_top.specs.Moment.{RunsChanges};
ghost use Rattle.fl_top.specs.Return.{ChangesHaveEnded};
ghost use Rattle.fl_top.specs.Status.{IsOfCommand};

use crate::make_exercise;
use crate::refresh::bring_in_step;
use crate::running::run_command;
use dep_open::open;
use fl_change::RunEnd;
use fl_gen::GenRemotes;
use fl_words::{AppCount, Command};
use fp_host::{Host, Remotes, Source};
use par_digest::Gate;
use std::alloc::Global;
use std::thread::Threads;

/// Returns the number of applications of an exercise. Errs with the command itself if it isn't an
/// exercise.
pub(crate) fn exercise_in(command: Command) -> Result<AppCount, Command>
    ensures exercise { IfOk result (λ apps. command ≡ Exercising apps) }
    ensures other { IfErr result (λ other. other ≡ command) }
    ensures none { IfErr result (λ other. is_exercise other ≡ false) }
{
    match command {
        Command::Exercise(apps) => Ok(apps),
        Command::Change(change) => Err(Command::Change(change)),
        Command::List(listing) => Err(Command::List(listing)),
        Command::Show(thing) => Err(Command::Show(thing)),
        Command::Filter(source) => Err(Command::Filter(source)),
        Command::Batch => Err(Command::Batch),
        Command::Fsck => Err(Command::Fsck),
        Command::Export { remote, name } => Err(Command::Export { remote, name }),
    }
}

/// Runs an exercise over remotes that are generated for it, and returns the exit status: 6 if
/// memory runs out while they are generated.
pub(crate) fn run_exercise<T: Threads + Sync, H: Host, I: Source, G: Gate + Sync>(
    rt: &T,
    alloc: Global,
    input: &mut I,
    host: &mut H,
    apps: AppCount,
    gate: &G,
) -> u8
    ensures status { IsOfCommand (Exercising apps) result }
    ensures runs { IsExercised apps (I.left input.old) result (H.moments host.old)
        (H.moments host.new) }
    ensures fault_has_cause { FailsOnly H.Host host.old host.new
        (HasCauses (Some (Exercising apps))) (result ≡ 3) }
    ensures exports { (holds : Option Holdings) → result ≡ 0
        → AtReturn H.Host host.old host.new (λ u w. IsSound u → IsInStep ⊥ holds u w) }
    ensures no_remote_fault { result ≡ 4 → ⊥ }
    ensures left { I.left input.new ≡ I.left input.old }
    ensures later { I.faults input.old ≤ I.faults input.new }
{
    match GenRemotes::new(rt, alloc, apps.number()) {
        Ok(mut remotes) => {
            let command = Command::Exercise(apps);
            run_command(rt, alloc, input, host, &mut remotes, command, gate)
        }
        Err(_) => 6,
    }
}

/// Opens the installation and makes the changes of an exercise one after another, up to the first
/// refusal. If none is refused, prints the exercise's last line. Then refreshes `exports`; if a
/// change was refused, only if an operation was done before.
pub(crate) fn exercise<T: Threads + Sync, H: Host, R: Remotes>(
    rt: &T,
    alloc: Global,
    host: &mut H,
    remotes: &mut R,
    apps: &AppCount,
) -> Result<(), RunEnd>
    ensures any_moment { Goes (H.moments host.old) (H.moments host.new)
        (RunsChanges (R.holds remotes.old) (MayDo (exercise_changes apps.now)) (exercising apps.now))
        (ChangesHaveEnded (R.holds remotes.old) (exercising apps.now) result) }
    ensures exports { OnOk result
        (AreToldFor (MayDo (exercise_changes apps.now)) (R.holds remotes.old)
        → AtReturn H.Host host.old host.new (λ u w. IsSound u
        → IsInStep ⊥ (R.holds remotes.old) u w)) }
    ensures fault_has_cause { FailsOnly H.Host host.old host.new
        IsReady (AreToldFor (MayDo (exercise_changes apps.now)) (R.holds remotes.old)
        × IsErrOf result RunEnd.Fault) }
    ensures remotes { AsksRemotes (MayDo (exercise_changes apps.now))
        (IsErrOf result RunEnd.RemoteFault)
        (R.holds remotes.old) (R.holds remotes.new) (R.faults remotes.old) (R.faults remotes.new) }
{
    let opened = open(alloc, host)?;
    let mut acted = false;
    let changed = make_exercise(rt, alloc, host, remotes, &mut acted, opened, apps);
    bring_in_step(alloc, host, changed, acted)
}
