//! Filtering a recording of D-Bus messages.
ghost use Rattle.std.specs.Prelude.{◌≡◌, IfOk, IsErrOf, IsTrue};
ghost use Rattle.std.specs.Option.{ForSome};
ghost use Rattle.fp_host.specs.OverHost.{FailsAlone};
ghost use Rattle.fp_host.specs.Frame.{Observes};
ghost use Rattle.fp_host.specs.Moments.{Goes};
ghost use Rattle.fp_host.specs.Outcome.{shows};
ghost use Rattle.bus_frame.specs.Names.{is_unique};
ghost use Rattle.bus_stream.specs.Recordings.{recording_of as recording_in};
ghost use Rattle.fl_filter.specs.Filtered.{filtered};
ghost use Rattle.fl_words.specs.declared.command.PolicySource.TheVariants as sources;
ghost use Rattle.fl_top.specs.Answer.{launch_over, rules_over, filter_by, forwarding};
ghost use Rattle.fl_top.specs.Told.{files_at};
ghost use Rattle.fl_top.specs.Return.{EndsAnyway, LookHasEnded};
ghost use Rattle.fl_top.specs.Moment.{RunsLook};
ghost use Rattle.fl_top.specs.Telling.{Tells, IsRecording, Finds, end_of_filter as run_end_of};

use bus_policy::Policy;
use bus_stream::{RecordError, Recording};
use dep_open::read_state;
use fl_change::RunEnd;
use fl_filter::{FilterEnd, filter_recording, recording_of};
use fl_installed::launch_in;
use fl_launch::{LaunchText, policy_of as launch_policy, policy_of_system};
use fl_options::policy_of;
use fl_words::PolicySource;
use fp_host::Host;
use fp_name::RefName;
use fp_small::Refusal;
use std::alloc::Global;

/// Filters a recording by the rules of a source, and prints the messages that are forwarded to each
/// side.
pub(crate) fn filter_bytes<H: Host>(
    alloc: Global,
    host: &mut H,
    source: &PolicySource,
    bytes: &[u8],
) -> Result<(), RunEnd>
    ensures any_moment { Goes (H.moments host.old) (H.moments host.new)
        (RunsLook (λ shown. filter_by (files_at (H.moments host.old)) source.now shown
        bytes.now))
        (LookHasEnded (λ shown. filter_by (files_at (H.moments host.old)) source.now shown
        bytes.now) result) }
    ensures fault_has_cause { FailsAlone H.Host host.old host.new (IsErrOf result RunEnd.Fault) }
    ensures no_remote_fault { IsErrOf result RunEnd.RemoteFault → ⊥ }
{
    let recording = read(alloc, bytes)?;
    let policy = find_policy(alloc, host, source)?;
    forward(alloc, host, policy, &recording)
}

/// Parses a recording. Refuses its first bad line.
fn read(alloc: Global, bytes: &[u8]) -> Result<Recording, RunEnd>
    ensures read { IsRecording (recording_in bytes.now) result }
    ensures client { IfOk result (λ recording. ForSome recording.client (λ name. IsTrue
        (is_unique name))) }
{
    match recording_of(alloc, bytes) {
        Ok(recording) => Ok(recording),
        Err(RecordError::BadRecord(line)) => Err(RunEnd::Refused(Refusal::BadRecord { line })),
        Err(RecordError::NoMemory) => Err(RunEnd::NoMemory),
    }
}

/// Returns the policy of a source of rules: the rules of the words, or those of an application's
/// launch on one of the buses.
fn find_policy<H: Host>(
    alloc: Global,
    host: &mut H,
    source: &PolicySource,
) -> Result<Policy, RunEnd>
    ensures finds { Observes (λ v. Finds
        (rules_over (files_at (H.moments host.old)) source.now) result (shows v))
        (H.moments host.old) (H.moments host.new) }
    ensures fault_has_cause { FailsAlone H.Host host.old host.new (IsErrOf result RunEnd.Fault) }
    ensures no_remote_fault { IsErrOf result RunEnd.RemoteFault → ⊥ }
{
    match source {
        PolicySource::Rules(rules) => Ok(policy_of(alloc, rules.as_slice())?),
        PolicySource::Session(name) => session_policy(alloc, host, name),
        PolicySource::System(name) => system_policy(alloc, host, name),
    }
}

/// Returns the policy of an application on the session bus, by the grants of its launch.
fn session_policy<H: Host>(alloc: Global, host: &mut H, name: &RefName) -> Result<Policy, RunEnd>
    ensures finds { Observes (λ v. Finds
        (rules_over (files_at (H.moments host.old)) (sources.Session name.now)) result (shows v))
        (H.moments host.old) (H.moments host.new) }
    ensures fault_has_cause { FailsAlone H.Host host.old host.new (IsErrOf result RunEnd.Fault) }
    ensures no_remote_fault { IsErrOf result RunEnd.RemoteFault → ⊥ }
{
    let launch = find_launch(alloc, host, name)?;
    let id = name.app_id()?;
    Ok(launch_policy(alloc, &launch, &id)?)
}

/// Returns the policy of an application on the system bus, by the grants of its launch.
fn system_policy<H: Host>(alloc: Global, host: &mut H, name: &RefName) -> Result<Policy, RunEnd>
    ensures finds { Observes (λ v. Finds
        (rules_over (files_at (H.moments host.old)) (sources.System name.now)) result (shows v))
        (H.moments host.old) (H.moments host.new) }
    ensures fault_has_cause { FailsAlone H.Host host.old host.new (IsErrOf result RunEnd.Fault) }
    ensures no_remote_fault { IsErrOf result RunEnd.RemoteFault → ⊥ }
{
    let launch = find_launch(alloc, host, name)?;
    Ok(policy_of_system(alloc, &launch)?)
}

/// Returns the launch of an application without options, or refuses it.
fn find_launch<H: Host>(alloc: Global, host: &mut H, name: &RefName) -> Result<LaunchText, RunEnd>
    ensures finds { Observes (λ v. Finds
        (launch_over (files_at (H.moments host.old)) name.now) result (shows v))
        (H.moments host.old) (H.moments host.new) }
    ensures fault_has_cause { FailsAlone H.Host host.old host.new (IsErrOf result RunEnd.Fault) }
    ensures no_remote_fault { IsErrOf result RunEnd.RemoteFault → ⊥ }
{
    let state = read_state(alloc, host)?;
    match launch_in(alloc, host, &state, name, &[])? {
        Ok(launch) => Ok(launch),
        Err(refusal) => Err(RunEnd::Refused(refusal)),
    }
}

/// Prints the messages of a recording that the policy forwards.
fn forward<H: Host>(
    alloc: Global,
    host: &mut H,
    policy: Policy,
    recording: &Recording,
) -> Result<(), RunEnd>
    requires client { ForSome recording.now.client (λ name. IsTrue (is_unique name)) }
    ensures any_moment { Goes (H.moments host.old) (H.moments host.new)
        (Tells (forwarding (filtered policy recording.now)))
        (EndsAnyway (forwarding (filtered policy recording.now)) result) }
    ensures fault_has_cause { FailsAlone H.Host host.old host.new (IsErrOf result RunEnd.Fault) }
    ensures no_remote_fault { IsErrOf result RunEnd.RemoteFault → ⊥ }
{
    match filter_recording(alloc, host, policy, recording) {
        Ok(()) => Ok(()),
        Err(end) => Err(end_of_filter(end)),
    }
}

/// Converts the error of a filter to that of a command's work.
fn end_of_filter(end: FilterEnd) -> RunEnd
    ensures { result ≡ run_end_of end }
{
    match end {
        FilterEnd::Refused(refusal) => RunEnd::Refused(refusal),
        FilterEnd::Fault => RunEnd::Fault,
        FilterEnd::NoMemory => RunEnd::NoMemory,
    }
}
