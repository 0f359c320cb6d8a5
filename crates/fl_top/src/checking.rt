//! Checking the installation's store.
ghost use Rattle.std.specs.Prelude.{◌≡◌, ◌++◌, ◌≤◌, length, count_by, flat_map, IfOk, OnOk, IsErrOf, string_bytes};
ghost use Rattle.fp_host.specs.OverHost.{AtReturn, ChangesNothing, FailsOnly};
ghost use Rattle.fp_host.specs.Moments.{Goes};
ghost use Rattle.fp_host.specs.Outcome.{shows};
ghost use Rattle.fp_small.specs.Places.{repo};
ghost use Rattle.ost_store.specs.Names.{CanList};
ghost use Rattle.fl_top.specs.Fsck.{finding_text as text_of_finding, is_bad as is_of_bad, report_text as text_of_report, IsReportText, IsListable};
ghost use Rattle.fl_top.specs.Moment.{RunsCheck};
ghost use Rattle.fl_top.specs.Return.{CheckHasEnded};

use dep_open::read_state;
use fl_change::RunEnd;
use fl_lines::{bad_line, fsck_line, stray_line};
use fp_base::Text;
use fp_host::{Host, HostEnd};
use fp_small::repo_path;
use ost_fsck::{Finding, Report, check_store};
use par_digest::Gate;
use std::alloc::{AllocError, Global};
use std::thread::Threads;

/// Prints a line for each bad object and each stray path in the store, and a last line with the
/// numbers of objects and of bad objects. Refuses an installation that is damaged. Condition: no
/// path below the store's `objects` has more than 128 elements.
pub(crate) fn check<T: Threads + Sync, H: Host, G: Gate + Sync>(
    rt: &T,
    alloc: Global,
    host: &mut H,
    gate: &G,
) -> Result<(), RunEnd>
    ensures any_moment { Goes (H.moments host.old) (H.moments host.new) RunsCheck
        (CheckHasEnded result) }
    ensures fault_has_cause { FailsOnly H.Host host.old host.new
        IsListable (IsErrOf result RunEnd.Fault) }
    ensures no_remote_fault { IsErrOf result RunEnd.RemoteFault → ⊥ }
{
    let state = read_state(alloc, host)?;
    let text = checked_text(rt, alloc, host, gate)?;
    host.say(text.as_str().as_bytes())?;
    Ok(())
}

/// Checks the store and returns the text of its report. Condition: no path below the store's
/// `objects` has more than 128 elements.
fn checked_text<T: Threads + Sync, H: Host, G: Gate + Sync>(
    rt: &T,
    alloc: Global,
    host: &mut H,
    gate: &G,
) -> Result<Text, HostEnd>
    ensures unchanged { ChangesNothing H.Host host.old host.new }
    ensures tells { IfOk result (λ text. AtReturn H.Host host.old host.new
        (λ u w. IsReportText (shows u) text)) }
    ensures fault_has_cause { FailsOnly H.Host host.old host.new
        (CanList repo) (IsErrOf result HostEnd.Fault) }
{
    let root = repo_path(alloc)?;
    let report = check_store(rt, alloc, host, &root, gate)?;
    let text = report_text(alloc, &report)?;
    Ok(text)
}

/// Returns the lines of a report: one for each finding, and a last one with the numbers of objects
/// and of bad objects.
fn report_text(alloc: Global, report: &Report) -> Result<Text, AllocError>
    ensures { IfOk result (λ t. t ≡ text_of_report report.now) }
{
    let bad = bad_count(report.findings.as_slice());
    let last = fsck_line(alloc, report.objects, bad)?;
    let mut text = String::new(alloc);
    push_findings(alloc, &mut text, report.findings.as_slice())?;
    text.push_str(last.as_str())?;
    Ok(Text::from_string(text))
}

/// Returns the number of bad objects among findings.
fn bad_count(findings: &[Finding]) -> u64
    ensures { result ≡ count_by is_of_bad findings.now }
{
    let mut count = 0u64;
    for finding in findings {
        count += u64::from(is_bad(finding));
    }
    count
}

/// Returns whether a finding is a bad object.
fn is_bad(finding: &Finding) -> bool
    ensures { result ≡ is_of_bad finding.now }
{
    match finding {
        Finding::Bad { .. } => true,
        Finding::Stray(_) => false,
    }
}

/// Appends a line for each finding.
fn push_findings(alloc: Global, text: &mut String, findings: &[Finding]) -> Result<(), AllocError>
    ensures { OnOk result (string_bytes text.new ≡ string_bytes text.old
        ++ flat_map text_of_finding findings.now) }
{
    for finding in findings {
        push_finding(alloc, text, finding)?;
    }
    Ok(())
}

/// Appends the line of a finding.
fn push_finding(alloc: Global, text: &mut String, finding: &Finding) -> Result<(), AllocError>
    ensures { OnOk result (string_bytes text.new ≡ string_bytes text.old
        ++ text_of_finding finding.now) }
{
    let line = finding_line(alloc, finding)?;
    text.push_str(line.as_str())
}

/// Returns the line of a finding.
fn finding_line(alloc: Global, finding: &Finding) -> Result<Text, AllocError>
    ensures { IfOk result (λ t. t ≡ text_of_finding finding.now) }
{
    match finding {
        Finding::Bad { digest, kind } => bad_line(alloc, digest, *kind),
        Finding::Stray(path) => stray_line(alloc, path),
    }
}
