//! Playing the steps of a case in order.
use crate::cutting::play_cuts;
use crate::expecting::expect;
use fpk_case_hosts::{Counts, Ending, Program, Stage};
use fpk_case_remotes::{Wares, with_digits};
use fpk_case_system::System;
use fpk_case_text::{Action, Case, Command, Fixture, Step, Wrong, difference, message};
use std::alloc::{AllocError, Global};
use std::thread::Threads;

/// Plays the steps of a case. Returns the first line that doesn't hold.
pub fn play<P: Program, T: Threads + Sync, R: System>(
    program: &P,
    rt: &T,
    alloc: Global,
    stage: &mut Stage<'_, '_, R>,
    case: &Case,
) -> Result<Option<Wrong>, AllocError> {
    let mut wares = Wares::new(alloc);
    for (at, step) in case.steps.iter().enumerate() {
        let after = case.steps.get(at.saturating_add(1)..).unwrap_or(&[]);
        if let Some(wrong) = wares.take(rt, step, after)? {
            return Ok(Some(wrong));
        }
        if let Some(text) = play_step(program, rt, alloc, stage, step, &wares)? {
            let line = step.line;
            return Ok(Some(Wrong { line, text }));
        }
    }
    Ok(None)
}

/// Plays a step. Returns what is wrong, if anything is.
fn play_step<P: Program, T: Threads + Sync, R: System>(
    program: &P,
    rt: &T,
    alloc: Global,
    stage: &mut Stage<'_, '_, R>,
    step: &Step,
    wares: &Wares,
) -> Result<Option<String>, AllocError> {
    match &step.action {
        Action::Give(given) => play_give(alloc, stage, given, step.bytes()),
        Action::BeginRemote { .. }
        | Action::Commit(_)
        | Action::Offer { .. }
        | Action::Break { .. }
        | Action::Replace { .. }
        | Action::FromHere => Ok(None),
        Action::Run(command) => {
            let expected = with_digits(alloc, wares, step.bytes())?;
            play_command(program, rt, alloc, stage, command, &expected, wares)
        }
        Action::Expect(expected) => expect(alloc, stage, expected, step.bytes(), wares),
    }
}

fn play_give<R: System>(
    alloc: Global,
    stage: &mut Stage<'_, '_, R>,
    given: &Fixture,
    bytes: &[u8],
) -> Result<Option<String>, AllocError> {
    if !given.owner.is_installation() {
        return Ok(None);
    }
    match stage.give(given, bytes)? {
        true => Ok(None),
        false => message(alloc, "it can't be put there"),
    }
}

/// Runs a command. If the case asks for it, the command runs first with its input truncated after
/// each byte, and with each call of its input failing, which has to end with status 5 and no
/// output.
fn play_command<P: Program, T: Threads + Sync, R: System>(
    program: &P,
    rt: &T,
    alloc: Global,
    stage: &mut Stage<'_, '_, R>,
    command: &Command,
    expected: &[u8],
    wares: &Wares,
) -> Result<Option<String>, AllocError> {
    if let Some(text) = play_cuts(program, rt, alloc, stage, command, expected, wares)? {
        return Ok(Some(text));
    }
    let unreached = command.pieces.map(|pieces| pieces.calls);
    for call in 0..unreached.unwrap_or(0) {
        let ran = stage.run(program, rt, command, Some(call), wares)?;
        if ran.status != 5 || !ran.printed.is_empty() {
            return Ok(Some(failed_text(alloc, call, ran.status)?));
        }
    }
    let ran = stage.run(program, rt, command, unreached, wares)?;
    judge(alloc, command, &ran, expected)
}

fn failed_text(alloc: Global, call: u64, status: u8) -> Result<String, AllocError> {
    format!(in alloc;
        "its input failed at call {call}: expected status 5 and nothing printed, but {status} came"
    )
}

/// Returns what is wrong with the output, the status, the files or the counts of a command.
fn judge(
    alloc: Global,
    command: &Command,
    ran: &Ending,
    expected: &[u8],
) -> Result<Option<String>, AllocError> {
    if ran.printed.as_slice() != expected {
        return Ok(Some(difference(alloc, "printed", expected, &ran.printed)?));
    }
    let (want, came) = (command.status, ran.status);
    if want != came {
        return Ok(Some(format!(in alloc; "expected status {want}, but {came} came")?));
    }
    if let Some(flaw) = &ran.flaw {
        return message(alloc, flaw.as_str());
    }
    match ran.counts {
        Some(counts) => judge_counts(alloc, command, counts),
        None => Ok(None),
    }
}

/// Returns what is wrong if the number of calls of the host, of created files or of appended bytes
/// isn't the expected one.
fn judge_counts(
    alloc: Global,
    command: &Command,
    counts: Counts,
) -> Result<Option<String>, AllocError> {
    let rows = [
        ("calls of the host", command.calls, counts.calls),
        ("files that are made", command.makes, counts.files),
        ("bytes that are appended", command.appends, counts.bytes),
    ];
    for (what, expected, came) in &rows {
        if expected.is_some_and(|expected| expected != *came) {
            let expected = expected.unwrap_or(0);
            return Ok(Some(format!(in alloc; "expected {expected} {what}, but {came} came")?));
        }
    }
    Ok(None)
}
