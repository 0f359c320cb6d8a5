//! Playing a case with a failure, and with a changed byte, at each call of the remotes.
use crate::judge::{Judge, Lines};
use crate::replay::{Replay, Start, Trouble};
use fpk_case_hosts::Program;
use fpk_case_text::message;
use std::alloc::{AllocError, Global};
use std::thread::Threads;

/// Lets each call of the remotes fail that the commands make if nothing fails, and lets each read
/// of an install return a changed first byte. Returns what is wrong with the first run that doesn't
/// report it, or after which a crash shows an unexpected state.
pub fn fail_remotes<P: Program, R: Threads + Sync>(
    program: &P,
    rt: &R,
    alloc: Global,
    start: &Start<'_>,
    plain: &Replay,
    judge: &mut Judge<'_>,
) -> Result<Option<String>, AllocError> {
    for (command, calls) in start.commands().zip(plain.remote_calls.iter()) {
        if let Some(text) = fail_command(program, rt, alloc, start, command, calls.all, judge)? {
            return Ok(Some(text));
        }
        let reads = match start.is_install(command) {
            true => calls.reads,
            false => 0,
        };
        if let Some(text) = turn_command(program, rt, alloc, start, command, reads, judge)? {
            return Ok(Some(text));
        }
    }
    Ok(None)
}

/// Lets each of these calls of the remotes fail in turn, in the command with this number.
fn fail_command<P: Program, R: Threads + Sync>(
    program: &P,
    rt: &R,
    alloc: Global,
    start: &Start<'_>,
    command: usize,
    calls: u64,
    judge: &mut Judge<'_>,
) -> Result<Option<String>, AllocError> {
    for call in 0..calls {
        let failed = start.replay(program, rt, alloc, Trouble::Remotes { command, call })?;
        if let Some(text) = judge_failed(program, rt, alloc, &failed, judge)? {
            return Ok(Some(format!(in alloc;
                "command {command}, call {call} of the remotes fails: {text}"
            )?));
        }
    }
    Ok(None)
}

/// Returns what is wrong after a failed call of the remotes: the status has to be 4, and a crash
/// has to show the state after the last printed line.
fn judge_failed<P: Program, R: Threads + Sync>(
    program: &P,
    rt: &R,
    alloc: Global,
    failed: &Replay,
    judge: &mut Judge<'_>,
) -> Result<Option<String>, AllocError> {
    let Some(status) = failed.other_status else {
        return message(alloc, "expected status 4");
    };
    let lines = Lines::exactly(failed.lines());
    judge.refused(program, rt, &failed.host, (status, 4), lines)
}

/// Lets each of these reads of the remotes return a changed first byte in turn, in the command with
/// this number.
fn turn_command<P: Program, R: Threads + Sync>(
    program: &P,
    rt: &R,
    alloc: Global,
    start: &Start<'_>,
    command: usize,
    reads: u64,
    judge: &mut Judge<'_>,
) -> Result<Option<String>, AllocError> {
    for read in 0..reads {
        let turned = start.replay(program, rt, alloc, Trouble::Turned { command, read })?;
        if let Some(text) = judge_turned(program, rt, &turned, judge)? {
            return Ok(Some(format!(in alloc;
                "command {command}, read {read} of the remotes is otherwise: {text}"
            )?));
        }
    }
    Ok(None)
}

/// Returns what is wrong after a read of the remotes returned a changed first byte. Either the
/// commands end as the case says, or the status is 1, the last line is the error, and a crash shows
/// the state after the line before.
fn judge_turned<P: Program, R: Threads + Sync>(
    program: &P,
    rt: &R,
    turned: &Replay,
    judge: &mut Judge<'_>,
) -> Result<Option<String>, AllocError> {
    let host = &turned.host;
    let lines = turned.lines();
    match turned.other_status {
        None => judge.moment(program, rt, host, host.calls(), Lines::exactly(lines)),
        Some(status) => {
            let before = Lines::exactly(lines.saturating_sub(1));
            judge.refused(program, rt, host, (status, 1), before)
        }
    }
}
