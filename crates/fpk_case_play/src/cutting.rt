//! Commands whose input is truncated.
use fpk_case_hosts::{Program, Stage};
use fpk_case_remotes::Wares;
use fpk_case_system::System;
use fpk_case_text::{Command, bytes_text};
use std::alloc::{AllocError, Global};
use std::thread::Threads;

/// Runs a command with its input truncated after each byte, if the case asks for it. Returns what
/// is wrong with the first run that doesn't report the truncation, or whose other lines aren't the
/// first ones of those expected for the whole input.
pub fn play_cuts<P: Program, T: Threads + Sync, R: System>(
    program: &P,
    rt: &T,
    alloc: Global,
    stage: &mut Stage<'_, '_, R>,
    command: &Command,
    expected: &[u8],
    wares: &Wares,
) -> Result<Option<String>, AllocError> {
    let count = match command.has_cuts {
        true => command.input.len(),
        false => 0,
    };
    for length in 0..count {
        let input = command.input.get(..length).unwrap_or(&[]);
        let cut = Command::new(command.words.clone()?, Vec::from_slice(alloc, input)?);
        let ran = stage.run(program, rt, &cut, None, wares)?;
        if !is_told(alloc, input, ran.status, &ran.printed, expected)? {
            let (status, printed) = (ran.status, bytes_text(alloc, &ran.printed)?);
            return Ok(Some(format!(in alloc;
                "its input ends after {length} bytes: {printed} is printed, and status {status} came"
            )?));
        }
    }
    Ok(None)
}

/// Returns whether the status and the output are right for a truncated input: status 0 and first
/// lines of those expected, if the input ends with a newline; or status 1 and such lines, followed
/// by the line of an error.
fn is_told(
    alloc: Global,
    input: &[u8],
    status: u8,
    printed: &[u8],
    expected: &[u8],
) -> Result<bool, AllocError> {
    let printed = str::from_utf8(printed).unwrap_or("");
    let lines = printed.lines().count();
    match status {
        0 => Ok(are_first_lines(printed, lines, expected) && is_whole(input)),
        1 => {
            let before = lines.saturating_sub(1);
            let last = printed.lines().nth(before).unwrap_or("");
            Ok(are_first_lines(printed, before, expected) && is_fault(alloc, input, last)?)
        }
        _ => Ok(false),
    }
}

/// Returns whether the first lines of the output, this many, are the expected ones.
fn are_first_lines(printed: &str, count: usize, expected: &[u8]) -> bool {
    let expected = str::from_utf8(expected).unwrap_or("");
    count <= expected.lines().count()
        && printed
            .lines()
            .take(count)
            .zip(expected.lines())
            .all(|(came, wanted)| came == wanted)
}

/// Returns whether an input is empty or ends with a newline.
fn is_whole(input: &[u8]) -> bool {
    input.is_empty() || input.ends_with(b"\n")
}

/// Returns whether this line reports the record that is truncated. If the input ends with a
/// newline, it has to report a truncated message.
fn is_fault(alloc: Global, input: &[u8], line: &str) -> Result<bool, AllocError> {
    if is_whole(input) {
        return Ok(line.starts_with("error: message ") && line.ends_with(" cut"));
    }
    let record = input
        .iter()
        .filter(|byte| **byte == b'\n')
        .count()
        .saturating_add(1);
    let text = format!(in alloc; "error: record {record}")?;
    Ok(line == text.as_str())
}
