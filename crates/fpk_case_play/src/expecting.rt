//! Checks of what is at a path.
use fpk_case_hosts::{PathState, Stage};
use fpk_case_remotes::{Wares, text_with_digits, with_digits};
use fpk_case_system::System;
use fpk_case_text::{Expected, What, difference, message};
use std::alloc::{AllocError, Global};

/// Returns what is wrong at a path; none if the expected thing is there.
pub fn expect<R: System>(
    alloc: Global,
    stage: &mut Stage<'_, '_, R>,
    expected: &Expected,
    bytes: &[u8],
    wares: &Wares,
) -> Result<Option<String>, AllocError> {
    let path = text_with_digits(alloc, wares, &expected.path)?;
    let found = stage.find(&path)?;
    match &expected.what {
        What::File { mode } => {
            let bytes = with_digits(alloc, wares, bytes)?;
            judge_file(alloc, &found, &path, *mode, &bytes)
        }
        What::Link { text } => {
            let text = text_with_digits(alloc, wares, text)?;
            judge_link(alloc, &found, &path, &text)
        }
        What::HardLink { file } => {
            let file = text_with_digits(alloc, wares, file)?;
            judge_hard_link(alloc, &found, &stage.find(&file)?)
        }
        What::Folder => judge_folder(alloc, &found),
        What::Nothing => judge_nothing(alloc, &found),
    }
}

fn judge_file(
    alloc: Global,
    found: &PathState,
    path: &str,
    mode: u32,
    expected: &[u8],
) -> Result<Option<String>, AllocError> {
    match found {
        PathState::File { mode: came, .. } if *came != mode => Ok(Some(format!(in alloc;
            "{path}: expected mode {mode:o}, but {came:o} came"
        )?)),
        PathState::File { bytes, .. } if bytes.as_slice() != expected => {
            Ok(Some(difference(alloc, path, expected, bytes)?))
        }
        PathState::File { .. } => Ok(None),
        PathState::Nothing => message(alloc, "nothing stands there"),
        _ => message(alloc, "what stands there is no file"),
    }
}

fn judge_link(
    alloc: Global,
    found: &PathState,
    path: &str,
    expected: &str,
) -> Result<Option<String>, AllocError> {
    match found {
        PathState::Link { text } if text.as_str() == expected => Ok(None),
        PathState::Link { text } => {
            let (expected, came) = (expected.as_bytes(), text.as_bytes());
            Ok(Some(difference(alloc, path, expected, came)?))
        }
        PathState::Nothing => message(alloc, "nothing stands there"),
        _ => message(alloc, "what stands there is no symlink"),
    }
}

/// Returns what is wrong if the two aren't the same file.
fn judge_hard_link(
    alloc: Global,
    found: &PathState,
    other: &PathState,
) -> Result<Option<String>, AllocError> {
    match (found, other) {
        (PathState::File { id, .. }, PathState::File { id: other, .. }) if id == other => Ok(None),
        (PathState::File { .. }, PathState::File { .. }) => message(alloc, "these are two files"),
        _ => message(alloc, "these aren't both files"),
    }
}

fn judge_folder(alloc: Global, found: &PathState) -> Result<Option<String>, AllocError> {
    match found {
        PathState::Folder => Ok(None),
        PathState::Nothing => message(alloc, "nothing stands there"),
        _ => message(alloc, "what stands there is no folder"),
    }
}

fn judge_nothing(alloc: Global, found: &PathState) -> Result<Option<String>, AllocError> {
    match found {
        PathState::Nothing => Ok(None),
        _ => message(alloc, "something stands there"),
    }
}
