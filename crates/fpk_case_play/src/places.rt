//! Playing a case in memory, and on a real directory.
use crate::playing::play;
use fpk_case_hosts::{FolderStage, MemStage, Program, Stage, clear_folder, is_for_memory};
use fpk_case_system::{Capture, System};
use fpk_case_text::{Case, Wrong};
use std::alloc::{AllocError, Global};
use std::io;

/// Plays a case in memory, if it is one for that. Returns the first line that doesn't hold.
pub fn play_in_memory<P: Program, R: System>(
    program: &P,
    rt: &R,
    alloc: Global,
    case: &Case,
) -> Result<Option<Wrong>, AllocError> {
    if !is_for_memory(case) {
        return Ok(None);
    }
    let mut stage: Stage<'_, '_, R> = Stage::Memory(MemStage::new(alloc)?);
    play(program, rt, alloc, &mut stage, case)
}

/// Plays a case over a new directory, which is removed afterwards. Returns the first line that
/// doesn't hold.
pub fn play_in_folder<P: Program, R: System>(
    program: &P,
    rt: &R,
    alloc: Global,
    case: &Case,
) -> io::Result<Option<Wrong>> {
    clear_folder(rt, alloc)?;
    let capture = Capture::new(rt, alloc);
    let wrong = play_over(program, rt, alloc, &capture, case)?;
    clear_folder(rt, alloc)?;
    Ok(wrong)
}

fn play_over<P: Program, R: System>(
    program: &P,
    rt: &R,
    alloc: Global,
    capture: &Capture<'_, R>,
    case: &Case,
) -> io::Result<Option<Wrong>> {
    let mut stage = Stage::Folder(FolderStage::new(rt, alloc, capture)?);
    Ok(play(program, rt, alloc, &mut stage, case)?)
}
