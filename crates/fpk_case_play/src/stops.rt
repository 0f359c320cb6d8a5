//! Playing a case with a crash, and with a failure, at each call of the host.
use crate::judge::{Judge, Lines};
use crate::likeness::is_like;
use crate::next::Next;
use crate::remote_faults::fail_remotes;
use crate::replay::{Replay, Start, Trouble, sections_of, start_of, wares_of};
use crate::showing::{State, reopen};
use fp_memhost::{Image, MemHost};
use fpk_case_hosts::{Program, last_open, oldest_image, open_names, present_image};
use fpk_case_remotes::{Wares, with_digits};
use fpk_case_text::{Case, Failure, ShownText, Stops, Wrong, difference, message};
use std::alloc::{AllocError, Global};
use std::thread::Threads;

/// The course of a section without a crash or a failure.
#[derive(Drop)]
struct Course {
    plain: Replay,
    /// For each printed line, the first call before which it was printed.
    printed_at: Vec<u64>,
    /// The state of the installation after each number of lines, from 0 on.
    states: Vec<State>,
}

impl Course {
    /// Returns the number of lines that were printed before this call.
    fn lines_at(&self, call: u64) -> usize {
        self.printed_at.iter().filter(|at| **at <= call).count()
    }
}

/// Plays each section of a case with a crash before each call of the host and at its end, and with
/// a failure of each call. Returns the first line that doesn't hold. What the installation shows
/// has to be the state after the last printed line, or after the next one.
pub fn play_stops<P: Program, R: Threads + Sync>(
    program: &P,
    rt: &R,
    alloc: Global,
    case: &Case,
    stops: &Stops,
) -> Result<Option<Wrong>, AllocError> {
    let mut shown = stops.shown.as_slice();
    for section in sections_of(alloc, case)? {
        let start = start_of(program, rt, alloc, case, section)?;
        let wares = wares_of(rt, alloc, case, section.to)?;
        let next = Next::new(alloc, stops, &wares)?;
        let course = course_of(program, rt, alloc, &start, &next)?;
        if let Some(wrong) = judge_shown(alloc, &wares, shown, &course.states)? {
            return Ok(Some(wrong));
        }
        shown = shown.get(course.states.len()..).unwrap_or(&[]);
        if let Some(text) = judge_course(program, rt, alloc, &start, stops, &course, &next)? {
            return Ok(Some(wrong_at(stops.line, text)));
        }
    }
    match shown.first() {
        Some(left) => {
            let text = String::from_str(alloc, "the case prints no line for this `shown`")?;
            Ok(Some(wrong_at(left.line, text)))
        }
        None => Ok(None),
    }
}

/// Returns what is wrong with a section that crashes or of which a call fails.
fn judge_course<P: Program, R: Threads + Sync>(
    program: &P,
    rt: &R,
    alloc: Global,
    start: &Start<'_>,
    stops: &Stops,
    course: &Course,
    next: &Next<'_>,
) -> Result<Option<String>, AllocError> {
    let host = &course.plain.host;
    if let Some(text) = judge_open(program, rt, alloc, course, &stops.open, next)? {
        return Ok(Some(text));
    }
    let mut judge = Judge::new(alloc, next, &course.states);
    if let Some(text) = stop_everywhere(program, rt, alloc, course, &mut judge)? {
        return Ok(Some(text));
    }
    if let Some(text) = fail_everywhere(program, rt, alloc, start, host.calls(), &mut judge)? {
        return Ok(Some(text));
    }
    fail_remotes(program, rt, alloc, start, &course.plain, &mut judge)
}

fn wrong_at(line: u64, text: String) -> Wrong {
    Wrong { line, text }
}

/// Plays a section without a crash or a failure, and records the state after each line.
fn course_of<P: Program, R: Threads + Sync>(
    program: &P,
    rt: &R,
    alloc: Global,
    start: &Start<'_>,
    next: &Next<'_>,
) -> Result<Course, AllocError> {
    let plain = start.replay(program, rt, alloc, Trouble::Nothing)?;
    let mut printed_at = Vec::new(alloc);
    let mut states = Vec::new(alloc);
    let image = present_image(alloc, &plain.host, 0)?;
    add_state(program, rt, alloc, &mut states, image, next)?;
    for line in 1..=plain.lines() {
        let call = call_after(program, rt, alloc, start, &plain, line)?;
        printed_at.push(call)?;
        let image = present_image(alloc, &plain.host, call)?;
        add_state(program, rt, alloc, &mut states, image, next)?;
    }
    Ok(Course {
        plain,
        printed_at,
        states,
    })
}

/// Returns the first call before which this number of lines was printed. It is found by bisection,
/// since a printed line stays printed.
fn call_after<P: Program, R: Threads + Sync>(
    program: &P,
    rt: &R,
    alloc: Global,
    start: &Start<'_>,
    plain: &Replay,
    lines: usize,
) -> Result<u64, AllocError> {
    let (mut low, mut high) = (0u64, plain.host.calls());
    for _ in 0..64 {
        if low >= high {
            break;
        }
        let middle = low.saturating_add(high.saturating_sub(low) / 2);
        if lines_before(program, rt, alloc, start, middle)? < lines {
            low = middle.saturating_add(1);
        } else {
            high = middle;
        }
    }
    Ok(high)
}

/// Returns the number of lines that were printed before this call: those that are printed if it
/// fails.
fn lines_before<P: Program, R: Threads + Sync>(
    program: &P,
    rt: &R,
    alloc: Global,
    start: &Start<'_>,
    call: u64,
) -> Result<usize, AllocError> {
    let failure = Failure {
        call,
        is_done: false,
    };
    Ok(
        start
            .replay(program, rt, alloc, Trouble::Host(failure))?
            .lines(),
    )
}

/// Adds the state of an image. A list prints several lines in one call and changes nothing, so the
/// states after them are the same.
fn add_state<P: Program, R: Threads + Sync>(
    program: &P,
    rt: &R,
    alloc: Global,
    states: &mut Vec<State>,
    image: Option<Image>,
    next: &Next<'_>,
) -> Result<(), AllocError> {
    if let Some(image) = image {
        if let Some(state) = reopen(program, rt, alloc, image, next)? {
            states.push(state)?;
        }
    }
    Ok(())
}

/// Compares the lists of each state with the next blocks `shown` of the case, if it has any.
/// Returns the line of the first that differs or is missing.
fn judge_shown(
    alloc: Global,
    wares: &Wares,
    expected: &[ShownText],
    states: &[State],
) -> Result<Option<Wrong>, AllocError> {
    for (shown, state) in expected.iter().zip(states) {
        let text = with_digits(alloc, wares, &shown.text)?;
        let lists = &state.shown.lists;
        if text.as_slice() != lists.as_slice() {
            let text = difference(alloc, "shown", &text, lists)?;
            return Ok(Some(wrong_at(shown.line, text)));
        }
    }
    match expected.last() {
        Some(shown) if expected.len() < states.len() => {
            let many = states.len();
            let text = format!(in alloc; "expected `shown` {many} times")?;
            Ok(Some(wrong_at(shown.line, text)))
        }
        _ => Ok(None),
    }
}

/// Compares the names at which a crash may bring something back, at the last moment where it may
/// bring back anything, with those that the case gives, if it does. Then the oldest entries of all
/// names have to show the state before the last line, and the present ones that after it.
fn judge_open<P: Program, R: Threads + Sync>(
    program: &P,
    rt: &R,
    alloc: Global,
    course: &Course,
    expected: &[u8],
    next: &Next<'_>,
) -> Result<Option<String>, AllocError> {
    if expected.is_empty() {
        return Ok(None);
    }
    let host = &course.plain.host;
    let calls = last_open(host)?;
    let names = open_names(alloc, host, calls)?;
    if names.as_bytes() != expected {
        let text = difference(alloc, "may come back", expected, names.as_bytes())?;
        return Ok(Some(text));
    }
    judge_last(program, rt, alloc, course, calls, next)
}

/// Returns what is wrong if the oldest entries of all names don't show the state before the last
/// line, or the present entries don't show that after it.
fn judge_last<P: Program, R: Threads + Sync>(
    program: &P,
    rt: &R,
    alloc: Global,
    course: &Course,
    calls: u64,
    next: &Next<'_>,
) -> Result<Option<String>, AllocError> {
    let lines = course.states.len().saturating_sub(1);
    let host = &course.plain.host;
    let image = oldest_image(alloc, host, calls)?;
    if !shows(
        program,
        rt,
        alloc,
        image,
        course,
        lines.saturating_sub(1),
        next,
    )? {
        return message(
            alloc,
            "the oldest entries don't show the state before the last line",
        );
    }
    let image = present_image(alloc, host, calls)?;
    if !shows(program, rt, alloc, image, course, lines, next)? {
        return message(
            alloc,
            "the present entries don't show the state after the last line",
        );
    }
    Ok(None)
}

/// Returns whether an image shows the state after this number of lines.
fn shows<P: Program, R: Threads + Sync>(
    program: &P,
    rt: &R,
    alloc: Global,
    image: Option<Image>,
    course: &Course,
    lines: usize,
    next: &Next<'_>,
) -> Result<bool, AllocError> {
    let Some(image) = image else {
        return Ok(false);
    };
    let state = reopen(program, rt, alloc, image, next)?;
    Ok(is_like(state.as_ref(), course.states.get(lines), &course.states))
}

/// Judges a crash before each call of a section and at its end. Returns what is wrong with the
/// first bad one.
fn stop_everywhere<P: Program, R: Threads + Sync>(
    program: &P,
    rt: &R,
    alloc: Global,
    course: &Course,
    judge: &mut Judge<'_>,
) -> Result<Option<String>, AllocError> {
    let host = &course.plain.host;
    for call in 0..=host.calls() {
        let lines = Lines::or_next(course.lines_at(call));
        if let Some(text) = judge.moment(program, rt, host, call, lines)? {
            let text = format!(in alloc; "stopped before call {call}: {text}")?;
            return Ok(Some(text));
        }
    }
    Ok(None)
}

/// Lets each call of a section fail, once without and once with being done. Returns what is wrong
/// with the first bad run.
fn fail_everywhere<P: Program, R: Threads + Sync>(
    program: &P,
    rt: &R,
    alloc: Global,
    start: &Start<'_>,
    calls: u64,
    judge: &mut Judge<'_>,
) -> Result<Option<String>, AllocError> {
    for call in 0..calls {
        for is_done in [false, true] {
            let failure = Failure { call, is_done };
            if let Some(text) = fail_call(program, rt, alloc, start, failure, judge)? {
                let sign = if is_done { "!+" } else { "!" };
                return Ok(Some(format!(in alloc; "{sign} {call}: {text}")?));
            }
        }
    }
    Ok(None)
}

/// Lets a call fail. Returns what is wrong: the status has to be 3, and a crash has to show the
/// state after the last printed line or after the next one.
fn fail_call<P: Program, R: Threads + Sync>(
    program: &P,
    rt: &R,
    alloc: Global,
    start: &Start<'_>,
    failure: Failure,
    judge: &mut Judge<'_>,
) -> Result<Option<String>, AllocError> {
    let failed = start.replay(program, rt, alloc, Trouble::Host(failure))?;
    let Some(status) = failed.other_status else {
        return message(alloc, "expected status 3");
    };
    let lines = Lines::or_next(failed.lines());
    judge.refused(program, rt, &failed.host, (status, 3), lines)
}
