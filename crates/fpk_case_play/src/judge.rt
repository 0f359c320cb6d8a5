//! Checks of what a crash may leave.
use crate::likeness::{is_like, other_text};
use crate::next::Next;
use crate::showing::{State, open, state_of};
use fp_memhost::{Image, MemHost};
use fpk_case_hosts::{Program, image_look, moment_look, outcomes, with_number};
use fpk_case_remotes::fault_in;
use fpk_case_text::message;
use std::alloc::{AllocError, Global};
use std::collections::{BTreeMap, BTreeSet};
use std::thread::Threads;

/// The numbers of printed lines whose states a crash may leave.
#[derive(Clone, Copy, PartialEq)]
pub struct Lines {
    /// The least number of lines.
    pub first: usize,
    /// The greatest number of lines.
    pub last: usize,
}

impl Lines {
    /// Returns this number alone.
    pub fn exactly(count: usize) -> Self {
        Lines {
            first: count,
            last: count,
        }
    }

    /// Returns this number and the next one: the change of the next line may be on the disk
    /// already.
    pub fn or_next(count: usize) -> Self {
        Lines {
            first: count,
            last: count.saturating_add(1),
        }
    }

    /// Returns a hash of these numbers and a moment's hash.
    fn look(self, moment: u64) -> u64 {
        let first = with_number(moment, self.first as u64);
        with_number(first, self.last as u64)
    }
}

/// Judges what a crash may leave, moment after moment. A moment or an image with the same hash as
/// an earlier one isn't judged again.
#[derive(Drop)]
pub struct Judge<'a> {
    alloc: Global,
    /// The command that is run on each image, and the remotes.
    next: &'a Next<'a>,
    /// The state of the installation after each number of lines, from 0 on.
    states: &'a [State],
    /// The hashes of the moments that were judged, with their numbers of lines.
    moments: BTreeSet<u64>,
    /// The hashes of the images that were judged, each with a number of lines whose state it shows.
    outcomes: BTreeMap<u64, usize>,
}

impl<'a> Judge<'a> {
    /// Creates a judge that has judged nothing yet.
    pub fn new(alloc: Global, next: &'a Next<'a>, states: &'a [State]) -> Self {
        Judge {
            alloc,
            next,
            states,
            moments: BTreeSet::new(alloc),
            outcomes: BTreeMap::new(alloc),
        }
    }

    /// Returns what is wrong after a failed call. The first of the two statuses has to be the
    /// second, and a crash has to show the state after one of these numbers of lines.
    pub fn refused<P: Program, R: Threads + Sync>(
        &mut self,
        program: &P,
        rt: &R,
        host: &MemHost,
        statuses: (u8, u8),
        lines: Lines,
    ) -> Result<Option<String>, AllocError> {
        let (came, wanted) = statuses;
        if came != wanted {
            return Ok(Some(format!(in self.alloc; "expected status {wanted}, but {came} came")?));
        }
        self.moment(program, rt, host, host.calls(), lines)
    }

    /// Returns what is wrong with the first bad image that a crash after this number of calls may
    /// leave. Each has to be complete, and to show the state after one of these numbers of lines.
    pub fn moment<P: Program, R: Threads + Sync>(
        &mut self,
        program: &P,
        rt: &R,
        host: &MemHost,
        calls: u64,
        lines: Lines,
    ) -> Result<Option<String>, AllocError> {
        let look = lines.look(moment_look(self.alloc, host, calls)?);
        if self.moments.contains(&look) {
            return Ok(None);
        }
        self.moments.insert(look)?;
        for image in outcomes(self.alloc, host, calls)? {
            if let Some(text) = self.outcome(program, rt, image, lines)? {
                return Ok(Some(text));
            }
        }
        Ok(None)
    }

    /// Returns what is wrong with an image.
    fn outcome<P: Program, R: Threads + Sync>(
        &mut self,
        program: &P,
        rt: &R,
        image: Image,
        lines: Lines,
    ) -> Result<Option<String>, AllocError> {
        if let Some(text) = fault_in(&image, self.next.wares.commits()) {
            return message(self.alloc, text);
        }
        let Some(opened) = open(self.alloc, image)? else {
            return self.unopened(lines);
        };
        let look = image_look(&opened.image);
        if self.is_expected(self.outcomes.get(&look), lines) {
            return Ok(None);
        }
        let Some(state) = state_of(program, rt, self.alloc, opened, self.next)? else {
            return self.unopened(lines);
        };
        for count in [lines.first, lines.last] {
            if is_like(Some(&state), self.states.get(count), self.states) {
                self.outcomes.insert(look, count)?;
                return Ok(None);
            }
        }
        Ok(Some(other_text(self.alloc, lines.first, &state, self.states)?))
    }

    /// Returns whether the state after `count` lines is like that after one of these numbers of
    /// lines.
    fn is_expected(&self, count: Option<&usize>, lines: Lines) -> bool {
        let Some(count) = count else {
            return false;
        };
        let state = self.states.get(*count);
        is_like(state, self.states.get(lines.first), self.states)
            || is_like(state, self.states.get(lines.last), self.states)
    }

    fn unopened(&self, lines: Lines) -> Result<Option<String>, AllocError> {
        let lines = lines.first;
        Ok(Some(format!(in self.alloc; "after {lines} lines it can't be opened and changed")?))
    }
}
