//! The standard input as a source.
ghost use Rattle.std.specs.Prelude.{◌≡◌, ◌↔◌, ◌≤◌, ◌++◌, [], Some, None, IfSome, length, option_map};
ghost use Rattle.fp_host.specs.Remote.{IsWithin};
ghost use Rattle.fp_host.specs.declared.source.Taken.TheVariants.{Failed};
ghost use Rattle.fp_system.specs.Counts.{TakenCounts, one_more};
ghost use Rattle.fp_realinput.specs.Kept.{KeepsMore, taken_bytes};

use fp_host::{Source, Taken};
use fp_system::{Call, Cause, Faults, SystemError, read_some};
use std::alloc::Global;
use std::marker::Model;

/// The most bytes that are kept.
const MOST_KEPT: usize = 1024 * 1024;

/// The standard input. It doesn't report to contracts what is left in it. It can keep the bytes
/// that were read, as long as they are at most 1 MiB. Contracts see the number of failures and the
/// kept bytes.
#[derive(Drop)]
pub struct StdinSource<'a, R> {
    rt: &'a R,
    faults: Faults,
    kept: Option<Vec<u8>>,
}

impl<'a, R> Model for StdinSource<'a, R> {
    ghost use Rattle.std.specs.Prelude.{option_map};
    ghost use Rattle.fp_realinput.specs.Kept.{InputView};

    ghost Value = { InputView };

    ghost view = { λ s. record { faults = s.faults; kept = option_map (λ v. v.items) s.kept } };
}

impl<'a, R: Input> StdinSource<'a, R> {
    /// Creates the source, which keeps nothing. It allocates no memory and reads nothing yet.
    pub fn new(rt: &'a R) -> Self
        ensures untold { ⟦<StdinSource<'a, R> as Source>⟧.left result ≡ None }
        ensures faults { ⟦<StdinSource<'a, R> as Source>⟧.faults result ≡ 0 }
        ensures kept { result.kept ≡ None }
    {
        StdinSource {
            rt,
            faults: Faults::none(),
            kept: None,
        }
    }

    /// Creates the source, which keeps the bytes that are read.
    pub fn keeping(rt: &'a R, alloc: Global) -> Self
        ensures untold { ⟦<StdinSource<'a, R> as Source>⟧.left result ≡ None }
        ensures faults { ⟦<StdinSource<'a, R> as Source>⟧.faults result ≡ 0 }
        ensures kept { result.kept ≡ Some [] }
    {
        StdinSource {
            rt,
            faults: Faults::none(),
            kept: Some(Vec::new(alloc)),
        }
    }
}

impl<'a, R> StdinSource<'a, R> {
    /// Returns the number of failures; it stays at 2^64 - 1 once it gets there.
    pub fn faults(&self) -> u64
        ensures { result ≡ self.now.faults }
    {
        self.faults.count()
    }

    /// Returns the last error of the system, or `None` if the number of failures is 0.
    pub fn last_error(&self) -> Option<&SystemError>
        ensures { (result ≡ None) ↔ (self.now.faults ≡ 0) }
    {
        self.faults.last()
    }

    /// Returns all bytes that were read, or `None` if they aren't kept, were more than 1 MiB, or
    /// memory ran out.
    pub fn kept(&self) -> Option<&[u8]>
        ensures { option_map (λ b. b.now) result ≡ self.now.kept }
    {
        match &self.kept {
            Some(bytes) => Some(bytes.as_slice()),
            None => None,
        }
    }

    /// Counts a failure.
    fn fail(&mut self, cause: Cause) -> Taken
        ensures answer { result ≡ Failed }
        ensures more { self.new ≡ record self.old { faults = one_more self.old.faults } }
        ensures later { self.old.faults ≤ self.new.faults }
    {
        self.faults
            .note(SystemError::without_path(Call::Take, cause));
        Taken::Failed
    }

    /// Adds bytes to the kept ones, if they are still kept.
    fn keep(&mut self, more: &[u8])
        ensures faults { self.new.faults ≡ self.old.faults }
        ensures kept { KeepsMore self.old.kept more.now self.new.kept }
    {
        self.kept = match self.kept.take() {
            Some(kept) => with_more(kept, more),
            None => None,
        };
    }
}

/// Returns the bytes followed by more, or `None` if they are more than 1 MiB in all or memory runs
/// out.
fn with_more(mut kept: Vec<u8>, more: &[u8]) -> Option<Vec<u8>>
    ensures all { IfSome result (λ all. all.items ≡ kept.items ++ more.now) }
    ensures most { IfSome result (λ all. length all.items ≤ MOST_KEPT) }
{
    if kept.len() > MOST_KEPT || more.len() > MOST_KEPT - kept.len() {
        return None;
    }
    match kept.extend_from_slice(more) {
        Ok(()) => Some(kept),
        Err(_) => None,
    }
}

impl<R: Input> Source for StdinSource<'_, R> {
    ghost use Rattle.std.specs.Prelude.{None};

    ghost left = { λ s. None };

    ghost faults = { λ s. s.faults };

    fn take(&mut self, into: &mut [u8]) -> Taken
        ensures counts { TakenCounts self.old.faults self.new.faults result }
        ensures within { IsWithin result (length into.old) }
        ensures kept { KeepsMore self.old.kept (taken_bytes result into.new) self.new.kept }
    {
        match read_some(&mut self.rt.reader(), into) {
            Ok(0) if !into.is_empty() => Taken::End,
            Ok(n) => {
                self.keep(&into[..n]);
                Taken::Took(n)
            }
            Err(cause) => self.fail(cause),
        }
    }
}
