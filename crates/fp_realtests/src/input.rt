//! A standard input as a source.
use fp_host::{Source, Taken};
use fp_realinput::StdinSource;
use fp_realplay::is_message;
use std::alloc::{Allocator, Global};
use std::cell::Cell;
use std::io;
use std::io::{BufRead, ErrorKind, Input, Lines, Read};

/// An input whose reads are interrupted, return two bytes, fail, and find the end, in turn.
#[derive(Drop)]
struct Turns<'a> {
    turn: &'a Cell<u8>,
}

#[derive(Drop)]
struct Turn<'a> {
    turn: &'a Cell<u8>,
}

impl Read for Turn<'_> {
    fn read(&mut self, buf: &mut [u8]) -> io::Result<usize> {
        let turn = self.turn.get();
        self.turn.set(turn.saturating_add(1));
        match turn {
            0 => Err(io::Error::from(ErrorKind::Interrupted)),
            1 => Ok(buf.len().min(2)),
            2 => Err(io::Error::from_raw_os_error(5)),
            _ => Ok(0),
        }
    }
}

impl BufRead for Turn<'_> {
    fn fill_buf(&mut self) -> io::Result<&[u8]> {
        Err(io::Error::from(ErrorKind::Unsupported))
    }

    fn consume(&mut self, _amount: usize) {}
}

impl<'a> Input for Turns<'a> {
    type Reader = Turn<'a>;

    fn read_line<A: Allocator + Clone>(&self, buf: &mut String<A>) -> io::Result<usize> {
        self.reader().read_line(buf)
    }

    fn lines<A: Allocator>(&self, alloc: A) -> Lines<Turn<'a>, A> {
        self.reader().lines(alloc)
    }

    fn reader(&self) -> Turn<'a> {
        Turn { turn: self.turn }
    }
}

/// Takes three times with room for four bytes, and once without room.
fn takes<S: Source>(source: &mut S) -> [Taken; 4] {
    let mut into = [0u8; 4];
    [
        source.take(&mut into),
        source.take(&mut into),
        source.take(&mut into),
        source.take(&mut []),
    ]
}

/// Returns whether the four takes have the expected results, and the failure is counted and is the
/// last error.
fn is_source(alloc: Global) -> bool {
    let turn = Cell::new(0);
    let turns = Turns { turn: &turn };
    let mut source = StdinSource::new(&turns);
    let taken = [Taken::Took(2), Taken::Failed, Taken::End, Taken::Took(0)];
    let last = "cannot read the standard input: Input/output error (os error 5)";
    takes(&mut source) == taken
        && source.faults() == 1
        && is_message(alloc, source.last_error(), last)
}

#[test]
fn an_input_is_a_source(rt: HostRuntime) {
    assert!(rt; is_source(rt.alloc()));
}

/// Returns whether a source that keeps its input keeps the bytes that were taken.
fn keeps(alloc: Global) -> bool {
    let turn = Cell::new(1);
    let turns = Turns { turn: &turn };
    let mut source = StdinSource::keeping(&turns, alloc);
    let mut into = [7u8; 4];
    source.take(&mut into) == Taken::Took(2) && source.kept() == Some([7u8, 7].as_slice())
}

#[test]
fn what_was_taken_is_kept(rt: HostRuntime) {
    assert!(rt; keeps(rt.alloc()));
}
