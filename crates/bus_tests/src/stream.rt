//! Broken messages, compared with the real bus, and worked streams and recordings.

use crate::built::{letter_of, numbered, spelled, with_byte};
use crate::captured::{CASES, CHANGED, DIFFERENT, PING};
use crate::rows::agree;
use bus_frame::FrameError;
use bus_stream::{Cut, Cutter, RecordError, Recording, read_recording};
use fp_base::FrameRule;
use std::alloc::Global;
use std::panic::Expect;
use std::process::Abort;

/// Takes the next message and returns the mark of the result, or `None` for a message: `.` if no
/// bytes are left, `?` if the next message isn't whole, `L` if the rule `Length` is broken, `x` if
/// another rule is broken, and `m` if memory ran out.
fn next_mark(cutter: &mut Cutter) -> Option<u8> {
    match cutter.next() {
        Ok(Cut::Message(_, _)) => None,
        Ok(Cut::NotYet) => Some(if cutter.pending() > 0 { b'?' } else { b'.' }),
        Err(FrameError::Bad(FrameRule::Length)) => Some(b'L'),
        Err(FrameError::Bad(_)) => Some(b'x'),
        Err(FrameError::NoMemory) => Some(b'm'),
    }
}

/// Returns the mark of the first result that isn't a message, for a stream of `bytes` and then
/// `more`.
fn verdict(rt: &impl Abort, alloc: Global, bytes: &[u8], more: &[u8]) -> u8 {
    let mut cutter = Cutter::new(alloc).expect(rt, "memory");
    cutter.feed(bytes).expect(rt, "memory");
    cutter.feed(more).expect(rt, "memory");
    let mut mark = None;
    for _ in 0..bytes.len() + more.len() {
        if mark.is_none() {
            mark = next_mark(&mut cutter);
        }
    }
    drop(cutter);
    mark.unwrap_or(b'.')
}

/// Returns whether the mark of a row's message is that of the daemon, which is the first letter
/// after the message. `L` counts as `x`.
fn is_as_told(rt: &impl Abort, alloc: Global, row: &str, ping: &[u8]) -> bool {
    let (digits, told) = row.split_once(' ').unwrap_or((row, ""));
    let mark = verdict(rt, alloc, &spelled(rt, alloc, digits), ping);
    told.as_bytes().first() == Some(if mark == b'L' { &b'x' } else { &mark })
}

/// Returns a byte after the change with this number: to 0, 1, 127 or 255, or of its top bit.
fn change(number: usize, byte: u8) -> u8 {
    match number {
        0 => 0,
        1 => 1,
        2 => 127,
        3 => 255,
        _ => byte ^ 128,
    }
}

/// Fails the test if a message with one byte changed has another mark than in its row. For a
/// message that is too long the daemon may also wait.
fn agree_on_changes(rt: &impl Abort, alloc: Global, row: &str, ping: &[u8]) {
    let (digits, marks) = row.split_once(' ').unwrap_or((row, ""));
    let message = spelled(rt, alloc, digits);
    for (number, told) in marks.bytes().enumerate() {
        let at = number / 5;
        let byte = message.get(at).copied().unwrap_or(0);
        let changed = with_byte(rt, alloc, &message, at, change(number % 5, byte));
        let mark = verdict(rt, alloc, &changed, ping);
        agree(rt, row, mark == told || (mark == b'L' && told != b'.'));
    }
}

/// Each message of `CASES` has the daemon's mark, and none of `DIFFERENT` has it. Each message of
/// `CHANGED` has the daemon's marks with one byte changed, except for the rule `Length`.
#[test]
fn messages_that_a_daemon_refuses(rt: HostRuntime) {
    let alloc = rt.alloc();
    let ping = spelled(&rt, alloc, PING);
    for row in CASES.lines() {
        agree(&rt, row, is_as_told(&rt, alloc, row, &ping));
    }
    for row in DIFFERENT.lines() {
        agree(&rt, row, !is_as_told(&rt, alloc, row, &ping));
    }
    for row in CHANGED.lines() {
        agree_on_changes(&rt, alloc, row, &ping);
    }
}

/// The call of the method `M` at the path `/a` of `org.bar`, with the serial 1.
const CALL: &str =
    "6c01000100000000010000003000000001016f00020000002f6100000000000003017300010000004d000000000000000601730007000000\
6f72672e62617200";

/// A call whose body is an array of bytes with a mebibyte.
const LONG: &str = "\
6c01000100001000010000007800000001016f00020000002f610000000000000201730003000000612e620000000000\
03017300010000004d000000000000000401730009000000612e622e4572726f72000000000000000601730007000000\
6f72672e6261720007017300040000003a312e310000000005017500090000000801670002617900+00*1048576";

/// Takes the next message and returns whether it has these bytes.
fn comes(cutter: &mut Cutter, wanted: &[u8]) -> bool {
    match cutter.next() {
        Ok(Cut::Message(_, bytes)) => bytes.as_slice() == wanted,
        Ok(Cut::NotYet) | Err(_) => false,
    }
}

/// Feeds this many copies of a message at once and returns whether all of them are taken and
/// nothing is left.
fn come(rt: &impl Abort, alloc: Global, words: &str, count: usize) -> bool {
    let message = spelled(rt, alloc, words);
    let all = message.repeat(alloc, count).expect(rt, "memory");
    let mut cutter = Cutter::new(alloc).expect(rt, "memory");
    cutter.feed(&all).expect(rt, "memory");
    for _ in 0..count {
        agree(rt, words, comes(&mut cutter, &message));
    }
    cutter.pending() == 0
}

/// A message of a mebibyte is taken, and so are 1,100 messages that are fed at once.
#[test]
fn long_streams(rt: HostRuntime) {
    assert!(rt; come(&rt, rt.alloc(), LONG, 1) && come(&rt, rt.alloc(), CALL, 1_100));
}

/// Recordings, and the number of the first bad line, or 0.
const RECORDINGS: [(&str, u64); 25] = [
    ("", 0),
    ("c 00\n", 0),
    ("b 00ff\nc 01\nb 10\n", 0),
    ("client :1.7\nowner org.a :1.1\nowner org.b :1.1\nc 00\n", 0),
    ("owner org.a :1.1\nclient :1.7\n", 0),
    ("c 0\n", 1),
    ("c 0g\n", 1),
    ("c AB\n", 1),
    ("c \n", 1),
    ("c\n", 1),
    ("c  00\n", 1),
    (" c 00\n", 1),
    ("c 00 \n", 1),
    ("c 00\r\n", 1),
    ("d 00\n", 1),
    ("\n", 1),
    ("c 00", 1),
    ("c 00\nc 00\nx", 3),
    ("client org.a\n", 1),
    ("client :1.7\nclient :1.7\n", 2),
    ("c 00\nclient :1.7\n", 2),
    ("owner org.a :1.1\nowner org.a :1.1\n", 2),
    ("owner :1.1 :1.2\n", 1),
    ("owner org.a org.b\n", 1),
    ("owner org.a\n", 1),
];

/// Returns whether this is the number of a recording's first bad line; 0 if none is bad.
fn is_first_bad(alloc: Global, text: &str, line: u64) -> bool {
    match read_recording(alloc, text.as_bytes()) {
        Ok(recording) => {
            drop(recording);
            line == 0
        }
        Err(RecordError::BadRecord(bad)) => bad == line,
        Err(RecordError::NoMemory) => false,
    }
}

#[test]
fn bad_recordings(rt: HostRuntime) {
    for (text, line) in &RECORDINGS {
        agree(&rt, text, is_first_bad(rt.alloc(), text, *line));
    }
}

/// Appends a line of words.
fn push_line(rt: &impl Abort, alloc: Global, text: &mut String, words: &[&str]) {
    let line = words.join(alloc, " ").expect(rt, "memory");
    text.push_str(&line).expect(rt, "memory");
    text.push('\n').expect(rt, "memory");
}

/// Returns the lines of a recording: the client, the owners, and the pieces.
fn lines_of(rt: &impl Abort, alloc: Global, recording: &Recording) -> String {
    let mut text = String::new(alloc);
    if let Some(client) = &recording.client {
        push_line(rt, alloc, &mut text, &["client", client.as_str()]);
    }
    for (name, owner) in recording.owners.as_slice() {
        push_line(
            rt,
            alloc,
            &mut text,
            &["owner", name.as_str(), owner.as_str()],
        );
    }
    for (side, bytes) in recording.pieces.as_slice() {
        let digits = hex::encode(alloc, bytes.as_slice()).expect(rt, "memory");
        push_line(rt, alloc, &mut text, &[letter_of(*side), &digits]);
    }
    text
}

/// Returns whether the lines of a recording are those from which it was read.
fn is_recorded(rt: &impl Abort, alloc: Global, text: &str) -> bool {
    let recording = read_recording(alloc, text.as_bytes()).expect(rt, "a recording");
    let lines = lines_of(rt, alloc, &recording);
    drop(recording);
    lines.as_str() == text
}

/// Recordings are read as they are written: one with a client, an owner, and a piece of each side;
/// and one with 1,100 owners, 1,100 pieces, and a piece of a mebibyte.
#[test]
fn recordings(rt: HostRuntime) {
    let alloc = rt.alloc();
    let short = "client :1.7\nowner org.a :1.1\nc 006c\nb ff\n";
    let owners = numbered(&rt, alloc, "owner org.n# :1.#\n", 1_100);
    let pieces = "c 00\n".repeat(alloc, 1_100).expect(&rt, "memory");
    let digits = "00".repeat(alloc, 1 << 20).expect(&rt, "memory");
    let long = [&owners, &pieces, "b ", &digits, "\n"].concat(alloc);
    assert!(rt;
        is_recorded(&rt, alloc, short) && is_recorded(&rt, alloc, &long.expect(&rt, "memory"))
    );
}
