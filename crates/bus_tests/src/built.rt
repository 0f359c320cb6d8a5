//! Test data from texts: bytes, headers, policies, and owners of names.

use crate::told::word_at;
use bus_frame::{Flags, Header, MessageType};
use bus_policy::{Level, Policy, PolicyError, RuleKind};
use fp_base::{Items, Side, Text};
use std::alloc::Global;
use std::panic::Expect;
use std::process::Abort;

/// Returns the bytes of parts that are separated by `+`. Each part is hexadecimal digits, or
/// hexadecimal digits, `*`, and the number of their repetitions.
pub fn spelled(rt: &impl Abort, alloc: Global, words: &str) -> Vec<u8> {
    let mut bytes = Vec::new(alloc);
    for word in words.split('+') {
        let (digits, count) = word.split_once('*').unwrap_or((word, "1"));
        let part = hex::decode(alloc, digits).expect(rt, "digits");
        let count = count.parse::<usize>().unwrap_or(0);
        let parts = part.repeat(alloc, count).expect(rt, "memory");
        bytes.extend_from_slice(&parts).expect(rt, "memory");
    }
    bytes
}

/// Returns a copy of the bytes with the one at this offset replaced, if there is one.
pub fn with_byte(rt: &impl Abort, alloc: Global, bytes: &[u8], at: usize, byte: u8) -> Vec<u8> {
    let mut changed = Vec::from_slice(alloc, bytes).expect(rt, "memory");
    if let Some(place) = changed.get_mut(at) {
        *place = byte;
    }
    changed
}

/// Repeats a text for each number from 1 to `last`, with the number in place of each `#`.
pub fn numbered(rt: &impl Abort, alloc: Global, text: &str, last: usize) -> String {
    let mut all = String::new(alloc);
    for number in 1..=last {
        let digits = format!(in alloc; "{number}").expect(rt, "memory");
        let part = text.replace(alloc, "#", &digits).expect(rt, "memory");
        all.push_str(&part).expect(rt, "memory");
    }
    all
}

/// Returns the client's side if the text begins with `c`, else the bus's side.
pub fn side_of(text: &str) -> Side {
    if text.starts_with('c') {
        Side::Client
    } else {
        Side::Bus
    }
}

/// Returns the letter of a side.
pub fn letter_of(side: Side) -> &'static str {
    match side {
        Side::Client => "c",
        Side::Bus => "b",
    }
}

/// Returns the text of a word, or `None` for `-`.
fn text(rt: &impl Abort, alloc: Global, word: &str) -> Option<Text> {
    match word {
        "-" => None,
        word => Some(Text::from_str(alloc, word).expect(rt, "memory")),
    }
}

/// Returns the header with this path and a body of this length. The words of the line are its type,
/// flags, serial, reply serial, sender, destination, interface, member and signature; `-` stands
/// for an absent one.
pub fn header_of(rt: &impl Abort, alloc: Global, path: &str, line: &str, body_len: u64) -> Header {
    Header {
        little: true,
        kind: MessageType::from_code(word_at(line, 0).parse::<u8>().unwrap_or(0)),
        flags: Flags {
            bits: word_at(line, 1).parse::<u8>().unwrap_or(0),
        },
        serial: word_at(line, 2).parse::<u32>().unwrap_or(0),
        path: text(rt, alloc, path),
        interface: text(rt, alloc, word_at(line, 6)),
        member: text(rt, alloc, word_at(line, 7)),
        error_name: None,
        reply_serial: word_at(line, 3).parse::<u32>().ok(),
        destination: text(rt, alloc, word_at(line, 5)),
        sender: text(rt, alloc, word_at(line, 4)),
        signature: text(rt, alloc, word_at(line, 8)),
        body_at: 0,
        body_len,
    }
}

/// Returns the level that a word names; `None` for any other word.
pub fn level_of(word: &str) -> Level {
    match word {
        "see" => Level::See,
        "talk" => Level::Talk,
        "own" => Level::Own,
        _ => Level::None,
    }
}

/// Adds a row to a policy: `call` or `broadcast` with a pattern and a rule, or a level with a
/// pattern.
pub fn add_row(policy: &mut Policy, alloc: Global, row: &str) -> Result<(), PolicyError> {
    let pattern = word_at(row, 1);
    match word_at(row, 0) {
        "call" => policy.add_rule(alloc, RuleKind::Call, pattern, word_at(row, 2)),
        "broadcast" => policy.add_rule(alloc, RuleKind::Broadcast, pattern, word_at(row, 2)),
        level => policy.add(alloc, pattern, level_of(level)),
    }
}

/// Returns the policy with these rows.
pub fn policy_of(rt: &impl Abort, alloc: Global, rows: &str) -> Policy {
    let mut policy = Policy::new(alloc);
    for row in rows.lines() {
        add_row(&mut policy, alloc, row).expect(rt, "a rule");
    }
    policy
}

/// Returns names with their owners, one pair from each row.
pub fn owners_of(rt: &impl Abort, alloc: Global, rows: &str) -> Items<(Text, Text)> {
    let mut owners = Items::new(alloc);
    for row in rows.lines() {
        let name = Text::from_str(alloc, word_at(row, 0)).expect(rt, "memory");
        let owner = Text::from_str(alloc, word_at(row, 1)).expect(rt, "memory");
        owners.push((name, owner)).expect(rt, "memory");
    }
    owners
}
