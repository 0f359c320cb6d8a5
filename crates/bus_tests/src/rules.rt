//! Worked rules, and the messages that they match.

use crate::built::header_of;
use crate::rows::agree;
use bus_rules::{Rule, RuleError};
use std::alloc::Global;
use std::panic::Expect;
use std::process::Abort;

/// Texts, and whether each is a rule.
const RULES: [(&str, bool); 34] = [
    ("*", true),
    ("a.b.*", true),
    ("a.b.C", true),
    ("org.example.Face.Get_All", true),
    ("@/", true),
    ("@/a/b_1", true),
    ("@/*", true),
    ("@/a/*", true),
    // matches only the root: no path is below `//`
    ("@//*", true),
    ("*@/a", true),
    ("a.b.*@/a/*", true),
    ("a.b.C@/*", true),
    ("", false),
    ("@", false),
    ("*@", false),
    ("a", false),
    ("a.b", false),
    ("a.*", false),
    ("a.b.", false),
    ("a.b.0", false),
    ("a.b.c-d", false),
    ("a-b.c.d", false),
    ("a.b.**", false),
    ("*.b.c", false),
    ("a.*.c", false),
    ("/a", false),
    ("@a", false),
    ("@/a/", false),
    ("@/a*", false),
    ("@/*/a", false),
    ("@/a//*", false),
    ("@*", false),
    ("a.b.C@/a@/b", false),
    ("a.b.C @/a", false),
];

/// Returns whether a text is a rule, or `None` if memory ran out.
fn is_rule(alloc: Global, text: &str) -> Option<bool> {
    match Rule::parse(alloc, text) {
        Ok(rule) => {
            drop(rule);
            Some(true)
        }
        Err(RuleError::Bad) => Some(false),
        Err(RuleError::NoMemory) => None,
    }
}

#[test]
fn grammar(rt: HostRuntime) {
    for (text, is_wanted) in &RULES {
        agree(&rt, text, is_rule(rt.alloc(), text) == Some(*is_wanted));
    }
}

/// Rows of a rule and a message: whether the rule matches, the rule, the message's path, and its
/// header as `header_of` reads it.
const MATCHES: &str = "\
yes * /a 1 0 1 - - - a.b C -
yes * - 1 0 1 - - - - - -
yes a.b.* /a 1 0 1 - - - a.b C -
no a.b.* /a 1 0 1 - - - a.bc C -
no a.b.* /a 1 0 1 - - - - C -
yes a.b.C /a 1 0 1 - - - a.b C -
no a.b.C /a 1 0 1 - - - a.b D -
no a.b.C /a 1 0 1 - - - a.c C -
no a.b.C /a 1 0 1 - - - - C -
yes @/a /a 1 0 1 - - - - C -
no @/a /a/b 1 0 1 - - - - C -
no @/a / 1 0 1 - - - - C -
no @/a - 1 0 1 - - - - C -
yes @/a/* /a 1 0 1 - - - - C -
yes @/a/* /a/b/c 1 0 1 - - - - C -
no @/a/* /ab 1 0 1 - - - - C -
no @/a/* / 1 0 1 - - - - C -
yes @/* / 1 0 1 - - - - C -
yes @/* /a/b 1 0 1 - - - - C -
no @/* - 1 0 1 - - - - C -
yes @//* / 1 0 1 - - - - C -
no @//* /a 1 0 1 - - - - C -
yes a.b.C@/a/* /a/b 1 0 1 - - - a.b C -
no a.b.C@/a/* /b 1 0 1 - - - a.b C -";

/// Returns whether a rule matches a message.
fn is_matched(rt: &impl Abort, alloc: Global, text: &str, path: &str, line: &str) -> bool {
    let rule = Rule::parse(alloc, text).expect(rt, "a rule");
    let header = header_of(rt, alloc, path, line, 0);
    let is_so = rule.matches(&header);
    drop(header);
    drop(rule);
    is_so
}

/// Fails the test unless the rule of a row matches exactly if the row's first word is `yes`.
fn agree_on(rt: &impl Abort, alloc: Global, row: &str) {
    let (answer, rest) = row.split_once(' ').unwrap_or((row, ""));
    let (text, rest) = rest.split_once(' ').unwrap_or((rest, ""));
    let (path, line) = rest.split_once(' ').unwrap_or((rest, ""));
    let is_so = is_matched(rt, alloc, text, path, line) == (answer == "yes");
    agree(rt, row, is_so);
}

/// The rules of the table match as listed, and a rule with a path of 100 KiB matches a message with
/// that path.
#[test]
fn matching(rt: HostRuntime) {
    let alloc = rt.alloc();
    for row in MATCHES.lines() {
        agree_on(&rt, alloc, row);
    }
    let path = "/p".repeat(alloc, 50 << 10).expect(&rt, "memory");
    let row = format!(in alloc; "yes a.b.C@{path}/* {path} 1 0 1 - - - a.b C -");
    agree_on(&rt, alloc, &row.expect(&rt, "memory"));
}
