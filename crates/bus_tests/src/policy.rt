//! Worked policies: the levels of names, and the verdicts on sequences of messages.

use crate::built::{
    add_row, header_of, level_of, numbered, owners_of, policy_of, side_of, spelled,
};
use crate::rows::agree;
use crate::told::word_at;
use bus_policy::{PolicyError, Verdict, Watch};
use std::alloc::Global;
use std::panic::Expect;
use std::process::Abort;

/// Patterns with their levels, and rules for calls and broadcasts.
const POLICY: &str = "\
talk org.foo.*
see org.bar
own org.own
see org.foo.less
call org.ruled.* a.b.C@/x/*
broadcast org.cast a.b.*";

/// The only name with an owner at the start.
const OWNERS: &str = "org.foo :1.7";

/// Returns a watch for the client `:1.1` with these rows of a policy and of owners.
fn watch_of(rt: &impl Abort, alloc: Global, policy: &str, owners: &str) -> Watch {
    let policy = policy_of(rt, alloc, policy);
    let owners = owners_of(rt, alloc, owners);
    Watch::new(alloc, policy, Some(":1.1"), &owners).expect(rt, "memory")
}

/// Names, and their levels at the start.
const NAMES: &str = "\
org.foo talk
org.foo.bar talk
org.foo.less talk
org.foobar none
org none
org.bar see
org.bar.b none
org.own own
org.ruled see
org.cast see
org.freedesktop.DBus talk
:1.1 talk
:1.7 talk
:1.8 none";

#[test]
fn levels(rt: HostRuntime) {
    let watch = watch_of(&rt, rt.alloc(), POLICY, OWNERS);
    for row in NAMES.lines() {
        let level = watch.level(word_at(row, 0));
        agree(&rt, row, level == level_of(word_at(row, 1)));
    }
    drop(watch);
}

/// Rows with an invalid pattern, and one with an invalid rule.
const BAD: &str = "\
own 
call  *
own org
call org *
own :1.2
call :1.2 *
own org.*.b
call org.*.b *
own *
call * *
own .*
call .* *
own org.**
call org.** *
own o-g..b
call o-g..b *
call org.* a.b";

#[test]
fn bad_patterns(rt: HostRuntime) {
    let mut policy = policy_of(&rt, rt.alloc(), POLICY);
    for row in BAD.lines() {
        let added = add_row(&mut policy, rt.alloc(), row);
        agree(&rt, row, added.err() == Some(PolicyError::Bad));
    }
    drop(policy);
}

/// Returns the word for a verdict in a step.
fn verdict_word(verdict: Verdict) -> &'static str {
    match verdict {
        Verdict::Pass => "Pass",
        Verdict::FilterNameList => "FilterNameList",
        Verdict::Deny => "Deny",
        Verdict::Hide => "Hide",
        Verdict::Drop => "Drop",
    }
}

/// Notes the message of a step, and returns whether the verdict on it is the one in the step.
///
/// A step is the words of a message and of the verdict: the message's side, its header as
/// `header_of` reads it, its body in hexadecimal, and the verdict.
fn goes(rt: &impl Abort, alloc: Global, watch: &mut Watch, step: &str) -> bool {
    let (letter, line) = step.split_once(' ').unwrap_or((step, ""));
    let digits = word_at(line, 9);
    let body = spelled(rt, alloc, if digits == "-" { "" } else { digits });
    let header = header_of(rt, alloc, "/x/y", line, body.len() as u64);
    let side = side_of(letter);
    let verdict = watch.verdict(side, &header, &body);
    watch
        .note(side, &header, &body, verdict)
        .expect(rt, "memory");
    drop(header);
    word_at(line, 10) == verdict_word(verdict)
}

/// Fails the test at the first step with another verdict, from the start on.
fn agree_on_steps(rt: &impl Abort, alloc: Global, policy: &str, owners: &str, steps: &str) {
    let mut watch = watch_of(rt, alloc, policy, owners);
    for step in steps.lines() {
        agree(rt, step, goes(rt, alloc, &mut watch, step));
    }
    drop(watch);
}

/// Calls of the client: to names at the levels talk, see and none; without a reply; that a rule
/// matches, or doesn't; to the client itself. Signals of the client, which a rule for calls doesn't
/// let pass.
const CALLS: &str = "\
c 1 0 1 - - org.foo.x - M - - Pass
c 1 0 1 - - org.bar - M - - Deny
c 1 0 1 - - org.none - M - - Hide
c 1 1 1 - - org.none - M - - Drop
c 1 0 1 - - org.ruled.a a.b C - - Pass
c 1 0 1 - - org.ruled.a a.b D - - Deny
c 1 0 1 - - :1.7 - M - - Pass
c 1 0 1 - - :1.8 - M - - Hide
c 1 0 1 - - :1.1 - M - - Pass
c 4 0 1 - - - - M - - Pass
c 4 0 1 - - org.bar - M - - Drop
c 4 0 1 - - org.ruled.a a.b C - - Drop
c 5 0 1 - - org.foo - M - - Drop
c 2 0 1 1 - org.foo - M - - Drop";

/// Calls of the client to the bus.
const DRIVER_CALLS: &str = "\
c 1 0 1 - - org.freedesktop.DBus org.freedesktop.DBus Hello - - Pass
c 1 0 1 - - - - GetId - - Pass
c 1 0 1 - - org.freedesktop.DBus - GetId - - Pass
c 1 0 1 - - org.freedesktop.DBus - ListNames - - Pass
c 1 0 1 - - org.freedesktop.DBus - Ping - - Deny
c 1 0 1 - - org.freedesktop.DBus org.freedesktop.DBus AddMatch s 0d000000747970653d277369676e616c2700 Pass
c 1 0 1 - - org.freedesktop.DBus org.freedesktop.DBus AddMatch s 16000000613d2762272c656176657364726f703d27747275652700 Deny
c 1 0 1 - - org.freedesktop.DBus org.freedesktop.DBus AddMatch u 05000000 Deny
c 1 0 1 - - org.freedesktop.DBus org.freedesktop.DBus GetNameOwner s 070000006f72672e62617200 Pass
c 1 0 1 - - org.freedesktop.DBus org.freedesktop.DBus GetNameOwner s 080000006f72672e6e6f6e6500 Hide
c 1 0 1 - - org.freedesktop.DBus org.freedesktop.DBus StartServiceByName su 070000006f72672e666f6f0000000000 Pass
c 1 0 1 - - org.freedesktop.DBus org.freedesktop.DBus StartServiceByName su 070000006f72672e6261720000000000 Deny
c 1 0 1 - - org.freedesktop.DBus org.freedesktop.DBus RequestName su 070000006f72672e6f776e0000000000 Pass
c 1 0 1 - - org.freedesktop.DBus org.freedesktop.DBus RequestName su 070000006f72672e666f6f0000000000 Deny
c 1 0 1 - - org.freedesktop.DBus org.freedesktop.DBus BecomeMonitor - - Deny
c 1 0 1 - - org.freedesktop.DBus org.freedesktop.DBus GetAdtAuditSessionData s 070000006f72672e666f6f00 Deny
c 1 0 1 - - org.freedesktop.DBus org.freedesktop.DBus.Peer Ping - - Pass
c 1 0 1 - - org.freedesktop.DBus org.freedesktop.DBus.Peer Hello - - Deny
c 1 0 1 - - org.freedesktop.DBus org.freedesktop.DBus.Introspectable Introspect - - Pass
c 1 0 1 - - org.freedesktop.DBus - Introspect - - Deny";

/// Replies to the client: one for each of its waiting calls, and lists of names with fewer names.
const REPLIES: &str = "\
c 1 0 5 - - org.foo - M - - Pass
b 2 0 9 5 :1.7 :1.1 - M - - Pass
b 2 0 10 5 :1.7 :1.1 - M - - Drop
b 3 0 10 6 :1.7 :1.1 - M - - Drop
c 1 1 6 - - org.foo - M - - Pass
b 2 0 11 6 :1.7 :1.1 - M - - Drop
c 1 0 7 - - org.freedesktop.DBus org.freedesktop.DBus ListNames - - Pass
b 2 0 12 7 org.freedesktop.DBus :1.1 - M s 070000006f72672e62617200 Drop
b 2 0 13 7 org.freedesktop.DBus :1.1 - M as 0c000000070000006f72672e62617200 FilterNameList
b 2 0 14 7 org.freedesktop.DBus :1.1 - M as 00000000 Drop
c 1 0 8 - - org.freedesktop.DBus org.freedesktop.DBus ListNames - - Pass
b 3 0 15 8 org.freedesktop.DBus :1.1 - M - - Pass";

/// Calls that reuse a serial, and of which some list names. The bus answers a call that lists names
/// even if it expects no reply, and both of two calls with one serial. Then a list from the bus
/// itself is filtered, and another return passes.
const SERIALS_AGAIN: &str = "\
c 1 1 9 - - org.freedesktop.DBus org.freedesktop.DBus ListNames - - Pass
b 2 0 12 9 org.freedesktop.DBus :1.1 - M as 0c000000070000006f72672e62617200 Drop
c 1 0 9 - - org.freedesktop.DBus org.freedesktop.DBus GetId - - Pass
b 2 0 13 9 org.freedesktop.DBus :1.1 - M as 0c000000070000006f72672e62617200 FilterNameList
c 1 0 9 - - org.freedesktop.DBus org.freedesktop.DBus GetId - - Pass
b 2 0 14 9 org.freedesktop.DBus :1.1 - M s 070000006f72672e62617200 Pass
b 2 0 15 9 org.freedesktop.DBus :1.1 - M s 070000006f72672e62617200 Drop
c 1 0 10 - - org.freedesktop.DBus org.freedesktop.DBus ListActivatableNames - - Pass
c 1 0 10 - - org.freedesktop.DBus org.freedesktop.DBus ListNames - - Pass
b 2 0 16 10 org.freedesktop.DBus :1.1 - M as 0c000000070000006f72672e62617200 FilterNameList
b 2 0 17 10 org.freedesktop.DBus :1.1 - M as 0c000000070000006f72672e62617200 Drop
c 1 0 10 - - org.foo - M - - Pass
b 2 0 18 10 - :1.1 - M as 0c000000070000006f72672e62617200 FilterNameList
c 1 1 11 - - org.freedesktop.DBus org.freedesktop.DBus GetId - - Pass
c 1 0 11 - - org.freedesktop.DBus org.freedesktop.DBus GetId - - Pass
b 2 0 19 11 org.freedesktop.DBus :1.1 - M s 070000006f72672e62617200 Pass
c 1 0 12 - - org.freedesktop.DBus org.freedesktop.DBus GetId - - Pass
b 2 0 20 12 org.freedesktop.DBus :1.1 - M as 0c000000070000006f72672e62617200 Pass
c 1 0 5 - - org.freedesktop.DBus org.freedesktop.DBus GetId - - Pass
b 2 0 21 5 org.freedesktop.DBus :1.1 - M as 0c000000070000006f72672e62617200 FilterNameList
c 1 0 13 - - org.freedesktop.DBus org.freedesktop.DBus GetId - - Pass
c 1 0 13 - - org.freedesktop.DBus org.freedesktop.DBus Hello - - Pass
b 2 0 22 13 org.freedesktop.DBus :1.1 - M as 05000000 Drop";

/// Calls that list names, and calls to a peer with the same serial. A return of the peer passes
/// unchanged, whatever its body is.
const PEERS_AGAIN: &str = "\
c 1 0 9 - - org.freedesktop.DBus org.freedesktop.DBus ListNames - - Pass
b 2 0 12 9 org.freedesktop.DBus :1.1 - M as 0c000000070000006f72672e62617200 FilterNameList
c 1 0 9 - - org.foo - M - - Pass
b 2 0 13 9 :1.7 :1.1 - M s 070000006f72672e62617200 Pass
c 1 0 9 - - org.foo - M - - Pass
b 2 0 14 9 :1.7 :1.1 - M as 0c000000070000006f72672e62617200 Pass
b 2 0 15 9 :1.7 :1.1 - M as 0c000000070000006f72672e62617200 Drop
c 1 0 10 - - org.freedesktop.DBus org.freedesktop.DBus ListNames - - Pass
b 2 0 16 10 :1.7 :1.1 - M as 0c000000070000006f72672e62617200 Pass
c 1 0 11 - - org.freedesktop.DBus org.freedesktop.DBus ListNames - - Pass
b 3 0 17 11 org.freedesktop.DBus :1.1 - M s 070000006f72672e62617200 Pass";

/// Calls of a peer to the client, and replies of the client, of which at most one for each call
/// passes.
const PEER_CALLS: &str = "\
b 1 0 3 - :1.9 :1.1 - M - - Pass
c 2 0 1 3 - :1.8 - M - - Drop
c 2 0 1 4 - :1.9 - M - - Drop
c 2 0 1 3 - - - M - - Drop
c 3 0 1 3 - :1.9 - M - - Pass
c 2 0 2 3 - :1.9 - M - - Drop
b 1 1 4 - :1.9 :1.1 - M - - Pass
c 2 0 3 4 - :1.9 - M - - Drop";

/// Signals to the client: by the names that a peer owns or once owned, by a rule, and with the
/// client as the destination.
const SIGNALS: &str = "\
b 4 0 1 - :1.7 - c.d M - - Pass
b 4 0 1 - :1.8 - c.d M - - Drop
b 4 0 1 - org.freedesktop.DBus - org.freedesktop.DBus NameOwnerChanged sss 070000006f72672e666f6f00040000003a312e37000000000000000000 Pass
b 4 0 1 - :1.7 - c.d M - - Pass
b 4 0 1 - org.freedesktop.DBus - org.freedesktop.DBus NameOwnerChanged sss 080000006f72672e6e6f6e65000000000000000000000000040000003a312e3800 Drop
b 4 0 1 - :1.8 - c.d M - - Drop
b 4 0 1 - org.freedesktop.DBus - org.freedesktop.DBus NameOwnerChanged sss 090000006f72672e666f6f2e620000000000000000000000040000003a312e3800 Pass
b 4 0 1 - :1.8 - c.d M - - Pass
b 4 0 1 - org.freedesktop.DBus - org.freedesktop.DBus NameOwnerChanged sss 080000006f72672e63617374000000000000000000000000040000003a312e3600 Pass
b 4 0 1 - :1.6 - c.d M - - Drop
b 4 0 1 - :1.6 - a.b M - - Pass
b 4 0 1 - org.freedesktop.DBus - org.freedesktop.DBus NameOwnerChanged sss 080000006f72672e6361737400000000040000003a312e36000000000000000000 Pass
b 4 0 1 - :1.6 - a.b M - - Pass
b 4 0 1 - org.freedesktop.DBus - org.freedesktop.DBus NameOwnerChanged ss 070000006f72672e666f6f000000000000 Drop
b 4 0 1 - :1.5 :1.1 c.d M - - Pass
c 1 0 1 - - :1.5 - M - - Deny
b 4 0 1 - - - c.d M - - Drop";

#[test]
fn verdicts(rt: HostRuntime) {
    for steps in &[
        CALLS,
        DRIVER_CALLS,
        REPLIES,
        SERIALS_AGAIN,
        PEERS_AGAIN,
        PEER_CALLS,
        SIGNALS,
    ] {
        agree_on_steps(&rt, rt.alloc(), POLICY, OWNERS, steps);
    }
}

/// Checks that a watch with this number of level rules, as many rules for calls, and this number of
/// owners forwards each of 1,100 calls and the reply to the last one.
fn agree_on_many(rt: &impl Abort, alloc: Global, rules: usize, owners: usize) {
    let row = "talk org.n#.*\ncall org.n#.* a.b.C@/x/*\n";
    let rules = numbered(rt, alloc, row, rules);
    let owners = numbered(rt, alloc, "org.n#.a :2.#\n", owners);
    let mut steps = numbered(rt, alloc, "c 1 0 # - - org.n1.a - M - - Pass\n", 1_100);
    steps
        .push_str("b 2 0 1 1100 :2.1 :1.1 - M - - Pass")
        .expect(rt, "memory");
    agree_on_steps(rt, alloc, &rules, &owners, &steps);
}

#[test]
fn many_rules_and_names(rt: HostRuntime) {
    agree_on_many(&rt, rt.alloc(), 550, 2);
    agree_on_many(&rt, rt.alloc(), 2, 1_100);
}
