//! Lists of 1,100 words, and words of 100 KiB: options, commands, and rules of the D-Bus filter.

use crate::launch::is_rule;
use bus_policy::PolicyRule;
use fl_meta::{Mention, PermList};
use fl_options::{is_launch_option, is_option, last_command, layer_of, option_layer, policy_of};
use fp_base::Text;
use std::alloc::{AllocError, Global};
use std::panic::Expect;
use std::process::Abort;

/// The number of words in a list.
const COUNT: usize = 1_100;

/// Returns a word from a head and a number.
fn numbered_word(alloc: Global, head: &str, number: usize) -> Result<Text, AllocError> {
    Ok(Text::from_string(format!(in alloc; "{head}{number}")?))
}

/// Returns 1,100 words with this head, numbered from 0.
fn words(rt: &impl Abort, alloc: Global, head: &str) -> Vec<Text> {
    let mut words = Vec::new(alloc);
    for number in 0..COUNT {
        let word = numbered_word(alloc, head, number).expect(rt, "memory");
        words.push(word).expect(rt, "memory");
    }
    words
}

/// Returns whether a mention keeps this directory of the home directory (`--persist`).
fn is_kept(mention: &Mention, name: &str) -> bool {
    mention.permission.list == PermList::Persistent && mention.permission.name.as_str() == name
}

/// Returns whether there are as many mentions as words, of which the first and the last keep these
/// directories.
fn are_kept(mentions: &[Mention], first: &str, last: &str) -> bool {
    match mentions {
        [from, .., to] => mentions.len() == COUNT && is_kept(from, first) && is_kept(to, last),
        _ => false,
    }
}

/// Returns whether there are as many rules as words, of which the first and the last are these.
fn are_rules(rules: &[PolicyRule], first: &str, last: &str) -> bool {
    match rules {
        [from, .., to] => rules.len() == COUNT && is_rule(from, first) && is_rule(to, last),
        _ => false,
    }
}

#[test]
fn many_options(rt: HostRuntime) {
    let options = words(&rt, rt.alloc(), "--persist=f");
    let layer = layer_of(rt.alloc(), &options).expect(&rt, "memory");
    assert!(rt; are_kept(layer.as_slice(), "f0", "f1099"));
}

#[test]
fn many_commands(rt: HostRuntime) {
    let options = words(&rt, rt.alloc(), "--command=c");
    let command = last_command(rt.alloc(), &options).expect(&rt, "memory");
    assert!(rt; command.expect(&rt, "a command").as_str() == "c1099");
}

#[test]
fn many_rules(rt: HostRuntime) {
    let rules = words(&rt, rt.alloc(), "--see=org.x.N");
    let policy = policy_of(rt.alloc(), &rules).expect(&rt, "memory");
    assert!(rt; are_rules(policy.rules(), "org.x.N0=see", "org.x.N1099=see"));
}

/// Returns a word of this head, followed by 100 KiB.
fn long_word(rt: &impl Abort, alloc: Global, head: &str) -> Text {
    let rest = "/e".repeat(alloc, 50 << 10).expect(rt, "memory");
    Text::from_string([head, &rest].concat(alloc).expect(rt, "memory"))
}

/// Returns whether a word is one option, also of a launch.
fn is_one_option(rt: &impl Abort, alloc: Global, word: &str) -> bool {
    is_option(alloc, word).expect(rt, "memory")
        && is_launch_option(alloc, word).expect(rt, "memory")
        && option_layer(alloc, word).expect(rt, "memory").len() == 1
}

/// Returns the length in bytes of the command that a word names.
fn command_length(rt: &impl Abort, alloc: Global, word: Text) -> usize {
    match last_command(alloc, &[word]).expect(rt, "memory") {
        Some(command) => command.as_str().len(),
        None => 0,
    }
}

/// Returns whether a word is one rule.
fn is_one_rule(rt: &impl Abort, alloc: Global, word: Text) -> bool {
    let is_so = fl_options::is_rule(alloc, word.as_str()).expect(rt, "memory");
    let policy = policy_of(alloc, &[word]).expect(rt, "memory");
    is_so && policy.rules().len() == 1
}

#[test]
fn long_words(rt: HostRuntime) {
    let option = long_word(&rt, rt.alloc(), "--env=A=");
    assert!(rt; is_one_option(&rt, rt.alloc(), option.as_str()));
    let command = long_word(&rt, rt.alloc(), "--command=");
    assert!(rt; command_length(&rt, rt.alloc(), command) == 100 << 10);
    assert!(rt;
        is_one_rule(
            &rt,
            rt.alloc(),
            long_word(&rt, rt.alloc(), "--call=org.x=*@")
        )
    );
}
