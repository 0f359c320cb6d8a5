//! The explanations of refusals, and the rules that their last words stand for.

use crate::rows::agree;
use fl_lines::{
    advice_on, frame_rule, frame_rule_word, key_rule, key_rule_word, meta_rule, meta_rule_word,
    object_rule, rule_word,
};
use fp_base::{FrameRule, KeyRule, MetaRule, Rule};

/// The expected text for lines without an explanation.
const NO_ADVICE: &str = "no advice";

/// Lines of refusals, and words in their explanations; and lines without an explanation.
const ADVICE: [(&str, &str); 17] = [
    ("error: no remote lux\n", "`fpk list --remotes`"),
    ("error: remote exists hub\n", "`fpk remote-modify NAME URL`"),
    (
        "error: remote mode hub archive-z2\n",
        "`ostree init --mode=bare-user-only --repo=NEW`",
    ),
    (
        "error: no ref hub app/org.x.App/x86_64/1\n",
        "does not offer this ref",
    ),
    ("error: no pin app/*/*/*\n", "not pinned"),
    ("error: no previous app/org.x.App/x86_64/1\n", "no commit"),
    (
        "error: installed app/org.x.App/x86_64/1\n",
        "`fpk update REF`",
    ),
    (
        "error: not installed app/org.x.App/x86_64/1\n",
        "`fpk list`",
    ),
    ("error: limit pins 1025\n", "at most 1,024 pins"),
    ("error: limit remotes 257\n", "at most 256 remotes"),
    ("error: limit refs 4097\n", "at most 4,096 refs"),
    ("error: record 4\n", "counted from 1"),
    ("", NO_ADVICE),
    ("error: ", NO_ADVICE),
    ("error: limit\n", NO_ADVICE),
    ("pinned app/*/*/*\n", NO_ADVICE),
    (" error: no pin x\n", NO_ADVICE),
];

#[test]
fn advice(rt: HostRuntime) {
    for (line, said) in &ADVICE {
        let advice = advice_on(line).unwrap_or(NO_ADVICE);
        agree(&rt, line, advice.contains(*said));
    }
}

/// A rule that a refusal names.
enum AnyRule {
    Object(Rule),
    Key(KeyRule),
    Meta(MetaRule),
    Frame(FrameRule),
}

/// All rules.
const RULES: [AnyRule; 33] = [
    AnyRule::Object(Rule::Value),
    AnyRule::Object(Rule::Parent),
    AnyRule::Object(Rule::Tree),
    AnyRule::Object(Rule::Meta),
    AnyRule::Object(Rule::Digest),
    AnyRule::Object(Rule::Name),
    AnyRule::Object(Rule::Order),
    AnyRule::Object(Rule::Both),
    AnyRule::Object(Rule::Owner),
    AnyRule::Object(Rule::Xattrs),
    AnyRule::Object(Rule::Kind),
    AnyRule::Key(KeyRule::Text),
    AnyRule::Key(KeyRule::Group),
    AnyRule::Key(KeyRule::Line),
    AnyRule::Key(KeyRule::Key),
    AnyRule::Key(KeyRule::NoGroup),
    AnyRule::Meta(MetaRule::Absent),
    AnyRule::Meta(MetaRule::Group),
    AnyRule::Meta(MetaRule::Runtime),
    AnyRule::Frame(FrameRule::Order),
    AnyRule::Frame(FrameRule::ZeroType),
    AnyRule::Frame(FrameRule::Version),
    AnyRule::Frame(FrameRule::Serial),
    AnyRule::Frame(FrameRule::Length),
    AnyRule::Frame(FrameRule::Fields),
    AnyRule::Frame(FrameRule::Code),
    AnyRule::Frame(FrameRule::Double),
    AnyRule::Frame(FrameRule::Kind),
    AnyRule::Frame(FrameRule::Value),
    AnyRule::Frame(FrameRule::Padding),
    AnyRule::Frame(FrameRule::Required),
    AnyRule::Frame(FrameRule::Body),
    AnyRule::Frame(FrameRule::Cut),
];

/// Returns whether the word for a rule stands for this rule.
fn has_word(rule: &AnyRule) -> bool {
    match rule {
        AnyRule::Object(rule) => object_rule(rule_word(*rule)) == Some(*rule),
        AnyRule::Key(rule) => key_rule(key_rule_word(*rule)) == Some(*rule),
        AnyRule::Meta(rule) => meta_rule(meta_rule_word(*rule)) == Some(*rule),
        AnyRule::Frame(rule) => frame_rule(frame_rule_word(*rule)) == Some(*rule),
    }
}

#[test]
fn words_stand_for_rules(rt: HostRuntime) {
    for rule in &RULES {
        assert!(rt; has_word(rule));
    }
    assert!(rt; object_rule("").is_none() && frame_rule("values").is_none());
}
