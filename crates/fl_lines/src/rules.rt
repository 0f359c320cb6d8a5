//! The rules that the last words of refusals stand for. None of these functions allocates.
ghost use Rattle.std.specs.Prelude.{◌≡◌, IfSome};
ghost use Rattle.fl_lines.specs.PrintedWords.{rule_word, key_rule_word, meta_rule_word, frame_rule_word};

use fp_base::{FrameRule, KeyRule, MetaRule, Rule};

/// Returns the rule for objects that a word stands for, or `None`.
pub fn object_rule(word: &str) -> Option<Rule>
    ensures { IfSome result (λ rule. rule_word rule ≡ word.now) }
{
    match word {
        "value" => Some(Rule::Value),
        "parent" => Some(Rule::Parent),
        "tree" => Some(Rule::Tree),
        "meta" => Some(Rule::Meta),
        "digest" => Some(Rule::Digest),
        "name" => Some(Rule::Name),
        "order" => Some(Rule::Order),
        "both" => Some(Rule::Both),
        "owner" => Some(Rule::Owner),
        "xattrs" => Some(Rule::Xattrs),
        "kind" => Some(Rule::Kind),
        _ => None,
    }
}

/// Returns the rule for lines of a key file that a word stands for, or `None`.
pub fn key_rule(word: &str) -> Option<KeyRule>
    ensures { IfSome result (λ rule. key_rule_word rule ≡ word.now) }
{
    match word {
        "text" => Some(KeyRule::Text),
        "group" => Some(KeyRule::Group),
        "line" => Some(KeyRule::Line),
        "key" => Some(KeyRule::Key),
        "nogroup" => Some(KeyRule::NoGroup),
        _ => None,
    }
}

/// Returns the rule for whole metadata files that a word stands for, or `None`.
pub fn meta_rule(word: &str) -> Option<MetaRule>
    ensures { IfSome result (λ rule. meta_rule_word rule ≡ word.now) }
{
    match word {
        "absent" => Some(MetaRule::Absent),
        "group" => Some(MetaRule::Group),
        "runtime" => Some(MetaRule::Runtime),
        _ => None,
    }
}

/// Returns the rule for D-Bus messages that a word stands for, or `None`.
pub fn frame_rule(word: &str) -> Option<FrameRule>
    ensures { IfSome result (λ rule. frame_rule_word rule ≡ word.now) }
{
    match word {
        "order" => Some(FrameRule::Order),
        "type" => Some(FrameRule::ZeroType),
        "version" => Some(FrameRule::Version),
        "serial" => Some(FrameRule::Serial),
        "length" => Some(FrameRule::Length),
        "fields" => Some(FrameRule::Fields),
        "code" => Some(FrameRule::Code),
        "double" => Some(FrameRule::Double),
        "kind" => Some(FrameRule::Kind),
        "value" => Some(FrameRule::Value),
        "padding" => Some(FrameRule::Padding),
        "required" => Some(FrameRule::Required),
        "body" => Some(FrameRule::Body),
        "cut" => Some(FrameRule::Cut),
        _ => None,
    }
}
