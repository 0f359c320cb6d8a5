//! The words for enum values in printed lines. None of these functions allocates.
ghost use Rattle.std.specs.Prelude.{◌≡◌};
ghost use Rattle.fl_lines.specs.PrintedWords.{rule_word as word_of_rule, what_word as word_of_what, side_word as word_of_side, key_rule_word as word_of_key_rule, meta_rule_word as word_of_meta_rule, metadata_rule_word as word_of_metadata_rule, frame_rule_word as word_of_frame_rule};

use fp_base::{FrameRule, KeyRule, MetaRule, MetadataRule, Rule, Side, What};

/// Returns the word for the rule that an object breaks.
pub fn rule_word(rule: Rule) -> &'static str
    ensures { result.now ≡ word_of_rule rule }
{
    match rule {
        Rule::Value => "value",
        Rule::Parent => "parent",
        Rule::Tree => "tree",
        Rule::Meta => "meta",
        Rule::Digest => "digest",
        Rule::Name => "name",
        Rule::Order => "order",
        Rule::Both => "both",
        Rule::Owner => "owner",
        Rule::Xattrs => "xattrs",
        Rule::Kind => "kind",
    }
}

/// Returns the word for what a limit applies to.
pub fn what_word(what: What) -> &'static str
    ensures { result.now ≡ word_of_what what }
{
    match what {
        What::Pins => "pins",
        What::Remotes => "remotes",
        What::Refs => "refs",
        What::Input => "input",
        What::Object => "object",
        What::MetadataObject => "metadata-object",
        What::Objects => "objects",
        What::Depth => "depth",
        What::MetadataFile => "metadata-file",
        What::Override => "override",
    }
}

/// Returns the word for the side that sent a message.
pub fn side_word(side: Side) -> &'static str
    ensures { result.now ≡ word_of_side side }
{
    match side {
        Side::Client => "client",
        Side::Bus => "bus",
    }
}

/// Returns the word for the rule that a line of a key file breaks.
pub fn key_rule_word(rule: KeyRule) -> &'static str
    ensures { result.now ≡ word_of_key_rule rule }
{
    match rule {
        KeyRule::Text => "text",
        KeyRule::Group => "group",
        KeyRule::Line => "line",
        KeyRule::Key => "key",
        KeyRule::NoGroup => "nogroup",
    }
}

/// Returns the word for the rule that a whole metadata file breaks.
pub fn meta_rule_word(rule: MetaRule) -> &'static str
    ensures { result.now ≡ word_of_meta_rule rule }
{
    match rule {
        MetaRule::Absent => "absent",
        MetaRule::Group => "group",
        MetaRule::Runtime => "runtime",
    }
}

/// Returns the word for the rule that a metadata file breaks, in one line or as a whole.
pub fn metadata_rule_word(rule: MetadataRule) -> &'static str
    ensures { result.now ≡ word_of_metadata_rule rule }
{
    match rule {
        MetadataRule::Key(rule) => key_rule_word(rule),
        MetadataRule::Meta(rule) => meta_rule_word(rule),
    }
}

/// Returns the word for the rule that a D-Bus message breaks.
pub fn frame_rule_word(rule: FrameRule) -> &'static str
    ensures { result.now ≡ word_of_frame_rule rule }
{
    match rule {
        FrameRule::Order => "order",
        FrameRule::ZeroType => "type",
        FrameRule::Version => "version",
        FrameRule::Serial => "serial",
        FrameRule::Length => "length",
        FrameRule::Fields => "fields",
        FrameRule::Code => "code",
        FrameRule::Double => "double",
        FrameRule::Kind => "kind",
        FrameRule::Value => "value",
        FrameRule::Padding => "padding",
        FrameRule::Required => "required",
        FrameRule::Body => "body",
        FrameRule::Cut => "cut",
    }
}
