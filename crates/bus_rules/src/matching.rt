//! The messages that a rule matches.

ghost use Rattle.std.specs.Prelude.{◌≡◌};
ghost use Rattle.bus_rules.specs.Rules.{says, has_member, has_object, members_match, objects_match, rule_matches};

use crate::rule::{Members, Objects, Rule};
use crate::within::is_at_or_under;
use bus_frame::Header;
use fp_base::Text;

/// Returns whether a header field is present and is this text.
pub fn is_text(found: &Option<Text>, text: &str) -> bool
    ensures { result ≡ says found.now text.now }
{
    match found {
        Some(found) => found.as_str() == text,
        None => false,
    }
}

fn is_member(members: &Members, header: &Header) -> bool
    ensures { result ≡ has_member members.now header.now }
{
    match members {
        Members::All => true,
        Members::Of(interface) => is_text(&header.interface, interface.as_str()),
        Members::One(interface, member) => {
            is_text(&header.interface, interface.as_str())
                && is_text(&header.member, member.as_str())
        }
    }
}

fn is_object(objects: &Objects, path: &Option<Text>) -> bool
    ensures { result ≡ has_object objects.now path.now }
{
    let Some(path) = path else {
        return false;
    };
    match objects {
        Objects::At(wanted) => path.as_str() == wanted.as_str(),
        Objects::Below(above) => {
            is_at_or_under(b'/', path.as_str().as_bytes(), above.as_str().as_bytes())
        }
    }
}

fn is_among(members: &Option<Members>, header: &Header) -> bool
    ensures { result ≡ members_match members.now header.now }
{
    match members {
        Some(members) => is_member(members, header),
        None => true,
    }
}

fn is_there(objects: &Option<Objects>, header: &Header) -> bool
    ensures { result ≡ objects_match objects.now header.now }
{
    match objects {
        Some(objects) => is_object(objects, &header.path),
        None => true,
    }
}

impl Rule {
    /// Returns whether the rule matches a message with this header. A message without an interface
    /// matches no rule that names one, and a message without a path matches no rule with objects.
    /// Allocates nothing.
    #[tactic(auto, unfolding(crate::specs::Rules::rule_matches))]
    pub fn matches(&self, header: &Header) -> bool
        ensures { result ≡ rule_matches self.now header.now }
    {
        is_among(&self.members, header) && is_there(&self.objects, header)
    }
}
