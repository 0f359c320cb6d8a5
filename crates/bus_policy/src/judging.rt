//! Properties of messages, by their headers and bodies.

ghost use Rattle.std.specs.Prelude.{◌≡◌};
ghost use Rattle.bus_policy.specs.Events.{is_call, is_reply, tells_owner};
ghost use Rattle.bus_policy.specs.Verdicts.{pass_if as passed_if, holds_word, is_of_driver, may_name, reply_to};
ghost use Rattle.bus_policy.specs.Watching.{event};

use crate::calls::WaitingCalls;
use crate::verdict::Verdict;
use bus_frame::{BUS_NAME, Header, MessageType, is_names};
use bus_rules::is_text;
use fp_base::Side;

/// Returns `Pass` if the message is allowed, else `Drop`.
pub fn pass_if(leave: bool) -> Verdict
    ensures { result ≡ passed_if leave }
{
    if leave { Verdict::Pass } else { Verdict::Drop }
}

/// Returns whether a message is a method call.
pub fn is_a_call(header: &Header) -> bool
    ensures { result ≡ is_call header.now }
{
    matches!(header.kind, MessageType::MethodCall)
}

/// Returns whether a message is a method return or an error.
pub fn is_a_reply(header: &Header) -> bool
    ensures { result ≡ is_reply header.now }
{
    matches!(header.kind, MessageType::MethodReturn | MessageType::Error)
}

/// Returns whether a message is the bus's signal `NameOwnerChanged`, by its header fields.
pub fn is_about_owner(header: &Header) -> bool
    ensures { result ≡ tells_owner header.now }
{
    matches!(header.kind, MessageType::Signal)
        && is_text(&header.sender, BUS_NAME)
        && is_text(&header.interface, BUS_NAME)
        && is_text(&header.member, "NameOwnerChanged")
}

/// Returns whether a text contains a word of one byte or more.
pub fn holds(word: &[u8], text: &[u8]) -> bool
    ensures { result ≡ holds_word word.now text.now }
{
    let mut rest = text;
    while let [_, after @ ..] = rest {
        if rest.starts_with(word) {
            return true;
        }
        rest = after;
    }
    false
}

/// Returns whether the bus itself sent a message: the sender is the bus's name or is missing.
fn is_from_driver(header: &Header) -> bool
    ensures { result ≡ is_of_driver header.now }
{
    header.sender.is_none() || is_text(&header.sender, BUS_NAME)
}

/// Returns whether a reply to these waiting calls may be a list of the bus's names.
fn may_have_names(header: &Header, calls: WaitingCalls) -> bool
    ensures { result ≡ may_name header.now calls }
{
    matches!(header.kind, MessageType::MethodReturn)
        && is_from_driver(header)
        && (calls.list_names || (calls.reused && is_text(&header.signature, "as")))
}

/// Returns the verdict on a reply to waiting calls of the client.
pub fn replied(header: &Header, message: &[u8], calls: WaitingCalls) -> Verdict
    ensures { result ≡ reply_to (event Side.Bus header.now message.now) calls }
{
    if !may_have_names(header, calls) {
        Verdict::Pass
    } else if is_names(header, message) {
        Verdict::FilterNameList
    } else {
        Verdict::Drop
    }
}
