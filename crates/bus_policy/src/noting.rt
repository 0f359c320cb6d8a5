//! Noting of events.

ghost use Rattle.std.specs.Prelude.{◌≡◌, ◌&&◌, ◌∷◌, ℕ, List, false, is_some, OnOk, OnErr};
ghost use Rattle.indexmap.specs.IndexMap.{get_by_text};
ghost use Rattle.bus_policy.specs.Events.{Judged, tells_owner, is_unique_like};
ghost use Rattle.bus_policy.specs.Watching.{CallsAt, KeepsKnown, known_of, waiting_call, with_event, judged_event};

use crate::calls::ClientCalls;
use crate::judging::{is_a_call, is_a_reply, is_about_owner};
use crate::pattern::is_like_unique;
use crate::peer::RawNews;
use crate::peers::{Peers, add_owned, learn, settle};
use crate::policy::PolicyRule;
use crate::verdict::Verdict;
use bus_frame::{Header, three_strings};
use fp_base::Side;
use std::alloc::AllocError;
use std::hash::BuildHasher;

/// Returns the serial of a forwarded call that expects a reply, or `None` for any other message.
fn serial_to_wait(header: &Header, verdict: Verdict) -> Option<u32>
    ensures { result ≡ waiting_call header.now verdict }
{
    if !is_a_call(header) || header.flags.want_no_reply() || !verdict.is_forwarding() {
        return None;
    }
    Some(header.serial)
}

/// Returns whether a message has a destination, and a unique name as its sender.
fn is_written_by(header: &Header, sender: &str) -> bool
    ensures { result ≡ (is_unique_like sender.now && is_some header.now.destination) }
{
    is_like_unique(sender.as_bytes()) && header.destination.is_some()
}

/// Notes a message of the client: if it is a forwarded call, its serial counts as used, and it
/// waits for a reply if it expects one. On an error nothing changes.
pub fn note_client_call<S: BuildHasher + Copy>(
    calls: &mut ClientCalls<S>,
    header: &Header,
    verdict: Verdict,
) -> Result<(), AllocError>
    ensures ok { (noted : List Judged) (bytes : List ℕ) → CallsAt calls.old noted
        → OnOk result (CallsAt calls.new
        (judged_event Side.Client header.now bytes verdict ∷ noted)) }
    ensures err { (noted : List Judged) → CallsAt calls.old noted
        → OnErr result (CallsAt calls.new noted) }
{
    if !is_a_call(header) || !verdict.is_forwarding() {
        return Ok(());
    }
    calls.add(header)
}

/// Notes a message of the client: if it is a forwarded reply, the peer's call that it answers waits
/// no longer.
pub fn note_client_reply<S: BuildHasher + Copy>(
    peers: &mut Peers<S>,
    rules: &[PolicyRule],
    header: &Header,
    verdict: Verdict,
)
    ensures known { (q bytes : List ℕ) → known_of rules.now (get_by_text peers.new q)
        ≡ with_event rules.now (judged_event Side.Client header.now bytes verdict) q
        (known_of rules.now (get_by_text peers.old q)) }
    ensures kept { KeepsKnown rules.now (get_by_text peers.old)
        → KeepsKnown rules.now (get_by_text peers.new) }
{
    if !is_a_reply(header) || !verdict.is_forwarding() {
        return;
    }
    let (Some(peer), Some(serial)) = (&header.destination, header.reply_serial) else {
        return;
    };
    settle(peers, rules, peer.as_str(), serial);
}

/// Notes a message of the bus's side: if it is a forwarded reply, the client's calls that it
/// answers wait no longer.
pub fn note_bus_reply<S: BuildHasher + Copy>(
    calls: &mut ClientCalls<S>,
    header: &Header,
    verdict: Verdict,
)
    ensures { (noted : List Judged) (bytes : List ℕ) → CallsAt calls.old noted
        → CallsAt calls.new (judged_event Side.Bus header.now bytes verdict ∷ noted) }
{
    if !is_a_reply(header) || !verdict.is_forwarding() {
        return;
    }
    if let Some(serial) = header.reply_serial {
        calls.end(serial);
    }
}

/// Notes the sender of a message: whether it wrote to the client, and whether its message is a call
/// that waits. On an error nothing changes.
fn note_sender<S: BuildHasher + Copy>(
    peers: &mut Peers<S>,
    rules: &[PolicyRule],
    header: &Header,
    verdict: Verdict,
) -> Result<(), AllocError>
    requires { tells_owner header.now ≡ false }
    ensures ok { (bytes : List ℕ) → OnOk result ((q : List ℕ)
        → known_of rules.now (get_by_text peers.new q)
        ≡ with_event rules.now (judged_event Side.Bus header.now bytes verdict) q
        (known_of rules.now (get_by_text peers.old q))) }
    ensures err { OnErr result ((q : List ℕ) → known_of rules.now (get_by_text peers.new q)
        ≡ known_of rules.now (get_by_text peers.old q)) }
    ensures kept { KeepsKnown rules.now (get_by_text peers.old)
        → KeepsKnown rules.now (get_by_text peers.new) }
{
    let Some(sender) = &header.sender else {
        return Ok(());
    };
    let news = RawNews::Message(
        is_written_by(header, sender.as_str()),
        serial_to_wait(header, verdict),
    );
    learn(peers, rules, sender.as_str(), news)
}

/// Notes what a message of the bus's side contains about a peer: for `NameOwnerChanged` the new
/// owner of a name, for others the sender. On an error nothing changes.
pub fn note_bus_peer<S: BuildHasher + Copy>(
    peers: &mut Peers<S>,
    rules: &[PolicyRule],
    header: &Header,
    message: &[u8],
    verdict: Verdict,
) -> Result<(), AllocError>
    ensures ok { OnOk result ((q : List ℕ) → known_of rules.now (get_by_text peers.new q)
        ≡ with_event rules.now (judged_event Side.Bus header.now message.now verdict) q
        (known_of rules.now (get_by_text peers.old q))) }
    ensures err { OnErr result ((q : List ℕ) → known_of rules.now (get_by_text peers.new q)
        ≡ known_of rules.now (get_by_text peers.old q)) }
    ensures kept { KeepsKnown rules.now (get_by_text peers.old)
        → KeepsKnown rules.now (get_by_text peers.new) }
{
    if !is_about_owner(header) {
        return note_sender(peers, rules, header, verdict);
    }
    match three_strings(header, message) {
        Some((name, _, owner)) => add_owned(peers, rules, owner, name),
        None => Ok(()),
    }
}
