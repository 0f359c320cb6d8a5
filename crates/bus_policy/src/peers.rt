//! The peers of which something is known.

ghost use Rattle.std.specs.Prelude.{◌≡◌, ◌&&◌, ℕ, List, [], true, false, IfOk, OnOk, OnErr, None};
ghost use Rattle.std.specs.Option.{option_copied};
ghost use Rattle.bus_policy.specs.declared.policy.PolicyRule.{PolicyRule as TheRule};
ghost use Rattle.indexmap.specs.IndexMap.{get_by_text};
ghost use Rattle.std.specs.Str.{bytes_eq};
ghost use Rattle.bus_policy.specs.Watching.{KeepsKnown, known_of, unknown, known_after, changed_if, with_name, with_news, tells, without_call};
ghost use Rattle.bus_policy.specs.Events.{is_unique_like};

use crate::pattern::is_like_unique;
use crate::peer::{Peer, RawNews};
use crate::policy::PolicyRule;
use fp_base::Text;
use indexmap::IndexMap;
use std::alloc::{AllocError, Global};
use std::hash::BuildHasher;

/// The peers, by their unique names.
pub type Peers<S> = IndexMap<String, Peer<S>, S>;

/// Adds a peer with the first event about it. On an error nothing changes.
fn add_peer<S: BuildHasher + Copy>(
    peers: &mut Peers<S>,
    rules: &[PolicyRule],
    name: &str,
    news: RawNews<'_>,
) -> Result<(), AllocError>
    requires fresh { get_by_text peers.old name.now ≡ None }
    requires tells { tells rules.now news ≡ true }
    ensures ok { OnOk result ((q : List ℕ) → known_of rules.now (get_by_text peers.new q)
        ≡ changed_if (bytes_eq name.now q) (with_news rules.now news.entry)
        (known_of rules.now (get_by_text peers.old q))) }
    ensures err { OnErr result ((q : List ℕ) → known_of rules.now (get_by_text peers.new q)
        ≡ known_of rules.now (get_by_text peers.old q)) }
    ensures kept { KeepsKnown rules.now (get_by_text peers.old)
        → KeepsKnown rules.now (get_by_text peers.new) }
{
    let alloc = *peers.allocator();
    let name = String::from_str(alloc, name)?;
    let peer = Peer::with_news(alloc, *peers.hasher(), rules, news)?;
    peers.insert(name, peer)?;
    Ok(())
}

/// Adds an event that contains something about a peer. On an error nothing changes.
fn learn_more<S: BuildHasher + Copy>(
    peers: &mut Peers<S>,
    rules: &[PolicyRule],
    name: &str,
    news: RawNews<'_>,
) -> Result<(), AllocError>
    requires tells { tells rules.now news ≡ true }
    ensures ok { OnOk result ((q : List ℕ) → known_of rules.now (get_by_text peers.new q)
        ≡ changed_if (bytes_eq name.now q) (with_news rules.now news.entry)
        (known_of rules.now (get_by_text peers.old q))) }
    ensures err { OnErr result ((q : List ℕ) → known_of rules.now (get_by_text peers.new q)
        ≡ known_of rules.now (get_by_text peers.old q)) }
    ensures kept { KeepsKnown rules.now (get_by_text peers.old)
        → KeepsKnown rules.now (get_by_text peers.new) }
{
    match peers.get_mut(name) {
        Some(peer) => peer.learn(rules, news),
        None => add_peer(peers, rules, name, news),
    }
}

/// Adds an event about a peer. Nothing is stored if it contains nothing to store. Errs only if
/// memory runs out, and then nothing changes.
pub fn learn<S: BuildHasher + Copy>(
    peers: &mut Peers<S>,
    rules: &[PolicyRule],
    name: &str,
    news: RawNews<'_>,
) -> Result<(), AllocError>
    ensures ok { OnOk result ((q : List ℕ) → known_of rules.now (get_by_text peers.new q)
        ≡ changed_if (bytes_eq name.now q) (with_news rules.now news.entry)
        (known_of rules.now (get_by_text peers.old q))) }
    ensures err { OnErr result ((q : List ℕ) → known_of rules.now (get_by_text peers.new q)
        ≡ known_of rules.now (get_by_text peers.old q)) }
    ensures kept { KeepsKnown rules.now (get_by_text peers.old)
        → KeepsKnown rules.now (get_by_text peers.new) }
{
    if !news.tells(rules) {
        return Ok(());
    }
    learn_more(peers, rules, name, news)
}

/// Adds a name that a peer has now, if the peer's name is a unique one. Errs only if memory runs
/// out, and then nothing changes.
pub fn add_owned<S: BuildHasher + Copy>(
    peers: &mut Peers<S>,
    rules: &[PolicyRule],
    owner: &str,
    name: &str,
) -> Result<(), AllocError>
    ensures ok { OnOk result ((q : List ℕ) → known_of rules.now (get_by_text peers.new q)
        ≡ changed_if (is_unique_like owner.now && bytes_eq owner.now q)
        (with_name rules.now name.now)
        (known_of rules.now (get_by_text peers.old q))) }
    ensures err { OnErr result ((q : List ℕ) → known_of rules.now (get_by_text peers.new q)
        ≡ known_of rules.now (get_by_text peers.old q)) }
    ensures kept { KeepsKnown rules.now (get_by_text peers.old)
        → KeepsKnown rules.now (get_by_text peers.new) }
{
    if !is_like_unique(owner.as_bytes()) {
        return Ok(());
    }
    learn(peers, rules, owner, RawNews::Name(name))
}

/// Returns the peers that own names at the start. Errs only if memory runs out.
pub fn opening<S: BuildHasher + Copy>(
    alloc: Global,
    hash_builder: S,
    rules: &[PolicyRule],
    owners: &[(Text, Text)],
) -> Result<Peers<S>, AllocError>
    ensures known { IfOk result (λ peers. (q : List ℕ) →
        known_of rules.now (get_by_text peers q) ≡ known_after rules.now owners.now [] q) }
    ensures kept { IfOk result (λ peers. KeepsKnown rules.now (get_by_text peers)) }
{
    let mut peers = IndexMap::with_hasher(alloc, hash_builder);
    for (name, owner) in owners {
        add_owned(&mut peers, rules, owner.as_str(), name.as_str())?;
    }
    Ok(peers)
}

/// Removes a call of a peer that waits no longer.
fn end_call<S: BuildHasher + Copy>(peers: &mut Peers<S>, name: &str, serial: u32)
    ensures known { (rules : List TheRule) (q : List ℕ) → known_of rules (get_by_text peers.new q)
        ≡ changed_if (bytes_eq name.now q) (without_call serial)
        (known_of rules (get_by_text peers.old q)) }
    ensures others { (q : List ℕ) → bytes_eq name.now q ≡ false
        → get_by_text peers.new q ≡ get_by_text peers.old q }
{
    if let Some(peer) = peers.get_mut(name) {
        peer.remove_call(serial);
    }
}

/// Returns whether something is known of a peer.
fn is_known<S: BuildHasher + Copy>(peer: Option<&Peer<S>>, rules: &[PolicyRule]) -> bool
    ensures blank { result ≡ false
        → known_of rules.now (option_copied peer.entry) ≡ unknown rules.now }
    ensures known { known_of rules.now (option_copied peer.entry) ≡ unknown rules.now
        → result ≡ false }
{
    match peer {
        Some(peer) => !peer.is_blank(rules),
        None => false,
    }
}

/// Removes a peer if nothing is known of it.
fn forget_unknown<S: BuildHasher + Copy>(peers: &mut Peers<S>, rules: &[PolicyRule], name: &str)
    ensures known { (q : List ℕ) → known_of rules.now (get_by_text peers.new q)
        ≡ known_of rules.now (get_by_text peers.old q) }
    ensures kept { ((q : List ℕ) → bytes_eq name.now q ≡ false
        → known_of rules.now (get_by_text peers.old q) ≡ unknown rules.now
        → get_by_text peers.old q ≡ None) → KeepsKnown rules.now (get_by_text peers.new) }
{
    if !is_known(peers.get(name), rules) {
        peers.swap_remove(name);
    }
}

/// Removes a call of a peer that waits no longer, and then the peer if nothing else is known of it.
pub fn settle<S: BuildHasher + Copy>(
    peers: &mut Peers<S>,
    rules: &[PolicyRule],
    name: &str,
    serial: u32,
)
    ensures known { (q : List ℕ) → known_of rules.now (get_by_text peers.new q)
        ≡ changed_if (bytes_eq name.now q) (without_call serial)
        (known_of rules.now (get_by_text peers.old q)) }
    ensures kept { KeepsKnown rules.now (get_by_text peers.old)
        → KeepsKnown rules.now (get_by_text peers.new) }
{
    end_call(peers, name, serial);
    forget_unknown(peers, rules, name);
}
