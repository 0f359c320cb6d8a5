//! The facts that a watch stores of a peer.

ghost use Rattle.std.specs.Prelude.{◌≡◌, ◌||◌, ◌==◌, ◌++◌, [], ℕ, Bool, false, List, true, map, if◌then◌else◌, slice_set, IfOk, OnOk, OnErr, Some};
ghost use Rattle.bus_policy.specs.declared.policy.PolicyRule.{PolicyRule as TheRule};
ghost use Rattle.bus_policy.specs.Levels.{pattern_matches};
ghost use Rattle.bus_policy.specs.Watching.{known_of, unknown, name_level, or_each, with_name, with_message_if, with_call_if, without_call, with_news, speaks_of, tells};

use crate::level::Level;
use crate::pattern::{is_like_unique, matches_name};
use crate::policy::{PolicyRule, level_by_rules};
use indexmap::IndexSet;
use std::alloc::{AllocError, Global};
use std::hash::BuildHasher;

/// The facts known of a peer.
#[derive(Drop)]
pub struct Peer<S: BuildHasher> {
    /// The greatest level that the rules give to a well-known name that the peer ever had.
    pub had: Level,
    /// Whether the peer sent the client a message with a destination.
    pub wrote: bool,
    /// For each rule of the policy, whether its pattern matches a name that the peer ever had.
    pub meant: Vec<bool>,
    /// The serials of the peer's calls that wait for a reply.
    pub waiting: IndexSet<u32, S>,
}

/// The facts about a peer that an event adds.
#[derive(Clone, Copy)]
pub enum RawNews<'a> {
    /// A name that the peer has now.
    Name(&'a str),
    /// A message of the peer: whether it is for the client, and its serial if it is a call that
    /// waits.
    Message(bool, Option<u32>),
}

impl RawNews<'_> {
    /// Returns whether the event can add something: a name that a rule's pattern matches, a message
    /// for the client, or a call that waits.
    pub fn tells(self, rules: &[PolicyRule]) -> bool
        ensures { result ≡ tells rules.now self.entry }
    {
        match self {
            RawNews::Name(name) => is_spoken_of(rules, name.as_bytes()),
            RawNews::Message(wrote, call) => wrote || call.is_some(),
        }
    }
}

/// Returns whether the pattern of a rule matches a name.
fn is_spoken_of(rules: &[PolicyRule], name: &[u8]) -> bool
    ensures { result ≡ speaks_of rules.now name.now }
{
    for rule in rules {
        if matches_name(rule.pattern.as_str().as_bytes(), name) {
            return true;
        }
    }
    false
}

/// Returns the level that the rules give to a name of a peer; `None` for a unique name.
fn level_had(rules: &[PolicyRule], name: &[u8]) -> Level
    ensures { result ≡ name_level rules.now name.now }
{
    if is_like_unique(name) {
        return Level::None;
    }
    level_by_rules(rules, name)
}

fn unmeant(alloc: Global, rules: &[PolicyRule]) -> Result<Vec<bool>, AllocError>
    ensures { IfOk result (λ v. v.items ≡ map (λ rule. false) rules.now) }
{
    let mut flags = Vec::with_capacity(alloc, rules.len())?;
    for _ in 0..rules.len() {
        flags.push(false)?;
    }
    Ok(flags)
}

/// Returns whether no flag is set and there is one for each rule.
fn are_unmeant(flags: &[bool], rules: &[PolicyRule]) -> bool
    ensures blank { result ≡ true → flags.now ≡ map (λ rule. false) rules.now }
    ensures raised { flags.now ≡ map (λ rule. false) rules.now → result ≡ true }
{
    if flags.len() != rules.len() {
        return false;
    }
    for flag in flags {
        if *flag {
            return false;
        }
    }
    true
}

fn raise(flags: &mut Vec<bool>, at: usize, raised: bool)
    ensures { flags.new.items
        ≡ (if raised then slice_set flags.old.items at true else flags.old.items) }
{
    if raised && at < flags.len() {
        flags[at] = true;
    }
}

/// Sets the flags of the rules whose patterns match a name.
fn add_meant(meant: &mut Vec<bool>, rules: &[PolicyRule], name: &[u8])
    ensures { meant.new.items
        ≡ or_each (λ rule. pattern_matches rule.pattern name.now) rules.now meant.old.items }
{
    for (i, rule) in rules.iter().enumerate() {
        let is_meant = matches_name(rule.pattern.as_str().as_bytes(), name);
        raise(meant, i, is_meant);
    }
}

impl<S: BuildHasher + Copy> Peer<S> {
    /// Creates a peer of which nothing is known.
    pub fn fresh(alloc: Global, hash_builder: S, rules: &[PolicyRule]) -> Result<Self, AllocError>
        ensures { IfOk result (λ peer. known_of rules.now (Some peer) ≡ unknown rules.now) }
    {
        Ok(Peer {
            had: Level::None,
            wrote: false,
            meant: unmeant(alloc, rules)?,
            waiting: IndexSet::with_hasher(alloc, hash_builder),
        })
    }

    /// Creates a peer of which only one event is known.
    pub fn with_news(
        alloc: Global,
        hash_builder: S,
        rules: &[PolicyRule],
        news: RawNews<'_>,
    ) -> Result<Self, AllocError>
        ensures { IfOk result (λ peer. known_of rules.now (Some peer)
            ≡ with_news rules.now news.entry (unknown rules.now)) }
    {
        let mut peer = Peer::fresh(alloc, hash_builder, rules)?;
        peer.learn(rules, news)?;
        Ok(peer)
    }

    /// Adds a name that the peer has.
    pub fn add_name(&mut self, rules: &[PolicyRule], name: &[u8])
        ensures { known_of rules.now (Some self.new)
            ≡ with_name rules.now name.now (known_of rules.now (Some self.old)) }
    {
        self.had = level_had(rules, name).or(self.had);
        add_meant(&mut self.meant, rules, name);
    }

    fn add_message_if(&mut self, wrote: bool)
        ensures { (rules : List TheRule) → known_of rules (Some self.new)
            ≡ with_message_if wrote (known_of rules (Some self.old)) }
    {
        if wrote {
            self.wrote = true;
        }
    }

    fn add_call_if(&mut self, call: Option<u32>) -> Result<(), AllocError>
        ensures ok { OnOk result
            ((rules : List TheRule) → known_of rules (Some self.new)
            ≡ with_call_if call (known_of rules (Some self.old))) }
        ensures err { OnErr result
            ((rules : List TheRule) → known_of rules (Some self.new)
            ≡ known_of rules (Some self.old)) }
    {
        if let Some(serial) = call {
            self.waiting.insert(serial)?;
        }
        Ok(())
    }

    /// Adds what an event contains. Errs only if memory runs out, and then nothing changes.
    pub fn learn(&mut self, rules: &[PolicyRule], news: RawNews<'_>) -> Result<(), AllocError>
        ensures ok { OnOk result
            (known_of rules.now (Some self.new)
            ≡ with_news rules.now news.entry (known_of rules.now (Some self.old))) }
        ensures err { OnErr result
            (known_of rules.now (Some self.new) ≡ known_of rules.now (Some self.old)) }
    {
        match news {
            RawNews::Name(name) => self.add_name(rules, name.as_bytes()),
            RawNews::Message(wrote, call) => {
                self.add_call_if(call)?;
                self.add_message_if(wrote);
            }
        }
        Ok(())
    }

    /// Returns whether nothing is known of the peer.
    pub fn is_blank(&self, rules: &[PolicyRule]) -> bool
        ensures blank { result ≡ true → known_of rules.now (Some self.now) ≡ unknown rules.now }
        ensures known { known_of rules.now (Some self.now) ≡ unknown rules.now → result ≡ true }
    {
        if self.wrote || !matches!(self.had, Level::None) {
            return false;
        }
        if !self.waiting.is_empty() {
            return false;
        }
        are_unmeant(&self.meant, rules)
    }

    /// Removes a call of the peer that waits no longer.
    pub fn remove_call(&mut self, serial: u32)
        ensures { (rules : List TheRule) → known_of rules (Some self.new)
            ≡ without_call serial (known_of rules (Some self.old)) }
    {
        self.waiting.swap_remove(&serial);
    }
}
