//! The knowledge of the events so far, and the verdict on the next one.

ghost use Rattle.std.specs.Prelude.{◌≡◌, ℕ, Bool, List, [], ◌∷◌, nat_eq, IfOk, OnOk, OnErr, option_map};
ghost use Rattle.std.specs.Option.{option_copied};
ghost use Rattle.indexmap.specs.IndexMap.{get_by_text};
ghost use Rattle.bus_frame.specs.Bodies.{first_text, three_texts};
ghost use Rattle.bus_rules.specs.Rules.{says};
ghost use Rattle.bus_policy.specs.declared.policy.PolicyRule.{PolicyRule as TheRule};
ghost use Rattle.bus_policy.specs.Levels.{greater};
ghost use Rattle.bus_policy.specs.Driver.{handler_of};
ghost use Rattle.bus_policy.specs.Events.{Judged};
ghost use Rattle.bus_policy.specs.Verdicts.{has_level, refused, match_call, name_call, driver_call, call_to, client_call, client_reply, client_signal, of_client, bus_reply, owner_signal, broadcast, bus_signal, of_bus, verdict_in};
ghost use Rattle.bus_policy.specs.Watching.{Owners, WatchAt, rules_of, client_of, known_of, level_if as level_when, sight_of, count_kept, level_after, verdict_after, event, judged_event};

use crate::calls::{ClientCalls, WaitingCalls};
use crate::driver::{Handler, handler_of_call};
use crate::judging::{holds, is_about_owner, pass_if, replied};
use crate::level::Level;
use crate::noting::{note_bus_peer, note_bus_reply, note_client_call, note_client_reply};
use crate::pattern::is_like_unique;
use crate::peer::Peer;
use crate::peers::{Peers, opening};
use crate::policy::{Policy, RuleKind, any_gives_leave, level_by_rules};
use crate::verdict::Verdict;
use bus_frame::{BUS_NAME, Header, MessageType, copy_text, first_string, three_strings};
use bus_rules::is_text;
use fp_base::{Items, Side, Text};
use std::alloc::{AllocError, Global};
use std::hash::{BuildHasher, BuildHasherDefault, FoldHasher};

/// The hasher of `Watch::new`. Its seed is fixed, so an application can choose serials, and a peer
/// that calls it can choose names and serials, that slow down the application's own filter.
pub type FixedHasher = BuildHasherDefault<FoldHasher>;

/// A filter's knowledge of the events so far: each peer's level, whether it wrote to the client,
/// the rules that match its names, and the calls that wait for a reply. It stores no messages. `S`
/// makes the hashers of its tables.
#[derive(Drop)]
pub struct Watch<S: BuildHasher = FixedHasher> {
    policy: Policy,
    client: Option<Text>,
    peers: Peers<S>,
    calls: ClientCalls<S>,
}

fn level_had<S: BuildHasher>(peer: Option<&Peer<S>>) -> Level
    ensures { (rules : List TheRule) → result ≡ (known_of rules (option_copied peer.entry)).had }
{
    match peer {
        Some(peer) => peer.had,
        None => Level::None,
    }
}

fn has_written<S: BuildHasher>(peer: Option<&Peer<S>>) -> bool
    ensures { (rules : List TheRule) → result ≡ (known_of rules (option_copied peer.entry)).wrote }
{
    match peer {
        Some(peer) => peer.wrote,
        None => false,
    }
}

fn level_if(is_so: bool, level: Level) -> Level
    ensures { result ≡ level_when is_so level }
{
    if is_so { level } else { Level::None }
}

impl Watch {
    /// Creates a watch before any event, with a policy, the client's name if it is known, and
    /// well-known names with their owners. Errs only if memory runs out.
    pub fn new(
        alloc: Global,
        policy: Policy,
        client: Option<&str>,
        owners: &Items<(Text, Text)>,
    ) -> Result<Self, AllocError>
        ensures at { IfOk result (λ w. WatchAt w owners.now []) }
        ensures policy { IfOk result (λ w. rules_of w ≡ policy) }
        ensures client { IfOk result (λ w. client_of w ≡ option_map (λ t. t.now) client.entry) }
    {
        Watch::with_hasher(alloc, policy, client, owners, BuildHasherDefault::new())
    }
}

impl<S: BuildHasher + Copy> Watch<S> {
    /// Creates a watch before any event, as `Watch::new` does, with the caller's hasher.
    pub fn with_hasher(
        alloc: Global,
        policy: Policy,
        client: Option<&str>,
        owners: &Items<(Text, Text)>,
        hash_builder: S,
    ) -> Result<Self, AllocError>
        ensures at { IfOk result (λ w. WatchAt w owners.now []) }
        ensures policy { IfOk result (λ w. rules_of w ≡ policy) }
        ensures client { IfOk result (λ w. client_of w ≡ option_map (λ t. t.now) client.entry) }
    {
        let client = copy_text(alloc, client)?;
        let peers = opening(alloc, hash_builder, policy.rules(), owners.as_slice())?;
        Ok(Watch {
            policy,
            client,
            peers,
            calls: ClientCalls::new(alloc, hash_builder),
        })
    }

    /// Notes a message with its verdict. Errs only if memory runs out, and then nothing is noted.
    pub fn note(
        &mut self,
        side: Side,
        header: &Header,
        message: &[u8],
        verdict: Verdict,
    ) -> Result<(), AllocError>
        ensures ok { (owners : Owners) (noted : List Judged) → WatchAt self.old owners noted
            → OnOk result (WatchAt self.new owners
            (judged_event side header.now message.now verdict ∷ noted)) }
        ensures err { (owners : Owners) (noted : List Judged) → WatchAt self.old owners noted
            → OnErr result (WatchAt self.new owners noted) }
        ensures policy { rules_of self.new ≡ rules_of self.old }
        ensures client { client_of self.new ≡ client_of self.old }
    {
        match side {
            Side::Client => self.note_client(header, verdict),
            Side::Bus => self.note_bus(header, message, verdict),
        }
    }

    fn note_client(&mut self, header: &Header, verdict: Verdict) -> Result<(), AllocError>
        ensures ok { (owners : Owners) (noted : List Judged) (bytes : List ℕ)
            → WatchAt self.old owners noted → OnOk result (WatchAt self.new owners
            (judged_event Side.Client header.now bytes verdict ∷ noted)) }
        ensures err { (owners : Owners) (noted : List Judged) → WatchAt self.old owners noted
            → OnErr result (WatchAt self.new owners noted) }
        ensures policy { rules_of self.new ≡ rules_of self.old }
        ensures client { client_of self.new ≡ client_of self.old }
    {
        note_client_call(&mut self.calls, header, verdict)?;
        note_client_reply(&mut self.peers, self.policy.rules(), header, verdict);
        Ok(())
    }

    fn note_bus(
        &mut self,
        header: &Header,
        message: &[u8],
        verdict: Verdict,
    ) -> Result<(), AllocError>
        ensures ok { (owners : Owners) (noted : List Judged) → WatchAt self.old owners noted
            → OnOk result (WatchAt self.new owners
            (judged_event Side.Bus header.now message.now verdict ∷ noted)) }
        ensures err { (owners : Owners) (noted : List Judged) → WatchAt self.old owners noted
            → OnErr result (WatchAt self.new owners noted) }
        ensures policy { rules_of self.new ≡ rules_of self.old }
        ensures client { client_of self.new ≡ client_of self.old }
    {
        let rules = self.policy.rules();
        note_bus_peer(&mut self.peers, rules, header, message, verdict)?;
        note_bus_reply(&mut self.calls, header, verdict);
        Ok(())
    }

    /// Returns the level of a name after the events noted so far. Allocates nothing.
    pub fn level(&self, name: &str) -> Level
        ensures { (owners : Owners) (noted : List Judged) → WatchAt self.now owners noted
            → result ≡ level_after (rules_of self.now) (client_of self.now) owners noted name.now }
    {
        self.level_now(name)
    }

    /// Returns the verdict on a message after the events noted so far. Allocates nothing.
    pub fn verdict(&self, side: Side, header: &Header, message: &[u8]) -> Verdict
        ensures { (owners : Owners) (noted : List Judged) → WatchAt self.now owners noted
            → result ≡ verdict_after (rules_of self.now) (client_of self.now) owners noted
            (event side header.now message.now) }
    {
        self.judge(side, header, message)
    }
}

/// The knowledge of names and calls.
impl<S: BuildHasher> Watch<S> {
    /// Returns the number of stored peers plus the number of serials with waiting calls of the
    /// client. Nothing else in a watch grows, except the serials of each peer's waiting calls.
    pub fn count_kept(&self) -> usize
        ensures { result ≡ count_kept self.now }
    {
        self.peers.len() + self.calls.count()
    }

    fn level_of_unique(&self, name: &str) -> Level
        ensures { result
            ≡ greater (known_of (rules_of self.now) (get_by_text self.now.peers name.now)).had
            (greater (level_when (known_of (rules_of self.now)
            (get_by_text self.now.peers name.now)).wrote Level.See)
            (level_when (says self.now.client name.now) Level.Talk)) }
    {
        let peer = self.peers.get(name);
        let by_writing = level_if(has_written(peer), Level::See);
        let by_client = level_if(is_text(&self.client, name), Level::Talk);
        level_had(peer).or(by_writing.or(by_client))
    }

    /// Returns the level of a name.
    #[tactic(auto, unfolding(crate::specs::Watching::sight_of))]
    fn level_now(&self, name: &str) -> Level
        ensures { result ≡ (sight_of self.now).level_of name.now }
    {
        if name == BUS_NAME {
            Level::Talk
        } else if is_like_unique(name.as_bytes()) {
            self.level_of_unique(name)
        } else {
            level_by_rules(self.policy.rules(), name.as_bytes())
        }
    }

    /// Returns whether a name has at least a level.
    fn has_level(&self, wanted: Level, name: &str) -> bool
        ensures { result ≡ has_level (sight_of self.now) wanted name.now }
    {
        self.level_now(name).reaches(wanted)
    }

    /// Returns whether a rule lets a call to a peer, or a broadcast of a peer, pass.
    fn gives_leave(&self, kind: RuleKind, peer: &str, header: &Header) -> bool
        ensures { result ≡ (sight_of self.now).gives_leave kind peer.now header.now }
    {
        let rules = self.policy.rules();
        match self.peers.get(peer) {
            Some(kept) => any_gives_leave(rules, &kept.meant, kind, peer.as_bytes(), header),
            None => any_gives_leave(rules, &[], kind, peer.as_bytes(), header),
        }
    }

    /// Returns the waiting calls of the client with a serial, if there are any.
    #[tactic(auto, unfolding(crate::specs::Watching::sight_of))]
    fn calls_waiting(&self, serial: u32) -> Option<WaitingCalls>
        ensures { result ≡ (sight_of self.now).calls_waiting serial }
    {
        self.calls.with_serial(serial)
    }

    /// Returns whether a call of a peer with this serial waits.
    #[tactic(auto, unfolding(crate::specs::Watching::sight_of))]
    fn peer_waits(&self, peer: &str, serial: u32) -> bool
        ensures { result ≡ (sight_of self.now).peer_waits peer.now serial }
    {
        match self.peers.get(peer) {
            Some(kept) => kept.waiting.contains(&serial),
            None => false,
        }
    }
}

/// Verdicts on messages.
impl<S: BuildHasher> Watch<S> {
    fn refused_call(&self, header: &Header, name: &str) -> Verdict
        ensures { result ≡ refused (sight_of self.now) header.now name.now }
    {
        if header.flags.want_no_reply() {
            Verdict::Drop
        } else if self.has_level(Level::See, name) {
            Verdict::Deny
        } else {
            Verdict::Hide
        }
    }

    fn match_call(&self, header: &Header, rule: Option<&str>) -> Verdict
        ensures { result
            ≡ match_call (sight_of self.now) header.now (option_map (λ t. t.now) rule.entry) }
    {
        match rule {
            Some(rule) if !holds(b"eavesdrop", rule.as_bytes()) => Verdict::Pass,
            _ => self.refused_call(header, BUS_NAME),
        }
    }

    fn name_call(&self, header: &Header, wanted: Level, name: Option<&str>) -> Verdict
        ensures { result
            ≡ name_call (sight_of self.now) header.now wanted (option_map (λ t. t.now) name.entry) }
    {
        let Some(name) = name else {
            return self.refused_call(header, BUS_NAME);
        };
        if self.has_level(wanted, name) {
            Verdict::Pass
        } else {
            self.refused_call(header, name)
        }
    }

    fn driver_call(&self, header: &Header, argument: Option<&str>) -> Verdict
        ensures { result
            ≡ driver_call (sight_of self.now) header.now (handler_of header.now)
            (option_map (λ t. t.now) argument.entry) }
    {
        match handler_of_call(header) {
            Handler::Pass | Handler::FilterNameListReply => Verdict::Pass,
            Handler::ValidateMatch => self.match_call(header, argument),
            Handler::Validate(wanted) => self.name_call(header, wanted, argument),
            Handler::Deny => self.refused_call(header, BUS_NAME),
        }
    }

    fn peer_call(&self, header: &Header, name: &str) -> Verdict
        ensures { result ≡ call_to (sight_of self.now) header.now name.now }
    {
        if self.has_level(Level::Talk, name) || self.gives_leave(RuleKind::Call, name, header) {
            Verdict::Pass
        } else {
            self.refused_call(header, name)
        }
    }

    fn client_call(&self, header: &Header, message: &[u8]) -> Verdict
        ensures { result
            ≡ client_call (sight_of self.now)
            (event Side.Client header.now message.now) header.now.destination }
    {
        let Some(name) = &header.destination else {
            return self.driver_call(header, first_string(header, message));
        };
        if name.as_str() == BUS_NAME {
            self.driver_call(header, first_string(header, message))
        } else {
            self.peer_call(header, name.as_str())
        }
    }

    fn is_client_reply_due(&self, peer: &Option<Text>, reply: Option<u32>) -> bool
        ensures { result ≡ client_reply (sight_of self.now) peer.now reply }
    {
        match (peer, reply) {
            (Some(peer), Some(serial)) => self.peer_waits(peer.as_str(), serial),
            _ => false,
        }
    }

    fn may_signal(&self, destination: &Option<Text>) -> bool
        ensures { result ≡ client_signal (sight_of self.now) destination.now }
    {
        match destination {
            Some(name) => self.has_level(Level::Talk, name.as_str()),
            None => true,
        }
    }

    fn of_client(&self, header: &Header, message: &[u8]) -> Verdict
        ensures { result
            ≡ of_client (sight_of self.now)
            (event Side.Client header.now message.now) header.now.kind }
    {
        match header.kind {
            MessageType::MethodCall => self.client_call(header, message),
            MessageType::MethodReturn | MessageType::Error => {
                pass_if(self.is_client_reply_due(&header.destination, header.reply_serial))
            }
            MessageType::Signal => pass_if(self.may_signal(&header.destination)),
            MessageType::Unknown(_) => Verdict::Drop,
        }
    }

    fn bus_reply(&self, header: &Header, message: &[u8]) -> Verdict
        ensures { result
            ≡ bus_reply (sight_of self.now)
            (event Side.Bus header.now message.now) header.now.reply_serial }
    {
        let Some(serial) = header.reply_serial else {
            return Verdict::Drop;
        };
        match self.calls_waiting(serial) {
            Some(calls) => replied(header, message, calls),
            None => Verdict::Drop,
        }
    }

    fn is_owner_seen(&self, header: &Header, message: &[u8]) -> bool
        ensures { result ≡ owner_signal (sight_of self.now) (three_texts header.now message.now) }
    {
        match three_strings(header, message) {
            Some((name, _, _)) => self.has_level(Level::See, name),
            None => false,
        }
    }

    fn is_broadcast_heard(&self, header: &Header, peer: &Option<Text>) -> bool
        ensures { result ≡ broadcast (sight_of self.now) header.now peer.now }
    {
        match peer {
            Some(peer) => {
                self.has_level(Level::Talk, peer.as_str())
                    || self.gives_leave(RuleKind::Broadcast, peer.as_str(), header)
            }
            None => false,
        }
    }

    fn is_signal_heard(&self, header: &Header, message: &[u8]) -> bool
        ensures { result ≡ bus_signal (sight_of self.now) (event Side.Bus header.now message.now) }
    {
        if is_about_owner(header) {
            self.is_owner_seen(header, message)
        } else {
            header.destination.is_some() || self.is_broadcast_heard(header, &header.sender)
        }
    }

    fn of_bus(&self, header: &Header, message: &[u8]) -> Verdict
        ensures { result
            ≡ of_bus (sight_of self.now) (event Side.Bus header.now message.now) header.now.kind }
    {
        match header.kind {
            MessageType::MethodCall => Verdict::Pass,
            MessageType::MethodReturn | MessageType::Error => self.bus_reply(header, message),
            MessageType::Signal => pass_if(self.is_signal_heard(header, message)),
            MessageType::Unknown(_) => Verdict::Drop,
        }
    }

    /// Returns the verdict on a message.
    #[tactic(auto, unfolding(crate::specs::Verdicts::verdict_in))]
    pub(crate) fn judge(&self, side: Side, header: &Header, message: &[u8]) -> Verdict
        ensures { result ≡ verdict_in (sight_of self.now) (event side header.now message.now) }
    {
        match side {
            Side::Client => self.of_client(header, message),
            Side::Bus => self.of_bus(header, message),
        }
    }
}
