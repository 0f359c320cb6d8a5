//! Laws of what a filter lets through, for every policy and all events, and on worked examples.
//! Each law is the contract of a function with an empty body.

ghost use Rattle.std.specs.Prelude.{◌≡◌, ℕ, List, [], ◌∷◌, codes, Some, None};
ghost use Rattle.bus_frame.specs.declared.message.MessageType.TheVariants as message_type;
ghost use Rattle.bus_policy.specs.declared.driver.Handler.TheVariants as handler;
ghost use Rattle.bus_policy.specs.declared.driver.TheConstants.{INTROSPECTABLE, PEER};
ghost use Rattle.bus_policy.specs.declared.verdict.Verdict.TheVariants as verdict;
ghost use Rattle.bus_policy.specs.Driver.{driver, handler_of};
ghost use Rattle.bus_policy.specs.Laws.{RepliesAreAwaited, RefusalsAnswerCalls, NamesStayFiltered, RisingSerialsLoseNothing, OthersPassOnce, LevelsStay, HiddenOwnersAreUntold, BadOwnersAreUntold, UnheardOfIsAsAtFirst, LaterEventsTellAll};
ghost use Rattle.bus_policy.specs.Rows.{HoldsNames, call_header, call, silent_call, reply, peer_reply, text_reply, verdict_on};

/// States that a return or an error reaches the client only as the first reply to one of its calls
/// that was forwarded and expects a reply. The filter's own errors answer only calls of the client
/// that expect a reply and aren't forwarded.
pub fn replies_are_awaited()
    ensures replies { RepliesAreAwaited }
    ensures refusals { RefusalsAnswerCalls }
{}

/// States that a return of the bus itself, to a serial with which the client ever listed names,
/// passes unchanged only if it isn't a list.
pub fn names_stay_filtered()
    ensures { NamesStayFiltered }
{}

/// States that a client with rising serials loses nothing: only its waiting calls decide the
/// verdict on a return of the bus. A reply that isn't a return of the bus passes once, whatever the
/// calls ask for.
pub fn rising_serials_lose_nothing()
    ensures rising { RisingSerialsLoseNothing }
    ensures others { OthersPassOnce }
{}

/// States that a name keeps each level that it ever had.
pub fn levels_stay()
    ensures { LevelsStay }
{}

/// States that the client doesn't get a `NameOwnerChanged` signal for a name that it may not see,
/// nor one whose body isn't three strings.
pub fn hidden_owners_are_untold()
    ensures hidden { HiddenOwnersAreUntold }
    ensures bad { BadOwnersAreUntold }
{}

/// States that a watch needs to store nothing for a name of which nothing is known: the answers
/// about it are those at the start, and what is known of it after later events depends on these
/// alone.
pub fn unheard_of_needs_nothing()
    ensures answers { UnheardOfIsAsAtFirst }
    ensures later { LaterEventsTellAll }
{}

/// States the names of the bus's other interfaces (D-Bus specification, "Standard Interfaces").
pub fn interfaces_of_the_bus()
    ensures introspectable { INTROSPECTABLE.now ≡ codes "org.freedesktop.DBus.Introspectable" }
    ensures peer { PEER.now ≡ codes "org.freedesktop.DBus.Peer" }
{}

/// States that a call without an interface is one of the bus's own interface, and that calls of
/// other interfaces or members are refused.
pub fn calls_of_the_bus()
    ensures no_interface { handler_of (call_header None (codes "ListNames"))
        ≡ handler.FilterNameListReply }
    ensures ping { handler_of (call_header (Some (codes "org.freedesktop.DBus.Peer"))
        (codes "Ping"))
        ≡ handler.Pass }
    ensures no_ping { handler_of (call_header (Some driver) (codes "Ping")) ≡ handler.Deny }
    ensures other_interface { handler_of (call_header (Some (codes "org.a.I")) (codes "Hello"))
        ≡ handler.Deny }
{}

/// States that a reply's names are filtered whichever of several calls with one serial lists names.
/// They are also filtered if none does, since the serial was reused.
pub fn one_call_of_several_lists_names()
    ensures earlier { (bytes : List ℕ) → HoldsNames bytes
        → verdict_on (call (codes "GetId") ∷ call (codes "ListNames") ∷ [])
        (reply message_type.MethodReturn bytes) ≡ verdict.FilterNameList }
    ensures latest { (bytes : List ℕ) → HoldsNames bytes
        → verdict_on (call (codes "ListNames") ∷ call (codes "GetId") ∷ [])
        (reply message_type.MethodReturn bytes) ≡ verdict.FilterNameList }
    ensures none { (bytes : List ℕ) → HoldsNames bytes
        → verdict_on (call (codes "GetId") ∷ call (codes "Hello") ∷ [])
        (reply message_type.MethodReturn bytes) ≡ verdict.FilterNameList }
    ensures one { (bytes : List ℕ) → verdict_on (call (codes "GetId") ∷ [])
        (reply message_type.MethodReturn bytes) ≡ verdict.Pass }
{}

/// States that no list passes unchanged to a reused serial: neither if the call that listed names
/// expected no reply, nor if it was answered. A return of the bus that isn't a list passes, and so
/// does one of a peer. A reply to a call that expects none is dropped.
pub fn used_serials_give_no_list()
    ensures silent { (bytes : List ℕ) → HoldsNames bytes
        → verdict_on (call (codes "GetId") ∷ silent_call (codes "ListNames") ∷ [])
        (reply message_type.MethodReturn bytes) ≡ verdict.FilterNameList }
    ensures answered { (bytes : List ℕ) → HoldsNames bytes
        → verdict_on (call (codes "GetId") ∷ reply message_type.Error []
        ∷ call (codes "ListNames") ∷ [])
        (reply message_type.MethodReturn bytes) ≡ verdict.FilterNameList }
    ensures unwanted { (bytes : List ℕ) → verdict_on (silent_call (codes "ListNames") ∷ [])
        (reply message_type.MethodReturn bytes) ≡ verdict.Drop }
    ensures text { (bytes : List ℕ)
        → verdict_on (call (codes "GetId") ∷ silent_call (codes "ListNames") ∷ [])
        (text_reply bytes) ≡ verdict.Pass }
    ensures peer { (bytes : List ℕ) → verdict_on (call (codes "ListNames") ∷ [])
        (peer_reply bytes) ≡ verdict.Pass }
{}

/// States that a reply passes only once, and ends all calls with its serial.
pub fn one_reply()
    ensures first { verdict_on (call (codes "GetId") ∷ call (codes "Hello") ∷ [])
        (reply message_type.Error []) ≡ verdict.Pass }
    ensures second { verdict_on (reply message_type.Error [] ∷ call (codes "GetId") ∷ call
        (codes "Hello") ∷ [])
        (reply message_type.Error []) ≡ verdict.Drop }
    ensures unasked { verdict_on [] (reply message_type.Error []) ≡ verdict.Drop }
{}
