//! Laws of events and of what a filter sends, for every policy and all events, and on worked
//! examples. Each law is the contract of a function with an empty body.

ghost use Rattle.std.specs.Prelude.{◌≡◌, [], ◌∷◌, take, drop, codes, Some, None};
ghost use Rattle.fp_base.specs.declared.side.Side.TheVariants as side;
ghost use Rattle.fp_base.specs.declared.frame_rule.FrameRule.TheVariants as rule;
ghost use Rattle.bus_policy.specs.declared.level.Level.TheVariants as level;
ghost use Rattle.bus_proxy.specs.Arrivals.{Pieces, events, end_of, bytes_fed, Alike};
ghost use Rattle.bus_proxy.specs.declared.judge.TheConstants.{DENIED, UNKNOWN};
ghost use Rattle.bus_proxy.specs.Outs.{out_after, reduced, level_in};
ghost use Rattle.bus_proxy.specs.Laws.{ClientGets, LeftNamesAreSeen, UnseenNamesChangeNothing};
ghost use Rattle.bus_proxy.specs.Rows.{with_level, call_bytes, call, unknown_bytes, names, fewer_names_bytes};

/// States that the events of what was fed, and how they end, depend only on the bytes and their
/// sides in their order, and not on the pieces in which they were fed.
pub fn pieces_dont_matter()
    ensures { (fed other : Pieces) → bytes_fed fed ≡ bytes_fed other → Alike fed other }
{}

/// States that a call is an event once its last byte is fed, in whatever pieces; before that the
/// stream ends within a message.
pub fn events_of_a_call()
    ensures whole { events ((side.Client, call_bytes) ∷ []) ≡ call ∷ [] }
    ensures in_two { events ((side.Client, drop 20 call_bytes) ∷ (side.Client, take 20 call_bytes)
        ∷ [])
        ≡ call ∷ [] }
    ensures not_yet { events ((side.Client, take 63 call_bytes) ∷ []) ≡ [] }
    ensures clean { end_of ((side.Client, call_bytes) ∷ []) ≡ None }
    ensures cut { end_of ((side.Client, take 63 call_bytes) ∷ [])
        ≡ Some (side.Client, 0, rule.Cut) }
    ensures broken { end_of ((side.Bus, 0 ∷ call_bytes) ∷ (side.Client, call_bytes) ∷ [])
        ≡ Some (side.Bus, 0, rule.Order) }
{}

/// States what a filter sends for a call, by the level of the name that is called: the call to the
/// bus, or the error ServiceUnknown to the client.
pub fn answers_to_a_call()
    ensures talk { out_after (with_level level.Talk) [] call
        ≡ Some (record { to = side.Bus; bytes = call_bytes }) }
    ensures hidden { out_after (with_level level.None) [] call
        ≡ Some (record { to = side.Client; bytes = unknown_bytes }) }
{}

/// States that what is sent to the client is for a message of the bus's side that is forwarded, or
/// is the filter's own error that answers a refused call.
pub fn what_the_client_gets()
    ensures { ClientGets }
{}

/// States that the client may see each name that is left in a filtered list.
pub fn names_left_may_be_seen()
    ensures { LeftNamesAreSeen }
{}

/// States that hidden names change nothing: if two sequences of events differ only in names that
/// the client may not see, in lists that are filtered, the same bytes are sent for both.
pub fn unseen_names_change_nothing()
    ensures { UnseenNamesChangeNothing }
{}

/// States the names of the filter's errors, as the D-Bus specification has them.
pub fn names_of_errors()
    ensures denied { DENIED.now ≡ codes "org.freedesktop.DBus.Error.AccessDenied" }
    ensures unknown { UNKNOWN.now ≡ codes "org.freedesktop.DBus.Error.ServiceUnknown" }
{}

/// States that the names that the client may not see are removed from a list, on a worked example.
pub fn names_that_may_be_seen()
    ensures { reduced (level_in (with_level level.See) []) names ≡ Some fewer_names_bytes }
{}
