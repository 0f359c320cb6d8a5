//! Printing of the messages that a filter sends.
ghost use Rattle.std.specs.Prelude.{[], ◌∷◌, List, ℕ, option_map, IfOk, OnOk, IsErrOf, IsTrue};
ghost use Rattle.std.specs.Option.{ForSome};
ghost use Rattle.fp_host.specs.OverHost.{FailsAlone};
ghost use Rattle.fp_host.specs.Moments.{Goes};
ghost use Rattle.bus_frame.specs.Names.{is_unique};
ghost use Rattle.bus_policy.specs.Events.{Event};
ghost use Rattle.bus_proxy.specs.declared.out.Out.{Out as TheOut};
ghost use Rattle.bus_proxy.specs.Arrivals.{Pieces, events, end_of};
ghost use Rattle.bus_proxy.specs.Outs.{Setting, setting, forwarded};
ghost use Rattle.bus_proxy.specs.Filters.{FilterAt, AllTaken};
ghost use Rattle.fl_filter.specs.Filtered.{filtered, out_text, broken};
ghost use Rattle.fl_filter.specs.Printed.{PrintsFirst, PrintedAll, Printed, IsRefusedBy, Remains, remaining};

use crate::end::FilterEnd;
use crate::lines::out_line;
use bus_policy::Policy;
use bus_proxy::{Filter, Next, Out};
use bus_stream::Recording;
use fp_host::{Host, HostEnd};
use std::alloc::{AllocError, Global};

/// Filters a recording by a policy, as xdg-dbus-proxy(1) does, apart from the differences that
/// `docs/GUIDE.md` lists. Prints a line for each message that goes to a side, in order: `bus HEX`
/// or `client HEX`.
///
/// A message that breaks a rule is refused after the lines of the messages before it, and so is one
/// that the recording's end cuts. Each line is printed before the next message is taken, so only
/// the filter's tables and the current message are in memory besides the recording.
pub fn filter_recording<H: Host>(
    alloc: Global,
    host: &mut H,
    policy: Policy,
    recording: &Recording,
) -> Result<(), FilterEnd>
    requires client { ForSome recording.now.client (λ name. IsTrue (is_unique name)) }
    ensures any_moment { Goes (H.moments host.old) (H.moments host.new)
        (PrintsFirst (filtered policy recording.now).lines)
        (Printed (filtered policy recording.now) result) }
    ensures fault_has_cause { FailsAlone H.Host host.old host.new (IsErrOf result FilterEnd.Fault) }
{
    let mut filter = filter_of(alloc, policy, recording)?;
    for (side, piece) in recording.pieces.as_slice() {
        filter.feed(*side, piece.as_slice())?;
        print_ready(alloc, host, &mut filter)?;
    }
    finish(&filter)
}

/// Creates the filter of a recording, before it is fed. Errs only if memory runs out.
fn filter_of(alloc: Global, policy: Policy, recording: &Recording) -> Result<Filter, AllocError>
    requires client { ForSome recording.now.client (λ name. IsTrue (is_unique name)) }
    ensures { IfOk result (λ filter. FilterAt filter
        (setting policy recording.now.client recording.now.owners) [] [] []) }
{
    let client = match &recording.client {
        Some(client) => Some(client.as_str()),
        None => None,
    };
    Filter::new(alloc, policy, client, &recording.owners)
}

/// Takes every message that is whole, and prints the line of each that goes to a side.
fn print_ready<H: Host>(alloc: Global, host: &mut H, filter: &mut Filter) -> Result<(), FilterEnd>
    ensures any_moment { (s : Setting) (fed : Pieces) (taken : List Event) (given : List TheOut)
        (lines : List (List ℕ)) → FilterAt filter.old s fed taken given
        → Remains s fed given lines → Goes (H.moments host.old) (H.moments host.new)
        (PrintsFirst lines) (Printed (remaining fed lines) result) }
    ensures at { (s : Setting) (fed : Pieces) (taken : List Event) (given : List TheOut)
        → FilterAt filter.old s fed taken given
        → OnOk result (FilterAt filter.new s fed (events fed) (forwarded s (events fed))
        × AllTaken fed (events fed)) }
    ensures fault_has_cause { FailsAlone H.Host host.old host.new (IsErrOf result FilterEnd.Fault) }
{
    loop {
        match filter.next()? {
            Next::Out(out) => print_one(alloc, host, &out)?,
            Next::Quiet => {}
            Next::NotYet => return Ok(()),
        }
    }
}

/// Prints the line of a message.
fn print_one<H: Host>(alloc: Global, host: &mut H, out: &Out) -> Result<(), HostEnd>
    ensures any_moment { Goes (H.moments host.old) (H.moments host.new)
        (PrintsFirst (out_text out.now ∷ [])) (PrintedAll (out_text out.now ∷ []) result) }
    ensures fault_has_cause { FailsAlone H.Host host.old host.new (IsErrOf result HostEnd.Fault) }
{
    let line = out_line(alloc, out)?;
    host.say(line.as_str().as_bytes())?;
    Ok(())
}

/// Refuses a recording that ends within a message.
fn finish(filter: &Filter) -> Result<(), FilterEnd>
    ensures { (s : Setting) (fed : Pieces) (taken : List Event) (given : List TheOut)
        → FilterAt filter.now s fed taken given → AllTaken fed taken
        → IsRefusedBy (option_map broken (end_of fed)) result }
{
    filter.end()?;
    Ok(())
}
