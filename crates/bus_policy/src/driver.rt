//! Calls to the bus itself: its methods, and the decision for each, as in xdg-dbus-proxy(1).

ghost use Rattle.std.specs.Prelude.{◌≡◌};
ghost use Rattle.bus_policy.specs.Driver.{is_to_driver, called_interface, called_member, own_handler, other_handler, handler_of, is_listing};

use crate::level::Level;
use bus_frame::{BUS_NAME, Header};
use bus_rules::is_text;

/// The interface by which the bus describes its objects and methods.
const INTROSPECTABLE: &str = "org.freedesktop.DBus.Introspectable";

/// The interface that every peer on the bus has.
const PEER: &str = "org.freedesktop.DBus.Peer";

/// The decision for a call to the bus.
#[derive(Clone, Copy)]
pub enum Handler {
    /// The call passes.
    Pass,
    /// The call passes, and the names that the client may not see are removed from the reply.
    FilterNameListReply,
    /// The call passes if its first argument is a string that doesn't contain `eavesdrop`.
    ValidateMatch,
    /// The call passes if the name in its first argument has at least this level.
    Validate(Level),
    /// The call is refused.
    Deny,
}

fn is_for_driver(header: &Header) -> bool
    ensures { result ≡ is_to_driver header.now }
{
    header.destination.is_none() || is_text(&header.destination, BUS_NAME)
}

/// Returns the interface of a call to the bus; the bus's own interface if none is named.
fn interface_called(header: &Header) -> &str
    ensures { result.now ≡ called_interface header.now }
{
    match &header.interface {
        Some(interface) => interface.as_str(),
        None => BUS_NAME,
    }
}

fn member_called(header: &Header) -> &str
    ensures { result.now ≡ called_member header.now }
{
    match &header.member {
        Some(member) => member.as_str(),
        None => "",
    }
}

/// Returns the decision for a call of the bus's own interface, by its member.
fn own_handler_of(member: &str) -> Handler
    ensures { result ≡ own_handler member.now }
{
    match member {
        "Hello" | "RemoveMatch" | "GetId" => Handler::Pass,
        "ListNames" | "ListActivatableNames" => Handler::FilterNameListReply,
        "AddMatch" => Handler::ValidateMatch,
        "NameHasOwner"
        | "GetNameOwner"
        | "GetConnectionUnixProcessID"
        | "GetConnectionUnixUser"
        | "GetConnectionCredentials" => Handler::Validate(Level::See),
        "StartServiceByName" => Handler::Validate(Level::Talk),
        "RequestName" | "ReleaseName" | "ListQueuedOwners" => Handler::Validate(Level::Own),
        _ => Handler::Deny,
    }
}

/// Returns the decision for a call of another interface of the bus.
fn other_handler_of(interface: &str, member: &str) -> Handler
    ensures { result ≡ other_handler interface.now member.now }
{
    let passes = (interface == INTROSPECTABLE && member == "Introspect")
        || (interface == PEER && (member == "Ping" || member == "GetMachineId"));
    if passes { Handler::Pass } else { Handler::Deny }
}

/// Returns the decision for a call to the bus.
#[tactic(auto, unfolding(crate::specs::Driver::handler_of))]
pub fn handler_of_call(header: &Header) -> Handler
    ensures { result ≡ handler_of header.now }
{
    let interface = interface_called(header);
    if interface == BUS_NAME {
        own_handler_of(member_called(header))
    } else {
        other_handler_of(interface, member_called(header))
    }
}

/// Returns whether a call is for the bus and lists its names.
pub fn asks_for_names(header: &Header) -> bool
    ensures { result ≡ is_listing header.now }
{
    is_for_driver(header) && matches!(handler_of_call(header), Handler::FilterNameListReply)
}
