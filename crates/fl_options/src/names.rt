//! The names of options that change permissions.

ghost use Rattle.std.specs.Prelude.{◌≡◌};
ghost use Rattle.std.specs.Option.{option_copied};
ghost use Rattle.fl_options.specs.Options as spec;

use fl_meta::{PermList, Value};

/// Returns the list of the group `Context` to which the option of this name adds, or `None` if it
/// adds to none.
pub(crate) fn granted_list(name: &str) -> Option<PermList>
    ensures { result ≡ spec.granted_list name.now }
{
    match name {
        "--share" => Some(PermList::Shared),
        "--socket" => Some(PermList::Sockets),
        "--device" => Some(PermList::Devices),
        "--allow" => Some(PermList::Features),
        "--filesystem" => Some(PermList::Filesystems),
        "--persist" => Some(PermList::Persistent),
        _ => None,
    }
}

/// Returns the list of the group `Context` in which the option of this name denies an entry, or
/// `None` if it denies none.
pub(crate) fn denied_list(name: &str) -> Option<PermList>
    ensures { result ≡ spec.denied_list name.now }
{
    match name {
        "--unshare" => Some(PermList::Shared),
        "--nosocket" => Some(PermList::Sockets),
        "--nodevice" => Some(PermList::Devices),
        "--disallow" => Some(PermList::Features),
        "--nofilesystem" => Some(PermList::Filesystems),
        _ => None,
    }
}

/// Returns the group of the bus policy that the option of this name changes, or `None` if it
/// changes none.
pub(crate) fn bus_group(name: &str) -> Option<&'static str>
    ensures { option_copied result ≡ spec.bus_group name.now }
{
    match name {
        "--talk-name" | "--own-name" | "--no-talk-name" => Some("Session Bus Policy"),
        "--system-talk-name" | "--system-own-name" | "--system-no-talk-name" => {
            Some("System Bus Policy")
        }
        _ => None,
    }
}

/// Returns the level that the option of this name gives in a bus policy. It is `NoBus` for names
/// that give none.
pub(crate) fn bus_level(name: &str) -> Value
    ensures { result ≡ spec.bus_level name.now }
{
    match name {
        "--talk-name" | "--system-talk-name" => Value::Talk,
        "--own-name" | "--system-own-name" => Value::Own,
        _ => Value::NoBus,
    }
}
