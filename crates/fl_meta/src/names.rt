//! The words of flatpak-metadata(5): the permissions of each list, keys, levels and endings.

ghost use Rattle.std.specs.Prelude.{◌≡◌};
ghost use Rattle.fl_meta.specs.Names as names;

use crate::permission::{PermList, Value};

/// Returns whether `shared` knows this name.
fn is_shared(name: &str) -> bool
    ensures { result ≡ names.is_among names.shared_names name.now }
{
    matches!(name, "network" | "ipc")
}

/// Returns whether `sockets` knows this name.
fn is_socket(name: &str) -> bool
    ensures { result ≡ names.is_among names.socket_names name.now }
{
    matches!(
        name,
        "x11"
            | "wayland"
            | "fallback-x11"
            | "pulseaudio"
            | "session-bus"
            | "system-bus"
            | "ssh-auth"
            | "pcsc"
            | "cups"
    )
}

/// Returns whether `devices` knows this name.
fn is_device(name: &str) -> bool
    ensures { result ≡ names.is_among names.device_names name.now }
{
    matches!(name, "dri" | "kvm" | "shm" | "all")
}

/// Returns whether `features` knows this name.
fn is_feature(name: &str) -> bool
    ensures { result ≡ names.is_among names.feature_names name.now }
{
    matches!(
        name,
        "devel" | "multiarch" | "bluetooth" | "canbus" | "per-app-dev-shm"
    )
}

/// Returns the list of a name in the value of this list: the list itself if it knows the name, else
/// that of unknown names.
pub(crate) fn list_with(list: PermList, name: &str) -> PermList
    ensures { result ≡ names.list_with list name.now }
{
    match list {
        PermList::Shared if !is_shared(name) => PermList::UnknownShared,
        PermList::Sockets if !is_socket(name) => PermList::UnknownSockets,
        PermList::Devices if !is_device(name) => PermList::UnknownDevices,
        PermList::Features if !is_feature(name) => PermList::UnknownFeatures,
        list => list,
    }
}

/// Returns the access of a filesystem with this ending, or `None` for any other word.
pub(crate) fn access_of(text: &str) -> Option<Value>
    ensures { result ≡ names.access_of text.now }
{
    match text {
        "ro" => Some(Value::Ro),
        "rw" => Some(Value::Rw),
        "create" => Some(Value::Create),
        _ => None,
    }
}

impl PermList {
    /// Returns the key of the list in the group `Context`; empty for a list that has a group of its
    /// own.
    pub fn key(self) -> &'static str
        ensures { result.now ≡ names.key_of self }
    {
        match self {
            PermList::Shared => "shared",
            PermList::Sockets => "sockets",
            PermList::Devices => "devices",
            PermList::Features => "features",
            PermList::Filesystems => "filesystems",
            PermList::Persistent => "persistent",
            PermList::UnknownShared => "unknown-shared",
            PermList::UnknownSockets => "unknown-sockets",
            PermList::UnknownDevices => "unknown-devices",
            PermList::UnknownFeatures => "unknown-features",
            PermList::UnknownSessionBus => "unknown-session-bus",
            PermList::UnknownSystemBus => "unknown-system-bus",
            PermList::Environment | PermList::SessionBus | PermList::SystemBus => "",
        }
    }

    /// Returns the list with this key in metadata and overrides, or `None` if there is none.
    pub fn of_key(key: &str) -> Option<Self>
        ensures { result ≡ names.list_of_key key.now }
    {
        match key {
            "shared" => Some(PermList::Shared),
            "sockets" => Some(PermList::Sockets),
            "devices" => Some(PermList::Devices),
            "features" => Some(PermList::Features),
            "filesystems" => Some(PermList::Filesystems),
            "persistent" => Some(PermList::Persistent),
            _ => None,
        }
    }

    /// Returns the list of unknown names with this key, which only overrides have, or `None` if
    /// there is none.
    pub fn of_unknown_key(key: &str) -> Option<Self>
        ensures { result ≡ names.list_of_unknown_key key.now }
    {
        match key {
            "unknown-shared" => Some(PermList::UnknownShared),
            "unknown-sockets" => Some(PermList::UnknownSockets),
            "unknown-devices" => Some(PermList::UnknownDevices),
            "unknown-features" => Some(PermList::UnknownFeatures),
            "unknown-session-bus" => Some(PermList::UnknownSessionBus),
            "unknown-system-bus" => Some(PermList::UnknownSystemBus),
            _ => None,
        }
    }
}

impl Value {
    /// Returns the word of a level of a bus policy, or the text of a variable; empty for other
    /// values.
    pub fn word(&self) -> &str
        ensures { result.now ≡ names.word_of self.now }
    {
        match self {
            Value::Text(text) => text.as_str(),
            Value::NoBus => "none",
            Value::See => "see",
            Value::Talk => "talk",
            Value::Own => "own",
            _ => "",
        }
    }

    /// Returns the level of a bus policy with this word, or `None` if there is none.
    pub fn of_word(text: &str) -> Option<Self>
        ensures { result ≡ names.level_of text.now }
    {
        match text {
            "none" => Some(Value::NoBus),
            "see" => Some(Value::See),
            "talk" => Some(Value::Talk),
            "own" => Some(Value::Own),
            _ => None,
        }
    }
}
