//! Permissions, their values, and mentions of them.

ghost use Rattle.std.specs.Prelude.{◌≡◌, ◌↔◌, IfOk, IsTrue};
ghost use Rattle.std.specs.Cmp.{partial_order_from_own_ties};
ghost use Rattle.std.specs.Cmp.Rules.{comparing};
ghost use Rattle.std.proofs.Common.{rules};
ghost use Rattle.fl_meta.specs.Order.{place_of, is_same, permission_cmp, same_ties};

use fp_base::{Items, Text};
use std::alloc::{AllocError, Global};
use std::cmp::Ordering;

/// The list of a permission, in the order in which lists are written.
#[derive(Clone, Copy, Debug, PartialEq, Eq)]
pub enum PermList {
    /// Namespaces that are shared with the host: `network` and `ipc`.
    Shared,
    /// Sockets of the host, such as `wayland`.
    Sockets,
    /// Devices, such as `dri`.
    Devices,
    /// Features of the sandbox, such as `devel`.
    Features,
    /// Directories of the host, by their names.
    Filesystems,
    /// Directories of the home directory that are kept for the application.
    Persistent,
    /// Variables of the environment.
    Environment,
    /// Names on the session bus, by patterns.
    SessionBus,
    /// Names on the system bus, by patterns.
    SystemBus,
    /// Unknown names in `shared`.
    UnknownShared,
    /// Unknown names in `sockets`.
    UnknownSockets,
    /// Unknown names in `devices`.
    UnknownDevices,
    /// Unknown names in `features`.
    UnknownFeatures,
    /// Pairs `KEY=VALUE` of the session bus's policy whose pattern or level isn't known.
    UnknownSessionBus,
    /// Pairs `KEY=VALUE` of the system bus's policy whose pattern or level isn't known.
    UnknownSystemBus,
}

/// A permission that a sandbox may be granted: a name in a list.
#[derive(Debug, Drop)]
pub struct Permission {
    /// The list.
    pub list: PermList,
    /// The name in the list.
    pub name: Text,
}

/// The value of a permission in a mention.
#[derive(Debug, Drop)]
pub enum Value {
    /// The permission is taken away.
    Off,
    /// The permission is granted.
    On,
    /// The directory may be read.
    Ro,
    /// The directory may be read and written.
    Rw,
    /// The directory may be read and written, and is made if it is absent.
    Create,
    /// The text of a variable.
    Text(Text),
    /// The name on the bus can't be accessed.
    NoBus,
    /// The name on the bus may be seen.
    See,
    /// The name on the bus may be talked to.
    Talk,
    /// The name on the bus may be owned.
    Own,
}

/// One mention of a permission.
#[derive(Debug, Drop)]
pub struct Mention {
    /// The permission.
    pub permission: Permission,
    /// The permission's value.
    pub value: Value,
}

/// Mentions in order, such as those of one file.
pub type Layer = Items<Mention>;

impl PermList {
    /// Returns the position of the list in the order in which lists are written.
    pub fn place(self) -> u8
        ensures { result ≡ place_of self }
    {
        match self {
            PermList::Shared => 0,
            PermList::Sockets => 1,
            PermList::Devices => 2,
            PermList::Features => 3,
            PermList::Filesystems => 4,
            PermList::Persistent => 5,
            PermList::Environment => 6,
            PermList::SessionBus => 7,
            PermList::SystemBus => 8,
            PermList::UnknownShared => 9,
            PermList::UnknownSockets => 10,
            PermList::UnknownDevices => 11,
            PermList::UnknownFeatures => 12,
            PermList::UnknownSessionBus => 13,
            PermList::UnknownSystemBus => 14,
        }
    }
}

impl Permission {
    /// Makes a permission with a copy of the name.
    pub fn new(alloc: Global, list: PermList, name: &str) -> Result<Self, AllocError>
        ensures { IfOk result (λ p. p ≡ record { list = list; name = name.now }) }
    {
        Ok(Permission {
            list,
            name: Text::from_str(alloc, name)?,
        })
    }

    /// Returns a copy. Errs if memory runs out.
    pub fn copy(&self) -> Result<Self, AllocError>
        ensures { IfOk result (λ p. p ≡ self.now) }
    {
        Ok(Permission {
            list: self.list,
            name: self.name.copy()?,
        })
    }
}

impl Value {
    /// Returns a copy. Errs if memory runs out.
    pub fn copy(&self) -> Result<Self, AllocError>
        ensures { IfOk result (λ v. v ≡ self.now) }
    {
        Ok(match self {
            Value::Off => Value::Off,
            Value::On => Value::On,
            Value::Ro => Value::Ro,
            Value::Rw => Value::Rw,
            Value::Create => Value::Create,
            Value::Text(text) => Value::Text(text.copy()?),
            Value::NoBus => Value::NoBus,
            Value::See => Value::See,
            Value::Talk => Value::Talk,
            Value::Own => Value::Own,
        })
    }
}

impl Mention {
    /// Makes a mention with a copy of the name.
    pub fn new(alloc: Global, list: PermList, name: &str, value: Value) -> Result<Self, AllocError>
        ensures { IfOk result (λ m. m ≡ record {
          permission = record { list = list; name = name.now };
          value = value;
        }) }
    {
        Ok(Mention {
            permission: Permission::new(alloc, list, name)?,
            value,
        })
    }

    /// Returns a copy. Errs if memory runs out.
    pub fn copy(&self) -> Result<Self, AllocError>
        ensures { IfOk result (λ m. m ≡ self.now) }
    {
        Ok(Mention {
            permission: self.permission.copy()?,
            value: self.value.copy()?,
        })
    }
}

// Permissions are ordered by their lists, and then by the bytes of their names.

impl PartialEq for Permission {
    ghost eq = { is_same };

    ghost laws = { Prim.search (comparing, rules) };

    fn eq(&self, other: &Self) -> bool {
        self.list.place() == other.list.place() && self.name.as_str() == other.name.as_str()
    }
}

impl Eq for Permission {
    ghost laws = { Prim.search (comparing, rules) };
}

impl PartialOrd for Permission {
    ghost use Rattle.std.specs.Ordering.{as_partial_cmp};

    ghost partial_cmp = { as_partial_cmp permission_cmp };

    ghost laws = { partial_order_from_own_ties (Prim.search (comparing, rules)) same_ties };

    fn partial_cmp(&self, other: &Self) -> Option<Ordering> {
        Some(self.cmp(other))
    }
}

impl Ord for Permission {
    ghost cmp = { permission_cmp };

    ghost total = { Prim.search (comparing, rules) };

    ghost matches_partial_cmp = { Prim.search (comparing, rules) };

    ghost matches_eq = { same_ties };

    fn cmp(&self, other: &Self) -> Ordering {
        match self.list.place().cmp(&other.list.place()) {
            Ordering::Equal => self.name.as_str().cmp(other.name.as_str()),
            order => order,
        }
    }
}
