//! One operation on an installation.
use crate::state::{OverrideRow, RemoteRow};
use fp_base::Text;
use fp_name::{Digest, PinPattern, RefName, RemoteName};

/// One operation on an installation: a step that is done wholly or not at all, and that one printed
/// line acknowledges.
#[derive(Drop)]
pub enum Op {
    /// The deployment of a ref, which isn't deployed yet, at this commit of this remote.
    Install {
        name: RefName,
        remote: RemoteName,
        commit: Digest,
    },
    /// The move of a deployed ref to this commit of this remote.
    Update {
        name: RefName,
        remote: RemoteName,
        commit: Digest,
    },
    /// The removal of a deployed ref.
    Uninstall {
        name: RefName,
    },
    /// A new pin, which doesn't exist yet.
    AddPin(PinPattern),
    /// The removal of an existing pin.
    DropPin(PinPattern),
    /// A new remote, whose name isn't used yet.
    AddRemote(RemoteRow),
    /// A new URL of an existing remote.
    ModifyRemote(RemoteRow),
    /// The removal of an existing remote.
    DropRemote(RemoteName),
    /// The new content of the override with this name, which replaces one that exists.
    SetOverride(OverrideRow),
    /// The removal of the override with this name, which is `global` or an application's ID.
    DropOverride(Text),
    /// The migration from the two files of layout 1 to the file `config` of layout 2.
    Migrate,
    /// The move of a deployed ref back to its previous commit, which is this one.
    Rollback {
        name: RefName,
        commit: Digest,
    },
}
