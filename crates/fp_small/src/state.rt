//! The state of an installation, apart from its objects.
ghost use Rattle.std.specs.Prelude.{◌≡◌, IfOk};

use fp_base::{Items, Text};
use fp_keyfile::KeyFile;
use fp_name::{Digest, PinPattern, RefName, RemoteName, RemoteUrl};
use std::alloc::AllocError;

/// The layout of an installation: the files that contain its settings.
#[derive(Clone, Copy, Debug, PartialEq, Eq)]
pub enum Layout {
    /// The remotes are in `remotes.conf`, the pins in `pins`.
    One,
    /// The remotes and the pins are in `config`.
    Two,
}

/// The previous commit of a deployed ref.
#[derive(Clone, Copy, Debug)]
pub struct Previous {
    /// The digest of the commit.
    pub commit: Digest,
    /// The commit's time, in seconds since 1970-01-01 00:00 UTC.
    pub timestamp: u64,
}

/// A deployed ref.
#[derive(Drop)]
pub struct RefRow {
    /// The ref.
    pub name: RefName,
    /// The remote that it comes from.
    pub origin: RemoteName,
    /// The deployed commit.
    pub commit: Digest,
    /// The commit's time, in seconds since 1970-01-01 00:00 UTC.
    pub timestamp: u64,
    /// The previously deployed commit, if there was one.
    pub previous: Option<Previous>,
}

/// A configured remote.
#[derive(Debug, Drop)]
pub struct RemoteRow {
    /// The remote's name in this installation.
    pub name: RemoteName,
    /// The URL of the remote's repository.
    pub url: RemoteUrl,
}

impl RemoteRow {
    /// Returns a copy. Errs if memory runs out.
    pub fn copy(&self) -> Result<RemoteRow, AllocError>
        ensures { IfOk result (λ row. row ≡ self.now) }
    {
        Ok(RemoteRow {
            name: self.name.copy()?,
            url: self.url.copy()?,
        })
    }
}

/// The override of an application, or the global one (flatpak-override(1)).
#[derive(Drop)]
pub struct OverrideRow {
    /// The override's name: `global`, or an application's ID.
    pub name: Text,
    /// The override's content.
    pub file: KeyFile,
}

/// The state of an installation. Each list is strictly ascending by the bytes of its rows' names.
#[derive(Drop)]
pub struct State {
    /// The layout of the settings.
    pub layout: Layout,
    /// The deployed refs.
    pub refs: Items<RefRow>,
    /// The remotes.
    pub remotes: Items<RemoteRow>,
    /// The pins.
    pub pins: Items<PinPattern>,
    /// The overrides.
    pub overrides: Items<OverrideRow>,
}
