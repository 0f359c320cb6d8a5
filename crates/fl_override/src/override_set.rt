//! Sets of changed permissions.

ghost use Rattle.std.specs.Prelude.{◌≡◌, ◌++◌, IfOk, OnOk, OnErr};
ghost use Rattle.fl_meta.specs.declared.permission.Permission.{Permission};
ghost use Rattle.fl_meta.specs.declared.mentions.Source.TheVariants as sources;
ghost use Rattle.fl_meta.specs.Mentions.{file_mentions};
ghost use Rattle.fl_context.specs.Grants.{IsAscending, last_mention, value_in};
ghost use Rattle.fl_override.specs.Written.{file_with};
ghost use Rattle.fl_override.specs.Overrides.{AllCanWrite};

use crate::writing::groups_of;
use fl_context::{Grants, fold};
use fl_meta::{Layer, Mention, Source, mentions_of};
use fp_keyfile::KeyFile;
use std::alloc::{AllocError, Global};
use std::marker::Model;

/// A user's changes to the permissions of one application, or of all: one mention for each changed
/// permission, in ascending order of permissions.
///
/// Contracts see the list of the mentions.
#[derive(Drop)]
pub struct OverrideSet {
    mentions: Grants,
}

impl Model for OverrideSet {
    ghost use Rattle.std.specs.Prelude.{List};
    ghost use Rattle.fl_meta.specs.declared.permission.Mention.{Mention};

    ghost Value = { List Mention };

    ghost view = { λ s. s.mentions };

    ghost use Rattle.fl_override.specs.Overrides.{AllCanWrite};

    ghost invariant = { λ s. AllCanWrite s.mentions };
}

impl OverrideSet {
    /// Returns the mentions, one for each permission, in ascending order.
    pub fn as_layer(&self) -> &Layer
        ensures mentions { result.now ≡ self.now }
        ensures ascending { IsAscending self.now }
        ensures written { AllCanWrite self.now }
    {
        self.mentions.as_layer()
    }

    /// Reads an override from a key file. A permission gets its last mention in the file.
    pub fn from_keyfile(alloc: Global, file: &KeyFile) -> Result<Self, AllocError>
        ensures { IfOk result (λ set. (p : Permission) → value_in set p ≡ last_mention
            (file_mentions sources.Override file.now) p) }
    {
        let _groups = file.groups();
        let layer = mentions_of(alloc, file, Source::Override)?;
        Ok(OverrideSet {
            mentions: fold(alloc, &[&layer])?,
        })
    }

    /// Changes the set by options. A permission gets its last mention in the options, or keeps the
    /// one in the set if the options don't mention it. The set is unchanged if memory runs out.
    /// Each of the options has to be one that can be written, as those are that were read from
    /// options or a key file.
    pub fn change(&mut self, alloc: Global, options: &Layer) -> Result<(), AllocError>
        requires { AllCanWrite options.now }
        ensures ok { OnOk result ((p : Permission) → value_in self.new p ≡ last_mention
            (self.old ++ options.now) p) }
        ensures err { OnErr result (self.new ≡ self.old) }
    {
        let mentions = fold(alloc, &[self.mentions.as_layer(), options])?;
        self.mentions = mentions;
        Ok(())
    }

    /// Returns the set as a key file, in the form of Flatpak's overrides. The lists come in a fixed
    /// order. In each list the names ascend by their bytes, and each entry is followed by `;`. A
    /// denied permission begins with `!`. A directory that may be read and written has no ending.
    /// Names that aren't known are in lists of their own, whose keys are `unknown-LIST`. The key
    /// file reads back as the same set.
    pub fn to_keyfile(&self, alloc: Global) -> Result<KeyFile, AllocError>
        ensures file { IfOk result (λ file. file ≡ file_with self.now) }
        ensures reads_back { (p : Permission) → last_mention
            (file_mentions sources.Override (file_with self.now)) p ≡ value_in self.now p }
    {
        let groups = groups_of(alloc, self.mentions.as_slice())?;
        Ok(KeyFile::from_groups(groups))
    }
}
