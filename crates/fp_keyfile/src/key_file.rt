//! A key file: its groups are looked up, changed, parsed and written.
ghost use Rattle.std.specs.Prelude.{◌≡◌, [], Ok, IsTrue, OnOk, OnErr, IfOk};
ghost use Rattle.std.specs.Option.{option_copied};
ghost use Rattle.fp_keyfile.specs.Grammar.{is_name, is_key, is_value};
ghost use Rattle.fp_keyfile.specs.KeyFile.{value_at, with_pair, without_pair, file_of, text_of, is_good, Gives};

use crate::change::{set_pair, take_pair};
use crate::fault::KeyError;
use crate::group::Group;
use crate::parsing::read_groups;
use crate::places::find_group;
use crate::writing::text_of_groups;
use fp_base::{Items, Text};
use std::alloc::{AllocError, Global};
use std::marker::Model;

/// A key file (Desktop Entry Specification, "Basic format of the file"). Contracts see it as the
/// list of its groups.
///
/// Names of groups are distinct, keys are distinct within their group, and all names, keys and
/// values can be written.
#[derive(Drop)]
pub struct KeyFile {
    groups: Items<Group>,
}

impl Model for KeyFile {
    ghost use Rattle.std.specs.Prelude.{List, IsTrue};
    ghost use Rattle.fp_keyfile.specs.declared.group.Group.{Group};

    ghost Value = { List Group };

    ghost view = { λ f. f.groups };

    ghost use Rattle.fp_keyfile.specs.KeyFile.{is_good};

    ghost invariant = { λ f. IsTrue (is_good f.groups) };
}

impl KeyFile {
    /// Creates a file without groups. Allocates nothing.
    pub fn new(alloc: Global) -> Self
        ensures { result ≡ [] }
    {
        KeyFile {
            groups: Items::new(alloc),
        }
    }

    /// Creates a file of groups. Their names, keys and values must be valid, and there must be no
    /// duplicate names or keys. Allocates nothing.
    pub fn from_groups(groups: Items<Group>) -> Self
        requires { IsTrue (is_good groups) }
        ensures { result ≡ groups }
    {
        KeyFile { groups }
    }

    /// Parses a key file (Desktop Entry Specification, "Basic format of the file").
    ///
    /// The bytes are split into lines at newlines, and carriage returns at the end of a line are
    /// dropped. A line is blank, a comment (`#` and any text), a group header (`[NAME]`, and then
    /// only spaces and tabs) or a pair (`KEY=VALUE`, where spaces and tabs around the first `=` are
    /// dropped). A repeated header continues its group. A repeated key takes the later value and
    /// keeps its first place. Comments and blank lines aren't kept. The error is the first bad
    /// line, with the first rule that it breaks.
    pub fn parse(alloc: Global, bytes: &[u8]) -> Result<Self, KeyError>
        ensures { Gives result (file_of bytes.now) }
    {
        Ok(KeyFile {
            groups: read_groups(alloc, bytes)?,
        })
    }

    /// Returns the groups in order.
    pub fn groups(&self) -> &Items<Group>
        ensures groups { result.now ≡ self.now }
        ensures good { IsTrue (is_good self.now) }
    {
        &self.groups
    }

    /// Returns the groups in order. Allocates nothing.
    pub fn into_groups(self) -> Items<Group>
        ensures groups { result ≡ self }
        ensures good { IsTrue (is_good result) }
    {
        self.groups
    }

    /// Returns the value of the key in the group, or `None` if the file has no such pair.
    #[tactic(auto, unfolding(crate::specs::KeyFile::value_at))]
    pub fn get(&self, group: &str, key: &str) -> Option<&str>
        ensures { option_copied result ≡ value_at self.now group.now key.now }
    {
        let group = find_group(self.groups.as_slice(), group)?;
        group.get(key)
    }

    /// Sets the value of the key in the group. A present pair keeps its place; a missing one is
    /// added at the end of its group, and a missing group at the end of the file. Nothing else
    /// changes. If memory runs out, nothing changes at all.
    pub fn set(&mut self, group: &str, key: &str, value: &str) -> Result<(), AllocError>
        requires group { IsTrue (is_name group.now) }
        requires key { IsTrue (is_key key.now) }
        requires value { IsTrue (is_value value.now) }
        ensures ok { OnOk result (self.new ≡ with_pair self.old group.now key.now value.now) }
        ensures err { OnErr result (self.new ≡ self.old) }
    {
        set_pair(&mut self.groups, group, key, value)
    }

    /// Removes the pair and returns its value. Its group is removed with its last pair. Returns
    /// `None` and changes nothing if the file has no such pair.
    pub fn remove(&mut self, group: &str, key: &str) -> Option<Text>
        ensures value { result ≡ value_at self.old group.now key.now }
        ensures after { self.new ≡ without_pair self.old group.now key.now }
    {
        take_pair(&mut self.groups, group, key)
    }

    /// Returns a copy. Errs if memory runs out.
    pub fn copy(&self) -> Result<Self, AllocError>
        ensures { IfOk result (λ f. f ≡ self.now) }
    {
        let mut groups = Vec::with_capacity(self.groups.allocator(), self.groups.len())?;
        for group in self.groups.as_slice() {
            groups.push(group.copy()?)?;
        }
        Ok(KeyFile {
            groups: Items::from_vec(groups),
        })
    }

    /// Returns the text of the file: for each group the line `[NAME]`, and then a line `KEY=VALUE`
    /// for each of its pairs. Each line ends with a newline. `parse` reads the text back as an
    /// equal file.
    pub fn write(&self) -> Result<Text, AllocError>
        ensures text { IfOk result (λ t. t ≡ text_of self.now) }
        ensures reads_back { file_of (text_of self.now) ≡ Ok self.now }
    {
        let text = text_of_groups(self.groups.allocator(), self.groups.as_slice())?;
        Ok(Text::from_string(text))
    }
}
