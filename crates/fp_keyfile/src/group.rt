//! A group of a key file, and its pairs.
ghost use Rattle.std.specs.Prelude.{◌≡◌, ◌∷◌, [], IfOk, OnOk, OnErr, OnSome, IfNone};
ghost use Rattle.std.specs.Option.{option_copied, option_map};
ghost use Rattle.fp_keyfile.specs.KeyFile.{pair_at, value_in, with_key, without_key};

use crate::places::{find_pair, pair_place};
use fp_base::{Items, Text};
use std::alloc::{AllocError, Global};

/// A key with its value.
#[derive(Drop)]
pub struct Pair {
    /// The text before the first `=`, without spaces and tabs at its end.
    pub key: Text,
    /// The text after the first `=`, without spaces and tabs at its start.
    pub value: Text,
}

/// A group of a key file: its name, and its pairs in order.
#[derive(Drop)]
pub struct Group {
    /// The text between the brackets.
    pub name: Text,
    /// The pairs, in the order of the file.
    pub pairs: Items<Pair>,
}

impl Pair {
    /// Creates a pair of copies of these texts. Errs if memory runs out.
    pub fn new(alloc: Global, key: &str, value: &str) -> Result<Self, AllocError>
        ensures { IfOk result (λ p. p ≡ record { key = key.now; value = value.now }) }
    {
        Ok(Pair {
            key: Text::from_str(alloc, key)?,
            value: Text::from_str(alloc, value)?,
        })
    }

    /// Returns a copy. Errs if memory runs out.
    pub fn copy(&self) -> Result<Self, AllocError>
        ensures { IfOk result (λ p. p ≡ self.now) }
    {
        Ok(Pair {
            key: self.key.copy()?,
            value: self.value.copy()?,
        })
    }
}

impl Group {
    /// Creates a group with one pair, of copies of these texts. Errs if memory runs out.
    pub(crate) fn of_pair(
        alloc: Global,
        name: &str,
        key: &str,
        value: &str,
    ) -> Result<Self, AllocError>
        ensures { IfOk result (λ g. g ≡ record {
          name = name.now;
          pairs = record { key = key.now; value = value.now } ∷ [];
        }) }
    {
        let mut pairs = Items::new(alloc);
        pairs.push(Pair::new(alloc, key, value)?)?;
        Ok(Group {
            name: Text::from_str(alloc, name)?,
            pairs,
        })
    }

    /// Returns the value of the key, or `None` if the group doesn't have the key. Allocates
    /// nothing.
    pub fn get(&self, key: &str) -> Option<&str>
        ensures { option_copied result ≡ value_in self.now key.now }
    {
        let pair = find_pair(self.pairs.as_slice(), key)?;
        Some(pair.value.as_str())
    }

    /// Sets the value of the key. A present key keeps its place; a missing one is added at the end.
    /// If memory runs out, nothing changes.
    pub(crate) fn put(&mut self, key: &str, value: &str) -> Result<(), AllocError>
        ensures ok { OnOk result (self.new ≡ record self.old
            { pairs = with_key self.old.pairs key.now value.now }) }
        ensures err { OnErr result (self.new ≡ self.old) }
    {
        let alloc = self.pairs.allocator();
        let pair = Pair::new(alloc, key, value)?;
        match pair_place(self.pairs.as_slice(), key) {
            Some(at) => {
                self.pairs.set(at, pair);
                Ok(())
            }
            None => self.pairs.push(pair),
        }
    }

    /// Removes the pair of the key and returns its value. Returns `None` and changes nothing if the
    /// group doesn't have the key.
    pub(crate) fn take(&mut self, key: &str) -> Option<Text>
        ensures value { result ≡ option_map (λ p. p.value) (pair_at self.old.pairs key.now) }
        ensures found { OnSome result (self.new ≡ record self.old
            { pairs = without_key self.old.pairs key.now }) }
        ensures missed { IfNone result (self.new ≡ self.old) }
    {
        let at = pair_place(self.pairs.as_slice(), key)?;
        Some(self.pairs.remove(at).value)
    }

    /// Returns a copy. Errs if memory runs out.
    pub fn copy(&self) -> Result<Self, AllocError>
        ensures { IfOk result (λ g. g ≡ self.now) }
    {
        let mut pairs = Vec::with_capacity(self.pairs.allocator(), self.pairs.len())?;
        for pair in self.pairs.as_slice() {
            pairs.push(pair.copy()?)?;
        }
        Ok(Group {
            name: self.name.copy()?,
            pairs: Items::from_vec(pairs),
        })
    }
}
