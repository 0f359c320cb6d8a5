//! A group while it is being parsed, with an index of its keys.

ghost use Rattle.std.specs.Prelude.{◌≡◌, [], IfOk, OnOk};
ghost use Rattle.fp_keyfile.specs.KeyFile.{keys_of, with_key};
ghost use Rattle.fp_keyfile.specs.Index.{Indexes};

use crate::group::{Group, Pair};
use crate::index::place_or_next;
use fp_base::{Items, Text};
use std::alloc::{AllocError, Global};
use std::collections::BTreeMap;

/// A group, with an index of its keys.
#[derive(Drop)]
pub(crate) struct Table<'a> {
    pub(crate) group: Group,
    places: BTreeMap<&'a str, usize>,
}

impl<'a> Table<'a> {
    /// Creates a group with this name and without pairs.
    pub(crate) fn new(alloc: Global, name: &str) -> Result<Self, AllocError>
        ensures group { IfOk result (λ t. t.group ≡ record { name = name.now; pairs = [] }) }
        ensures indexed { IfOk result (λ t. Indexes t.places []) }
    {
        Ok(Table {
            group: Group {
                name: Text::from_str(alloc, name)?,
                pairs: Items::new(alloc),
            },
            places: BTreeMap::new(alloc),
        })
    }

    /// Sets the value of the key. A present key keeps its place; a missing one is added at the end.
    pub(crate) fn put(&mut self, key: &'a str, value: &str) -> Result<(), AllocError>
        requires { Indexes self.old.places (keys_of self.old.group.pairs) }
        ensures group { OnOk result (self.new.group ≡ record self.old.group
            { pairs = with_key self.old.group.pairs key.now value.now }) }
        ensures indexed { OnOk result (Indexes self.new.places (keys_of self.new.group.pairs)) }
    {
        let pair = Pair::new(self.group.pairs.allocator(), key, value)?;
        let next = self.group.pairs.len();
        let at = place_or_next(&mut self.places, key, next)?;
        if at < next {
            self.group.pairs.set(at, pair);
            Ok(())
        } else {
            self.group.pairs.push(pair)
        }
    }
}
