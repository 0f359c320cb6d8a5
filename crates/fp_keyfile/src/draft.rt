//! A key file while it is being parsed.

ghost use Rattle.std.specs.Prelude.{◌≡◌, IfOk, OnOk, Ok, Some, None, []};
ghost use Rattle.fp_keyfile.specs.declared.draft.LineError.TheVariants.{NoMemory};
ghost use Rattle.fp_keyfile.specs.KeyFile.{beginning, with_group, with_pair, with_entry, after_line};
ghost use Rattle.fp_keyfile.specs.Draft.{groups_of, reading, IsIndexed, Takes};

use crate::group::Group;
use crate::index::place_or_next;
use crate::line::{Line, read_line};
use crate::table::Table;
use fp_base::{Items, KeyRule};
use std::alloc::{AllocError, AllocFailed, Global};
use std::collections::BTreeMap;
use std::error::Error;
use std::fmt;

/// The reason why a line was not added.
#[derive(Debug, Drop)]
pub(crate) enum LineError {
    /// The line breaks this rule.
    Rule(KeyRule),
    /// Memory ran out.
    NoMemory,
}

impl fmt::Display for LineError {
    fn fmt<W: fmt::Write>(&self, f: &mut fmt::Formatter<W>) -> fmt::Result {
        match self {
            LineError::Rule(rule) => write!(f, "a line that breaks a rule: {rule}"),
            LineError::NoMemory => write!(f, "out of memory"),
        }
    }
}

impl Error for LineError {}

impl From<AllocError> for LineError {
    ghost from_gives = { λ _ e. e ≡ NoMemory };

    fn from(_e: AllocError) -> LineError {
        LineError::NoMemory
    }
}

impl<T: Drop> From<AllocFailed<T>> for LineError {
    ghost from_gives = { λ _ e. e ≡ NoMemory };

    fn from(_e: AllocFailed<T>) -> LineError {
        LineError::NoMemory
    }
}

/// The groups parsed so far, an index of their names, and the index of the group that the next
/// pairs belong to.
#[derive(Drop)]
pub(crate) struct Draft<'a> {
    tables: Vec<Table<'a>>,
    places: BTreeMap<&'a str, usize>,
    current: Option<usize>,
}

impl<'a> Draft<'a> {
    /// Creates a draft without groups.
    pub(crate) fn new(alloc: Global) -> Self
        ensures reading { reading result ≡ beginning }
        ensures indexed { IsIndexed result }
    {
        Draft {
            tables: Vec::new(alloc),
            places: BTreeMap::new(alloc),
            current: None,
        }
    }

    /// Makes the group with this name the current one, and adds it at the end if it's missing.
    fn begin(&mut self, name: &'a str) -> Result<(), AllocError>
        requires { IsIndexed self.old }
        ensures reading { OnOk result (reading self.new ≡ record
            { file = with_group (groups_of self.old) name.now; group = Some name.now }) }
        ensures indexed { OnOk result (IsIndexed self.new) }
    {
        let next = self.tables.len();
        let at = place_or_next(&mut self.places, name, next)?;
        if at == next {
            let alloc = *self.tables.allocator();
            self.tables.push(Table::new(alloc, name)?)?;
        }
        self.current = Some(at);
        Ok(())
    }

    /// Sets the value of the key in the current group. Errs with `NoGroup` if there is none yet.
    fn put(&mut self, key: &'a str, value: &str) -> Result<(), LineError>
        requires { IsIndexed self.old }
        ensures { Takes result self.new (with_entry (reading self.old) (reading self.old).group
            key.now value.now) }
    {
        let Some(at) = self.current else {
            return Err(LineError::Rule(KeyRule::NoGroup));
        };
        self.tables[at].put(key, value)?;
        Ok(())
    }

    /// Parses a line and adds it. Errs with the first rule that the line breaks.
    pub(crate) fn take(&mut self, line: &'a [u8]) -> Result<(), LineError>
        requires { IsIndexed self.old }
        ensures { Takes result self.new (after_line (reading self.old) line.now) }
    {
        match read_line(line) {
            Err(rule) => Err(LineError::Rule(rule)),
            Ok(Line::Nothing) => Ok(()),
            Ok(Line::Header(name)) => Ok(self.begin(name)?),
            Ok(Line::Entry(key, value)) => self.put(key, value),
        }
    }

    /// Returns the groups, in the order in which their first headers came.
    pub(crate) fn into_groups(self, alloc: Global) -> Result<Items<Group>, AllocError>
        ensures { IfOk result (λ groups. groups ≡ groups_of self.entry) }
    {
        let mut groups = Vec::with_capacity(alloc, self.tables.len())?;
        for table in self.tables {
            groups.push(table.group)?;
        }
        Ok(Items::from_vec(groups))
    }
}
