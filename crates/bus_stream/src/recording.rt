//! Recordings of what a client and its bus sent to each other.

ghost use Rattle.std.specs.Prelude.{◌≡◌, IfOk, OnOk};
ghost use Rattle.bus_stream.specs.Recordings.{with_client, push_names, with_owner, with_piece, with_line, recording_of, said, Knows, Took, AnswersRecording};

use crate::lines::{unique_name, well_known_name};
use fp_base::{Blob, Items, Side, Text, bytes_of_hex, cut};
use std::alloc::{AllocError, Global};
use std::collections::BTreeSet;
use std::error::Error;
use std::fmt;

/// The bytes that a client and its bus sent to each other, and the names that were known before.
#[derive(Drop)]
pub struct Recording {
    /// The client's unique name, if the recording contains it.
    pub client: Option<Text>,
    /// Well-known names, each once, with the unique name of the connection that owns it.
    pub owners: Items<(Text, Text)>,
    /// The bytes that were sent, in order, in the pieces in which they arrived, each with the side
    /// that sent it. Each piece has at least one byte.
    pub pieces: Items<(Side, Blob)>,
}

/// The error of reading a recording.
#[derive(Debug, Drop)]
pub enum RecordError {
    /// The number of the first bad line, counted from 1.
    BadRecord(u64),
    /// Memory ran out.
    NoMemory,
}

impl fmt::Display for RecordError {
    fn fmt<W: fmt::Write>(&self, f: &mut fmt::Formatter<W>) -> fmt::Result {
        match self {
            RecordError::BadRecord(line) => write!(f, "line {line} is bad"),
            RecordError::NoMemory => write!(f, "out of memory"),
        }
    }
}

impl Error for RecordError {}

impl From<AllocError> for RecordError {
    ghost use Rattle.std.specs.Prelude.{◌≡◌};
    ghost use Rattle.bus_stream.specs.declared.recording.RecordError.TheVariants.{NoMemory};

    ghost from_gives = { λ _ e. e ≡ NoMemory };

    fn from(_error: AllocError) -> RecordError {
        RecordError::NoMemory
    }
}

/// A recording while its lines are read.
#[derive(Drop)]
pub struct Draft {
    /// The client's unique name, if a line contained it.
    pub client: Option<Text>,
    /// The well-known names that have an owner.
    pub owned: BTreeSet<String>,
    /// Well-known names, each with its owner, in the order of the lines.
    pub owners: Vec<(Text, Text)>,
    /// The pieces, each with the side that sent it, in the order of the lines.
    pub pieces: Vec<(Side, Blob)>,
}

impl Draft {
    #[tactic(auto, unfolding(crate::specs::Recordings::with_client))]
    fn add_client(&mut self, alloc: Global, name: &[u8]) -> Result<bool, AllocError>
        requires knows { Knows self.old }
        ensures { IfOk result (λ good. Took good self.new (with_client (said self.old) name.now)) }
    {
        if !self.pieces.is_empty() || self.client.is_some() {
            return Ok(false);
        }
        let Some(name) = unique_name(name) else {
            return Ok(false);
        };
        self.client = Some(Text::from_str(alloc, name)?);
        Ok(true)
    }

    fn push_owner(&mut self, alloc: Global, name: &str, owner: &str) -> Result<(), AllocError>
        requires knows { Knows self.old }
        ensures said { OnOk result (said self.new ≡ push_names (said self.old)
            (name.now, owner.now)) }
        ensures knows { OnOk result (Knows self.new) }
    {
        self.owned.insert(String::from_str(alloc, name)?)?;
        let names = (Text::from_str(alloc, name)?, Text::from_str(alloc, owner)?);
        self.owners.push(names)?;
        Ok(())
    }

    #[tactic(auto, unfolding(crate::specs::Recordings::with_owner))]
    fn add_owner(&mut self, alloc: Global, names: &[u8]) -> Result<bool, AllocError>
        requires knows { Knows self.old }
        ensures { IfOk result (λ good. Took good self.new (with_owner (said self.old) names.now)) }
    {
        let Some((name, owner)) = cut(b' ', names) else {
            return Ok(false);
        };
        let (Some(name), Some(owner)) = (well_known_name(name), unique_name(owner)) else {
            return Ok(false);
        };
        if !self.pieces.is_empty() || self.owned.contains(name) {
            return Ok(false);
        }
        self.push_owner(alloc, name, owner)?;
        Ok(true)
    }

    #[tactic(auto, unfolding(crate::specs::Recordings::with_piece))]
    fn add_piece(&mut self, alloc: Global, side: Side, text: &[u8]) -> Result<bool, AllocError>
        requires knows { Knows self.old }
        ensures { IfOk result (λ good. Took good self.new (with_piece side (said self.old)
            text.now)) }
    {
        let Some(bytes) = bytes_of_hex(alloc, text)? else {
            return Ok(false);
        };
        self.pieces.push((side, Blob::from_vec(bytes)))?;
        Ok(true)
    }

    #[tactic(auto, unfolding(crate::specs::Recordings::with_line))]
    fn add_line(&mut self, alloc: Global, line: &[u8]) -> Result<bool, AllocError>
        requires knows { Knows self.old }
        ensures { IfOk result (λ good. Took good self.new (with_line (said self.old) line.now)) }
    {
        let Some((word, rest)) = cut(b' ', line) else {
            return Ok(false);
        };
        let good = match word {
            b"client" => self.add_client(alloc, rest)?,
            b"owner" => self.add_owner(alloc, rest)?,
            b"c" => self.add_piece(alloc, Side::Client, rest)?,
            b"b" => self.add_piece(alloc, Side::Bus, rest)?,
            _ => false,
        };
        Ok(good)
    }
}

/// Reads a recording.
///
/// A recording consists of lines, each with a newline at its end. First come at most one line
/// `client UNIQUE` and any number of lines `owner NAME UNIQUE`, in any order. Then come lines `c
/// HEX` and `b HEX`, with bytes that the client and that the bus sent. UNIQUE is a unique bus name.
/// NAME is a well-known bus name and occurs once. HEX is one byte or more in lower-case
/// hexadecimal.
///
/// Errs with `BadRecord` and the number of the first bad line, or with `NoMemory`.
pub fn read_recording(alloc: Global, bytes: &[u8]) -> Result<Recording, RecordError>
    ensures { AnswersRecording result (recording_of bytes.now) }
{
    let mut draft = Draft {
        client: None,
        owned: BTreeSet::new(alloc),
        owners: Vec::new(alloc),
        pieces: Vec::new(alloc),
    };
    let mut rest = bytes;
    let mut number = 1;
    while let Some((line, remainder)) = cut(b'\n', rest) {
        if !draft.add_line(alloc, line)? {
            return Err(RecordError::BadRecord(number));
        }
        rest = remainder;
        number += 1;
    }
    if !rest.is_empty() {
        return Err(RecordError::BadRecord(number));
    }
    Ok(Recording {
        client: draft.client,
        owners: Items::from_vec(draft.owners),
        pieces: Items::from_vec(draft.pieces),
    })
}
