//! Reading a description up to the first malformed line.

ghost use Rattle.std.specs.Prelude.{◌≡◌, ◌<◌, ◌≤◌, ◌+◌, ◌^◌, ◌==◌, if◌then◌else◌, length, Some, None, IfOk, IfErr, IfSome};
ghost use Rattle.ost_commit.specs.Refusals.{first_refused};
ghost use Rattle.fp_base.specs.Steps.{Gives};
ghost use Rattle.ost_description.specs.Commits.{IsReadFault};
ghost use Rattle.ost_description.specs.Descriptions.{said_after, timestamp_in, subject_in, folder_in, file_in, link_in, row_in, pieces, first_by, rows_in, unformed_in, checked_description, with_rows, described};

use crate::description::{Description, DescriptionError};
use crate::parts::{content, is_subject, mode, number, path, text};
use fp_base::{Items, Text, cut};
use ost_commit::TreeRow;
use std::alloc::{AllocError, Global};

/// Returns the part of a line after its first word and a space, or `None` if that isn't the word.
fn rest_after<'a>(word: &[u8], line: &'a [u8]) -> Option<&'a [u8]>
    ensures { Gives (λ rest. rest.now) result (said_after word.now line.now) }
{
    let (first, rest) = cut(b' ', line)?;
    if first == word { Some(rest) } else { None }
}

/// Returns the number in a line `timestamp T`, or `None` if the line is malformed.
#[tactic(auto, unfolding(crate::specs::Descriptions::timestamp_in))]
fn timestamp_of(line: &[u8]) -> Option<u64>
    ensures { Gives (λ n. n) result (timestamp_in line.now) }
{
    number(rest_after(b"timestamp", line)?)
}

/// Returns the text in a line `subject TEXT`, or `None` if the line is malformed.
#[tactic(auto, unfolding(crate::specs::Descriptions::subject_in))]
fn subject_of(line: &[u8]) -> Option<&str>
    ensures { Gives (λ t. t.now) result (subject_in line.now) }
{
    let subject = text(rest_after(b"subject", line)?)?;
    if is_subject(subject) {
        Some(subject)
    } else {
        None
    }
}

/// Returns the row of a line `dir PATH`, by the part after its first word, or `None` if the line is
/// malformed.
#[tactic(auto, unfolding(crate::specs::Descriptions::folder_in))]
fn folder_of(alloc: Global, rest: &[u8]) -> Result<Option<TreeRow>, AllocError>
    ensures { IfOk result (λ found. Gives (λ r. r) found (folder_in rest.now)) }
{
    match path(alloc, rest)? {
        Some(path) => Ok(Some(TreeRow::Dir(path))),
        None => Ok(None),
    }
}

/// Returns the row of a line `file PATH MODE HEX`, by the part after its first word, or `None` if
/// the line is malformed.
#[tactic(auto, unfolding(crate::specs::Descriptions::file_in))]
fn file_of(alloc: Global, rest: &[u8]) -> Result<Option<TreeRow>, AllocError>
    ensures { IfOk result (λ found. Gives (λ r. r) found (file_in rest.now)) }
{
    let Some((place, rest)) = cut(b' ', rest) else {
        return Ok(None);
    };
    let Some((bits, digits)) = cut(b' ', rest) else {
        return Ok(None);
    };
    let Some(mode) = mode(bits) else {
        return Ok(None);
    };
    let Some(path) = path(alloc, place)? else {
        return Ok(None);
    };
    let Some(bytes) = content(alloc, digits)? else {
        return Ok(None);
    };
    Ok(Some(TreeRow::File { path, mode, bytes }))
}

/// Returns the row of a line `link PATH TARGET`, by the part after its first word, or `None` if the
/// line is malformed.
#[tactic(auto, unfolding(crate::specs::Descriptions::link_in))]
fn link_of(alloc: Global, rest: &[u8]) -> Result<Option<TreeRow>, AllocError>
    ensures { IfOk result (λ found. Gives (λ r. r) found (link_in rest.now)) }
{
    let Some((place, target)) = cut(b' ', rest) else {
        return Ok(None);
    };
    let Some(target) = text(target) else {
        return Ok(None);
    };
    let Some(path) = path(alloc, place)? else {
        return Ok(None);
    };
    let target = Text::from_str(alloc, target)?;
    Ok(Some(TreeRow::Link { path, target }))
}

/// Returns the row of a line, or `None` if the line is malformed.
#[tactic(auto, unfolding(crate::specs::Descriptions::row_in))]
fn row_of(alloc: Global, line: &[u8]) -> Result<Option<TreeRow>, AllocError>
    ensures { IfOk result (λ found. Gives (λ r. r) found (row_in line.now)) }
{
    let Some((word, rest)) = cut(b' ', line) else {
        return Ok(None);
    };
    match word {
        b"dir" => folder_of(alloc, rest),
        b"file" => file_of(alloc, rest),
        b"link" => link_of(alloc, rest),
        _ => Ok(None),
    }
}

/// The contents of the first two lines, and the bytes after them.
#[derive(Clone, Copy)]
struct Heading<'a> {
    timestamp: u64,
    subject: &'a str,
    rest: &'a [u8],
}

/// Reads the first two lines. `Record` with 1 or 2 if that line is malformed or missing.
fn read_heading(bytes: &[u8]) -> Result<Heading, DescriptionError>
    ensures reads { IfOk result (λ h. described bytes.now
        ≡ with_rows h.timestamp h.subject.now (pieces h.rest.now)) }
    ensures shorter { IfOk result (λ h. length h.rest.now < length bytes.now) }
    ensures bad { IfErr result (IsReadFault bytes.now) }
{
    let Some((timestamp, rest)) = timestamp_line(bytes) else {
        return Err(DescriptionError::Record(1));
    };
    let Some((subject, rest)) = subject_line(rest) else {
        return Err(DescriptionError::Record(2));
    };
    Ok(Heading {
        timestamp,
        subject,
        rest,
    })
}

/// Returns the number in a first line `timestamp T`, and the bytes after that line. `None` if the
/// line is malformed or missing.
fn timestamp_line(bytes: &[u8]) -> Option<(u64, &[u8])>
    ensures line { Gives (λ p. (p.0, pieces p.1.now)) result
        (first_by timestamp_in (pieces bytes.now)) }
    ensures shorter { IfSome result (λ p. length p.1.now < length bytes.now) }
{
    let (line, rest) = cut(b'\n', bytes)?;
    Some((timestamp_of(line)?, rest))
}

/// Returns the text in a first line `subject TEXT`, and the bytes after that line. `None` if the
/// line is malformed or missing.
fn subject_line(bytes: &[u8]) -> Option<(&str, &[u8])>
    ensures line { Gives (λ p. (p.0.now, pieces p.1.now)) result
        (first_by subject_in (pieces bytes.now)) }
    ensures shorter { IfSome result (λ p. length p.1.now < length bytes.now) }
{
    let (line, rest) = cut(b'\n', bytes)?;
    Some((subject_of(line)?, rest))
}

/// The rows up to the first malformed line, and the number of that line.
#[derive(Drop)]
struct Lines {
    rows: Vec<TreeRow>,
    unformed: Option<u64>,
}

/// Reads the lines from the third on, up to the first malformed one.
fn lines_of(alloc: Global, bytes: &[u8]) -> Result<Lines, AllocError>
    requires { length bytes.now + 3 < 2 ^ 64 }
    ensures rows { IfOk result (λ lines. lines.rows.items ≡ rows_in (pieces bytes.now)) }
    ensures unformed { IfOk result (λ lines. lines.unformed ≡ unformed_in 3 (pieces bytes.now)) }
    ensures few { IfOk result (λ lines. length lines.rows.items ≤ length bytes.now) }
{
    let mut rows = Vec::new(alloc);
    let mut rest = bytes;
    let mut number = 3;
    while let Some((line, more)) = cut(b'\n', rest) {
        let Some(row) = row_of(alloc, line)? else {
            return Ok(Lines {
                rows,
                unformed: Some(number),
            });
        };
        rows.push(row)?;
        rest = more;
        number += 1;
    }
    Ok(Lines {
        rows,
        unformed: leftover(rest, number),
    })
}

/// Returns the line number of the text after the last newline, or `None` if there is no such text.
fn leftover(rest: &[u8], number: u64) -> Option<u64>
    ensures { result ≡ (if length rest.now == 0 then None else Some number) }
{
    if rest.is_empty() { None } else { Some(number) }
}

/// A description up to the first malformed line, and the number of that line.
#[derive(Drop)]
pub(crate) struct Draft {
    pub(crate) description: Description,
    pub(crate) unformed: Option<u64>,
}

/// Reads a description up to the first malformed row. `Record` if one of the first two lines is
/// malformed or missing.
pub(crate) fn draft_of(alloc: Global, bytes: &[u8]) -> Result<Draft, DescriptionError>
    ensures reads { IfOk result (λ d. described bytes.now
        ≡ checked_description d.description d.unformed (first_refused d.description.rows)) }
    ensures few { IfOk result (λ d. length d.description.rows < length bytes.now) }
    ensures bad { IfErr result (IsReadFault bytes.now) }
{
    let heading = read_heading(bytes)?;
    let subject = Text::from_str(alloc, heading.subject)?;
    let lines = lines_of(alloc, heading.rest)?;
    Ok(Draft {
        description: Description {
            timestamp: heading.timestamp,
            subject,
            rows: Items::from_vec(lines.rows),
        },
        unformed: lines.unformed,
    })
}
