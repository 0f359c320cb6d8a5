//! Parsing of the names of objects.
use crate::case::{Harm, ObjectWords};
use crate::fault::CaseError;
use crate::words::cut_words;
use fp_base::ObjKind;
use std::alloc::Global;

/// An object of a commit, undamaged or damaged.
#[derive(Drop)]
pub struct Name {
    /// The undamaged object.
    pub object: ObjectWords,
    /// Its damage; none if it is undamaged.
    pub harm: Option<Harm>,
}

/// Parses `LABEL` (the commit itself), `LABEL KIND` or `LABEL file PATH`, and optionally how the
/// object is damaged. Errs with `NoObject` or `NoHarm`.
pub fn name_of(alloc: Global, text: &str) -> Result<Name, CaseError> {
    let words = cut_words(alloc, text)?;
    let label = word_at(alloc, &words, 0)?;
    let Some(kind) = words.get(1) else {
        let object = ObjectWords {
            label,
            kind: ObjKind::Commit,
            path: String::new(alloc),
        };
        return Ok(Name { object, harm: None });
    };
    let kind = kind_of(kind)?;
    let is_file = matches!(kind, ObjKind::File);
    let path = match is_file {
        true => word_at(alloc, &words, 2)?,
        false => String::new(alloc),
    };
    let harm = match words.get(if is_file { 3 } else { 2 }) {
        Some(word) => Some(harm_of(word)?),
        None => None,
    };
    let object = ObjectWords { label, kind, path };
    Ok(Name { object, harm })
}

fn word_at(alloc: Global, words: &[String], at: usize) -> Result<String, CaseError> {
    match words.get(at) {
        Some(word) => Ok(String::from_str(alloc, word)?),
        None => Err(CaseError::NoObject),
    }
}

fn kind_of(word: &str) -> Result<ObjKind, CaseError> {
    match word {
        "commit" => Ok(ObjKind::Commit),
        "dirtree" => Ok(ObjKind::DirTree),
        "dirmeta" => Ok(ObjKind::DirMeta),
        "file" => Ok(ObjKind::File),
        _ => Err(CaseError::NoObject),
    }
}

fn harm_of(word: &str) -> Result<Harm, CaseError> {
    match word {
        "absent" => Ok(Harm::Absent),
        "folder" => Ok(Harm::Folder),
        "cut" => Ok(Harm::Cut),
        "longer" => Ok(Harm::Longer),
        "turned" => Ok(Harm::Turned),
        _ => match u32::from_str_radix(word, 8) {
            Ok(mode) => Ok(Harm::Mode(mode)),
            Err(_) => Err(CaseError::NoHarm),
        },
    }
}
