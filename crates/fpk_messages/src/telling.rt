//! Messages on standard error on a command that succeeded or was refused: what a refusal means and
//! what helps, with facts from the disk and the input.
use crate::saying::{METADATA_LOST, say, say_batch_reason, say_no_memory, say_notes};
use crate::showing::{bad_line, is_absent, mode_at, push_list, refs_below, remote_folder};
use fl_lines::{advice_on, escape, frame_rule, key_rule, meta_rule, object_rule};
use fp_realsync::Access;
use std::alloc::{AllocError, Global};
use std::fmt::Display;
use std::rt::Files;

/// The most characters of a line that are quoted.
const MOST_SHOWN: usize = 60;

/// The message on an `exercise` that meets a remote other than its own.
const EXERCISE: &str = "fpk: an exercise has remotes of its own in memory, and no others; give it \
                        an installation of its own, as FPK_INSTALLATION=/tmp/trial\n";

/// A command, as it was called.
#[derive(Clone, Copy)]
pub struct Asked<'a> {
    /// The directory of the installation.
    pub installation: &'a str,
    /// The words of the command line.
    pub words: &'a [String],
    /// The purpose for which the installation is opened.
    pub access: Access,
}

/// A command that was refused.
#[derive(Clone, Copy)]
struct Refused<'a> {
    asked: Asked<'a>,
    // The line that it printed.
    line: &'a str,
    // Its input, if that was kept.
    input: Option<&'a [u8]>,
}

impl Asked<'_> {
    /// Returns whether the command is `update` without a ref.
    pub fn is_update_of_all(&self) -> bool {
        match self.words {
            [word] => word.as_str() == "update",
            _ => false,
        }
    }

    /// Returns whether this is the first word.
    fn is_of(&self, word: &str) -> bool {
        match self.words {
            [first, ..] => first.as_str() == word,
            [] => false,
        }
    }

    /// Returns the ID of the application that `override` is about: the last word, if it is no
    /// option.
    fn overridden(&self) -> Option<&str> {
        match self.words {
            [first, .., last] if first.as_str() == "override" && !last.starts_with("-") => {
                Some(last.as_str())
            }
            _ => None,
        }
    }

    /// Returns the directory of the remote that `remote-add` adds, or whose URL `remote-modify`
    /// sets.
    fn remote_folder(&self) -> Option<&str> {
        match self.words {
            [first, _, url] if matches!(first.as_str(), "remote-add" | "remote-modify") => {
                url.strip_prefix("file://")
            }
            _ => None,
        }
    }
}

/// Prints on standard error what a successful command didn't do: options that do less than they
/// seem to, an override of an application that isn't installed, and a remote from which nothing can
/// be pulled as it is.
pub fn tell_done(rt: &(impl Files + Eprint + AllocGlobal), alloc: Global, asked: Asked<'_>) {
    if let Some(folder) = asked.remote_folder() {
        match unfit_text(rt, alloc, folder) {
            Ok(text) => say(rt, text.as_str()),
            Err(_) => say_no_memory(rt),
        }
    }
    if !asked.is_of("override") && !asked.is_of("launch") {
        return;
    }
    say_notes(rt, alloc, asked.words);
    if let Some(id) = asked.overridden() {
        match uninstalled_text(rt, alloc, asked.installation, id) {
            Ok(text) => say(rt, text.as_str()),
            Err(_) => say_no_memory(rt),
        }
    }
}

/// Returns a message why nothing can be pulled from this directory: it has no OSTree repository, or
/// one of another mode than `bare-user-only`. Returns an empty text if neither is seen.
fn unfit_text(
    rt: &(impl Files + AllocGlobal),
    alloc: Global,
    folder: &str,
) -> Result<String, AllocError> {
    let mut text = String::new(alloc);
    let config = format!(in alloc; "{folder}/config")?;
    if is_absent(rt, config.as_str()) {
        let folder = escape(alloc, folder)?;
        write!(
            text,
            "fpk: {folder} has no OSTree repository yet (no file config)\n"
        )?;
    } else if let Some(mode) = mode_at(rt, alloc, config.as_str())?
        && mode.as_str() != "bare-user-only"
    {
        push_advice(&mut text, "error: remote mode ")?;
    }
    Ok(text)
}

/// Returns a message that no application of this ID is installed; an empty text if one is. The word
/// is an ID, so it needs no escapes.
fn uninstalled_text(
    rt: &(impl Files + AllocGlobal),
    alloc: Global,
    installation: &str,
    id: &str,
) -> Result<String, AllocError> {
    let at = format!(in alloc; "{installation}/app/{id}")?;
    if is_absent(rt, at.as_str()) {
        format!(in alloc; "fpk: no application {id} is installed here\n")
    } else {
        Ok(String::new(alloc))
    }
}

/// Prints on standard error that the installation doesn't exist.
pub fn tell_absence(rt: &impl Eprint, alloc: Global, installation: &str) {
    match escape(alloc, installation) {
        Ok(folder) => {
            let _said = eprintln!(rt; "fpk: no installation at {folder}");
        }
        Err(_) => say_no_memory(rt),
    }
}

/// Prints on standard error what a refusal means and what helps. `line` is the line that the
/// command printed; without it nothing is printed. `input` is the command's input, if it was kept.
pub fn tell_refused(
    rt: &(impl Files + Eprint + AllocGlobal),
    alloc: Global,
    asked: Asked<'_>,
    line: Option<String>,
    input: Option<&[u8]>,
) {
    let Some(line) = line else {
        return;
    };
    let refused = Refused {
        asked,
        line: line.as_str(),
        input,
    };
    if let (true, Some(batch)) = (refused.is_of_a_batch_line(), input) {
        return say_batch_reason(rt, alloc, batch);
    }
    match told(rt, alloc, refused) {
        Ok(text) => say(rt, text.as_str()),
        Err(_) => say_no_memory(rt),
    }
}

impl Refused<'_> {
    /// Returns whether the refusal is that a line of a batch asks for no change.
    fn is_of_a_batch_line(&self) -> bool {
        self.asked.is_of("batch") && self.line.starts_with("error: record ")
    }

    /// Returns whether the refusal is that an installed ref's file `metadata`, which each install
    /// writes, is missing, no regular file or too long.
    fn is_of_lost_metadata(&self) -> bool {
        let looks = self.asked.is_of("info")
            || self.asked.is_of("launch")
            || self.asked.is_of("filter");
        match self.after("error: metadata ") {
            Some(rest) => looks && rest.ends_with(" 0 absent"),
            None => false,
        }
    }

    /// Returns the rest of the line after these words, without the newline.
    fn after(&self, words: &str) -> Option<&str> {
        match self.line.strip_prefix(words) {
            Some(rest) => Some(rest.trim_end()),
            None => None,
        }
    }
}

/// Returns the message, in lines.
fn told(
    rt: &(impl Files + AllocGlobal),
    alloc: Global,
    refused: Refused<'_>,
) -> Result<String, AllocError> {
    let mut text = String::new(alloc);
    if refused.asked.is_of("exercise") && refused.after("error: remote ").is_some() {
        text.push_str(EXERCISE)?;
        return Ok(text);
    }
    if let Some(named) = refused.after("error: remote mode ") {
        push_mode(rt, alloc, &mut text, refused, named)?;
    }
    if text.is_empty() {
        push_advice(&mut text, refused.line)?;
    }
    push_rule(&mut text, refused)?;
    if refused.is_of_lost_metadata() {
        text.push_str(METADATA_LOST)?;
    }
    push_refs(rt, alloc, &mut text, refused)?;
    push_line(rt, alloc, &mut text, refused)?;
    push_record(alloc, &mut text, refused)?;
    Ok(text)
}

/// Appends what the line means and what helps.
fn push_advice(text: &mut String, line: &str) -> Result<(), AllocError> {
    match advice_on(line) {
        Some(says) => write!(text, "fpk: {says}\n"),
        None => Ok(()),
    }
}

/// Appends that a remote has no repository, if that is so.
fn push_mode(
    rt: &(impl Files + AllocGlobal),
    alloc: Global,
    text: &mut String,
    refused: Refused<'_>,
    named: &str,
) -> Result<(), AllocError> {
    let Some((remote, "-")) = named.split_once(' ') else {
        return Ok(());
    };
    let Some(folder) = remote_folder(rt, alloc, refused.asked.installation, remote)? else {
        return Ok(());
    };
    let config = format!(in alloc; "{folder}/config")?;
    if !is_absent(rt, config.as_str()) {
        return Ok(());
    }
    let folder = escape(alloc, folder.as_str())?;
    write!(
        text,
        "fpk: {folder} has no OSTree repository (no file config); is it mounted?\n"
    )
}

/// Appends the text of the rule that the last word of the line stands for.
fn push_rule(text: &mut String, refused: Refused<'_>) -> Result<(), AllocError> {
    if let Some(rest) = refused.after("error: malformed object ") {
        return push_shown(text, object_rule(last_word(rest)));
    }
    if let Some(rest) = refused.after("error: message ") {
        return push_shown(text, frame_rule(last_word(rest)));
    }
    match refused.after("error: metadata ") {
        Some(rest) if is_of_whole_file(rest) => push_shown(text, meta_rule(last_word(rest))),
        Some(rest) => push_shown(text, key_rule(last_word(rest))),
        None => Ok(()),
    }
}

/// Appends the text of a rule, if there is one.
fn push_shown<T: Display + Drop>(text: &mut String, rule: Option<T>) -> Result<(), AllocError> {
    match rule {
        Some(rule) => write!(text, "fpk: {rule}\n"),
        None => Ok(()),
    }
}

/// Returns the text after the last space.
fn last_word(text: &str) -> &str {
    match text.rsplit_once(' ') {
        Some((_, last)) => last,
        None => text,
    }
}

/// Returns whether the last word but one, the number of a line, is 0: the refusal is about the
/// whole file.
fn is_of_whole_file(text: &str) -> bool {
    match text.rsplit_once(' ') {
        Some((before, _)) => last_word(before) == "0",
        None => false,
    }
}

/// Appends the refs of the refused ref's ID that the remote offers or that are installed.
fn push_refs(
    rt: &(impl Files + AllocGlobal),
    alloc: Global,
    text: &mut String,
    refused: Refused<'_>,
) -> Result<(), AllocError> {
    if let Some(name) = refused.after("error: not installed ") {
        let installed = refs_below(
            rt,
            alloc,
            refused.asked.installation,
            id_of(name),
            "/active",
        )?;
        return push_list(text, "installed of this ID", installed.as_str());
    }
    let Some((remote, name)) = refused
        .after("error: no ref ")
        .and_then(|rest| rest.split_once(' '))
    else {
        return Ok(());
    };
    let Some(folder) = remote_folder(rt, alloc, refused.asked.installation, remote)? else {
        return Ok(());
    };
    let heads = format!(in alloc; "{folder}/refs/heads")?;
    let offered = refs_below(rt, alloc, heads.as_str(), id_of(name), "")?;
    push_list(text, "the remote offers of this ID", offered.as_str())
}

/// Returns the kind and the ID of a ref's name, as in `app/ID/ARCH/BRANCH`.
fn id_of(name: &str) -> &str {
    match name.rsplit_once('/') {
        Some((before, _)) => match before.rsplit_once('/') {
            Some((kind_and_id, _)) => kind_and_id,
            None => before,
        },
        None => name,
    }
}

/// Appends the first bad line of `config` or an override, and the rule that it breaks.
fn push_line(
    rt: &(impl Files + AllocGlobal),
    alloc: Global,
    text: &mut String,
    refused: Refused<'_>,
) -> Result<(), AllocError> {
    let Some(path) = refused.after("error: damaged ") else {
        return Ok(());
    };
    if path != "config" && !path.starts_with("overrides/") {
        return Ok(());
    }
    let installation = refused.asked.installation;
    let at = format!(in alloc; "{installation}/{path}")?;
    match bad_line(rt, alloc, at.as_str()) {
        Some(fault) => {
            let line = fault.line;
            let rule = fault.rule;
            write!(text, "fpk: line {line}: {rule}\n")
        }
        None => Ok(()),
    }
}

/// Appends the refused line of the input, and which lines are allowed there.
fn push_record(alloc: Global, text: &mut String, refused: Refused<'_>) -> Result<(), AllocError> {
    let Some(number) = refused
        .after("error: record ")
        .and_then(|rest| rest.parse::<u64>().ok())
    else {
        return Ok(());
    };
    if let Some(input) = refused.input {
        push_input_line(alloc, text, number, input)?;
    }
    if refused.asked.is_of("export") {
        text.push_str(tree_lines(number))
    } else if refused.asked.is_of("filter") {
        text.push_str(RECORDING_LINES)
    } else {
        Ok(())
    }
}

/// Appends the start of a line of the input.
fn push_input_line(
    alloc: Global,
    text: &mut String,
    number: u64,
    input: &[u8],
) -> Result<(), AllocError> {
    let input = String::from_utf8_lossy(alloc, input)?;
    let shown = escape(alloc, line_at(input.as_str(), number))?;
    write!(text, "fpk: line {number} is '")?;
    for letter in shown.chars().take(MOST_SHOWN) {
        text.push(letter)?;
    }
    text.push_str(if shown.chars().count() > MOST_SHOWN {
        "'..\n"
    } else {
        "'\n"
    })
}

/// Returns the line of this number, counted from 1; an empty one after the last.
fn line_at(text: &str, number: u64) -> &str {
    match usize::try_from(number.saturating_sub(1)) {
        Ok(before) => text.lines().nth(before).unwrap_or(""),
        Err(_) => "",
    }
}

/// Returns a message on the lines of a description of a tree that are allowed at this number.
fn tree_lines(number: u64) -> &'static str {
    match number {
        1 => "fpk: the first line is `timestamp SECONDS`, since the beginning of 1970\n",
        2 => "fpk: the second line is `subject TEXT`, of at most 1,024 bytes\n",
        _ => {
            "fpk: a line is `dir PATH`, `file PATH BITS HEX` (bits as 644, `-` for no bytes) or \
            `link PATH TEXT`; a path stands once, below no file or link, and has no spaces\n"
        }
    }
}

/// The message on the lines that a recording may contain.
const RECORDING_LINES: &str = "fpk: first come at most one `client UNIQUE` and any number of \
                               `owner NAME UNIQUE`, then lines `c HEX` and `b HEX`\n";
