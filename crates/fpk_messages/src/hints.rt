//! Hints on words that are no command: the refs of an ID that is in the place of a ref, and fpk's
//! counterparts of the commands of other installers.
use crate::saying::{say, say_no_memory};
use crate::showing::{push_list, refs_below, remote_folder};
use crate::telling::Asked;
use std::alloc::{AllocError, Global};
use std::rt::Files;

/// First words of commands of other installers, each with a hint.
const ELSEWHERE: [(&str, &str); 12] = [
    ("add", "`fpk install NAME REF` installs a ref from a remote"),
    ("delete", "`fpk uninstall REF` takes a ref away"),
    (
        "downgrade",
        "`fpk rollback REF` goes back to the commit before",
    ),
    ("ls", "`fpk list` prints what is installed"),
    ("remote-list", "`fpk list --remotes` prints the remotes"),
    (
        "remote-ls",
        "`ostree refs --repo=FOLDER` prints what a repository offers",
    ),
    ("remotes", "`fpk list --remotes` prints the remotes"),
    ("remove", "`fpk uninstall REF` takes a ref away"),
    ("repair", "`fpk fsck` prints what is wrong in the store"),
    (
        "run",
        "`fpk launch APP` prints the sandbox of an application, and starts none",
    ),
    (
        "search",
        "`ostree refs --repo=FOLDER` prints what a repository offers",
    ),
    ("upgrade", "`fpk update` updates all that is installed"),
];

/// Prints the hints on standard error, if there are any.
pub fn tell_hints(rt: &(impl Files + Eprint + AllocGlobal), alloc: Global, asked: Asked<'_>) {
    if let [first, ..] = asked.words
        && let Some(help) = elsewhere(first.as_str())
    {
        let _said = eprintln!(rt; "fpk: {help}");
    }
    match refs_text(rt, alloc, asked) {
        Ok(text) => say(rt, text.as_str()),
        Err(_) => say_no_memory(rt),
    }
}

/// Returns the hint on a word of another installer.
fn elsewhere(word: &str) -> Option<&'static str> {
    let found = (&ELSEWHERE).iter().find(|entry| entry.0 == word);
    match found {
        Some(entry) => Some(entry.1),
        None => None,
    }
}

/// Returns a message with the refs of an ID that is in the place of a ref: for `install` those that
/// the remote offers, else those that are installed.
fn refs_text(
    rt: &(impl Files + AllocGlobal),
    alloc: Global,
    asked: Asked<'_>,
) -> Result<String, AllocError> {
    match asked.words {
        [first, remote, id] if first.as_str() == "install" && is_id(id.as_str()) => {
            offered_text(rt, alloc, asked.installation, remote.as_str(), id.as_str())
        }
        [first, id, ..] if takes_ref(first.as_str()) && is_id(id.as_str()) => {
            let above = asked.installation;
            let what = "installed of this ID";
            found_text(rt, alloc, above, id.as_str(), "/active", what)
        }
        _ => Ok(String::new(alloc)),
    }
}

/// Returns whether a command with this first word takes an installed ref.
fn takes_ref(word: &str) -> bool {
    matches!(
        word,
        "info" | "launch" | "rollback" | "uninstall" | "update"
    )
}

/// Returns whether the word may be an ID. It has no slash and no `..`, so its path stays below the
/// directory that is listed.
fn is_id(word: &str) -> bool {
    word.contains('.')
        && !word.contains('/')
        && !word.contains("..")
        && !word.starts_with('.')
        && !word.starts_with('-')
}

fn offered_text(
    rt: &(impl Files + AllocGlobal),
    alloc: Global,
    installation: &str,
    remote: &str,
    id: &str,
) -> Result<String, AllocError> {
    match remote_folder(rt, alloc, installation, remote)? {
        Some(folder) => {
            let heads = format!(in alloc; "{folder}/refs/heads")?;
            let what = "the remote offers of this ID";
            found_text(rt, alloc, heads.as_str(), id, "", what)
        }
        None => Ok(String::new(alloc)),
    }
}

/// Returns a message with the refs of applications and runtimes of this ID below a directory.
fn found_text(
    rt: &(impl Files + AllocGlobal),
    alloc: Global,
    above: &str,
    id: &str,
    mark: &str,
    what: &str,
) -> Result<String, AllocError> {
    let mut text = String::new(alloc);
    for kind in ["app", "runtime"] {
        let kind_and_id = format!(in alloc; "{kind}/{id}")?;
        let found = refs_below(rt, alloc, above, kind_and_id.as_str(), mark)?;
        push_list(&mut text, what, found.as_str())?;
    }
    Ok(text)
}
