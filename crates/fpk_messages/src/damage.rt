//! The message on a store that lacks objects of an installed commit.
use crate::saying::{say, say_no_memory};
use dep_open::read_state;
use fl_lines::refusal_line;
use fp_host::Host;
use fp_small::{RefRow, Refusal, repo_path};
use ost_walk::{PullEnd, used};
use std::alloc::{AllocError, Global};

/// Prints on standard error the first installed ref that needs a missing or damaged object of the
/// store, the first such object, and what helps. Prints nothing if there is none.
pub fn tell_damage<H: Host>(rt: &impl Eprint, alloc: Global, host: &mut H) {
    match damage_text(alloc, host) {
        Ok(Some(text)) => say(rt, text.as_str()),
        Ok(None) => {}
        Err(AllocError) => say_no_memory(rt),
    }
}

/// Returns the message on the first ref that needs a missing or damaged object, or `None` if there
/// is no such ref or the installation's state can't be read.
fn damage_text<H: Host>(alloc: Global, host: &mut H) -> Result<Option<String>, AllocError> {
    let Ok(state) = read_state(alloc, host) else {
        return Ok(None);
    };
    for row in state.refs.as_slice() {
        if let Some(refusal) = fault_of(alloc, host, row)? {
            return Ok(Some(text_of(alloc, row, &refusal)?));
        }
    }
    Ok(None)
}

/// Returns the first missing or damaged object of the ref's commits, the current and the previous
/// one, in the installation's store.
fn fault_of<H: Host>(
    alloc: Global,
    host: &mut H,
    row: &RefRow,
) -> Result<Option<Refusal>, AllocError> {
    let root = repo_path(alloc)?;
    let mut commits = Vec::new(alloc);
    commits.push(row.commit)?;
    if let Some(previous) = &row.previous {
        commits.push(previous.commit)?;
    }
    match used(alloc, host, &root, &commits) {
        Ok(_) => Ok(None),
        Err(end) => match PullEnd::from(end) {
            PullEnd::Refused(refusal) => Ok(Some(refusal)),
            _ => Ok(None),
        },
    }
}

/// Returns the message on a ref whose commits need this object.
fn text_of(alloc: Global, row: &RefRow, refusal: &Refusal) -> Result<String, AllocError> {
    let name = row.name.as_str();
    let line = refusal_line(alloc, refusal)?;
    let line = line.as_str().trim_end();
    let fault = line.strip_prefix("error: ").unwrap_or(line);
    format!(in alloc;
        "fpk: the store lacks what {name} needs: {fault}\n\
         fpk: the rest is done, and no object is taken away as long as that is so; an install or \
         update brings a missing object again; uninstall {name} where `fpk fsck` calls it bad\n"
    )
}
