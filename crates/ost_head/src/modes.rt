//! The mode of a repository, as its `config` states it.
ghost use Rattle.std.specs.Prelude.{◌≡◌, IfOk};
ghost use Rattle.std.specs.List.{list_all};
ghost use Rattle.std.specs.Option.{option_copied};
ghost use Rattle.ost_refs.specs.Offers.{is_core, is_pullable, is_mode_byte, is_mode_word, mode_word, mode_refused, mode_in};
ghost use Rattle.fp_keyfile.specs.KeyFile.{value_at};

use fp_base::{Blob, Text};
use fp_keyfile::{KeyError, KeyFile};
use ost_refs::MOST_MODE_BYTES;
use std::alloc::{AllocError, Global};

/// The text that replaces a mode that is missing or not valid.
const NO_MODE: &str = "-";

/// Returns whether a key of the group `core` has this value.
fn is_core(file: &KeyFile, key: &str, value: &str) -> bool
    ensures { result ≡ is_core file.now key.now value.now }
{
    match file.get("core", key) {
        Some(text) => text == value,
        None => false,
    }
}

/// Returns whether this is the `config` of a repository of version 1 and of the mode
/// `bare-user-only`. fpk pulls only from such a repository.
fn is_pullable(file: &KeyFile) -> bool
    ensures { result ≡ is_pullable file.now }
{
    is_core(file, "repo_version", "1") && is_core(file, "mode", "bare-user-only")
}

/// Returns whether the byte is a lower-case ASCII letter, a digit or `-`.
fn is_mode_byte(byte: u8) -> bool
    ensures { result ≡ is_mode_byte byte }
{
    byte.is_ascii_lowercase() || byte.is_ascii_digit() || byte == b'-'
}

/// Returns whether each byte is a lower-case ASCII letter, a digit or `-`.
fn are_mode_bytes(bytes: &[u8]) -> bool
    ensures { result ≡ list_all is_mode_byte bytes.now }
{
    bytes.iter().all(|byte| is_mode_byte(*byte))
}

/// Returns whether the text can be shown as a mode: 1 to `MOST_MODE_BYTES` lower-case ASCII
/// letters, digits and `-`.
fn is_mode_word(text: &str) -> bool
    ensures { result ≡ is_mode_word text.now }
{
    let bytes = text.as_bytes();
    if bytes.len() < 1 {
        return false;
    }
    if bytes.len() > MOST_MODE_BYTES {
        return false;
    }
    are_mode_bytes(bytes)
}

/// Returns the mode if it can be shown, and `-` otherwise.
fn mode_word(mode: Option<&str>) -> &str
    ensures { result.now ≡ mode_word (option_copied mode.entry) }
{
    match mode {
        Some(text) if is_mode_word(text) => text,
        _ => NO_MODE,
    }
}

/// Returns the mode that is refused, or `None` if fpk pulls from a repository with this `config`.
fn mode_refused(alloc: Global, file: &KeyFile) -> Result<Option<Text>, AllocError>
    ensures { IfOk result (λ mode. mode ≡ mode_refused file.now) }
{
    if is_pullable(file) {
        return Ok(None);
    }
    let mode = mode_word(file.get("core", "mode"));
    Ok(Some(Text::from_str(alloc, mode)?))
}

/// Returns the mode that is refused, or `None` if fpk pulls from a repository with this `config`. A
/// `config` that is missing or no key file has the mode `-`.
pub(crate) fn mode_in(alloc: Global, config: Option<Blob>) -> Result<Option<Text>, AllocError>
    ensures { IfOk result (λ mode. mode ≡ mode_in config) }
{
    let Some(bytes) = config else {
        return Ok(Some(Text::from_str(alloc, NO_MODE)?));
    };
    match KeyFile::parse(alloc, bytes.as_slice()) {
        Ok(file) => mode_refused(alloc, &file),
        Err(KeyError::Fault(_)) => Ok(Some(Text::from_str(alloc, NO_MODE)?)),
        Err(KeyError::NoMemory) => Err(AllocError),
    }
}
