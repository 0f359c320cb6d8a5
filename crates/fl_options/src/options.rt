//! The permissions that options mention.

ghost use Rattle.std.specs.Prelude.{◌≡◌, ◌++◌, IfOk, OnOk};
ghost use Rattle.std.specs.Option.{option_copied};
ghost use Rattle.fl_options.specs.Options as spec;

use crate::option_lines::option_lines;
use crate::tests_of_text::is_given;
use fl_meta::{Layer, Source, mentions_of};
use fp_base::Text;
use fp_keyfile::{KeyError, KeyFile, cut_at_equals};
use std::alloc::{AllocError, Global};

/// Returns what a word mentions as an option (flatpak-override(1)): one permission, or nothing if
/// it is no option.
///
/// After `--share=`, `--unshare=`, `--socket=`, `--nosocket=`, `--device=`, `--nodevice=`,
/// `--allow=`, `--disallow=`, `--filesystem=`, `--nofilesystem=` and `--persist=` comes the name of
/// a permission, after `--env=` a variable, `=` and its text, and after `--talk-name=`,
/// `--own-name=`, `--no-talk-name=`, `--system-talk-name=`, `--system-own-name=` and
/// `--system-no-talk-name=` a pattern of bus names.
#[tactic(auto, unfolding(crate::specs::Options::option_layer))]
pub fn option_layer(alloc: Global, word: &str) -> Result<Layer, AllocError>
    ensures { IfOk result (λ layer. layer ≡ spec.option_layer word.now) }
{
    match option_lines(alloc, word)? {
        Some(lines) => mentions_in(alloc, &lines),
        None => Ok(Layer::new(alloc)),
    }
}

/// Returns the mentions of an override with these lines; none if they are no key file.
fn mentions_in(alloc: Global, lines: &str) -> Result<Layer, AllocError>
    ensures { IfOk result (λ layer. layer ≡ spec.text_mentions lines.now) }
{
    match KeyFile::parse(alloc, lines.as_bytes()) {
        Ok(file) => mentions_of(alloc, &file, Source::Override),
        Err(KeyError::Fault(_)) => Ok(Layer::new(alloc)),
        Err(KeyError::NoMemory) => Err(AllocError),
    }
}

/// Returns whether a word is an option that changes permissions. `--filesystem=:ro` isn't, since it
/// has no name before the ending.
pub fn is_option(alloc: Global, word: &str) -> Result<bool, AllocError>
    ensures { IfOk result (λ b. b ≡ spec.is_option word.now) }
{
    Ok(!option_layer(alloc, word)?.is_empty())
}

/// Returns what words mention as options, one after another. A word that is no option mentions
/// nothing.
pub fn layer_of(alloc: Global, words: &[Text]) -> Result<Layer, AllocError>
    ensures { IfOk result (λ layer. layer ≡ spec.layer_of words.now) }
{
    let mut layer = Layer::new(alloc);
    for word in words {
        push_option(alloc, &mut layer, word.as_str())?;
    }
    Ok(layer)
}

/// Appends what a word mentions to a layer.
fn push_option(alloc: Global, layer: &mut Layer, word: &str) -> Result<(), AllocError>
    ensures { OnOk result (layer.new ≡ layer.old ++ spec.option_layer word.now) }
{
    for mention in option_layer(alloc, word)?.into_vec() {
        layer.push(mention)?;
    }
    Ok(())
}

/// Returns COMMAND of the word `--command=COMMAND`, or `None` for another word.
fn command_option(word: &str) -> Option<&str>
    ensures { option_copied result ≡ spec.command_option word.now }
{
    match cut_at_equals(word) {
        Some((option, name)) => command_in(option, name),
        None => None,
    }
}

/// Returns the command, if the option is `--command` and the command isn't empty, has no `;`, `=`
/// or control character, and doesn't begin with `!`, a space or a tab.
fn command_in<'a>(option: &str, name: &'a str) -> Option<&'a str>
    ensures { option_copied result ≡ spec.command_in (option.now, name.now) }
{
    if option == "--command" && is_given(name) {
        Some(name)
    } else {
        None
    }
}

/// Returns whether a word is an option of a launch: one that changes permissions, or
/// `--command=COMMAND`.
pub fn is_launch_option(alloc: Global, word: &str) -> Result<bool, AllocError>
    ensures { IfOk result (λ b. b ≡ spec.is_launch_option word.now) }
{
    Ok(is_option(alloc, word)? || command_option(word).is_some())
}

/// Returns COMMAND of the last word that is `--command=COMMAND`, or `None` if there is none.
pub fn last_command(alloc: Global, words: &[Text]) -> Result<Option<Text>, AllocError>
    ensures { IfOk result (λ command. command ≡ spec.last_command words.now) }
{
    match last_named(words) {
        Some(name) => Ok(Some(Text::from_str(alloc, name)?)),
        None => Ok(None),
    }
}

/// Returns COMMAND of the last word that is `--command=COMMAND`.
fn last_named(words: &[Text]) -> Option<&str>
    ensures { option_copied result ≡ spec.last_command words.now }
{
    let mut last = None;
    for word in words {
        if let Some(name) = command_option(word.as_str()) {
            last = Some(name);
        }
    }
    last
}
