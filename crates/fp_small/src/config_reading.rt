//! Parsing of the file `config`.
ghost use Rattle.std.specs.Prelude.{◌≡◌, ◌∷◌, [], codes, length, true, Some, None, IfOk, IsErrOf};
ghost use Rattle.std.specs.List.{list_all, list_any};
ghost use Rattle.std.specs.Option.{option_map, option_copied, is_some};
ghost use Rattle.fp_name.specs.Grammar as grammar;
ghost use Rattle.fp_keyfile.specs.KeyFile.{group_at, keys_of};
ghost use Rattle.fp_small.specs.Order.{sorted_by};
ghost use Rattle.fp_small.specs.Config as spec;
ghost use Rattle.fp_small.specs.Config.{IsSettings, config_of, settings_of, remotes_in, pins_in};

use crate::config::{ConfigError, Settings};
use crate::limits::{MOST_PINS, MOST_REMOTES};
use crate::ordering::insert_by_name;
use crate::state::RemoteRow;
use fp_base::Items;
use fp_keyfile::{Group, KeyFile, Pair};
use fp_name::{PinPattern, RemoteName, RemoteUrl, is_pin, is_remote_name, is_url};
use std::alloc::Global;
use std::str;

/// Returns whether the pairs are exactly this one.
fn is_pair(pairs: &[Pair], key: &str, value: &str) -> bool
    ensures { result ≡ spec.is_pair pairs.now key.now value.now }
{
    match pairs {
        [pair] => pair.key.as_str() == key && pair.value.as_str() == value,
        _ => false,
    }
}

/// Returns whether the group is `installation` with exactly the pair `layout=2`.
fn is_layout(group: &Group) -> bool
    ensures { result ≡ spec.is_layout group.now }
{
    group.name.as_str() == "installation" && is_pair(group.pairs.as_slice(), "layout", "2")
}

/// Returns whether the pair is a pin: a pattern with the value `true`.
fn is_pin_pair(pair: &Pair) -> bool
    ensures { result ≡ spec.is_pin_pair pair.now }
{
    is_pin(pair.key.as_str()) && pair.value.as_str() == "true"
}

/// Returns whether each pair is a pin.
fn are_pin_pairs(pairs: &[Pair]) -> bool
    ensures { result ≡ list_all spec.is_pin_pair pairs.now }
{
    pairs.iter().all(|pair| is_pin_pair(pair))
}

/// Returns whether the group is `pins` and has only pins.
fn is_pins(group: &Group) -> bool
    ensures { result ≡ spec.is_pins group.now }
{
    group.name.as_str() == "pins" && are_pin_pairs(group.pairs.as_slice())
}

/// Returns the NAME of a header `remote "NAME"`, or `None` for any other header.
fn quoted_name(header: &[u8]) -> Option<&[u8]>
    ensures { option_copied result ≡ spec.quoted_name header.now }
{
    header.strip_prefix(b"remote \"")?.strip_suffix(b"\"")
}

/// The name and the URL of a remote, borrowed from its group.
#[derive(Clone, Copy)]
struct Said<'a> {
    name: &'a str,
    url: &'a str,
}

/// Returns the remote with this name and these pairs, or `None` if they aren't exactly a valid
/// `url`, or the name isn't valid.
#[tactic(auto, using(crate::proofs::ConfigReads::no_row))]
fn said_of<'a>(name: &'a [u8], pairs: &'a [Pair]) -> Option<Said<'a>>
    ensures { option_map (λ s. record { name = s.name.now; url = s.url.now }) result ≡ spec.row_of
        name.now pairs.now }
{
    let [pair] = pairs else {
        return None;
    };
    let Ok(name) = str::from_utf8(name) else {
        return None;
    };
    let url = pair.value.as_str();
    if pair.key.as_str() == "url" && is_remote_name(name) && is_url(url) {
        Some(Said { name, url })
    } else {
        None
    }
}

/// Returns the remote that a group defines, or `None` if it defines none.
#[tactic(auto, unfolding(crate::specs::Config::remote_of))]
fn said_by(group: &Group) -> Option<Said<'_>>
    ensures { option_map (λ s. record { name = s.name.now; url = s.url.now }) result ≡
        spec.remote_of group.now }
{
    let name = quoted_name(group.name.as_str().as_bytes())?;
    said_of(name, group.pairs.as_slice())
}

/// Returns whether the group defines a remote.
pub(crate) fn is_remote(group: &Group) -> bool
    ensures { result ≡ is_some (spec.remote_of group.now) }
{
    said_by(group).is_some()
}

/// Returns whether the group may be in a `config`: it is the layout, the pins or a remote.
fn is_part(group: &Group) -> bool
    ensures { result ≡ spec.is_part group.now }
{
    is_layout(group) || is_pins(group) || is_remote(group)
}

/// Returns whether one of the groups is the layout.
fn has_layout(groups: &[Group]) -> bool
    ensures { result ≡ list_any spec.is_layout groups.now }
{
    groups.iter().any(|group| is_layout(group))
}

/// Returns whether each group may be in a `config`.
fn are_parts(groups: &[Group]) -> bool
    ensures { result ≡ list_all spec.is_part groups.now }
{
    groups.iter().all(|group| is_part(group))
}

/// Returns the number of groups that define a remote.
pub(crate) fn count_remotes(groups: &[Group]) -> usize
    ensures { result ≡ length (remotes_in groups.now) }
{
    groups.iter().filter(|group| is_remote(group)).count()
}

/// Returns the group `pins`, if there is one.
fn pins_group(groups: &[Group]) -> Option<&Group>
    ensures { option_copied result ≡ group_at groups.now (codes "pins") }
{
    groups.iter().find(|group| group.name.as_str() == "pins")
}

/// Returns the number of pairs in the group `pins`.
fn count_pins(groups: &[Group]) -> usize
    ensures { result ≡ length (pins_in groups.now) }
{
    match pins_group(groups) {
        Some(group) => group.pairs.len(),
        None => 0,
    }
}

/// Returns whether the groups are a valid `config`.
#[tactic(auto, unfolding(crate::specs::Config::is_config))]
fn is_config(groups: &[Group]) -> bool
    ensures { result ≡ spec.is_config groups.now }
{
    has_layout(groups)
        && are_parts(groups)
        && count_remotes(groups) <= MOST_REMOTES
        && count_pins(groups) <= MOST_PINS
}

/// Creates a remote's row. The name and the URL must be known to be valid.
fn row_of(alloc: Global, name: &str, url: &str) -> Result<RemoteRow, ConfigError>
    requires name { grammar.is_remote_name name.now ≡ true }
    requires url { grammar.is_url url.now ≡ true }
    ensures ok { IfOk result (λ row. row ≡ record { name = name.now; url = url.now }) }
    ensures needs_no_memory { IsErrOf result ConfigError.Bad → ⊥ }
{
    Ok(RemoteRow {
        name: RemoteName::parse(alloc, name.as_bytes())?,
        url: RemoteUrl::parse(alloc, url.as_bytes())?,
    })
}

/// Returns the remotes that the groups define, ascending by name.
pub(crate) fn remote_rows(alloc: Global, groups: &[Group]) -> Result<Vec<RemoteRow>, ConfigError>
    ensures ok { IfOk result (λ rows. rows.items ≡ sorted_by spec.name_of (remotes_in groups.now)) }
    ensures needs_no_memory { IsErrOf result ConfigError.Bad → ⊥ }
{
    let mut rows = Vec::new(alloc);
    for group in groups {
        if let Some(said) = said_by(group) {
            let row = row_of(alloc, said.name, said.url)?;
            insert_by_name(&mut rows, row)?;
        }
    }
    Ok(rows)
}

/// Returns the pins of these pairs, ascending.
fn pin_keys(alloc: Global, pairs: &[Pair]) -> Result<Vec<PinPattern>, ConfigError>
    requires { list_all spec.is_pin_pair pairs.now ≡ true }
    ensures ok { IfOk result (λ pins. pins.items ≡ sorted_by (λ pin. pin) (keys_of pairs.now)) }
    ensures needs_no_memory { IsErrOf result ConfigError.Bad → ⊥ }
{
    let mut pins = Vec::new(alloc);
    for pair in pairs {
        let pin = PinPattern::parse(alloc, pair.key.as_str().as_bytes())?;
        insert_by_name(&mut pins, pin)?;
    }
    Ok(pins)
}

/// Returns the pins of these groups, ascending.
fn pins_of(alloc: Global, groups: &[Group]) -> Result<Vec<PinPattern>, ConfigError>
    requires { list_all spec.is_part groups.now ≡ true }
    ensures ok { IfOk result (λ pins. pins.items ≡ sorted_by (λ pin. pin) (pins_in groups.now)) }
    ensures needs_no_memory { IsErrOf result ConfigError.Bad → ⊥ }
{
    match pins_group(groups) {
        Some(group) => pin_keys(alloc, group.pairs.as_slice()),
        None => Ok(Vec::new(alloc)),
    }
}

/// Returns the settings of these groups. Errs with `Bad` if they aren't a valid `config`.
fn settings_of(alloc: Global, groups: &[Group]) -> Result<Settings, ConfigError>
    ensures ok { IfOk result (λ s. settings_of groups.now ≡ Some s) }
    ensures bad { IsErrOf result ConfigError.Bad → settings_of groups.now ≡ None }
{
    if !is_config(groups) {
        return Err(ConfigError::Bad);
    }
    Ok(Settings {
        remotes: Items::from_vec(remote_rows(alloc, groups)?),
        pins: Items::from_vec(pins_of(alloc, groups)?),
    })
}

/// Parses a `config`, a key file with these groups in any order: `installation` with exactly the
/// pair `layout=2`; at most 256 groups `remote "NAME"` with a valid name, each with exactly the key
/// `url` and a valid URL; and, optionally, `pins` with at most 1,024 patterns as keys, each with
/// the value `true`. Errs with `Bad` for any other bytes.
pub fn read_config(alloc: Global, bytes: &[u8]) -> Result<Settings, ConfigError>
    ensures ok { IfOk result (λ s. config_of bytes.now ≡ Some s) }
    ensures good { IfOk result (λ s. IsSettings s) }
    ensures bad { IsErrOf result ConfigError.Bad → config_of bytes.now ≡ None }
{
    let file = KeyFile::parse(alloc, bytes)?;
    settings_of(alloc, file.groups().as_slice())
}
