//! Parsing a file `deploy` from its GVariant value.
ghost use Rattle.std.specs.Prelude.{◌≡◌, ◌≢◌, None, option_copied, IfOk, IsErrOf};
ghost use Rattle.gv_value.specs.Reading.{value_of};
ghost use Rattle.gv_value.specs.Tree.{tuple, just};
ghost use Rattle.gv_value.specs.Views.{shape_of, plain, plains};
ghost use Rattle.ost_model.specs.Fields.{text_in};
ghost use Rattle.dep_states.specs.Deploy.{deploy_shape, deploy_in, origin_in, digest_in, time_in, previous_in, goes_back_to, if_moves, Finds, Says};

use crate::deploy::{DeployData, DeployError};
use fp_name::{Digest, NameError, RemoteName};
use fp_small::Previous;
use gv_decode::{DecodeError, decode};
use gv_value::{GvType, GvValue, TypeError};
use std::alloc::{AllocError, Global};

/// Makes the GVariant type of a `deploy`, `(sstm(st))`: origin, commit, timestamp, and the previous
/// commit with its timestamp, if any.
pub(crate) fn deploy_type(alloc: Global) -> Result<GvType, AllocError>
    ensures { IfOk result (λ of. shape_of of ≡ deploy_shape) }
{
    match GvType::parse(alloc, b"(sstm(st))") {
        Ok(of) => Ok(of),
        Err(TypeError::NoMemory) => Err(AllocError),
        Err(TypeError::Bad) => unreachable!(),
    }
}

/// Decodes bytes as a value of this type. Errs with `Bad` if they aren't its normal form.
pub(crate) fn value_in(alloc: Global, of: &GvType, bytes: &[u8]) -> Result<GvValue, DeployError>
    ensures { Finds plain result (value_of (shape_of of.now) bytes.now) }
{
    match decode(alloc, of, bytes) {
        Ok(value) => Ok(value),
        Err(DecodeError::TooLong) => Err(DeployError::Bad),
        Err(DecodeError::NotNormal) => Err(DeployError::Bad),
        Err(DecodeError::NoMemory) => Err(DeployError::NoMemory),
    }
}

/// Reads a value as the data of a `deploy`. Errs with `Bad` if it isn't one.
pub(crate) fn data_in(alloc: Global, value: &GvValue) -> Result<DeployData, DeployError>
    ensures { Says result (deploy_in (plain value.now)) }
{
    match value {
        GvValue::Tuple(members) => data_of(alloc, members),
        _ => Err(DeployError::Bad),
    }
}

/// Reads the members of a tuple as the data of a `deploy`. Errs with `Bad` if they aren't its
/// members.
fn data_of(alloc: Global, members: &[GvValue]) -> Result<DeployData, DeployError>
    ensures { Says result (deploy_in (tuple (plains members.now))) }
{
    match members {
        [origin, commit, time, previous] => {
            let data = DeployData {
                origin: origin_in(alloc, origin)?,
                commit: digest_in(commit).ok_or(DeployError::Bad)?,
                timestamp: time_in(time).ok_or(DeployError::Bad)?,
                previous: previous_in(previous).ok_or(DeployError::Bad)?,
            };
            if_moves(data).ok_or(DeployError::Bad)
        }
        _ => Err(DeployError::Bad),
    }
}

/// Returns the data, or `None` if the previous commit is the commit itself.
fn if_moves(read: DeployData) -> Option<DeployData>
    ensures { result ≡ if_moves read }
{
    if goes_back_to(&read.commit, &read.previous) {
        return None;
    }
    Some(read)
}

/// Returns whether the previous commit is this commit.
pub(crate) fn goes_back_to(commit: &Digest, previous: &Option<Previous>) -> bool
    ensures { result ≡ goes_back_to commit.now previous.now }
{
    match previous {
        Some(previous) => previous.commit == *commit,
        None => false,
    }
}

/// Returns the text that a value is, or `None` for any other value.
fn text_in(value: &GvValue) -> Option<&str>
    ensures { option_copied result ≡ text_in (plain value.now) }
{
    match value {
        GvValue::Str(text) => Some(text.as_str()),
        _ => None,
    }
}

/// Reads a value as a remote's name. Errs with `Bad` if it isn't one.
fn origin_in(alloc: Global, value: &GvValue) -> Result<RemoteName, DeployError>
    ensures said { Says result (origin_in (plain value.now)) }
    // A text that isn't a name allocates nothing.
    ensures error { IsErrOf result DeployError.NoMemory → origin_in (plain value.now) ≢ None }
{
    let Some(text) = text_in(value) else {
        return Err(DeployError::Bad);
    };
    match RemoteName::parse(alloc, text.as_bytes()) {
        Ok(name) => Ok(name),
        Err(NameError::Bad) => Err(DeployError::Bad),
        Err(NameError::NoMemory) => Err(DeployError::NoMemory),
    }
}

/// Returns the digest whose 64 hexadecimal digits a value is, or `None` for any other value.
fn digest_in(value: &GvValue) -> Option<Digest>
    ensures { result ≡ digest_in (plain value.now) }
{
    let text = text_in(value)?;
    match Digest::parse(text.as_bytes()) {
        Ok(digest) => Some(digest),
        Err(_) => None,
    }
}

/// Returns the timestamp that a value of type `t` is, in seconds since 1970, or `None` for any
/// other value.
fn time_in(value: &GvValue) -> Option<u64>
    ensures { result ≡ time_in (plain value.now) }
{
    match value {
        GvValue::Uint64(time) => Some(*time),
        _ => None,
    }
}

/// Reads a value as the previous commit, which may be none. Returns `None` if it isn't one.
fn previous_in(value: &GvValue) -> Option<Option<Previous>>
    ensures { result ≡ previous_in (plain value.now) }
{
    match value {
        GvValue::Maybe(None) => Some(None),
        GvValue::Maybe(Some(inner)) => previous_inside(inner),
        _ => None,
    }
}

/// Reads the content of a maybe as the previous commit. Returns `None` if it isn't one.
fn previous_inside(value: &GvValue) -> Option<Option<Previous>>
    ensures { result ≡ previous_in (just (plain value.now)) }
{
    match value {
        GvValue::Tuple(members) => previous_of(members),
        _ => None,
    }
}

/// Reads the members of a tuple as the previous commit. Returns `None` if they aren't its members.
fn previous_of(members: &[GvValue]) -> Option<Option<Previous>>
    ensures { result ≡ previous_in (just (tuple (plains members.now))) }
{
    match members {
        [commit, time] => Some(Some(Previous {
            commit: digest_in(commit)?,
            timestamp: time_in(time)?,
        })),
        _ => None,
    }
}
