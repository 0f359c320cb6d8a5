//! Making the GVariant value of a file `deploy`.
ghost use Rattle.std.specs.Prelude.{◌≡◌, ◌<◌, ◌^◌, true, Some, IfOk, OnOk};
ghost use Rattle.fp_name.specs.Grammar.{is_remote_name};
ghost use Rattle.fp_name.specs.Hex.{hex, is_digest};
ghost use Rattle.gv_value.specs.Views.{plain};
ghost use Rattle.dep_states.specs.After.{IsGoodPrevious};
ghost use Rattle.dep_states.specs.Deploy.{time_tree, back_tree, previous_tree, deploy_tree};
ghost use Rattle.ost_model.specs.Fields.{text_value};

use crate::deploy::DeployData;
use fp_base::Text;
use fp_name::Digest;
use fp_small::Previous;
use gv_value::GvValue;
use std::alloc::{AllocError, Global};

/// Makes the GVariant value of the data of a `deploy`, of type `(sstm(st))`.
pub(crate) fn data_as_value(alloc: Global, read: &DeployData) -> Result<GvValue, AllocError>
    ensures value { IfOk result (λ value. plain value ≡ deploy_tree read.now) }
    ensures origin { OnOk result (is_remote_name read.now.origin ≡ true) }
    ensures commit { OnOk result (is_digest read.now.commit ≡ true) }
    ensures previous { OnOk result (IsGoodPrevious read.now.previous) }
    ensures time { OnOk result (read.now.timestamp < 2 ^ 64) }
{
    let origin = text_as_value(alloc, read.origin.as_str())?;
    let commit = digest_as_value(alloc, &read.commit)?;
    let time = time_as_value(read.timestamp);
    let previous = previous_as_value(alloc, &read.previous)?;
    Ok(GvValue::Tuple(vec![in alloc; origin, commit, time, previous]?))
}

/// Makes the value of a text.
fn text_as_value(alloc: Global, text: &str) -> Result<GvValue, AllocError>
    ensures { IfOk result (λ value. plain value ≡ text_value text.now) }
{
    Ok(GvValue::Str(Text::from_str(alloc, text)?))
}

/// Makes the value of a digest: the text of its 64 hexadecimal digits.
fn digest_as_value(alloc: Global, digest: &Digest) -> Result<GvValue, AllocError>
    ensures value { IfOk result (λ value. plain value ≡ text_value (hex digest.now)) }
    ensures good { OnOk result (is_digest digest.now ≡ true) }
{
    Ok(GvValue::Str(digest.write(alloc)?))
}

/// Makes the value of a timestamp.
fn time_as_value(time: u64) -> GvValue
    ensures value { plain result ≡ time_tree time }
    ensures small { time < 2 ^ 64 }
{
    GvValue::Uint64(time)
}

/// Makes the value of a previous commit, which may be none.
fn previous_as_value(alloc: Global, previous: &Option<Previous>) -> Result<GvValue, AllocError>
    ensures value { IfOk result (λ value. plain value ≡ previous_tree previous.now) }
    ensures good { OnOk result (IsGoodPrevious previous.now) }
{
    match previous {
        None => Ok(GvValue::Maybe(None)),
        Some(previous) => Ok(GvValue::Maybe(Some(boxed_previous(alloc, previous)?))),
    }
}

/// Makes the value of a previous commit, in a box.
fn boxed_previous(alloc: Global, previous: &Previous) -> Result<Box<GvValue>, AllocError>
    ensures value { IfOk result (λ value. plain value.value ≡ back_tree previous.now) }
    ensures good { OnOk result (IsGoodPrevious (Some previous.now)) }
{
    let inside = previous_inside(alloc, previous)?;
    Ok(Box::new(alloc, inside)?)
}

/// Makes the tuple of a previous commit and its timestamp.
fn previous_inside(alloc: Global, previous: &Previous) -> Result<GvValue, AllocError>
    ensures value { IfOk result (λ value. plain value ≡ back_tree previous.now) }
    ensures good { OnOk result (IsGoodPrevious (Some previous.now)) }
{
    let commit = digest_as_value(alloc, &previous.commit)?;
    let time = time_as_value(previous.timestamp);
    Ok(GvValue::Tuple(vec![in alloc; commit, time]?))
}
