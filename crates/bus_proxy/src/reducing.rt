//! Lists of names, reduced to those that the client may see.

ghost use Rattle.std.specs.Prelude.{◌≡◌, ◌≤◌, ℕ, Bool, List, length, IfOk};
ghost use Rattle.bus_frame.specs.Reading.{whole, frame_of};
ghost use Rattle.bus_frame.specs.Writing.{elements_bytes};
ghost use Rattle.bus_policy.specs.declared.level.Level.TheVariants.{See as see};
ghost use Rattle.bus_policy.specs.Levels.{is_at_least};
ghost use Rattle.bus_policy.specs.Events.{Judged};
ghost use Rattle.bus_policy.specs.Watching.{Owners, WatchAt, rules_of, client_of, level_after, event};
ghost use Rattle.bus_proxy.specs.Outs.{seen_names, reduced};

use bus_frame::{Header, names_body, with_names};
use bus_policy::{Level, Watch};
use fp_base::{Blob, Items, Side, Text};
use std::alloc::{AllocError, Global};
use std::hash::BuildHasher;

fn is_seen<S: BuildHasher + Copy>(watch: &Watch<S>, name: &Text) -> bool
    ensures { (owners : Owners) (noted : List Judged) → WatchAt watch.now owners noted
        → result ≡ is_at_least see
        (level_after (rules_of watch.now) (client_of watch.now) owners noted name.now) }
{
    watch.level(name.as_str()).reaches(Level::See)
}

/// Returns the names that the client may see. Marshaled as an array, they are no longer than all
/// the names.
fn seen<S: BuildHasher + Copy>(
    alloc: Global,
    watch: &Watch<S>,
    names: Items<Text>,
) -> Result<Items<Text>, AllocError>
    ensures names { IfOk result
        (λ seen. (owners : Owners) (noted : List Judged) → WatchAt watch.now owners noted
        → seen ≡ seen_names
        (level_after (rules_of watch.now) (client_of watch.now) owners noted) names) }
    ensures shorter { IfOk result (λ seen. (little : Bool) (at : ℕ)
        → length (elements_bytes little at seen) ≤ length (elements_bytes little at names)) }
{
    let mut seen = Vec::new(alloc);
    for name in names.into_vec() {
        if is_seen(watch, &name) {
            seen.push(name)?;
        }
    }
    Ok(Items::from_vec(seen))
}

/// Returns a list of names reduced to those that the client may see, or `None` if the message isn't
/// a list of names. Errs only if memory runs out.
pub fn without_unseen<S: BuildHasher + Copy>(
    alloc: Global,
    watch: &Watch<S>,
    header: &Header,
    message: &[u8],
) -> Result<Option<Blob>, AllocError>
    requires { frame_of message.now ≡ whole header.now (length message.now) }
    ensures { IfOk result
        (λ found. (side : Side) (owners : Owners) (noted : List Judged)
        → WatchAt watch.now owners noted
        → found ≡ reduced (level_after (rules_of watch.now) (client_of watch.now) owners noted)
        (event side header.now message.now)) }
{
    let Some(names) = names_body(alloc, header, message)? else {
        return Ok(None);
    };
    let seen = seen(alloc, watch, names)?;
    Ok(Some(with_names(alloc, header, message, &seen)?))
}
