//! Judging of messages: the verdict on each, and the message that is sent for it.

ghost use Rattle.std.specs.Prelude.{◌≡◌, ◌≤◌, ◌∷◌, ℕ, [], List, Option, length, IfOk, OnOk, option_map};
ghost use Rattle.std.specs.Option.{ForSome};
ghost use Rattle.bus_frame.specs.declared.limits.TheConstants.{MOST_NAME_BYTES};
ghost use Rattle.bus_frame.specs.Reading.{whole, frame_of};
ghost use Rattle.bus_frame.specs.Writing.{error_bytes};
ghost use Rattle.bus_policy.specs.Events.{Event, Judged};
ghost use Rattle.bus_policy.specs.Watching.{Owners, WatchAt, event};
ghost use Rattle.bus_proxy.specs.Arrivals.{other_side};
ghost use Rattle.bus_proxy.specs.Outs.{Setting, setting, out_after};
ghost use Rattle.bus_proxy.specs.Filters.{JudgeAt, given_by, out_now};

use crate::client::{Name, name_of};
use crate::out::Out;
use crate::reducing::without_unseen;
use bus_frame::{Header, error_frame};
use bus_policy::{Policy, Verdict, Watch};
use bytes::Bytes;
use fp_base::{Blob, Items, Side, Text};
use std::alloc::{AllocError, Global};
use std::hash::BuildHasher;

/// The watch over the messages so far, and the client's name, which is the destination of the
/// filter's errors.
#[derive(Drop)]
pub struct Judge<S: BuildHasher> {
    alloc: Global,
    /// The knowledge of the messages so far.
    pub watch: Watch<S>,
    /// The client's name, if it is known.
    pub client: Option<Name>,
}

/// The name of the error that answers a refused call to a name that the client may see.
const DENIED: &str = "org.freedesktop.DBus.Error.AccessDenied";

/// The name of the error that answers a call to a name that the client may not see.
const UNKNOWN: &str = "org.freedesktop.DBus.Error.ServiceUnknown";

/// Returns the side to which a side's messages go.
fn opposite(side: Side) -> Side
    ensures { result ≡ other_side side }
{
    match side {
        Side::Client => Side::Bus,
        Side::Bus => Side::Client,
    }
}

/// Returns a message that is sent to a side instead of another one. Errs only if memory runs out.
fn sent(to: Side, bytes: Blob) -> Result<Out, AllocError>
    ensures { IfOk result (λ out. out ≡ record { to = to; bytes = bytes }) }
{
    let bytes = Bytes::from_vec(bytes.into_vec())?;
    Ok(Out { to, bytes })
}

/// Returns the message that is sent for another one, if any: itself if it passes, else `instead`.
fn given(verdict: Verdict, side: Side, message: Bytes, instead: Option<Out>) -> Option<Out>
    ensures { result ≡ given_by verdict side message instead }
{
    if verdict != Verdict::Pass {
        return instead;
    }
    Some(Out {
        to: opposite(side),
        bytes: message,
    })
}

impl<S: BuildHasher + Copy> Judge<S> {
    /// Creates a judge before any message. Errs only if memory runs out.
    pub fn new(
        alloc: Global,
        policy: Policy,
        client: Option<&str>,
        owners: &Items<(Text, Text)>,
        hash_builder: S,
    ) -> Result<Self, AllocError>
        requires client { ForSome client (λ t. length t.now ≤ MOST_NAME_BYTES) }
        ensures { IfOk result (λ j.
            JudgeAt j (setting policy (option_map (λ t. t.now) client.entry) owners.now) []) }
    {
        Ok(Judge {
            alloc,
            watch: Watch::with_hasher(alloc, policy, client, owners, hash_builder)?,
            client: name_of(alloc, client)?,
        })
    }

    /// Returns the filter's error that answers a call.
    fn refusal(&self, name: &str, call: &Header) -> Result<Out, AllocError>
        requires { length name.now ≤ MOST_NAME_BYTES }
        ensures { IfOk result (λ out. out ≡ record {
          to = Side.Client;
          bytes = error_bytes call.now.little name.now call.now.serial
              (option_map (λ name. name.text) self.now.client);
        }) }
    {
        let client = match &self.client {
            Some(name) => Some(name.text.as_str()),
            None => None,
        };
        let bytes = error_frame(self.alloc, call.little, name, call.serial, client)?;
        sent(Side::Client, bytes)
    }

    /// Returns a list of names reduced to those that the client may see, for the other side; `None`
    /// if the message isn't such a list.
    fn shortened(
        &self,
        side: Side,
        header: &Header,
        message: &[u8],
    ) -> Result<Option<Out>, AllocError>
        requires { frame_of message.now ≡ whole header.now (length message.now) }
        ensures { IfOk result (λ out. (owners : Owners) (noted : List Judged)
            → WatchAt self.now.watch owners noted
            → out ≡ out_now self.now owners noted (event side header.now message.now)
            Verdict.FilterNameList) }
    {
        match without_unseen(self.alloc, &self.watch, header, message)? {
            Some(bytes) => Ok(Some(sent(opposite(side), bytes)?)),
            None => Ok(None),
        }
    }

    /// Returns the message that is sent instead of one that doesn't pass unchanged, if any.
    fn instead(
        &self,
        verdict: Verdict,
        side: Side,
        header: &Header,
        message: &[u8],
    ) -> Result<Option<Out>, AllocError>
        requires { frame_of message.now ≡ whole header.now (length message.now) }
        ensures { IfOk result
            (λ out. (owners : Owners) (noted : List Judged) → WatchAt self.now.watch owners noted
            → given_by verdict side message.now out
            ≡ out_now self.now owners noted (event side header.now message.now) verdict) }
    {
        match verdict {
            Verdict::FilterNameList => self.shortened(side, header, message),
            Verdict::Deny => Ok(Some(self.refusal(DENIED, header)?)),
            Verdict::Hide => Ok(Some(self.refusal(UNKNOWN, header)?)),
            Verdict::Pass | Verdict::Drop => Ok(None),
        }
    }

    /// Returns the message that is sent for another one, if any, by the messages before it, and
    /// notes the message with its verdict. Errs only if memory runs out.
    pub fn take(
        &mut self,
        side: Side,
        header: &Header,
        message: Bytes,
    ) -> Result<Option<Out>, AllocError>
        requires { frame_of message ≡ whole header.now (length message) }
        ensures { (s : Setting) (before : List Event) → JudgeAt self.old s before
            → IfOk result (λ out. (out ≡ out_after s before (event side header.now message))
            × JudgeAt self.new s (event side header.now message ∷ before)) }
    {
        let verdict = self.watch.verdict(side, header, message.as_slice());
        let instead = self.instead(verdict, side, header, message.as_slice())?;
        self.watch.note(side, header, message.as_slice(), verdict)?;
        Ok(given(verdict, side, message, instead))
    }
}
