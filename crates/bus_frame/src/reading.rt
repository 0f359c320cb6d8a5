//! Reading of a message (D-Bus specification, "Message Protocol").

ghost use Rattle.std.specs.Prelude.{◌≡◌, ℕ, ◌≤◌, List, ◌++◌, IfOk, take, length, option_map};
ghost use Rattle.bus_frame.specs.declared.header.Header.{Header};
ghost use Rattle.fp_base.specs.declared.frame_rule.FrameRule.{FrameRule};
ghost use Rattle.bus_frame.specs.Frame.{Frame, Breaks};
ghost use Rattle.bus_frame.specs.Results.{Reads};
ghost use Rattle.bus_frame.specs.Fields.{known_of};
ghost use Rattle.bus_frame.specs.Reading.{message_len, lacks_field, end_fault, known_in, header_of, frame_of, need, bad, whole};
ghost use Rattle.bus_frame.specs.Answers.{AnswersFrame, IfFrame, IfNeed, IfBad, BeginsBroken, Lacks};

use crate::cursor::{Cursor, all_zero};
use crate::error::FrameError;
use crate::fixed::Fixed;
use crate::header::{Header, ReadFrame};
use crate::known::{RawKnown, known_fields};
use crate::message::MessageType;
use fp_base::{FrameRule, Text};
use std::alloc::{AllocError, Global};

/// Returns whether a header field that messages of this type require is missing.
fn lacks(kind: MessageType, known: &RawKnown<'_>) -> bool
    ensures { result ≡ lacks_field kind (known_of known.now) }
{
    match kind {
        MessageType::MethodCall => known.path.is_none() || known.member.is_none(),
        MessageType::MethodReturn => known.reply_serial.is_none(),
        MessageType::Error => known.error_name.is_none() || known.reply_serial.is_none(),
        MessageType::Signal => {
            known.path.is_none() || known.interface.is_none() || known.member.is_none()
        }
        MessageType::Unknown(_) => false,
    }
}

/// Returns the first broken rule of those that are checked after the header fields, or `None`.
/// `zeros` is the padding between the header fields and the body.
#[tactic(auto, unfolding(crate::specs::Reading::end_fault))]
fn rule_after_fields(fixed: &Fixed, known: &RawKnown<'_>, zeros: &[u8]) -> Option<FrameRule>
    ensures { result ≡ end_fault fixed.now (known_of known.now) zeros.now }
{
    if !all_zero(zeros) {
        return Some(FrameRule::Padding);
    }
    if lacks(fixed.message_type(), known) {
        return Some(FrameRule::Required);
    }
    if fixed.body_len > 0 && known.signature.unwrap_or("").is_empty() {
        return Some(FrameRule::Body);
    }
    None
}

/// Returns the known header fields of a whole message, or the first rule that it breaks after the
/// fixed part.
#[tactic(auto, unfolding(crate::specs::Reading::known_in))]
fn known_of_message<'a>(fixed: &Fixed, bytes: &'a [u8]) -> Result<RawKnown<'a>, FrameRule>
    requires { message_len fixed.now ≤ length bytes.now }
    ensures { Reads known_of result (known_in fixed.now bytes.now) }
{
    let array_end = fixed.end_of_array() as usize;
    let body_start = fixed.start_of_body() as usize;
    let array = Cursor {
        at: 16,
        rest: &bytes[16..array_end],
    };
    let known = known_fields(fixed.is_little_endian(), array)?;
    match rule_after_fields(fixed, &known, &bytes[array_end..body_start]) {
        Some(rule) => Err(rule),
        None => Ok(known),
    }
}

/// Copies a string, if there is one. Errs only if memory runs out.
pub fn copy_text(alloc: Global, text: Option<&str>) -> Result<Option<Text>, AllocError>
    ensures { IfOk result (λ copy. copy ≡ option_map (λ t. t.now) text.entry) }
{
    match text {
        Some(text) => Ok(Some(Text::from_str(alloc, text)?)),
        None => Ok(None),
    }
}

/// The header fields of a message that name its member.
#[derive(Drop)]
pub struct Target {
    /// The path of the object that is called or that emits the signal.
    pub path: Option<Text>,
    /// The interface of the method or the signal.
    pub interface: Option<Text>,
    /// The name of the method or the signal.
    pub member: Option<Text>,
}

fn target_of(alloc: Global, known: &RawKnown<'_>) -> Result<Target, AllocError>
    ensures path { IfOk result (λ t. t.path ≡ (known_of known.now).path) }
    ensures interface { IfOk result (λ t. t.interface ≡ (known_of known.now).interface) }
    ensures member { IfOk result (λ t. t.member ≡ (known_of known.now).member) }
{
    Ok(Target {
        path: copy_text(alloc, known.path)?,
        interface: copy_text(alloc, known.interface)?,
        member: copy_text(alloc, known.member)?,
    })
}

/// The bus names of a message's sender and receiver.
#[derive(Drop)]
pub struct Parties {
    /// The bus name of the receiver.
    pub destination: Option<Text>,
    /// The bus name of the sender.
    pub sender: Option<Text>,
}

fn parties_of(alloc: Global, known: &RawKnown<'_>) -> Result<Parties, AllocError>
    ensures destination { IfOk result (λ p. p.destination ≡ (known_of known.now).destination) }
    ensures sender { IfOk result (λ p. p.sender ≡ (known_of known.now).sender) }
{
    Ok(Parties {
        destination: copy_text(alloc, known.destination)?,
        sender: copy_text(alloc, known.sender)?,
    })
}

/// Returns the header of a message, with copies of its strings.
fn header(alloc: Global, fixed: &Fixed, known: &RawKnown<'_>) -> Result<Header, AllocError>
    ensures { IfOk result (λ h. h ≡ header_of fixed.now (known_of known.now)) }
{
    let error_name = copy_text(alloc, known.error_name)?;
    let signature = copy_text(alloc, known.signature)?;
    let target = target_of(alloc, known)?;
    let parties = parties_of(alloc, known)?;
    Ok(Header {
        little: fixed.is_little_endian(),
        kind: fixed.message_type(),
        flags: fixed.flags,
        serial: fixed.serial,
        path: target.path,
        interface: target.interface,
        member: target.member,
        error_name,
        reply_serial: known.reply_serial,
        destination: parties.destination,
        sender: parties.sender,
        signature,
        body_at: fixed.start_of_body(),
        body_len: u64::from(fixed.body_len),
    })
}

#[tactic(auto, unfolding(crate::specs::Reading::frame_of))]
fn frame_at_front(alloc: Global, bytes: &[u8]) -> Result<ReadFrame, FrameError>
    ensures { AnswersFrame result (frame_of bytes.now) }
{
    let count = bytes.len() as u64;
    if count < 16 {
        return Ok(ReadFrame::Need(16 - count));
    }
    let fixed = Fixed::read(bytes);
    if let Some(rule) = fixed.broken_rule() {
        return Err(FrameError::Bad(rule));
    }
    let total = fixed.len();
    if count < total {
        return Ok(ReadFrame::Need(total - count));
    }
    let known = known_of_message(&fixed, bytes)?;
    Ok(ReadFrame::Frame(header(alloc, &fixed, &known)?, total))
}

/// Reads the message at the front of some bytes.
///
/// Returns `Need` for fewer than 16 bytes, with the number that is missing to 16. Then it checks
/// the rules of the fixed part. Then it returns `Need` if the message isn't whole, with the number
/// of bytes that are missing. Then it checks the other rules. Memory is allocated only for a
/// message that breaks no rule.
pub fn read_frame(alloc: Global, bytes: &[u8]) -> Result<ReadFrame, FrameError>
    ensures exact { AnswersFrame result (frame_of bytes.now) }

    // A message that is returned is at the front, with its header. A message at the front is
    // returned, whatever follows it.
    ensures message { IfFrame result (λ header len. (len ≤ length bytes.now) × Frame
        (take len bytes.now) header) }
    ensures every_message { (message rest : List ℕ) (header : Header) → bytes.now ≡ message ++ rest
        → Frame message header
        → AnswersFrame result (whole header (length message)) }

    // The rule is the first one that is broken, and each broken rule is reported.
    ensures broken { IfBad result (BeginsBroken bytes.now) }
    ensures every_broken { (message rest : List ℕ) (rule : FrameRule) → bytes.now ≡ message ++ rest
        → Breaks message rule
        → AnswersFrame result (bad rule) }

    // This many bytes are missing, exactly if some are.
    ensures lacking { IfNeed result (Lacks bytes.now) }
    ensures every_lacking { (n : ℕ) → Lacks bytes.now n → AnswersFrame result (need n) }
{
    frame_at_front(alloc, bytes)
}
