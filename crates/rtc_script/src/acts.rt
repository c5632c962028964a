//! The act of a line: its verb, and the words behind it.
ghost use Rattle.std.specs.Prelude.{◌≡◌, ◌≢◌, [], IfOk, IfSome, IfNone, map, codes};
ghost use Rattle.rtc_script.specs.Lines.{IsAct, IsNoVerbOfForeign, IsNoVerbOfNegotiation, IsSingle};
ghost use Rattle.rtc_run_history.specs.Sides.{side_of};
ghost use Rattle.rtc_run_history.specs.declared.step.Step.{Step};

use crate::foreign::{read_foreign_answer, read_foreign_offer, read_raw};
use crate::messages::read_write;
use crate::ops::read_negotiation;
use crate::{is_word, read_long, read_one, read_two, read_two_long};
use rtc_run_history::{Side, Step};
use rtc_wire::{ChannelId, Moment};
use std::alloc::{AllocError, Global};

// The step of a verb that takes no words: it polls or closes.
fn read_single(at: Side, verb: &[u8]) -> Option<Step>
    ensures some { IfSome result (λ step. (side_of step ≡ at) × IsAct verb.now [] step) }
    ensures none { IfNone result ((step : Step) → IsSingle step → IsAct verb.now [] step → ⊥) }
{
    if is_word(verb, "poll") {
        return Some(Step::Poll { at });
    }
    if is_word(verb, "drain") {
        return Some(Step::Drain { at });
    }
    if is_word(verb, "close") {
        return Some(Step::Close { at });
    }
    None
}

// The step of a verb that is none of negotiation, brings nothing foreign and writes no message, and the words behind it.
fn read_polling(at: Side, verb: &[u8], rest: &[&[u8]]) -> Option<Step>
    requires negotiates { IsNoVerbOfNegotiation verb.now }
    requires foreign { IsNoVerbOfForeign verb.now }
    requires writes { verb.now ≢ codes "write" }
    ensures some { IfSome result (λ step. (side_of step ≡ at) × IsAct verb.now (map (λ word. word.now) rest.now) step) }
    ensures none { IfNone result ((step : Step) → IsAct verb.now (map (λ word. word.now) rest.now) step → ⊥) }
{
    if is_word(verb, "time") {
        let nanos = read_long(rest)?;
        let now = Moment::from_nanos(nanos);
        return Some(Step::Time { at, now });
    }
    if is_word(verb, "datagram") {
        let (packet, nanos) = read_two_long(rest)?;
        let now = Moment::from_nanos(nanos);
        return Some(Step::Datagram { at, packet, now });
    }
    if is_word(verb, "closechannel") {
        let number = read_long(rest)?;
        let channel = ChannelId::new(number);
        return Some(Step::CloseChannel { at, channel });
    }
    if rest.is_empty() {
        read_single(at, verb)
    } else {
        None
    }
}

// The step of a verb that is none of negotiation and brings nothing foreign, and the words behind it.
fn read_other(
    alloc: Global,
    at: Side,
    verb: &[u8],
    rest: &[&[u8]],
) -> Result<Option<Step>, AllocError>
    requires negotiates { IsNoVerbOfNegotiation verb.now }
    requires foreign { IsNoVerbOfForeign verb.now }
    ensures some { IfOk result (λ read. IfSome read (λ step. (side_of step ≡ at) × IsAct verb.now (map (λ word. word.now) rest.now) step)) }
    ensures none { IfOk result (λ read. IfNone read ((step : Step) → IsAct verb.now (map (λ word. word.now) rest.now) step → ⊥)) }
{
    if is_word(verb, "write") {
        return read_write(alloc, at, rest);
    }
    Ok(read_polling(at, verb, rest))
}

// The step of a verb that is none of negotiation, and the words behind it.
fn read_foreign(
    alloc: Global,
    at: Side,
    verb: &[u8],
    rest: &[&[u8]],
) -> Result<Option<Step>, AllocError>
    requires negotiates { IsNoVerbOfNegotiation verb.now }
    ensures some { IfOk result (λ read. IfSome read (λ step. (side_of step ≡ at) × IsAct verb.now (map (λ word. word.now) rest.now) step)) }
    ensures none { IfOk result (λ read. IfNone read ((step : Step) → IsAct verb.now (map (λ word. word.now) rest.now) step → ⊥)) }
{
    if is_word(verb, "foreignoffer") {
        return read_foreign_offer(alloc, at, rest);
    }
    if is_word(verb, "foreignanswer") {
        return read_foreign_answer(alloc, at, rest);
    }
    if is_word(verb, "raw") {
        return read_raw(alloc, at, rest);
    }
    read_other(alloc, at, verb, rest)
}

/// The step of a verb and the words behind it, at a side.
pub fn read_act(
    alloc: Global,
    at: Side,
    verb: &[u8],
    rest: &[&[u8]],
) -> Result<Option<Step>, AllocError>
    ensures some { IfOk result (λ read. IfSome read (λ step. (side_of step ≡ at) × IsAct verb.now (map (λ word. word.now) rest.now) step)) }
    ensures none { IfOk result (λ read. IfNone read ((step : Step) → IsAct verb.now (map (λ word. word.now) rest.now) step → ⊥)) }
{
    if is_word(verb, "offer") {
        return read_negotiation(alloc, at, rest, true);
    }
    if is_word(verb, "stage") {
        return read_negotiation(alloc, at, rest, false);
    }
    if is_word(verb, "accept") {
        return match read_one(rest) {
            Some(offer) => Ok(Some(Step::AcceptOffer { at, offer })),
            None => Ok(None),
        };
    }
    if is_word(verb, "answer") {
        return match read_two(rest) {
            Some((token, answer)) => Ok(Some(Step::AcceptAnswer { at, token, answer })),
            None => Ok(None),
        };
    }
    if is_word(verb, "rollback") {
        return match read_one(rest) {
            Some(token) => Ok(Some(Step::Rollback { at, token })),
            None => Ok(None),
        };
    }
    read_foreign(alloc, at, verb, rest)
}
