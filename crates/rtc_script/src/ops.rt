//! Ops of a line.
ghost use Rattle.std.specs.Prelude.{◌≡◌, ◌≢◌, ◌<◌, [], ◌∷◌, Bool, List, IfOk, IfSome, IfNone, map, codes};
ghost use Rattle.rtc_run_history.specs.Sides.{side_of};
ghost use Rattle.rtc_script.specs.Lines.{AreOpParts, IsAct, IsOp, AreOps, ops_verb};
ghost use Rattle.rtc_script.specs.Words.{keep_text};
ghost use Rattle.rtc_run_history.specs.declared.op.Op.{Op};

use crate::{
    cut_parts, is_word, read_config, read_direction, read_kind, read_label_word, read_u32,
};
use rtc_run_history::{Op, Side, Step};
use rtc_wire::Seq;
use std::alloc::{AllocError, Global};

// Whether a restart keeps the local candidates.
fn read_keep(word: &[u8]) -> Option<bool>
    ensures some { IfSome result (λ keep. word.now ≡ keep_text keep) }
    ensures none { IfNone result ((keep : Bool) → word.now ≢ keep_text keep) }
{
    if is_word(word, "keep") {
        Some(true)
    } else if is_word(word, "new") {
        Some(false)
    } else {
        None
    }
}

// An op of two parts that adds no channel: it adds a line, stops one, or restarts ICE.
fn read_line_op(word: &[u8], value: &[u8]) -> Option<Op>
    requires { word.now ≢ codes "channel" }
    ensures some { IfSome result (λ op. AreOpParts (word.now ∷ value.now ∷ []) op) }
    ensures none { IfNone result ((op : Op) → AreOpParts (word.now ∷ value.now ∷ []) op → ⊥) }
{
    if is_word(word, "stop") {
        let place = read_u32(value)?;
        return Some(Op::StopMedia { place });
    }
    if is_word(word, "restart") {
        let keep = read_keep(value)?;
        return Some(Op::IceRestart { keep });
    }
    let kind = read_kind(word)?;
    let dir = read_direction(value)?;
    Some(Op::AddMedia { kind, dir })
}

// An op of two parts.
#[tactic(auto, using(crate::proofs::ChannelOpLemmas::no_labelled))]
fn read_two_parts(alloc: Global, word: &[u8], value: &[u8]) -> Result<Option<Op>, AllocError>
    ensures some { IfOk result (λ read. IfSome read (λ op. AreOpParts (word.now ∷ value.now ∷ []) op)) }
    ensures none { IfOk result (λ read. IfNone read ((op : Op) → AreOpParts (word.now ∷ value.now ∷ []) op → ⊥)) }
{
    if !is_word(word, "channel") {
        return Ok(read_line_op(word, value));
    }
    let Some(config) = read_label_word(alloc, value)? else {
        return Ok(None);
    };
    Ok(Some(Op::AddChannel { config }))
}

// An op of three parts: it sets a direction.
fn read_three_parts(word: &[u8], place: &[u8], value: &[u8]) -> Option<Op>
    ensures some { IfSome result (λ op. AreOpParts (word.now ∷ place.now ∷ value.now ∷ []) op) }
    ensures none { IfNone result ((op : Op) → AreOpParts (word.now ∷ place.now ∷ value.now ∷ []) op → ⊥) }
{
    if !is_word(word, "dir") {
        return None;
    }
    let place = read_u32(place)?;
    let dir = read_direction(value)?;
    Some(Op::SetDirection { place, dir })
}

// An op of six parts: it adds a channel with all that it is opened with.
#[tactic(auto, using(crate::proofs::ChannelOpLemmas::no_other, crate::proofs::ChannelOpLemmas::no_whole))]
fn read_six_parts(
    alloc: Global,
    word: &[u8],
    label: &[u8],
    order: &[u8],
    reliability: &[u8],
    stream: &[u8],
    protocol: &[u8],
) -> Result<Option<Op>, AllocError>
    ensures some { IfOk result (λ read. IfSome read (λ op. AreOpParts
        (word.now ∷ label.now ∷ order.now ∷ reliability.now ∷ stream.now ∷ protocol.now ∷ []) op)) }
    ensures none { IfOk result (λ read. IfNone read ((op : Op) → AreOpParts
        (word.now ∷ label.now ∷ order.now ∷ reliability.now ∷ stream.now ∷ protocol.now ∷ []) op → ⊥)) }
{
    if !is_word(word, "channel") {
        return Ok(None);
    }
    let Some(config) = read_config(alloc, label, order, reliability, stream, protocol)? else {
        return Ok(None);
    };
    Ok(Some(Op::AddChannel { config }))
}

// The op of a word, by how many parts it has.
fn read_op(alloc: Global, word: &[u8]) -> Result<Option<Op>, AllocError>
    ensures some { IfOk result (λ read. IfSome read (λ op. IsOp word.now op)) }
    ensures none { IfOk result (λ read. IfNone read ((op : Op) → IsOp word.now op → ⊥)) }
{
    let parts = cut_parts(alloc, word)?;
    match parts.as_slice() {
        [word, value] => read_two_parts(alloc, word, value),
        [word, place, value] => Ok(read_three_parts(word, place, value)),
        [word, label, order, reliability, stream, protocol] => {
            read_six_parts(alloc, word, label, order, reliability, stream, protocol)
        }
        _ => Ok(None),
    }
}

/// The step whose ops the words name, one each.
pub fn read_negotiation(
    alloc: Global,
    at: Side,
    words: &[&[u8]],
    apply: bool,
) -> Result<Option<Step>, AllocError>
    ensures some { IfOk result (λ read. IfSome read (λ step.
        (side_of step ≡ at) × IsAct (ops_verb apply) (map (λ word. word.now) words.now) step)) }
    ensures none { IfOk result (λ read. IfNone read ((ops : List Op) → AreOps (map (λ word. word.now) words.now) ops → ⊥)) }
{
    let mut ops = Seq::empty(alloc);
    for word in words {
        let Some(op) = read_op(alloc, word)? else {
            return Ok(None);
        };
        ops.push(op)?;
    }
    Ok(Some(Step::Negotiate { at, ops, apply }))
}
