//! The words of what a channel is opened with.
ghost use Rattle.std.specs.Prelude.{◌≡◌, ◌≢◌, ◌<◌, ◌^◌, ◌++◌, ℕ, Bool, List, Option, MatchOption, IfOk, IfSome, IfNone, codes};
ghost use Rattle.std.specs.Fmt.{decimal};
ghost use Rattle.rtc_script.specs.ChannelParts.{order_text, reliability_text, settled_text, IsReliability};
ghost use Rattle.rtc_script.specs.ChannelParts.{IsSettled, IsLabelWord, AreConfigWords};
ghost use Rattle.rtc_wire.specs.declared.channel_config.ChannelConfig.{ChannelConfig};
ghost use Rattle.rtc_wire.specs.declared.reliability.Reliability.{Reliability};

use crate::labels::read_label;
use crate::numbers::read_u16;
use crate::words::is_word;
use rtc_wire::{ChannelConfig, Reliability, Text};
use std::alloc::{AllocError, Global};

// Whether messages arrive in order.
fn read_order(word: &[u8]) -> Option<bool>
    ensures some { IfSome result (λ ordered. word.now ≡ order_text ordered) }
    ensures none { IfNone result ((ordered : Bool) → word.now ≢ order_text ordered) }
{
    if is_word(word, "ordered") {
        Some(true)
    } else if is_word(word, "unordered") {
        Some(false)
    } else {
        None
    }
}

// What is behind a prefix.
fn behind<'a>(word: &'a [u8], prefix: &[u8]) -> Option<&'a [u8]>
    ensures { MatchOption result ((rest : List ℕ) → word.now ≢ prefix.now ++ rest) (λ rest. word.now ≡ prefix.now ++ rest.now) }
{
    word.strip_prefix(prefix)
}

// The number below 2^16 whose decimal is behind a prefix.
fn read_behind(word: &[u8], prefix: &[u8]) -> Option<u16>
    ensures some { IfSome result (λ n. word.now ≡ prefix.now ++ decimal n) }
    ensures none { IfNone result ((n : ℕ) → n < 2 ^ 16 → word.now ≢ prefix.now ++ decimal n) }
{
    let rest = behind(word, prefix)?;
    let n = read_u16(rest)?;
    Some(n)
}

fn read_retransmits(word: &[u8]) -> Option<u16>
    ensures some { IfSome result (λ n. word.now ≡ codes "retransmits=" ++ decimal n) }
    ensures none { IfNone result ((n : ℕ) → n < 2 ^ 16 → word.now ≢ codes "retransmits=" ++ decimal n) }
{
    read_behind(word, b"retransmits=".as_slice())
}

fn read_lifetime(word: &[u8]) -> Option<u16>
    ensures some { IfSome result (λ n. word.now ≡ codes "lifetime=" ++ decimal n) }
    ensures none { IfNone result ((n : ℕ) → n < 2 ^ 16 → word.now ≢ codes "lifetime=" ++ decimal n) }
{
    read_behind(word, b"lifetime=".as_slice())
}

// How long messages are resent.
fn read_reliability(word: &[u8]) -> Option<Reliability>
    ensures some { IfSome result (λ reliability. (word.now ≡ reliability_text reliability) × IsReliability reliability) }
    ensures none { IfNone result ((reliability : Reliability) → IsReliability reliability → word.now ≢ reliability_text reliability) }
{
    if is_word(word, "reliable") {
        return Some(Reliability::Reliable);
    }
    if let Some(retransmits) = read_retransmits(word) {
        return Some(Reliability::MaxRetransmits { retransmits });
    }
    let lifetime = read_lifetime(word)?;
    Some(Reliability::MaxPacketLifetime { lifetime })
}

// The stream, if the channel is negotiated out-of-band.
#[tactic(auto, using(crate::proofs::ChannelPartLemmas::no_settled))]
fn read_settled(word: &[u8]) -> Option<Option<u16>>
    ensures some { IfSome result (λ stream. (word.now ≡ settled_text stream) × IsSettled stream) }
    ensures none { IfNone result ((stream : Option ℕ) → IsSettled stream → word.now ≢ settled_text stream) }
{
    if is_word(word, "inband") {
        return Some(None);
    }
    let stream = read_u16(word)?;
    Some(Some(stream))
}

/// The config with the label that a word writes, and as usual beside it.
pub fn read_label_word(alloc: Global, word: &[u8]) -> Result<Option<ChannelConfig>, AllocError>
    ensures some { IfOk result (λ read. IfSome read (λ config. IsLabelWord word.now config)) }
    ensures none { IfOk result (λ read. IfNone read ((config : ChannelConfig) → IsLabelWord word.now config → ⊥)) }
{
    let Some(label) = read_label(alloc, word)? else {
        return Ok(None);
    };
    Ok(Some(ChannelConfig {
        label,
        ordered: true,
        reliability: Reliability::Reliable,
        negotiated: None,
        protocol: Text::new(String::new(alloc)),
    }))
}

/// The config that five words write.
pub fn read_config(
    alloc: Global,
    label: &[u8],
    order: &[u8],
    reliability: &[u8],
    stream: &[u8],
    protocol: &[u8],
) -> Result<Option<ChannelConfig>, AllocError>
    ensures some { IfOk result (λ read. IfSome read (λ config.
        AreConfigWords label.now order.now reliability.now stream.now protocol.now config)) }
    ensures none { IfOk result (λ read. IfNone read ((config : ChannelConfig)
        → AreConfigWords label.now order.now reliability.now stream.now protocol.now config → ⊥)) }
{
    let Some(ordered) = read_order(order) else {
        return Ok(None);
    };
    let Some(reliability) = read_reliability(reliability) else {
        return Ok(None);
    };
    let Some(negotiated) = read_settled(stream) else {
        return Ok(None);
    };
    let Some(label) = read_label(alloc, label)? else {
        return Ok(None);
    };
    let Some(protocol) = read_label(alloc, protocol)? else {
        return Ok(None);
    };
    Ok(Some(ChannelConfig {
        label,
        ordered,
        reliability,
        negotiated,
        protocol,
    }))
}
