//! The form of `m=` lines.
ghost use Rattle.std.specs.Prelude.{◌≡◌, ◌∷◌, IfOk, map, option_map, eqb};
ghost use Rattle.std.specs.List.{list_all};
ghost use Rattle.rtc_wire_text.specs.Fields.{each};
ghost use Rattle.rtc_wire_text.specs.Numbers.{number_up_to as spec_number_up_to};
ghost use Rattle.rtc_wire_text.specs.Tokens.{is_token as IsToken};
ghost use Rattle.rtc_wire_text.specs.Words.{words as spec_words};
ghost use Rattle.rtc_sdp_attributes.specs.Forms as filled;
ghost use Rattle.rtc_sdp_grammar.specs.MediaForm as spec;
ghost use Rattle.rtc_wire_text.specs.Once.{each_once as spec_each_once};

use crate::{Item, MediaHead};
use rtc_sdp_attributes::cut;
use rtc_sdp_values::LineKind;
use rtc_wire::Seq;
use rtc_wire_text::{is_numeral, is_token, number_up_to, words};
use std::alloc::{AllocError, Global};

fn kind_of(word: &str) -> LineKind
    ensures { result ≡ spec.line_kind_of word.now }
{
    if word == "audio" {
        LineKind::Audio
    } else if word == "video" {
        LineKind::Video
    } else if word == "application" {
        LineKind::Application
    } else {
        LineKind::Unknown
    }
}

fn port_of(word: &str) -> Option<u64>
    ensures { result ≡ spec.port_of word.now }
{
    match cut(word, b'/') {
        None => number_up_to(65535, word),
        Some((port, count)) => if is_numeral(count) {
            number_up_to(65535, port)
        } else {
            None
        },
    }
}

fn payload_types(alloc: Global, words: &[&str]) -> Result<Option<Vec<u8>>, AllocError>
    ensures { IfOk result (λ read. option_map (λ numbers. numbers.items) read
        ≡ each (spec_number_up_to 127) (map (λ word. word.now) words.now)) }
{
    let mut numbers = Vec::with_capacity(alloc, words.len())?;
    for word in words {
        let Some(number) = number_up_to(127, word) else {
            return Ok(None);
        };
        numbers.push(number as u8)?;
    }
    Ok(Some(numbers))
}

fn each_once(alloc: Global, numbers: &[u8]) -> Result<Vec<u8>, AllocError>
    ensures { IfOk result (λ once. once.items ≡ spec_each_once eqb numbers.now) }
{
    let mut once = Vec::with_capacity(alloc, numbers.len())?;
    for number in numbers {
        if !once.contains(number) {
            once.push(*number)?;
        }
    }
    Ok(once)
}

fn media_of(
    alloc: Global,
    kind: LineKind,
    disabled: bool,
    protocol: &str,
    formats: &[&str],
) -> Result<Item, AllocError>
    ensures { IfOk result (λ item. item ≡ spec.media_of kind disabled protocol.now (map (λ word. word.now) formats.now)) }
{
    if protocol != "UDP/TLS/RTP/SAVPF" {
        return Ok(Item::BadMedia);
    }
    match payload_types(alloc, formats)? {
        None => Ok(Item::BadMedia),
        Some(numbers) => {
            let formats = each_once(alloc, numbers.as_slice())?;
            Ok(Item::Media(MediaHead {
                kind,
                disabled,
                formats: Seq::new(formats),
            }))
        }
    }
}

fn is_channel_protocol(protocol: &str) -> bool
    ensures { result ≡ spec.is_channel_protocol protocol.now }
{
    protocol == "UDP/DTLS/SCTP" || protocol == "TCP/DTLS/SCTP" || protocol == "DTLS/SCTP"
}

fn are_tokens(words: &[&str]) -> bool
    ensures { result ≡ list_all (λ word. IsToken word.now) words.now }
{
    words.iter().all(|word| is_token(word))
}

#[tactic(auto, using(crate::proofs::WordLemmas::tokens_shown))]
fn application_of(alloc: Global, disabled: bool, protocol: &str, formats: &[&str]) -> Item
    ensures { result ≡ spec.application_of disabled protocol.now (map (λ word. word.now) formats.now) }
{
    if is_channel_protocol(protocol) && are_tokens(formats) {
        Item::Media(MediaHead {
            kind: LineKind::Application,
            disabled,
            formats: Seq::empty(alloc),
        })
    } else {
        Item::BadMedia
    }
}

pub(crate) fn is_filled(word: &str) -> bool
    ensures { result ≡ filled.is_filled word.now }
{
    !word.is_empty()
}

fn are_filled(words: &[&str]) -> bool
    ensures { result ≡ list_all (λ word. filled.is_filled word.now) words.now }
{
    words.iter().all(|word| is_filled(word))
}

#[tactic(auto, using(crate::proofs::WordLemmas::filled_shown))]
fn unknown_of(alloc: Global, disabled: bool, protocol: &str, formats: &[&str]) -> Item
    ensures { result ≡ spec.unknown_of disabled protocol.now (map (λ word. word.now) formats.now) }
{
    if is_filled(protocol) && are_filled(formats) {
        Item::Media(MediaHead {
            kind: LineKind::Unknown,
            disabled,
            formats: Seq::empty(alloc),
        })
    } else {
        Item::BadMedia
    }
}

fn of_kind(
    alloc: Global,
    kind: LineKind,
    disabled: bool,
    protocol: &str,
    formats: &[&str],
) -> Result<Item, AllocError>
    ensures { IfOk result (λ item. item ≡ spec.of_kind kind disabled protocol.now (map (λ word. word.now) formats.now)) }
{
    match kind {
        LineKind::Audio => media_of(alloc, LineKind::Audio, disabled, protocol, formats),
        LineKind::Video => media_of(alloc, LineKind::Video, disabled, protocol, formats),
        LineKind::Application => Ok(application_of(alloc, disabled, protocol, formats)),
        LineKind::Unknown => Ok(unknown_of(alloc, disabled, protocol, formats)),
    }
}

fn at_port(
    alloc: Global,
    kind: &str,
    port: &str,
    protocol: &str,
    formats: &[&str],
) -> Result<Item, AllocError>
    ensures { IfOk result (λ item. item
        ≡ spec.at_port kind.now (spec.port_of port.now) protocol.now (map (λ word. word.now) formats.now)) }
{
    let Some(port) = port_of(port) else {
        return Ok(Item::BadMedia);
    };
    if !is_token(kind) {
        return Ok(Item::BadMedia);
    }
    of_kind(alloc, kind_of(kind), port == 0, protocol, formats)
}

/// What a line says by its kind, its port and the words behind them.
#[tactic(auto, using(crate::proofs::WordLemmas::no_formats, crate::proofs::WordLemmas::some_formats))]
fn behind_port(alloc: Global, kind: &str, port: &str, rest: &str) -> Result<Item, AllocError>
    ensures { IfOk result (λ item. item ≡ spec.media_words (kind.now ∷ port.now ∷ spec_words rest.now)) }
{
    match cut(rest, b' ') {
        None => at_port(alloc, kind, port, rest, &[]),
        Some((protocol, formats)) => {
            let formats = words(alloc, formats)?;
            at_port(alloc, kind, port, protocol, formats.as_slice())
        }
    }
}

/// What an `m=` line says (RFC 8866, section 5.14). Its first words are cut off one by one, so that a line without formats makes no list.
#[tactic(auto, using(crate::proofs::WordLemmas::one_word, crate::proofs::WordLemmas::more_words))]
pub(crate) fn media(alloc: Global, value: &str) -> Result<Item, AllocError>
    ensures { IfOk result (λ item. item ≡ spec.media value.now) }
{
    let Some((kind, rest)) = cut(value, b' ') else {
        return Ok(Item::BadMedia);
    };
    let Some((port, rest)) = cut(rest, b' ') else {
        return Ok(Item::BadMedia);
    };
    behind_port(alloc, kind, port, rest)
}
