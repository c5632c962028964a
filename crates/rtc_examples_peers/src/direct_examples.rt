//! A peer that is driven without session descriptions.
use crate::counting::has_lines;
use crate::direct::Direct;
use crate::hosts::candidate;
use crate::introduction::Introduction;
use crate::marks::Marks;
use crate::signals::Signals;
use crate::texts::Texts;
use rtc_examples_cases::is_true;
use rtc_peer::{Fingerprint, IceCreds, Mid, SctpInitData};
use rtc_plain::CountIds;
use rtc_wire::{ChannelConfig, Text};
use std::alloc::{AllocError, Global};

/// Credentials of ICE.
pub fn creds(alloc: Global, ufrag: &str, pass: &str) -> Result<IceCreds, AllocError> {
    let ufrag = Text::from_str(alloc, ufrag)?;
    let pass = Text::from_str(alloc, pass)?;
    Ok(IceCreds { ufrag, pass })
}

/// The config of a channel, negotiated for a stream or not.
pub fn channel(alloc: Global, stream: Option<u16>) -> ChannelConfig {
    let mut config = ChannelConfig::new(alloc);
    config.negotiated = stream;
    config
}

/// A peer of these user fragments, this one first, beside a host that has this certificate.
pub fn introduction(
    alloc: Global,
    names: (&str, &str),
    certificate: &[u8],
    number: u8,
) -> Result<Option<Introduction>, AllocError> {
    let own = creds(alloc, names.0, "password")?;
    let other = creds(alloc, names.1, "password")?;
    let there = candidate(alloc, number)?;
    match Fingerprint::of_certificate(alloc, certificate, "sha-256")? {
        Some(announced) => {
            Ok(Some(Introduction {
                own,
                other,
                announced,
                there,
            }))
        }
        None => Ok(None),
    }
}

fn are_parts_set<P: Direct>(alloc: Global, peer: &mut P) -> Result<bool, AllocError> {
    let here = candidate(alloc, 1)?;
    match introduction(alloc, ("own", "other"), b"abc", 2)? {
        Some(given) => Ok(peer.takes_parts(given, "own", &here)),
        None => Ok(false),
    }
}

// This side's SNAP INIT chunk, of the numbers 1 and 2.
fn half(alloc: Global) -> Result<SctpInitData, AllocError> {
    let mut halves = SctpInitData::new(alloc);
    let mut ids = CountIds::starting(1);
    halves.ensure_local_init_chunk(&mut ids)?;
    Ok(halves)
}

fn is_started<P: Direct>(alloc: Global, peer: &mut P) -> Result<bool, AllocError> {
    let chunk = vec![in alloc; 1u8; 20]?;
    let alone = half(alloc)?;
    let mut halves = half(alloc)?;
    halves.set_remote_init_chunk(chunk);
    Ok(peer.starts(alone, halves))
}

fn are_channels_made<P: Direct>(alloc: Global, peer: &mut P) -> bool {
    let first = channel(alloc, Some(4));
    let again = channel(alloc, Some(4));
    let other = channel(alloc, None);
    peer.makes_channels(first, again, other) & peer.closes_channel()
}

// The SNAP INIT chunk of a start without session descriptions, with a budget of 1 MiB, is carried by later ones. The
// answer of a side with another chunk than the given one is refused.
fn tell_halves<P: Signals + Direct>(alloc: Global, left: &mut P, right: &mut P) -> bool {
    let started = is_true(is_started(alloc, left));
    let mut texts = Texts::new(alloc);
    let agreed = left.agree(right, alloc, 1, &mut texts);
    let wanted = "a=sctp-init:AQAAFAAAAAEAEAAA/////wAAAAI=";
    started & !agreed & is_true(has_lines(alloc, texts.offer.as_str(), wanted, 1))
}

// Whether an example of parts and of the association gives what is expected.
fn do_parts_agree<P: Direct>(alloc: Global, peer: &mut P, example: &str) -> bool {
    match example {
        "association starts by both halves" => is_true(is_started(alloc, peer)),
        "channels are made" => are_channels_made(alloc, peer),
        "first role stays" => peer.takes_roles(),
        "parts are set" => is_true(are_parts_set(alloc, peer)),
        "peer ends once" => peer.ends(),
        _ => false,
    }
}

/// Whether an example of a peer without session descriptions gives what is expected.
pub fn does_agree<P: Signals + Direct + Marks>(
    alloc: Global,
    left: &mut P,
    right: &mut P,
    mids: (Mid, Mid),
    example: &str,
) -> bool {
    let (mid, other) = mids;
    match example {
        "feedback is sent" => left.sends_feedback(mid),
        "halves are told by descriptions" => tell_halves(alloc, left, right),
        "lines are declared and removed" => left.declares_lines(mid, other),
        "sources in use are passed over" => left.passes_over(mid),
        "streams go with their line" => left.drops_streams(mid),
        "streams keep their marks" => left.marks_received(mid) & left.marks_sent(mid),
        _ => do_parts_agree(alloc, left, example),
    }
}
