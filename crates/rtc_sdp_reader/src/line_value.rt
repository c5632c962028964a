//! The values of line parts.
ghost use Rattle.std.specs.Prelude.{◌≡◌, IfOk, option_map};
ghost use Rattle.rtc_sdp_reader.specs.Layers as layers;
ghost use Rattle.rtc_sdp_reader.specs.LineValue as spec;

use crate::session_value::creds_made;
use crate::{Part, payload_rows, simulcast_value, sources};
use rtc_sdp_attributes::{RidLine, SimulcastLine};
use rtc_sdp_grammar::MediaHead;
use rtc_sdp_values::{Direction, MediaLine, Mid, Simulcast};
use rtc_wire::Seq;
use std::alloc::{AllocError, Global};
use std::mem;

/// The layers of the first list.
fn simulcast_in(
    alloc: Global,
    lines: &[RidLine],
    list: &Option<SimulcastLine>,
) -> Result<Option<Simulcast>, AllocError>
    ensures { IfOk result (λ found. found ≡ option_map (layers.simulcast_value lines.now) list.now) }
{
    let Some(list) = list else {
        return Ok(None);
    };
    let simulcast = simulcast_value(alloc, lines, list)?;
    Ok(Some(simulcast))
}

/// The line part of this mid, which takes what it says out of its part.
fn line_named(
    alloc: Global,
    head: &MediaHead,
    part: &mut Part,
    mid: Mid,
) -> Result<MediaLine, AllocError>
    ensures { IfOk result (λ line. line ≡ spec.line_named head.now part.old mid) }
{
    let ssrcs = sources(alloc, part.sources.as_slice(), part.pairs.as_slice())?;
    let payloads = payload_rows(
        alloc,
        head.formats.as_slice(),
        &mut part.codecs,
        &mut part.parameters,
    )?;
    let simulcast = simulcast_in(alloc, part.layers.as_slice(), &part.layer_list)?;
    let creds = creds_made(part.ufrag.take(), part.pass.take());
    Ok(MediaLine {
        kind: head.kind,
        disabled: head.disabled,
        mid,
        dir: part.dir.unwrap_or(Direction::SendRecv),
        candidates: mem::replace(&mut part.candidates, Seq::empty(alloc)),
        creds,
        fingerprint: part.fingerprint.take(),
        setup: part.setup,
        payloads,
        exts: mem::replace(&mut part.exts, Seq::empty(alloc)),
        simulcast,
        msid: part.msid.take(),
        cname: part.cname.take(),
        ssrcs,
        max_message_size: part.max_message_size,
        sctp_init: part.sctp_init.take(),
    })
}

/// The line part of an `m=` line; None if it has no mid. What it says is taken out of its part.
pub(crate) fn line_of(
    alloc: Global,
    head: &MediaHead,
    part: &mut Part,
) -> Result<Option<MediaLine>, AllocError>
    ensures { IfOk result (λ line. line ≡ spec.line_of head.now part.old) }
{
    let Some(mid) = part.mid else {
        return Ok(None);
    };
    let line = line_named(alloc, head, part, mid)?;
    Ok(Some(line))
}
