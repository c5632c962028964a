//! The values of session descriptions.
ghost use Rattle.std.specs.Prelude.{◌≡◌};
ghost use Rattle.rtc_sdp_reader.specs.LineValue as line;
ghost use Rattle.rtc_sdp_reader.specs.SessionValue as spec;

use crate::Part;
use rtc_sdp_values::{IceCreds, MediaLine, Sdp};
use rtc_wire::{Seq, Text};
use std::alloc::Global;
use std::mem;

/// The credentials, if both of them are.
pub(crate) fn creds_made(ufrag: Option<Text>, pass: Option<Text>) -> Option<IceCreds>
    ensures { result ≡ line.creds_made ufrag pass }
{
    let (Some(ufrag), Some(pass)) = (ufrag, pass) else {
        return None;
    };
    Some(IceCreds { ufrag, pass })
}

/// The value that a session part and line parts make. What it says is taken out of its part.
pub(crate) fn sdp_made(
    alloc: Global,
    id: Option<u64>,
    session: &mut Part,
    lines: Seq<MediaLine>,
) -> Sdp
    ensures { result ≡ spec.sdp_made id session.old lines }
{
    let creds = creds_made(session.ufrag.take(), session.pass.take());
    Sdp {
        id: id.unwrap_or(0),
        groups: mem::replace(&mut session.groups, Seq::empty(alloc)),
        ice_lite: session.lite,
        creds,
        fingerprint: session.fingerprint.take(),
        setup: session.setup,
        lines,
    }
}
