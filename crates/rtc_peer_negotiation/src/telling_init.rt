//! The text of the chunk that starts the association.
ghost use Rattle.std.specs.Prelude.{◌≡◌, IfOk, option_map, string_bytes};
ghost use Rattle.std.specs.Option.{option_copied};
ghost use Rattle.rtc_sctp_values.specs.InitHalves.{local_text};
ghost use Rattle.rtc_sctp_values.specs.SnapHalves.{text_in};
ghost use Rattle.rtc_peer_core.specs.SdpHalves.{answer_init};

use rtc_parts::Association;
use rtc_sctp::RtcSctp;
use rtc_sctp_values::SctpInitData;
use rtc_wire::Text;
use std::alloc::AllocError;

// A text of a string, if there is one.
fn text_of(text: Option<String>) -> Option<Text>
    ensures { result ≡ option_map (λ owned. string_bytes owned) text }
{
    match text {
        None => None,
        Some(text) => Some(Text::new(text)),
    }
}

/// The text of this side's chunk.
pub fn local_init(halves: Option<&SctpInitData>) -> Result<Option<Text>, AllocError>
    ensures { IfOk result (λ init. init ≡ text_in local_text (option_copied halves.entry)) }
{
    let Some(halves) = halves else {
        return Ok(None);
    };
    let text = halves.local_text()?;
    Ok(text_of(text))
}

/// The chunk that an answer carries, if the association is started with these chunks or with none.
pub fn tell_init<S: Association>(
    sctp: &RtcSctp<S>,
    halves: &Option<SctpInitData>,
) -> Result<Option<Text>, AllocError>
    ensures { IfOk result (λ init. init ≡ answer_init (S.association.started sctp.now.association) sctp.now.snap halves.now) }
{
    if sctp.is_inited() {
        return local_init(sctp.begun_snap_init_data());
    }
    match halves {
        None => Ok(None),
        Some(halves) => local_init(Some(halves)),
    }
}
