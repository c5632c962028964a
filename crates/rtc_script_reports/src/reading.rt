//! The names in what errors print.
//!
//! They are read, since a contract sees only then that they are tokens.
ghost use Rattle.rtc_script_reports.specs.Fits.{FitsError, FitsMediaError, FitsNewLine, FitsWhy};

use rtc_parts::MediaError;
use rtc_peer_core::RtcError;
use rtc_peer_rows::{NewLine, Why};

fn read_new_line(wrong: &NewLine)
    ensures { FitsNewLine wrong.now }
{
    match wrong {
        NewLine::Count { .. } => {}
        NewLine::NotMedia(mid, _) => {
            let _name = mid.as_str();
        }
        NewLine::NotChannel(mid, _) => {
            let _name = mid.as_str();
        }
        NewLine::NotOffered(mid) => {
            let _name = mid.as_str();
        }
        NewLine::OtherKind(mid) => {
            let _name = mid.as_str();
        }
        NewLine::OtherPlace(mid) => {
            let _name = mid.as_str();
        }
    }
}

fn read_why(why: &Why)
    ensures { FitsWhy why.now }
{
    match why {
        Why::MovedLine(mid) => {
            let _name = mid.as_str();
        }
        Why::PlaceTaken(mid) => {
            let _name = mid.as_str();
        }
        Why::AnswerRecycles(mid) => {
            let _name = mid.as_str();
        }
        Why::WrongNewLines(wrong) => read_new_line(wrong),
        Why::NoLines
        | Why::BothLite
        | Why::NoCredentials
        | Why::UnaskedRestart { .. }
        | Why::NoFingerprint
        | Why::SctpInitChanged { .. }
        | Why::SctpInitMissing { .. }
        | Why::NoMatch { .. }
        | Why::UnknownHash(_)
        | Why::NoneAnnounced => {}
    }
}

fn read_media_error(error: &MediaError)
    ensures { FitsMediaError error.now }
{
    match error {
        MediaError::UnknownRid(rid) => {
            let _name = rid.as_str();
        }
        MediaError::Rtp
        | MediaError::Packet(_, _)
        | MediaError::UnknownPt(_)
        | MediaError::NoSenderSource
        | MediaError::ResendRequiresRtxPt
        | MediaError::NotSendingDirection(_)
        | MediaError::NotReceivingDirection
        | MediaError::NoReceiverSource(_)
        | MediaError::FeedbackNotEnabled
        | MediaError::WriteWithoutPoll
        | MediaError::Alloc => {}
    }
}

/// Reads the names that an error prints.
pub fn read_error(error: &RtcError)
    ensures { FitsError error.now }
{
    match error {
        RtcError::RemoteSdp(why) => read_why(why),
        RtcError::Media(error) => read_media_error(error),
        RtcError::Sdp(_)
        | RtcError::Net(_)
        | RtcError::Dtls(_)
        | RtcError::Sctp(_)
        | RtcError::ChangesOutOfOrder
        | RtcError::BadChannel
        | RtcError::Alloc
        | RtcError::Glare => {}
    }
}
