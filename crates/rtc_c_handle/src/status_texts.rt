//! Names and texts of statuses.
ghost use Rattle.std.specs.Prelude.{◌≡◌};
ghost use Rattle.rtc_c_handle.specs.StatusTexts.{status_name, status_text};

use crate::Status;

impl Status {
    /// Returns the name of a status, as the header has it, in lower case.
    pub fn name(self) -> &'static str
        ensures { result.now ≡ status_name self }
    {
        match self {
            Status::Done => "done",
            Status::NoMemory => "no_memory",
            Status::NoPeer => "no_peer",
            Status::HasPeer => "has_peer",
            Status::NotUtf8 => "not_utf8",
            Status::NoOffer => "no_offer",
            Status::SmallBuffer => "small_buffer",
            Status::RemoteSdp => "remote_sdp",
            Status::BadSdp => "bad_sdp",
            Status::BadDatagram => "bad_datagram",
            Status::DtlsFailed => "dtls_failed",
            Status::SctpFailed => "sctp_failed",
            Status::MediaFailed => "media_failed",
            Status::OutOfOrder => "out_of_order",
            Status::BadChannel => "bad_channel",
            Status::Glare => "glare",
            Status::NothingToOffer => "nothing_to_offer",
            Status::BadNumber => "bad_number",
            Status::BadMid => "bad_mid",
            Status::NoRow => "no_row",
            Status::NoChannel => "no_channel",
            Status::BufferFull => "buffer_full",
        }
    }

    /// Returns what a status says to a person.
    pub fn text(self) -> &'static str
        ensures { result.now ≡ status_text self }
    {
        match self {
            Status::Done => "done",
            Status::NoMemory => "out of memory",
            Status::NoPeer => "the slot has no peer",
            Status::HasPeer => "the slot has a peer already",
            Status::NotUtf8 => "the text is not UTF-8",
            Status::NoOffer => "no offer of this side is pending",
            Status::SmallBuffer => "the buffer is too small",
            Status::RemoteSdp => "the offer or answer of the other side cannot be accepted",
            Status::BadSdp => "the session description is malformed or inconsistent",
            Status::BadDatagram => "the datagram is of no kind, or malformed",
            Status::DtlsFailed => "DTLS failed",
            Status::SctpFailed => "SCTP failed",
            Status::MediaFailed => "media failed",
            Status::OutOfOrder => "an offer was made or accepted since",
            Status::BadChannel => "no channel can be made of the settings",
            Status::Glare => "both sides offered, and this one does not give way",
            Status::NothingToOffer => "nothing is to be sent to the other side",
            Status::BadNumber => "a number has no meaning",
            Status::BadMid => "the name of a line is no token of 1 to 32 bytes",
            Status::NoRow => "there is no such row",
            Status::NoChannel => "the channel is not open",
            Status::BufferFull => "too many bytes are buffered",
        }
    }
}
