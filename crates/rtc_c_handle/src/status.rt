//! How calls from C end.
ghost use Rattle.std.specs.Prelude.{◌≡◌};
ghost use Rattle.rtc_c_handle.specs.Statuses.{code_of, status_of_call, status_of_error, status_of_number, status_of_token, status_of_write};

use rtc::RtcError;

/// How a call from C ended.
#[derive(Clone, Copy, Debug, PartialEq, Eq)]
pub enum Status {
    /// All was done.
    Done,
    /// There was too little memory.
    NoMemory,
    /// The slot is empty.
    NoPeer,
    /// The slot has a peer already.
    HasPeer,
    /// The bytes of a text are not UTF-8.
    NotUtf8,
    /// No offer of this side awaits its answer.
    NoOffer,
    /// The buffer is too small. The size that is needed is reported, and nothing is lost.
    SmallBuffer,
    /// The offer or answer of the other side cannot be accepted.
    RemoteSdp,
    /// A line of a session description is refused, or its lines do not fit together.
    BadSdp,
    /// A datagram is of no kind, or is malformed.
    BadDatagram,
    /// The DTLS part failed.
    DtlsFailed,
    /// The association failed.
    SctpFailed,
    /// The media part failed.
    MediaFailed,
    /// An offer was made or accepted since.
    OutOfOrder,
    /// No channel can be made of the settings.
    BadChannel,
    /// Both sides offered, and this one does not give way (RFC 3264, section 4).
    Glare,
    /// Nothing was staged, or channels alone, which no offer carries.
    NothingToOffer,
    /// A number stands for nothing, as a direction of 4.
    BadNumber,
    /// The name of an m-line is no token of 1 to 32 bytes.
    BadMid,
    /// There is no row of this number.
    NoRow,
    /// The channel is not open, or there is none of this number.
    NoChannel,
    /// The message is longer than what may still be buffered. Nothing was written.
    BufferFull,
}

impl Status {
    /// Returns the number of a status, as the header has it.
    pub fn code(self) -> u32
        ensures { result ≡ code_of self }
    {
        match self {
            Status::Done => 0,
            Status::NoMemory => 1,
            Status::NoPeer => 2,
            Status::HasPeer => 3,
            Status::NotUtf8 => 4,
            Status::NoOffer => 5,
            Status::SmallBuffer => 6,
            Status::RemoteSdp => 7,
            Status::BadSdp => 8,
            Status::BadDatagram => 9,
            Status::DtlsFailed => 10,
            Status::SctpFailed => 11,
            Status::MediaFailed => 12,
            Status::OutOfOrder => 13,
            Status::BadChannel => 14,
            Status::Glare => 15,
            Status::NothingToOffer => 16,
            Status::BadNumber => 17,
            Status::BadMid => 18,
            Status::NoRow => 19,
            Status::NoChannel => 20,
            Status::BufferFull => 21,
        }
    }

    /// Returns the status of a number.
    #[tactic(auto, unfolding(crate::specs::Statuses::status_of_number))]
    pub fn of_number(number: u32) -> Option<Status>
        ensures { result ≡ status_of_number number }
    {
        match number {
            0 => Some(Status::Done),
            1 => Some(Status::NoMemory),
            2 => Some(Status::NoPeer),
            3 => Some(Status::HasPeer),
            4 => Some(Status::NotUtf8),
            5 => Some(Status::NoOffer),
            6 => Some(Status::SmallBuffer),
            7 => Some(Status::RemoteSdp),
            8 => Some(Status::BadSdp),
            9 => Some(Status::BadDatagram),
            10 => Some(Status::DtlsFailed),
            11 => Some(Status::SctpFailed),
            12 => Some(Status::MediaFailed),
            13 => Some(Status::OutOfOrder),
            14 => Some(Status::BadChannel),
            15 => Some(Status::Glare),
            16 => Some(Status::NothingToOffer),
            17 => Some(Status::BadNumber),
            18 => Some(Status::BadMid),
            19 => Some(Status::NoRow),
            20 => Some(Status::NoChannel),
            21 => Some(Status::BufferFull),
            _ => None,
        }
    }

    // The status of an error of a peer.
    pub(crate) fn of_error(error: &RtcError) -> Status
        ensures { result ≡ status_of_error error.now }
    {
        match error {
            RtcError::RemoteSdp(_) => Status::RemoteSdp,
            RtcError::Sdp(_) => Status::BadSdp,
            RtcError::Net(_) => Status::BadDatagram,
            RtcError::Dtls(_) => Status::DtlsFailed,
            RtcError::Sctp(_) => Status::SctpFailed,
            RtcError::Media(_) => Status::MediaFailed,
            RtcError::ChangesOutOfOrder => Status::OutOfOrder,
            RtcError::BadChannel => Status::BadChannel,
            RtcError::Alloc => Status::NoMemory,
            RtcError::Glare => Status::Glare,
        }
    }

    // The status of a call of a peer.
    pub(crate) fn of_call(returned: Result<(), RtcError>) -> Status
        ensures { result ≡ status_of_call returned }
    {
        match returned {
            Ok(()) => Status::Done,
            Err(error) => Status::of_error(&error),
        }
    }

    // The status of a call that consumes the token of an offer, if there is one.
    pub(crate) fn of_token(returned: Result<bool, RtcError>) -> Status
        ensures { result ≡ status_of_token returned }
    {
        match returned {
            Ok(true) => Status::Done,
            Ok(false) => Status::NoOffer,
            Err(error) => Status::of_error(&error),
        }
    }

    // The status of a write.
    pub(crate) fn of_write(returned: Result<bool, RtcError>) -> Status
        ensures { result ≡ status_of_write returned }
    {
        match returned {
            Ok(true) => Status::Done,
            Ok(false) => Status::BufferFull,
            Err(error) => Status::of_error(&error),
        }
    }
}
