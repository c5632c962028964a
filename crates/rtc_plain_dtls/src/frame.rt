//! What packets say.
ghost use Rattle.std.specs.Prelude.{◌≡◌, ◌≤◌, length};
ghost use Rattle.rtc_plain_dtls.specs.Frames.{dtls_frame_in, handshake_in, alert_in, frame_shown, frame_bytes};

/// What a packet says, borrowed from it.
#[derive(Clone, Copy)]
pub enum Frame<'a> {
    /// No bytes: the handshake is to begin.
    Start,
    Hello(&'a [u8]),
    Certificate(&'a [u8]),
    Finish,
    Data(&'a [u8]),
    Close,
    Unknown,
}

pub const ALERT: u8 = 0x15;

pub const HANDSHAKE: u8 = 0x16;

pub const DATA: u8 = 0x17;

pub const HELLO: u8 = 1;

pub const CERTIFICATE: u8 = 2;

pub const FINISH: u8 = 3;

pub const CLOSE: u8 = 1;

/// The longest certificate, and the longest piece of application data, in bytes.
pub const LONGEST: usize = 1900;

fn read_handshake<'a>(rest: &'a [u8]) -> Frame<'a>
    ensures frame { frame_shown result ≡ handshake_in rest.now }
    ensures short { length (frame_bytes (frame_shown result)) ≤ 1900 }
{
    let Some((mark, bytes)) = rest.split_first() else {
        return Frame::Unknown;
    };
    if bytes.len() > LONGEST {
        return Frame::Unknown;
    }
    match *mark {
        HELLO => Frame::Hello(bytes),
        CERTIFICATE => Frame::Certificate(bytes),
        FINISH if bytes.is_empty() => Frame::Finish,
        _ => Frame::Unknown,
    }
}

fn read_alert<'a>(rest: &'a [u8]) -> Frame<'a>
    ensures frame { frame_shown result ≡ alert_in rest.now }
    ensures short { length (frame_bytes (frame_shown result)) ≤ 1900 }
{
    let Some((mark, bytes)) = rest.split_first() else {
        return Frame::Unknown;
    };
    if *mark == CLOSE && bytes.is_empty() {
        return Frame::Close;
    }
    Frame::Unknown
}

/// What a packet says.
pub fn read<'a>(packet: &'a [u8]) -> Frame<'a>
    ensures frame { frame_shown result ≡ dtls_frame_in packet.now }
    ensures short { length (frame_bytes (frame_shown result)) ≤ 1900 }
{
    let Some((kind, rest)) = packet.split_first() else {
        return Frame::Start;
    };
    match *kind {
        DATA if rest.len() <= LONGEST => Frame::Data(rest),
        HANDSHAKE => read_handshake(rest),
        ALERT => read_alert(rest),
        _ => Frame::Unknown,
    }
}
