//! Datagrams by their first bytes (RFC 7983, section 7), and those of the kind STUN by the reader of their messages.
ghost use Rattle.std.specs.Prelude.{true, false};

use rtc_examples_cases::{every, gives, is_refused};
use rtc_wire::{
    DatagramRecv, IoKind, IoText, MultiplexKind, NetError, StunError, StunReader, StunView,
};

// A reader to whom everything is a message.
struct TakesAll;

impl StunReader for TakesAll {
    ghost stun = { λ bytes. true };

    fn check(_bytes: &[u8]) -> Result<(), StunError> {
        Ok(())
    }
}

// One to whom nothing is.
struct TakesNone;

impl StunReader for TakesNone {
    ghost stun = { λ bytes. false };

    fn check(_bytes: &[u8]) -> Result<(), StunError> {
        Err(StunError::NotStun)
    }
}

fn is_unknown(bytes: &[u8], text: IoText) -> bool {
    let error = NetError::Io(IoKind::InvalidData, text);
    is_refused(MultiplexKind::read(bytes), &error)
}

fn have_kinds() -> bool {
    every(&[
        is_unknown(&[], IoText::EmptyDatagram),
        gives(MultiplexKind::read(&[0x80, 0x60, 0]), &MultiplexKind::Rtp),
        gives(MultiplexKind::read(&[0x80, 0xc8, 0]), &MultiplexKind::Rtcp),
        gives(MultiplexKind::read(&[0x16]), &MultiplexKind::Dtls),
        is_unknown(&[0x80, 0x60], IoText::UnknownDatagram),
    ])
}

// Twenty bytes of the kind STUN are a message to one reader, and none to the other.
fn go_by_reader() -> bool {
    let bytes = [0u8; 20];
    let message = DatagramRecv::Stun(StunView { bytes: &bytes });
    let refused = NetError::Stun(StunError::NotStun);
    gives(DatagramRecv::read::<TakesAll>(&bytes), &message)
        & is_refused(DatagramRecv::read::<TakesNone>(&bytes), &refused)
}

/// Whether an example of datagrams gives what is expected.
pub fn does_agree(example: &str) -> bool {
    match example {
        "have kinds" => have_kinds(),
        "go by the reader of STUN" => go_by_reader(),
        _ => false,
    }
}
