//! Messages.
ghost use Rattle.std.specs.Prelude.{◌≡◌, ◌≤◌, ◌<◌, ◌+◌, ◌++◌, ◌∷◌, length, slice_range, drop};
ghost use Rattle.std.specs.Prelude.{IfOk, OnOk, MatchOption, IfSome, None, Some, true};
ghost use Rattle.std.specs.Int.{w16, w64, from_be_bytes};
ghost use Rattle.rtc_plain_ice.specs.Messages.{IceMessage, message_bytes, ice_message_in, body_in, is_ice_message, check_number};

use rtc_wire::{Bytes, DatagramSend};
use std::alloc::{AllocError, Global};

/// A message, borrowed from the datagram that it fills.
#[derive(Clone, Copy)]
pub struct Message<'a> {
    pub kind: u16,
    pub number: &'a [u8],
    pub receiver: &'a [u8],
    pub sender: &'a [u8],
}

pub const CHECK: u16 = 0x0001;

pub const RESPONSE: u16 = 0x0101;

/// Whether bytes are a STUN message (RFC 8489, section 5).
#[tactic(auto, unfolding(crate::specs::Messages::is_ice_message))]
pub fn is_message(bytes: &[u8]) -> bool
    ensures answer { result ≡ is_ice_message bytes.now }
    ensures long { result ≡ true → 20 ≤ length bytes.now }
{
    match bytes {
        [0..=63, _, n0, n1, 0x21, 0x12, 0xa4, 0x42, ..] if bytes.len() >= 20 => {
            bytes.len() == 20 + u16::from_be_bytes([*n0, *n1]) as usize
        }
        _ => false,
    }
}

#[tactic(auto, unfolding(crate::specs::Messages::body_in))]
fn read_body<'a>(kind: u16, number: &'a [u8], body: &'a [u8]) -> Option<Message<'a>>
    ensures fits { IfSome result (λ m. (length m.receiver.now ≤ 255) × (length m.sender.now ≤ 255)) }
    ensures message { MatchOption result (body_in kind number.now body.now ≡ None) (λ m. body_in kind number.now body.now
        ≡ Some (record { kind = m.kind; number = m.number.now; receiver = m.receiver.now; sender = m.sender.now })) }
{
    if body.is_empty() {
        return None;
    }
    let first = body[0] as usize;
    if body.len() < first + 2 {
        return None;
    }
    let second = body[first + 1] as usize;
    if body.len() != first + second + 2 {
        return None;
    }
    Some(Message {
        kind,
        number,
        receiver: &body[1..first + 1],
        sender: &body[first + 2..],
    })
}

/// What bytes say as a message; None if they are none.
#[tactic(auto, unfolding(crate::specs::Messages::ice_message_in))]
pub fn read<'a>(bytes: &'a [u8]) -> Option<Message<'a>>
    ensures fits { IfSome result (λ m. (length m.receiver.now ≤ 255) × (length m.sender.now ≤ 255)) }
    ensures message { MatchOption result (ice_message_in bytes.now ≡ None) (λ m. ice_message_in bytes.now
        ≡ Some (record { kind = m.kind; number = m.number.now; receiver = m.receiver.now; sender = m.sender.now })) }
{
    if !is_message(bytes) {
        return None;
    }
    let kind = u16::from_be_bytes([bytes[0], bytes[1]]);
    read_body(kind, &bytes[8..20], &bytes[20..])
}

/// The number of a check, as messages have it.
pub fn number_bytes(number: u64) -> [u8; 12]
    ensures { result ≡ check_number number }
{
    let [n0, n1, n2, n3, n4, n5, n6, n7] = number.to_be_bytes();
    [0, 0, 0, 0, n0, n1, n2, n3, n4, n5, n6, n7]
}

/// Puts a text behind its length.
fn put_text(bytes: &mut Vec<u8>, text: &[u8]) -> Result<(), AllocError>
    requires { length text.now ≤ 255 }
    ensures { OnOk result (bytes.new.items ≡ bytes.old.items ++ length text.now ∷ text.now) }
{
    bytes.push(text.len() as u8)?;
    bytes.extend_from_slice(text)?;
    Ok(())
}

/// A message whose type begins with this byte, 0 for a check and 1 for a response.
#[tactic(auto, unfolding(crate::specs::Messages::message_bytes))]
pub fn write(
    alloc: Global,
    first: u8,
    number: &[u8],
    receiver: &[u8],
    sender: &[u8],
) -> Result<DatagramSend, AllocError>
    requires receiver_fits { length receiver.now ≤ 255 }
    requires sender_fits { length sender.now ≤ 255 }
    ensures { IfOk result (λ m. m ≡ message_bytes first number.now receiver.now sender.now) }
{
    let body = 2 + receiver.len() + sender.len();
    let [n0, n1] = (body as u16).to_be_bytes();
    let mut bytes = Vec::new(alloc);
    bytes.extend_from_slice(&[first, 1, n0, n1, 0x21, 0x12, 0xa4, 0x42])?;
    bytes.extend_from_slice(number)?;
    put_text(&mut bytes, receiver)?;
    put_text(&mut bytes, sender)?;
    Ok(DatagramSend::new(Bytes::new(bytes)))
}
