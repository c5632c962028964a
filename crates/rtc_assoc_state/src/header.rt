//! What packets say, without the bytes of an item.
ghost use Rattle.std.specs.Prelude.{◌≡◌, ◌+◌, ◌≤◌, length, slice_range, option_map, drop};
ghost use Rattle.std.specs.Int.{w16, w32, w64, from_be_bytes};
ghost use Rattle.rtc_assoc_state.specs.Packets.{frame_in, data_in, item_in};
ghost use Rattle.rtc_assoc_state.specs.Headers.{frame_with, item_with};

use crate::{ItemHeader, ItemPart};

/// What a packet says, without the bytes of an item: `content_of` lends those, so that a packet is read without a copy.
#[derive(Clone, Copy, Debug, PartialEq, Eq)]
pub enum Header {
    /// The client asks for an answer.
    Hello,
    /// The server's answer.
    Welcome,
    /// An item and its number, beside the greatest number up to which all items of the other end were received.
    Data {
        acknowledged: u64,
        number: u64,
        item: ItemHeader,
    },
    /// That number alone.
    Acknowledgement(u64),
    Shutdown,
}

pub const HELLO: u8 = 1;

pub const WELCOME: u8 = 2;

pub const DATA: u8 = 3;

pub const ACKNOWLEDGEMENT: u8 = 4;

pub const SHUTDOWN: u8 = 5;

/// The bytes of a data packet before those of its item.
pub const DATA_OVERHEAD: usize = 28;

fn u16_at(bytes: &[u8], at: usize) -> u16
    requires { at + 2 ≤ length bytes.now }
    ensures { result ≡ from_be_bytes w16 (slice_range bytes.now at (at + 2)) }
{
    let field = &bytes[at..at + 2];
    u16::from_be_bytes([field[0], field[1]])
}

fn u32_at(bytes: &[u8], at: usize) -> u32
    requires { at + 4 ≤ length bytes.now }
    ensures { result ≡ from_be_bytes w32 (slice_range bytes.now at (at + 4)) }
{
    let field = &bytes[at..at + 4];
    u32::from_be_bytes([field[0], field[1], field[2], field[3]])
}

fn u64_at(bytes: &[u8], at: usize) -> u64
    requires { at + 8 ≤ length bytes.now }
    ensures { result ≡ from_be_bytes w64 (slice_range bytes.now at (at + 8)) }
{
    let field = &bytes[at..at + 8];
    u64::from_be_bytes([
        field[0], field[1], field[2], field[3], field[4], field[5], field[6], field[7],
    ])
}

fn item_of(part: ItemPart, bytes: &[u8]) -> ItemHeader
    requires { 28 ≤ length bytes.now }
    ensures { item_with result (drop 28 bytes.now) ≡ item_in part bytes.now }
{
    let stream = u16_at(bytes, 17);
    let generation = u32_at(bytes, 19);
    let identifier = u32_at(bytes, 24);
    ItemHeader {
        stream,
        generation,
        part,
        identifier,
    }
}

/// The bytes of the item in a data packet, lent.
pub fn content_of(packet: &[u8]) -> &[u8]
    ensures { result.now ≡ drop 28 packet.now }
{
    if packet.len() < DATA_OVERHEAD {
        return &[];
    }
    &packet[DATA_OVERHEAD..]
}

impl Header {
    /// What a packet says; None if it is none. A packet with bytes behind is none, but for the bytes of an item.
    #[tactic(auto, unfolding(crate::specs::Packets::frame_in))]
    pub fn read(bytes: &[u8]) -> Option<Header>
        ensures { option_map (λ header. frame_with header bytes.now) result ≡ frame_in bytes.now }
    {
        if bytes.is_empty() {
            return None;
        }
        match bytes[0] {
            HELLO if bytes.len() == 1 => Some(Header::Hello),
            WELCOME if bytes.len() == 1 => Some(Header::Welcome),
            SHUTDOWN if bytes.len() == 1 => Some(Header::Shutdown),
            ACKNOWLEDGEMENT if bytes.len() == 9 => Some(Header::Acknowledgement(u64_at(bytes, 1))),
            DATA if bytes.len() >= DATA_OVERHEAD => Header::read_data(bytes),
            _ => None,
        }
    }

    #[tactic(auto, unfolding(crate::specs::Packets::data_in))]
    fn read_data(bytes: &[u8]) -> Option<Header>
        requires { 28 ≤ length bytes.now }
        ensures { option_map (λ header. frame_with header bytes.now) result ≡ data_in bytes.now }
    {
        let Some(part) = ItemPart::of(bytes[23]) else {
            return None;
        };
        let acknowledged = u64_at(bytes, 1);
        let number = u64_at(bytes, 9);
        let item = item_of(part, bytes);
        Some(Header::Data {
            acknowledged,
            number,
            item,
        })
    }
}
