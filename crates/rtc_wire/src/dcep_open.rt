//! DCEP open messages.
ghost use Rattle.std.specs.Prelude.{◌≡◌, ◌+◌, ◌≤◌, ◌<◌, ◌^◌, ◌++◌, ℕ, List, length, drop, take, slice_range, IfOk, IfSome, IfNone};
ghost use Rattle.std.specs.Prelude.{OnOk, IsErrOf, MatchResult, None, true, false};
ghost use Rattle.std.specs.Int.{w16, w32, from_be_bytes};
ghost use Rattle.std.specs.Str.{is_utf8};
ghost use Rattle.rtc_wire.specs.DcepOpen.{type_byte as TypeByte, type_in, is_unordered, header_bytes, open_bytes, message_in};
ghost use Rattle.rtc_wire.specs.DcepOpen.{refusal_of, ReadsAs};
ghost use Rattle.rtc_wire.specs.ChannelConfig.{open_of, config_of};

use crate::{ChannelConfig, DcepError, ReliabilityType, Text, TryCopy};
use std::alloc::{AllocError, Global};
use std::str;

/// The message that opens a data channel (RFC 8832, section 5.1).
#[derive(Debug, PartialEq, Eq, Drop)]
pub struct DcepOpen {
    pub unordered: bool,
    pub channel_type: ReliabilityType,
    /// Higher for what is to be sent first.
    pub priority: u16,
    /// How often, or for how many milliseconds, a message is resent; of a reliable channel 0.
    pub reliability_parameter: u32,
    pub label: Text,
    pub protocol: Text,
}

const OPEN_TYPE: u8 = 0x03;

const HEADER_LEN: usize = 12;

fn u16_at(bytes: &[u8], at: usize) -> u16
    requires { at + 2 ≤ length bytes.now }
    ensures { result ≡ from_be_bytes w16 (slice_range bytes.now at (at + 2)) }
{
    let field = &bytes[at..at + 2];
    u16::from_be_bytes([field[0], field[1]])
}

fn u32_at(bytes: &[u8], at: usize) -> u32
    requires { at + 4 ≤ length bytes.now }
    ensures { result ≡ from_be_bytes w32 (slice_range bytes.now at (at + 4)) }
{
    let field = &bytes[at..at + 4];
    u32::from_be_bytes([field[0], field[1], field[2], field[3]])
}

fn text_of(bytes: &[u8]) -> Result<&str, DcepError>
    ensures { MatchResult result (λ text. (is_utf8 bytes.now ≡ true) × (text.now ≡ bytes.now))
        (λ why. (is_utf8 bytes.now ≡ false) × (why ≡ DcepError.DcepBadUtf8)) }
{
    match str::from_utf8(bytes) {
        Ok(text) => Ok(text),
        Err(_) => Err(DcepError::DcepBadUtf8),
    }
}

fn type_of(byte: u8) -> ReliabilityType
    ensures { result ≡ type_in byte }
{
    match byte & 0x7f {
        0x01 => ReliabilityType::Rexmit,
        0x02 => ReliabilityType::Timed,
        _ => ReliabilityType::Reliable,
    }
}

/// Writes bytes at a place of a buffer, and returns the place behind them.
fn put(buf: &mut [u8], at: usize, bytes: &[u8]) -> usize
    requires { at + length bytes.now ≤ length buf.old }
    ensures place { result ≡ at + length bytes.now }
    ensures front { take result buf.new ≡ take at buf.old ++ bytes.now }
    ensures rest { (n : ℕ) → result ≤ n → drop n buf.new ≡ drop n buf.old }
{
    let end = at + bytes.len();
    buf[at..end].copy_from_slice(bytes);
    end
}

impl DcepOpen {
    /// Reads an open message. Bytes after its texts are ignored, and each refusal is made before memory is taken.
    pub fn read(alloc: Global, buf: &[u8]) -> Result<DcepOpen, DcepError>
        ensures refused { IfSome (refusal_of buf.now) (λ why. IsErrOf result why) }
        ensures read { IfNone (refusal_of buf.now) (MatchResult result (λ made. made ≡ message_in buf.now) (λ why. why ≡ DcepError.Alloc)) }
        ensures behind { OnOk result ((more : List ℕ) → ReadsAs (buf.now ++ more) (message_in buf.now)) }
    {
        if buf.len() < HEADER_LEN {
            return Err(DcepError::DcepOpenTooSmall);
        }
        if buf[0] != OPEN_TYPE {
            return Err(DcepError::DcepIncorrectMessageType);
        }
        let label_end = HEADER_LEN + u16_at(buf, 8) as usize;
        let end = label_end + u16_at(buf, 10) as usize;
        if buf.len() < end {
            return Err(DcepError::DcepOpenTooSmall);
        }
        let label = text_of(&buf[HEADER_LEN..label_end])?;
        let protocol = text_of(&buf[label_end..end])?;
        let label = Text::from_str(alloc, label)?;
        let protocol = Text::from_str(alloc, protocol)?;
        Ok(DcepOpen {
            unordered: buf[1] & 0x80 != 0,
            channel_type: type_of(buf[1]),
            priority: u16_at(buf, 2),
            reliability_parameter: u32_at(buf, 4),
            label,
            protocol,
        })
    }

    fn type_byte(&self) -> u8
        ensures { result ≡ TypeByte self.now.channel_type self.now.unordered }
    {
        match (self.channel_type, self.unordered) {
            (ReliabilityType::Reliable, false) => 0x00,
            (ReliabilityType::Rexmit, false) => 0x01,
            (ReliabilityType::Timed, false) => 0x02,
            (ReliabilityType::Reliable, true) => 0x80,
            (ReliabilityType::Rexmit, true) => 0x81,
            (ReliabilityType::Timed, true) => 0x82,
        }
    }

    #[tactic(auto, unfolding(crate::specs::DcepOpen::header_bytes))]
    fn header(&self) -> [u8; HEADER_LEN]
        requires label { length self.now.label ≤ 65535 }
        requires protocol { length self.now.protocol ≤ 65535 }
        ensures bytes { result ≡ header_bytes self.now }
        ensures priority { self.now.priority < 2 ^ 16 }
        ensures parameter { self.now.reliability_parameter < 2 ^ 32 }
    {
        let priority = self.priority;
        let parameter = self.reliability_parameter;
        let [p0, p1] = priority.to_be_bytes();
        let [r0, r1, r2, r3] = parameter.to_be_bytes();
        let [l0, l1] = (self.label.as_str().len() as u16).to_be_bytes();
        let [q0, q1] = (self.protocol.as_str().len() as u16).to_be_bytes();
        let type_byte = self.type_byte();
        [OPEN_TYPE, type_byte, p0, p1, r0, r1, r2, r3, l0, l1, q0, q1]
    }

    /// How many bytes the message takes.
    pub fn marshal_len(&self) -> usize
        requires label { length self.now.label ≤ 65535 }
        requires protocol { length self.now.protocol ≤ 65535 }
        ensures { result ≡ 12 + length self.now.label + length self.now.protocol }
    {
        HEADER_LEN + self.label.as_str().len() + self.protocol.as_str().len()
    }

    /// Writes the message to the front of a buffer, and returns how many bytes that took.
    pub fn marshal_to(&self, buf: &mut [u8]) -> usize
        requires label { length self.now.label ≤ 65535 }
        requires protocol { length self.now.protocol ≤ 65535 }
        requires room { 12 + length self.now.label + length self.now.protocol ≤ length buf.old }
        ensures count { result ≡ 12 + length self.now.label + length self.now.protocol }
        ensures written { buf.new ≡ open_bytes self.now ++ drop result buf.old }
        ensures again { (more : List ℕ) → ReadsAs (open_bytes self.now ++ more) self.now }
    {
        let header = self.header();
        let label_at = put(buf, 0, &header);
        let protocol_at = put(buf, label_at, self.label.as_str().as_bytes());
        put(buf, protocol_at, self.protocol.as_str().as_bytes())
    }

    /// The message that announces a channel.
    pub fn from_config(alloc: Global, c: &ChannelConfig) -> Result<DcepOpen, AllocError>
        ensures made { IfOk result (λ made. made ≡ open_of c.now) }
        ensures reverse { IfOk result (λ made. config_of made ≡ record c.now { negotiated = None }) }
    {
        let label = Text::from_str(alloc, c.label.as_str())?;
        let protocol = Text::from_str(alloc, c.protocol.as_str())?;
        let (channel_type, reliability_parameter) = c.reliability.parts();
        Ok(DcepOpen {
            unordered: !c.ordered,
            channel_type,
            priority: 0,
            reliability_parameter,
            label,
            protocol,
        })
    }
}

impl TryCopy for DcepOpen {
    fn copy(&self) -> Result<DcepOpen, AllocError> {
        let label = self.label.copy()?;
        let protocol = self.protocol.copy()?;
        Ok(DcepOpen {
            unordered: self.unordered,
            channel_type: self.channel_type,
            priority: self.priority,
            reliability_parameter: self.reliability_parameter,
            label,
            protocol,
        })
    }
}
