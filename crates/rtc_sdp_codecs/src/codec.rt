//! The codecs that a configuration can enable.
ghost use Rattle.std.specs.Prelude.{◌≡◌, IfOk};
ghost use Rattle.rtc_sdp_codecs.specs.Codec as spec;

use rtc_sdp_values::{PayloadRow, Pt};
use rtc_wire::Text;
use std::alloc::{AllocError, Global};

/// A codec that a configuration can enable, each with payload types and parameters of its own.
#[derive(Clone, Copy, Debug, PartialEq, Eq)]
pub enum Codec {
    /// RFC 7587.
    Opus,
    /// RFC 3551, section 4.5.14.
    Pcmu,
    /// RFC 3551, section 4.5.14.
    Pcma,
    /// RFC 3551, section 4.5.2.
    G722,
    /// RFC 3389.
    ComfortNoise,
    /// RFC 4867.
    AmrWb,
    /// RFC 7741.
    Vp8,
    /// RFC 6184.
    H264,
    /// RFC 7798.
    H265,
    /// RFC 9328.
    H266,
    /// RFC 9628.
    Vp9,
    Av1,
}

impl Codec {
    /// The name that `rtpmap` has.
    pub fn name(self) -> &'static str
        ensures { result.now ≡ (spec.full_row self).codec }
    {
        match self {
            Codec::Opus => "opus",
            Codec::Pcmu => "PCMU",
            Codec::Pcma => "PCMA",
            Codec::G722 => "G722",
            Codec::ComfortNoise => "CN",
            Codec::AmrWb => "AMR-WB",
            Codec::Vp8 => "VP8",
            Codec::H264 => "H264",
            Codec::H265 => "H265",
            Codec::H266 => "H266",
            Codec::Vp9 => "VP9",
            Codec::Av1 => "AV1",
        }
    }

    // The payload type of its packets.
    fn pt(self) -> Pt
        ensures { result ≡ (spec.full_row self).pt }
    {
        let number = match self {
            Codec::Opus => 111,
            Codec::Pcmu => 0,
            Codec::Pcma => 8,
            Codec::G722 => 9,
            Codec::ComfortNoise => 13,
            Codec::AmrWb => 114,
            Codec::Vp8 => 96,
            Codec::H264 => 102,
            Codec::H265 => 104,
            Codec::H266 => 106,
            Codec::Vp9 => 98,
            Codec::Av1 => 45,
        };
        Pt(number)
    }

    // The payload type of its retransmissions, which video has.
    fn rtx(self) -> Option<Pt>
        ensures { result ≡ (spec.full_row self).rtx }
    {
        match self {
            Codec::Vp8 => Some(Pt(97)),
            Codec::H264 => Some(Pt(103)),
            Codec::H265 => Some(Pt(105)),
            Codec::H266 => Some(Pt(107)),
            Codec::Vp9 => Some(Pt(99)),
            Codec::Av1 => Some(Pt(46)),
            Codec::Opus
            | Codec::Pcmu
            | Codec::Pcma
            | Codec::G722
            | Codec::ComfortNoise
            | Codec::AmrWb => None,
        }
    }

    // The payload type of its redundant packets, which speech has.
    fn red(self) -> Option<Pt>
        ensures { result ≡ (spec.full_row self).red }
    {
        match self {
            Codec::Opus => Some(Pt(63)),
            Codec::Pcmu => Some(Pt(62)),
            Codec::Pcma => Some(Pt(61)),
            Codec::G722 => Some(Pt(60)),
            Codec::ComfortNoise
            | Codec::AmrWb
            | Codec::Vp8
            | Codec::H264
            | Codec::H265
            | Codec::H266
            | Codec::Vp9
            | Codec::Av1 => None,
        }
    }

    // Ticks a second of its timestamps.
    fn clock(self) -> u32
        ensures { result ≡ (spec.full_row self).clock }
    {
        match self {
            Codec::Opus => 48_000,
            Codec::Pcmu | Codec::Pcma | Codec::G722 | Codec::ComfortNoise => 8_000,
            Codec::AmrWb => 16_000,
            Codec::Vp8 | Codec::H264 | Codec::H265 | Codec::H266 | Codec::Vp9 | Codec::Av1 =>
                90_000,
        }
    }

    // Opus is always announced with two channels (RFC 7587, section 7).
    fn channels(self) -> u8
        ensures { result ≡ (spec.full_row self).channels }
    {
        match self {
            Codec::Opus => 2,
            Codec::Pcmu
            | Codec::Pcma
            | Codec::G722
            | Codec::ComfortNoise
            | Codec::AmrWb
            | Codec::Vp8
            | Codec::H264
            | Codec::H265
            | Codec::H266
            | Codec::Vp9
            | Codec::Av1 => 1,
        }
    }

    // The parameters of its `fmtp` line.
    fn fmtp(self) -> &'static str
        ensures { result.now ≡ (spec.full_row self).fmtp }
    {
        match self {
            Codec::Opus => "minptime=10;useinbandfec=1",
            Codec::H264 => "packetization-mode=1",
            Codec::Pcmu
            | Codec::Pcma
            | Codec::G722
            | Codec::ComfortNoise
            | Codec::AmrWb
            | Codec::Vp8
            | Codec::H265
            | Codec::H266
            | Codec::Vp9
            | Codec::Av1 => "",
        }
    }

    /// The row of the codec, with redundant packets (RFC 2198) if `red` is true and the codec has them.
    pub fn row(self, alloc: Global, red: bool) -> Result<PayloadRow, AllocError>
        ensures { IfOk result (λ row. row ≡ spec.codec_row_with red self) }
    {
        let codec = Text::from_str(alloc, self.name())?;
        let fmtp = Text::from_str(alloc, self.fmtp())?;
        let red = if red { self.red() } else { None };
        Ok(PayloadRow {
            pt: self.pt(),
            rtx: self.rtx(),
            red,
            codec,
            clock: self.clock(),
            channels: self.channels(),
            fmtp,
        })
    }
}
