//! Events of the media part.
use crate::RawPacket;

/// An event that a media part reports.
pub trait MediaEvent {
    ghost use Rattle.std.specs.Prelude.{◌≡◌, Option};
    ghost use Rattle.std.specs.Option.{option_copied};
    ghost use Rattle.rtc_parts.specs.declared.raw_packet.RawPacket.{RawPacket};

    /// The packet that an event shows, if it shows one.
    ghost packet_of: { Self → Option RawPacket };

    /// The raw packet of this event, if raw packets are on and it is one.
    fn raw_packet(&self) -> Option<&RawPacket>
        ensures { option_copied result ≡ packet_of self.now };
}
