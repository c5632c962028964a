//! Copies that no other program makes. That a copy is equal to its value is a clause of `copy`.
use rtc_examples_cases::{is_ok, is_true};
use rtc_parts::RawPacket;
use rtc_wire::{Bytes, ChannelConfig, DcepOpen, TryCopy};
use std::alloc::{AllocError, Global};

fn is_packet_copied(alloc: Global) -> Result<bool, AllocError> {
    let packet = RawPacket::RtcpTx(Bytes::new(vec![in alloc; 1u8, 2]?));
    Ok(is_ok(packet.copy()))
}

fn is_message_copied(alloc: Global) -> Result<bool, AllocError> {
    let config = ChannelConfig::new(alloc);
    let message = DcepOpen::from_config(alloc, &config)?;
    Ok(is_ok(message.copy()))
}

/// Whether an example of copies gives what is expected.
pub fn does_agree(alloc: Global, example: &str) -> bool {
    match example {
        "of packets and messages" => {
            is_true(is_packet_copied(alloc)) & is_true(is_message_copied(alloc))
        }
        _ => false,
    }
}
