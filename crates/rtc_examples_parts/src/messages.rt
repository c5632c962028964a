//! Open messages of data channels (RFC 8832, section 5.1), byte by byte.
use rtc_examples_cases::{every, gives, is_refused, is_true};
use rtc_wire::{ChannelConfig, DcepError, DcepOpen, Text};
use std::alloc::Global;

// The open message of a channel with the label `a` and nothing else.
const OPEN_A: [u8; 13] = [0x03, 0, 0, 0, 0, 0, 0, 0, 0, 1, 0, 0, 0x61];

// Whether a message is written at the front of a buffer.
fn is_written(message: &DcepOpen, buf: &mut [u8; 15]) -> bool {
    if message.label.as_str() != "a" || message.protocol.as_str() != "" {
        return false;
    }
    let length = message.marshal_len();
    (length == 13) & (message.marshal_to(buf) == 13)
}

fn is_config(alloc: Global, message: &DcepOpen, config: &ChannelConfig) -> bool {
    gives(ChannelConfig::from_open(alloc, message), config)
}

// Whether a config is announced by the open message, and both are read back.
fn is_announced(alloc: Global, config: &ChannelConfig) -> Result<bool, DcepError> {
    let message = DcepOpen::from_config(alloc, config)?;
    let mut buf = [0xffu8; 15];
    let written = is_written(&message, &mut buf);
    Ok(every(&[
        written,
        &buf[..13] == OPEN_A.as_slice(),
        &buf[13..] == [0xffu8, 0xff].as_slice(),
        gives(DcepOpen::read(alloc, &buf), &message),
        is_config(alloc, &message, config),
    ]))
}

// Whether the config of a channel named `a` is announced by its open message, and read back.
fn open(alloc: Global) -> Result<bool, DcepError> {
    let label = Text::from_str(alloc, "a")?;
    let mut config = ChannelConfig::new(alloc);
    config.label = label;
    is_announced(alloc, &config)
}

// Whether bytes that are no open message are refused: one that is too short, one of another type, and a label that is not UTF-8.
fn refused(alloc: Global) -> bool {
    let mut other_type = OPEN_A;
    other_type[0] = 2;
    let mut bad_label = OPEN_A;
    bad_label[12] = 0xff;
    every(&[
        is_refused(
            DcepOpen::read(alloc, &OPEN_A[..12]),
            &DcepError::DcepOpenTooSmall,
        ),
        is_refused(
            DcepOpen::read(alloc, &other_type),
            &DcepError::DcepIncorrectMessageType,
        ),
        is_refused(DcepOpen::read(alloc, &bad_label), &DcepError::DcepBadUtf8),
    ])
}

/// Whether an example of messages gives what is expected.
pub fn does_agree(alloc: Global, example: &str) -> bool {
    match example {
        "open a channel" => is_true(open(alloc)),
        "are refused" => refused(alloc),
        _ => false,
    }
}
