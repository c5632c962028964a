//! What the hub hears of a member.
ghost use Rattle.std.specs.Prelude.{◌≡◌, ◌++◌, IfOk, OnOk};
ghost use Rattle.std.specs.Option.{option_copied};
ghost use Rattle.rtc_peer.specs.CachedPeer.{polled_of};
ghost use Rattle.rtc_room_laws.specs.Hearing.{can_be_line, event_heard, heard_in, heard_shown, is_line_config, is_reliable, line_behind};
ghost use Rattle.rtc_room_laws.specs.Hearing.{line_by, line_opened, line_shown, message_heard};

use rtc_peer_transport::{ChannelData, Event};
use rtc_plain::PlainMediaEvent;
use rtc_room_laws::Item;
use rtc_run::PlainPeer;
use rtc_run_history::Shown;
use rtc_wire::{ChannelConfig, ChannelId, Reliability, TryCopy};
use std::alloc::{AllocError, Global};

fn is_reliable(reliability: Reliability) -> bool
    ensures { result ≡ is_reliable reliability }
{
    match reliability {
        Reliability::Reliable => true,
        Reliability::MaxPacketLifetime { .. } | Reliability::MaxRetransmits { .. } => false,
    }
}

fn is_line_config(config: Option<&ChannelConfig>) -> bool
    ensures { result ≡ is_line_config (option_copied config.entry) }
{
    match config {
        None => false,
        Some(config) => {
            config.ordered && is_reliable(config.reliability) && config.negotiated.is_none()
        }
    }
}

// Whether a channel can be a line.
fn can_be_line(peer: &PlainPeer, id: ChannelId) -> bool
    ensures { result ≡ can_be_line (polled_of peer.now) id }
{
    is_line_config(peer.channel_config(id))
}

// The line of a member behind the announcement of a channel.
fn line_opened(peer: &PlainPeer, id: ChannelId, line: Option<ChannelId>) -> Option<ChannelId>
    ensures { result ≡ line_opened (can_be_line (polled_of peer.now) id) id line }
{
    match line {
        Some(line) => Some(line),
        None => {
            if can_be_line(peer, id) {
                Some(id)
            } else {
                None
            }
        }
    }
}

fn line_by(
    event: &Event<PlainMediaEvent>,
    peer: &PlainPeer,
    line: Option<ChannelId>,
) -> Option<ChannelId>
    ensures { result ≡ line_by event.now (polled_of peer.now) line }
{
    match event {
        Event::ChannelOpen(id, _) => line_opened(peer, *id, line),
        _ => line,
    }
}

fn line_shown(
    shown: &Shown<PlainMediaEvent>,
    peer: &PlainPeer,
    line: Option<ChannelId>,
) -> Option<ChannelId>
    ensures { result ≡ line_shown shown.now (polled_of peer.now) line }
{
    match shown {
        Shown::Event(event) => line_by(event, peer, line),
        Shown::Timeout(_, _) | Shown::Packet { .. } => line,
    }
}

// Puts a message behind what was heard, if it is one of the line.
fn hear_message(
    message: &ChannelData,
    sender: u32,
    line: Option<ChannelId>,
    heard: &mut Vec<Item>,
) -> Result<(), AllocError>
    ensures { OnOk result (heard.new.items ≡ heard.old.items ++ message_heard message.now sender line) }
{
    let Some(line) = line else {
        return Ok(());
    };
    if line != message.id {
        return Ok(());
    }
    let bytes = message.bytes.copy()?;
    heard.push(Item {
        sender,
        binary: message.binary,
        bytes,
    })?;
    Ok(())
}

fn hear_event(
    event: &Event<PlainMediaEvent>,
    sender: u32,
    line: Option<ChannelId>,
    heard: &mut Vec<Item>,
) -> Result<(), AllocError>
    ensures { OnOk result (heard.new.items ≡ heard.old.items ++ event_heard event.now sender line) }
{
    match event {
        Event::ChannelData(message) => hear_message(message, sender, line, heard),
        _ => Ok(()),
    }
}

// Puts what an output hands out on a line behind what was heard.
fn hear(
    shown: &Shown<PlainMediaEvent>,
    sender: u32,
    line: Option<ChannelId>,
    heard: &mut Vec<Item>,
) -> Result<(), AllocError>
    ensures { OnOk result (heard.new.items ≡ heard.old.items ++ heard_shown shown.now sender line) }
{
    match shown {
        Shown::Event(event) => hear_event(event, sender, line, heard),
        Shown::Timeout(_, _) | Shown::Packet { .. } => Ok(()),
    }
}

/// What outputs tell: the line behind them, and what was heard on it.
#[derive(Drop)]
pub struct Told {
    pub line: Option<ChannelId>,
    pub heard: Vec<Item>,
}

// One output of a sender's left peer tells more.
fn hear_output(
    told: &mut Told,
    shown: &Shown<PlainMediaEvent>,
    peer: &PlainPeer,
    sender: u32,
) -> Result<(), AllocError>
    ensures line { OnOk result (told.new.line ≡ line_shown shown.now (polled_of peer.now) told.old.line) }
    ensures heard { OnOk result (told.new.heard.items ≡ told.old.heard.items ++ heard_shown shown.now sender told.old.line) }
{
    hear(shown, sender, told.line, &mut told.heard)?;
    let line = line_shown(shown, peer, told.line);
    told.line = line;
    Ok(())
}

/// What outputs of a sender's left peer tell, which they left so.
pub fn hear_outputs(
    alloc: Global,
    peer: &PlainPeer,
    line: Option<ChannelId>,
    sender: u32,
    outputs: &[Shown<PlainMediaEvent>],
) -> Result<Told, AllocError>
    ensures line { IfOk result (λ told. told.line ≡ line_behind (polled_of peer.now) line outputs.now) }
    ensures heard { IfOk result (λ told. told.heard.items ≡ heard_in sender (polled_of peer.now) line outputs.now) }
{
    let mut told = Told {
        line,
        heard: Vec::new(alloc),
    };
    for shown in outputs {
        hear_output(&mut told, shown, peer, sender)?;
    }
    Ok(told)
}
