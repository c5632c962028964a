//! Two peers agree on an audio line and a data channel, send each other a message, and print what they report.
#![tactic(auto)]

mod network;
mod outbox;

use network::{address, exchange};
use outbox::Outbox;
use rtc::{
    Direction, MediaKind, Moment, RtcError, accept_answer_text, accept_offer_text, drive,
    plain_peer,
};
use std::alloc::Global;
use std::io;

fn call(alloc: Global, l: &mut Outbox, r: &mut Outbox) -> Result<(), RtcError> {
    let mut left = plain_peer(alloc, 1, address(1, 1000))?;
    let mut right = plain_peer(alloc, 1_000_001, address(2, 2000))?;
    let mut api = left.sdp_api();
    api.add_media(MediaKind::Audio, Direction::SendOnly, None, None, None)?;
    let chat = api.add_channel(String::from_str(alloc, "chat")?)?;
    if let Some((offer, token)) = api.apply()? {
        let offer = offer.to_sdp_string()?;
        drive(&mut left, Moment::FAR_PAST, l)?;
        let answer = accept_offer_text(alloc, &mut right, offer.as_str())?;
        drive(&mut right, Moment::FAR_PAST, r)?;
        accept_answer_text(alloc, &mut left, token, answer.as_str())?;
    }
    l.describe(left.lines())?;
    r.describe(right.lines())?;
    let now = exchange(&mut left, &mut right, Moment::FAR_PAST, l, r)?;
    l.write(&mut left, "hello")?;
    r.write(&mut right, "hello to you")?;
    let now = exchange(&mut left, &mut right, now, l, r)?;
    left.close_data_channel(chat)?;
    let now = exchange(&mut left, &mut right, now, l, r)?;
    left.close()?;
    exchange(&mut left, &mut right, now, l, r)?;
    Ok(())
}

fn main(rt: HostRuntime) -> io::Result<()> {
    let alloc = rt.alloc();
    let mut left = Outbox::new(alloc);
    let mut right = Outbox::new(alloc);
    if let Err(error) = call(alloc, &mut left, &mut right) {
        return println!(rt; "{error}");
    }
    print!(rt;
        "left:\n{}right:\n{}",
        left.log.as_str(),
        right.log.as_str()
    )
}
