//! A peer that is driven by lines: it offers, answers and takes answers as another program asks for.
#![tactic(auto)]

mod answering;
mod brief;
mod cutting;
mod offering;
mod quiet;
mod rows;
mod settings;
mod talk;

use brief::abridge;
use cutting::cut;
use rtc::{PlainRtc, RtcError, SdpPendingOffer};
use settings::make_peer;
use std::alloc::Global;
use std::io;
use talk::perform;

fn reply(
    alloc: Global,
    peer: &mut PlainRtc,
    pending: &mut Option<SdpPendingOffer>,
    line: &str,
) -> Result<String, RtcError> {
    let (word, rest) = cut(line, ' ');
    if word == "peer" {
        *peer = make_peer(alloc, rest)?;
        *pending = None;
        return Ok(String::from_str(alloc, "peer")?);
    }
    if word == "brief" {
        let (word, rest) = cut(rest, ' ');
        let told = perform(alloc, peer, pending, word, rest)?;
        return Ok(abridge(alloc, told.as_str())?);
    }
    perform(alloc, peer, pending, word, rest)
}

fn main(rt: HostRuntime) -> io::Result<()> {
    let alloc = rt.alloc();
    let mut peer = match make_peer(alloc, "") {
        Ok(peer) => peer,
        Err(error) => return println!(rt; "{error}"),
    };
    let mut pending = None;
    for line in rt.lines(alloc) {
        let line = line?;
        match reply(alloc, &mut peer, &mut pending, line.as_str()) {
            Ok(text) => println!(rt; "{text}")?,
            Err(error) => println!(rt; "refused {error}")?,
        }
    }
    Ok(())
}
