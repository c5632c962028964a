//! Look-ups of the last of so many entries of a part in memory.
use crate::work::Work;
use rtc_examples_cases::gives;
use rtc_parts::{IceAgent, MediaSession};
use rtc_plain::{PlainIce, PlainMedia};
use rtc_sdp_values::{Candidate, Mid, Rid, Ssrc};
use rtc_wire::{Addr, Protocol};
use std::alloc::{AllocError, Global};

// An address for each number below 2^16.
fn address(place: u32) -> Addr {
    Addr {
        ip: [10, 0, 0, 1],
        port: (place % 65_536) as u16,
    }
}

// How often the address of the last of so many candidates, each with a port of its own, is viable.
fn find_candidate<A: IceAgent>(
    alloc: Global,
    agent: &mut A,
    entries: u32,
    times: u32,
) -> Result<usize, AllocError> {
    for place in 0..entries {
        let candidate = Candidate::host(alloc, address(place), Protocol::Udp)?;
        agent.add_remote_candidate(candidate)?;
    }
    let last = address(entries.saturating_sub(1));
    let mut found = 0usize;
    for _ in 0..times {
        if agent.has_viable_remote_candidate(last) {
            found = found.saturating_add(1);
        }
    }
    Ok(found)
}

fn mid(alloc: Global, place: u32) -> Result<Option<Mid>, AllocError> {
    let text = format!(in alloc; "{place}")?;
    Ok(Mid::read(text.as_str()))
}

fn add_stream<M: MediaSession>(
    alloc: Global,
    part: &mut M,
    place: u32,
    rid: Rid,
) -> Result<(), AllocError> {
    if let Some(mid) = mid(alloc, place)? {
        let _ = part.declare_stream_tx(Ssrc(place), None, mid, Some(rid))?;
    }
    Ok(())
}

// How often the last of so many streams is found: by its SSRC, which is in use, or by line and layer.
fn count_found<M: MediaSession>(
    part: &mut M,
    by_ssrc: bool,
    (mid, rid): (Mid, Rid),
    last: Ssrc,
    times: u32,
) -> usize {
    let mut found = 0usize;
    for _ in 0..times {
        let there = if by_ssrc {
            part.ssrc_used(last)
        } else {
            part.stream_tx_by_mid(mid, Some(rid)).is_some()
        };
        if there {
            found = found.saturating_add(1);
        }
    }
    found
}

// How often the last of so many streams, each of a line of its own, is found.
fn find_stream<M: MediaSession>(
    alloc: Global,
    part: &mut M,
    work: &Work<'_>,
) -> Result<usize, AllocError> {
    let (entries, times, _) = work.amounts;
    let last = entries.saturating_sub(1);
    let (Some(mid), Some(rid)) = (mid(alloc, last)?, Rid::read("h")) else {
        return Ok(0);
    };
    for place in 0..entries {
        add_stream(alloc, part, place, rid)?;
    }
    let by_ssrc = work.word == "sources";
    Ok(count_found(part, by_ssrc, (mid, rid), Ssrc(last), times))
}

/// Whether so many look-ups find what they are for.
pub fn is_done(alloc: Global, work: &Work<'_>) -> bool {
    if work.word == "candidates" {
        let mut agent = PlainIce::new(alloc);
        let found = find_candidate(alloc, &mut agent, work.amounts.0, work.amounts.1);
        return gives(found, &work.answer);
    }
    let mut part = PlainMedia::new(alloc);
    gives(find_stream(alloc, &mut part, work), &work.answer)
}
