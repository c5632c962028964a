//! The answers of a peer to offers that are received as text.
use crate::reply::Reply;
use crate::signals::Signals;
use crate::turn::Turn;
use rtc_examples_cases::is_text;
use rtc_wire_text::lines;
use std::alloc::{AllocError, Global};

// Whether a line of an answer is one of those that are compared: m-lines with their formats, mids, extensions and directions.
fn is_compared(line: &str) -> bool {
    match line.split_once(':') {
        Some((front, _)) => (front == "a=mid") | (front == "a=extmap"),
        None => match line {
            "a=sendrecv" | "a=sendonly" | "a=recvonly" | "a=inactive" => true,
            _ => line.starts_with("m="),
        },
    }
}

// The lines of an answer that are compared.
fn compared(alloc: Global, answer: &str) -> Result<String, AllocError> {
    let mut kept = String::new(alloc);
    let found = lines(alloc, answer)?;
    for line in found.as_slice() {
        if is_compared(*line) {
            kept.push_str(*line)?;
            kept.push_str("\n")?;
        }
    }
    Ok(kept)
}

// Whether an answer has these lines, or why the offer is refused.
fn is_told(alloc: Global, reply: Reply, expected: &str) -> bool {
    match reply {
        Reply::Answer(text) => is_text(compared(alloc, text.as_str()), expected),
        Reply::Refusal(why) => is_text(format!(in alloc; "refused {why}\n"), expected),
        Reply::Alloc => false,
    }
}

/// Whether a peer that is given these offers in turn answers each as is expected.
pub fn answers<P: Signals>(alloc: Global, peer: &mut P, turns: &[Turn]) -> bool {
    for turn in turns {
        let reply = peer.answer(alloc, turn.offer.as_str());
        if !is_told(alloc, reply, turn.told.as_str()) {
            return false;
        }
    }
    !turns.is_empty()
}
