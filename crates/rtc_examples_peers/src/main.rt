//! Runs stored examples of peers over parts in memory: calls without session descriptions; offers and changes of lines;
//! offers of other stacks with what a fresh peer answers; two peers that are connected, or are not since one announces
//! another fingerprint; and files that are sent over a data channel while datagrams are lost and repeated.
//!
//! Each line of the input names a subject and an example of it, and is printed again behind `agrees` or `differs`.
//! `answer PATH` gives a fresh peer the offer `PATH.offer`, whose answer has the lines of `PATH.answer`, as `codecs`
//! and `starts` do with `PATH.text` and `PATH.told`. `copy PATH` copies what is read of an offer. `file SIZE SEED LOST
//! TWICE` sends a file. `work one C M B` and `work turn C M B` send so many messages over channels, and `work idle C M
//! 0` gives so many moments, so that a tool that counts instructions sees what they cost. `resting L C B P` drains a peer
//! with so many media lines and open channels of so many messages, and polls it so often; `counted` does the same over
//! parts whose calls are counted.
#![tactic(auto)]

mod announced;
mod answers;
mod ask;
mod building;
mod built;
mod built_examples;
mod built_of_parts;
mod changes;
mod codecs;
mod configs;
mod connected;
mod copies;
mod counted;
mod counting;
mod direct;
mod direct_examples;
mod direct_of_parts;
mod examples;
mod exchanging;
mod fault;
mod files;
mod hosts;
mod introduction;
mod layers;
mod marks;
mod marks_of_parts;
mod numbers;
mod offers;
mod outputs;
mod peer_parts;
mod polled;
mod polled_of_parts;
mod reading;
mod reply;
mod resting;
mod resting_of_parts;
mod running;
mod settings;
mod signals;
mod signals_of_parts;
mod texts;
mod transfer;
mod turn;
mod way;
mod wire;
mod work;

use rtc_examples_cases::{Examples, is_true, run};
use std::io;
use std::process::ExitCode;
use std::rt::Files;

struct Peers;

impl Examples for Peers {
    fn does_agree<R: Files + AllocGlobal>(rt: &R, subject: &str, name: &str) -> bool {
        match subject {
            "counted" => is_true(counted::does_rest_counted(rt.alloc(), name)),
            _ => is_true(running::does_agree::<R>(rt, subject, name)),
        }
    }
}

fn main(rt: HostRuntime) -> io::Result<ExitCode> {
    run::<Peers, HostRuntime>(&rt)
}
