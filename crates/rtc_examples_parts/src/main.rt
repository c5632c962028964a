//! Runs stored examples of what peers are given and consist of. Values: kinds of datagrams, open messages, hashes of certificates,
//! configurations with their codecs, records of a file, sources and sinks of bytes. Parts in memory: DTLS connections, associations,
//! streams and channels. It also gives parts amounts of work, so that a tool that counts instructions sees what they cost.
//!
//! Each line of the input names a subject and an example of it, or `work`, the expected result, a subject, a word and
//! amounts. It is printed again behind `agrees` or `differs`.
#![tactic(auto)]

mod byte_streams;
mod calls;
mod channels;
mod chunks;
mod closes;
mod codecs;
mod config;
mod config_of_peers;
mod configs;
mod copies;
mod datagrams;
mod dcep;
mod descriptions;
mod dtls;
mod ends_work;
mod free_ids;
mod log;
mod lookups;
mod losses;
mod messages;
mod records;
mod scenes;
mod scripts;
mod signals;
mod starts;
mod streams;
mod two_peers;
mod work;

use rtc_examples_cases::{Examples, run};
use std::alloc::Global;
use std::io;
use std::process::ExitCode;
use std::rt::Files;
use work::Work;

// Whether some work gives what is expected.
fn is_done(alloc: Global, line: &str) -> bool {
    let work = Work::read(line);
    match work.subject {
        "association" => ends_work::is_done(alloc, &work),
        "channels" => channels::is_done(alloc, &work),
        "lookups" => lookups::is_done(alloc, &work),
        _ => false,
    }
}

// Whether an example of parts in memory gives what is expected.
fn do_parts_agree(alloc: Global, subject: &str, name: &str) -> bool {
    match subject {
        "calls" => calls::does_agree(alloc, name),
        "channels" => channels::does_agree(alloc, name),
        "chunks" => chunks::does_agree(alloc, name),
        "closes" => closes::does_agree(alloc, name),
        "dcep" => dcep::does_agree(alloc, name),
        "dtls" => dtls::does_agree(alloc, name),
        "ids" => free_ids::does_agree(name),
        "losses" => losses::does_agree(alloc, name),
        "signals" => signals::does_agree(alloc, name),
        "starts" => starts::does_agree(alloc, name),
        "streams" => scenes::does_agree(alloc, name),
        "work" => is_done(alloc, name),
        _ => false,
    }
}

struct ValuesAndParts;

impl Examples for ValuesAndParts {
    fn does_agree<R: Files + AllocGlobal>(rt: &R, subject: &str, name: &str) -> bool {
        let alloc = rt.alloc();
        match subject {
            "byte_streams" => byte_streams::does_agree(alloc, name),
            "codecs" => codecs::does_agree(alloc, name),
            "configs" => configs::does_agree(alloc, name),
            "copies" => copies::does_agree(alloc, name),
            "datagrams" => datagrams::does_agree(name),
            "descriptions" => descriptions::does_agree(alloc, name),
            "messages" => messages::does_agree(alloc, name),
            "records" => records::does_agree(alloc, name),
            _ => do_parts_agree(alloc, subject, name),
        }
    }
}

fn main(rt: HostRuntime) -> io::Result<ExitCode> {
    run::<ValuesAndParts, HostRuntime>(&rt)
}
