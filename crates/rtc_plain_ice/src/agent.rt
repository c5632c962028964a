//! The plain agent.
ghost use Rattle.std.specs.Prelude.{◌≡◌};
ghost use Rattle.rtc_plain_ice.specs.Contents.{fresh_ice};

use crate::addr_table::AddrTable;
use crate::candidate_table::CandidateTable;
use crate::check::Check;
use indexmap::IndexSet;
use rtc_parts::{IceConnectionState, IceEvent};
use rtc_sdp_values::IceCreds;
use rtc_wire::{Span, Text, Transmit};
use std::alloc::Global;
use std::collections::VecDeque;
use std::marker::Model;

/// An ICE agent that keeps everything in memory and has no security: whoever knows the user name fragments can forge its messages.
///
/// It checks the pair of its first local and its first remote candidate until it receives a response, which nominates
/// the pair. A lite agent makes no check, and takes the pair of the first check that it received.
pub struct PlainIce {
    pub(crate) alloc: Global,
    pub(crate) lite: bool,
    pub(crate) local: IceCreds,
    pub(crate) remote: Option<IceCreds>,
    pub(crate) candidates: CandidateTable,
    pub(crate) controlling: bool,
    pub(crate) remote_candidates: CandidateTable,
    pub(crate) discovered: AddrTable,
    pub(crate) state: IceConnectionState,
    pub(crate) rto: Span,
    pub(crate) checks: u64,
    pub(crate) check: Option<Check>,
    pub(crate) nominated: bool,
    pub(crate) rtt: Option<Span>,
    pub(crate) events: VecDeque<IceEvent>,
    pub(crate) transmits: VecDeque<Transmit>,
}

impl Model for PlainIce {
    ghost use Rattle.rtc_plain_ice.specs.Contents.{IceContents};
    ghost use Rattle.rtc_plain_ice.specs.PlaceTables.{addrs_of};

    ghost Value = { IceContents };

    ghost view = { λ a. record {
      settings = record {
        lite = a.lite;
        local = a.local;
        remote = a.remote;
        candidates = a.candidates;
      };
      controlling = a.controlling;
      remote_candidates = a.remote_candidates;
      discovered = addrs_of a.discovered.keys;
      state = a.state;
      rto = a.rto;
      checks = a.checks;
      check = a.check;
      nominated = a.nominated;
      rtt = a.rtt;
      events = a.events.items;
      transmits = a.transmits.items;
    } };
}

// Written out, so that the proof of what owns an agent sees one call and not the drop of each field.
impl Drop for PlainIce {
    fn drop(self) {
        let PlainIce {
            alloc: _alloc,
            lite: _lite,
            local: _local,
            remote: _remote,
            candidates: _candidates,
            controlling: _controlling,
            remote_candidates: _remote_candidates,
            discovered: _discovered,
            state: _state,
            rto: _rto,
            checks: _checks,
            check: _check,
            nominated: _nominated,
            rtt: _rtt,
            events: _events,
            transmits: _transmits,
        } = self;
    }
}

impl PlainIce {
    /// An agent with empty texts as local credentials and no candidate. No memory is taken.
    pub fn new(alloc: Global) -> PlainIce
        ensures { result ≡ fresh_ice }
    {
        PlainIce {
            alloc,
            lite: false,
            local: IceCreds {
                ufrag: Text::new(String::new(alloc)),
                pass: Text::new(String::new(alloc)),
            },
            remote: None,
            candidates: CandidateTable::new(alloc),
            controlling: false,
            remote_candidates: CandidateTable::new(alloc),
            discovered: IndexSet::new(alloc),
            state: IceConnectionState::New,
            rto: Span::from_millis(250),
            checks: 0,
            check: None,
            nominated: false,
            rtt: None,
            events: VecDeque::new(alloc),
            transmits: VecDeque::new(alloc),
        }
    }
}
