//! Pairs of peers.
ghost use Rattle.std.specs.Prelude.{◌≡◌, ◌+◌, ◌<◌, ◌≤◌, ◌^◌, ◌-◌, [], IsTrue, ◌↔◌, length, Some, None, All};
ghost use Rattle.std.specs.Option.{option_copied};
ghost use Rattle.rtc_peer_core.specs.Meanings.{meanings};
ghost use Rattle.rtc_peer.specs.CachedPeer.{polled_of};

use crate::performing::perform_step;
use rtc_peer::{Association, DtlsInstance, IceAgent, Ids, MediaSession, Rtc};
use rtc_run_history::{Kept, Reply, SentPacket, Side, Step};
use rtc_run_steps::is_same_side;
use rtc_wire::{Addr, Transmit};
use std::alloc::Global;
use std::marker::Model;

/// Two peers, an address of each, the session descriptions that they made, the tokens of their offers, and the datagrams that they sent.
pub struct Pair<I: IceAgent, D: DtlsInstance, S: Association, M: MediaSession, N: Ids> {
    alloc: Global,
    left: Rtc<I, D, S, M, N>,
    right: Rtc<I, D, S, M, N>,
    left_addr: Addr,
    right_addr: Addr,
    sdps: Vec<Kept>,
    packets: Vec<SentPacket>,
    size: u64,
}

// Written out, so that the proof of what owns a pair sees one call and not the drop of each part of both peers.
impl<
    I: IceAgent + Drop,
    D: DtlsInstance + Drop,
    S: Association + Drop,
    M: MediaSession + Drop,
    N: Ids + Drop,
> Drop for Pair<I, D, S, M, N> {
    fn drop(self) {
        let Pair {
            alloc: _alloc,
            left: _left,
            right: _right,
            left_addr: _left_addr,
            right_addr: _right_addr,
            sdps: _sdps,
            packets: _packets,
            size: _size,
        } = self;
    }
}

impl<I: IceAgent, D: DtlsInstance, S: Association, M: MediaSession, N: Ids> Model
    for Pair<I, D, S, M, N> {
    ghost use Rattle.std.specs.Prelude.{◌≤◌, length};
    ghost use Rattle.rtc_peer.specs.CachedPeer.{polled_of};
    ghost use Rattle.rtc_run_history.specs.PairState.{PairState};

    ghost Value = { PairState I D S M N };

    ghost view = { λ pair. record {
      left = polled_of pair.left;
      right = polled_of pair.right;
      left_addr = pair.left_addr;
      right_addr = pair.right_addr;
      sdps = pair.sdps.items;
      packets = pair.packets.items;
      size = pair.size;
    } };

    // Each session description was made in a step.
    ghost invariant = { λ pair. length pair.sdps.items ≤ pair.size };
}

impl<I: IceAgent, D: DtlsInstance, S: Association, M: MediaSession, N: Ids> Pair<I, D, S, M, N> {
    ghost use Rattle.rtc_run_history.specs.PairState.{PairState};
    ghost use Rattle.rtc_run_history.specs.Performs.{Performs};
    ghost use Rattle.rtc_run_history.specs.Sizes.{step_size};
    ghost use Rattle.rtc_run.specs.ExtendsRun.{ExtendsRun};
    ghost use Rattle.rtc_run.specs.OwnPackets.{own_packet};

    /// A pair of peers that made no session description and sent no datagram yet.
    pub fn new(
        alloc: Global,
        left: Rtc<I, D, S, M, N>,
        right: Rtc<I, D, S, M, N>,
        left_addr: Addr,
        right_addr: Addr,
    ) -> Pair<I, D, S, M, N>
        ensures { result ≡ record {
          left = polled_of left;
          right = polled_of right;
          left_addr = left_addr;
          right_addr = right_addr;
          sdps = [];
          packets = [];
          size = 0;
        } }
    {
        Pair {
            alloc,
            left,
            right,
            left_addr,
            right_addr,
            sdps: Vec::new(alloc),
            packets: Vec::new(alloc),
            size: 0,
        }
    }

    /// Lends the left peer.
    pub fn left(&self) -> &Rtc<I, D, S, M, N>
        ensures { polled_of result.now ≡ self.now.left }
    {
        &self.left
    }

    /// Lends the right peer.
    pub fn right(&self) -> &Rtc<I, D, S, M, N>
        ensures { polled_of result.now ≡ self.now.right }
    {
        &self.right
    }

    /// Whether no step was performed yet.
    pub fn is_fresh(&self) -> bool
        ensures { IsTrue result ↔ (self.now.size ≡ 0) }
    {
        self.size == 0
    }

    /// The sum of the sizes of the steps performed so far.
    pub fn size(&self) -> u64
        ensures { result ≡ self.now.size }
    {
        self.size
    }

    /// Lends the datagram of a number, if the peer at this side sent it.
    pub fn packet(&self, at: Side, packet: u64) -> Option<&Transmit>
        ensures { option_copied result ≡ own_packet self.now.packets at packet }
    {
        match self.packets.as_slice().get(packet as usize) {
            None => None,
            Some(sent) => {
                if is_same_side(sent.at, at) {
                    Some(&sent.transmit)
                } else {
                    None
                }
            }
        }
    }

    /// Performs one step by the public calls of the acting peer, and returns its reply. A run of a fresh pair that led here goes on by it.
    pub fn perform(&mut self, step: &Step) -> Reply<M::E>
        requires { self.old.size + step_size step.now < 2 ^ 32 }
        ensures performs { Performs (meanings I.ice D.dtls S.association M.media N.ids) I.stun
            self.old step.now result.outcome result.table self.new }
        ensures runs { ExtendsRun (meanings I.ice D.dtls S.association M.media N.ids) I.stun
            self.old step.now result.outcome result.table self.new }
    {
        self.act(step)
    }

    // Performs one step.
    fn act(&mut self, step: &Step) -> Reply<M::E>
        requires { self.old.size + step_size step.now < 2 ^ 32 }
        ensures { Performs (meanings I.ice D.dtls S.association M.media N.ids) I.stun
            self.old step.now result.outcome result.table self.new }
    {
        self.size += step.size();
        match step.side() {
            Side::Left => perform_step(
                self.alloc,
                &mut self.left,
                &mut self.sdps,
                &mut self.packets,
                self.right_addr,
                self.left_addr,
                step,
            ),
            Side::Right => perform_step(
                self.alloc,
                &mut self.right,
                &mut self.sdps,
                &mut self.packets,
                self.left_addr,
                self.right_addr,
                step,
            ),
        }
    }
}
