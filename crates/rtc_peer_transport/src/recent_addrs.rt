//! Addresses from which checks were received.
ghost use Rattle.std.specs.Prelude.{◌≡◌, [], IfOk, length, slice_get};
ghost use Rattle.std.specs.Option.{option_copied};
ghost use Rattle.rtc_peer_transport.specs.RecentAddrs.{with_recent};

use circular_buffer::HeapCircularBuffer;
use rtc_wire::Addr;
use std::alloc::{AllocError, Global};
use std::marker::Model;

// How many addresses are kept.
const KEPT: usize = 20;

/// The last 20 addresses from which ICE checks were received, the newest last.
#[derive(Drop)]
pub struct RecentAddrs {
    addrs: HeapCircularBuffer<Addr>,
}

impl Model for RecentAddrs {
    ghost use Rattle.std.specs.Prelude.{◌≡◌, List};
    ghost use Rattle.rtc_wire.specs.declared.addr.Addr.{Addr};

    ghost Value = { List Addr };

    ghost view = { λ recent. recent.addrs.items };

    ghost invariant = { λ recent. recent.addrs.capacity ≡ 20 };
}

impl RecentAddrs {
    /// No address. Room for all is made here.
    pub fn new(alloc: Global) -> Result<RecentAddrs, AllocError>
        ensures { IfOk result (λ made. made ≡ []) }
    {
        let addrs = HeapCircularBuffer::with_capacity(alloc, KEPT)?;
        Ok(RecentAddrs { addrs })
    }

    /// How many addresses there are.
    pub fn len(&self) -> usize
        ensures { result ≡ length self.now }
    {
        self.addrs.len()
    }

    /// The address at an index, from the oldest on.
    pub fn get(&self, index: usize) -> Option<&Addr>
        ensures { option_copied result ≡ slice_get self.now index }
    {
        self.addrs.get(index)
    }

    /// Keeps one more address, in place of the oldest if there are 20.
    pub fn push(&mut self, addr: Addr)
        ensures { self.new ≡ with_recent addr self.old }
    {
        let _oldest = self.addrs.push_back(addr);
    }
}
