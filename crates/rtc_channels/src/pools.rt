//! The streams of both sides that can be given.
ghost use Rattle.std.specs.Prelude.{◌≡◌, ◌||◌, not, filter, slice_get, true, false};
ghost use Rattle.rtc_channels.specs.Ids.{parity_of as ParityOf, all_ids, full_pool, pool_marked};
ghost use Rattle.rtc_channels.specs.Granted.{is_granted as IsGranted};
ghost use Rattle.rtc_channels.specs.Pools.{ArePools};

use crate::FreeIds;
use crate::grants::{Grants, count_holds, owner_of};

/// Whether a stream cannot be given.
pub fn is_granted(grants: &Grants, stream: u16) -> bool
    ensures { result ≡ IsGranted grants.now stream }
{
    owner_of(grants, stream).is_some() || count_holds(grants, stream) > 0
}

// The streams of one side that can be given.
fn collect_free(grants: &Grants, client: bool) -> FreeIds
    ensures parity { result.parity ≡ ParityOf client }
    ensures free { result.free ≡ filter (λ stream. not (IsGranted grants.now stream)) (all_ids (ParityOf client)) }
{
    let mut ids = FreeIds::new(client);
    'streams: for stream in grants.keys() {
        if is_granted(grants, *stream) {
            ids.take(*stream);
        }
    }
    ids
}

/// The streams that can be given, of the client's side and the server's.
#[derive(Debug, Drop)]
pub struct Pools {
    pub client: FreeIds,
    pub server: FreeIds,
}

impl Pools {
    /// Every stream.
    pub fn new() -> Pools
        ensures client { result.client ≡ full_pool true }
        ensures server { result.server ≡ full_pool false }
    {
        Pools {
            client: FreeIds::new(true),
            server: FreeIds::new(false),
        }
    }

    /// Those that can be given by what a map keeps.
    pub fn collect(grants: &Grants) -> Pools
        ensures { ArePools grants.now result }
    {
        Pools {
            client: collect_free(grants, true),
            server: collect_free(grants, false),
        }
    }

    /// What a map keeps of a stream changed.
    pub fn note(&mut self, grants: &Grants, stream: u16)
        ensures client { self.new.client ≡ pool_marked stream (not (IsGranted grants.now stream)) self.old.client }
        ensures server { self.new.server ≡ pool_marked stream (not (IsGranted grants.now stream)) self.old.server }
    {
        if is_granted(grants, stream) {
            self.client.take(stream);
            self.server.take(stream);
            return;
        }
        self.client.put(stream);
        self.server.put(stream);
    }

    /// The least stream of a side that can be given.
    pub fn least(&self, client: bool) -> Option<u16>
        ensures client { client ≡ true → result ≡ slice_get self.now.client.free 0 }
        ensures server { client ≡ false → result ≡ slice_get self.now.server.free 0 }
    {
        if client {
            return self.client.least();
        }
        self.server.least()
    }
}
