//! Tables of addresses.
ghost use Rattle.std.specs.Prelude.{◌≡◌, ◌<◌};
ghost use Rattle.indexmap.specs.IndexSet.{spare};
ghost use Rattle.rtc_plain_ice.specs.Places.{has_addr, with_addr};
ghost use Rattle.rtc_plain_ice.specs.PlaceTables.{addrs_of};

use crate::addr_key::AddrKey;
use indexmap::IndexSet;
use rtc_wire::Addr;

/// Addresses in the order in which they were added, each once.
pub type AddrTable = IndexSet<AddrKey>;

/// Whether an address is there.
pub fn holds_addr(addresses: &AddrTable, a: &Addr) -> bool
    ensures { result ≡ has_addr a.now (addrs_of addresses.now.keys) }
{
    let key = AddrKey::new(a);
    addresses.contains(&key)
}

/// Keeps an address, for which there is room, unless it is there.
pub fn remember(addresses: &mut AddrTable, a: Addr)
    requires { 0 < spare addresses.old }
    ensures { addrs_of addresses.new.keys ≡ with_addr a (addrs_of addresses.old.keys) }
{
    let key = AddrKey::new(&a);
    if addresses.insert(key).is_err() {
        unreachable!();
    }
}
