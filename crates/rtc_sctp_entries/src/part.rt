//! The calls of an association that was started.
//!
//! Each leaves the association started, and adds a bounded number of units of work.
ghost use Rattle.std.specs.Prelude.{◌≡◌, ◌+◌, ◌≤◌, true, false, length};
ghost use Rattle.rtc_sctp_entries.specs.Part.{AsksOpen, AsksRead, AsksWrite, AsksEnd, AsksThreshold, AsksReliability, ReadUnits};
ghost use Rattle.rtc_sctp_entries.specs.Part.{AsksStart, AsksShutdown};

use crate::asked::Asked;
use crate::heard::Heard;
use crate::opening::Opening;
use rtc_parts::{Association, Ppi};
use rtc_wire::{ChannelConfig, Moment};

pub fn open<S: Association>(association: &mut S, id: u16) -> Opening
    requires { S.association.started association.old ≡ true }
    ensures asks { AsksOpen S.association association.old id result association.new }
    ensures started { S.association.started association.new ≡ true }
    ensures units { S.association.units association.new ≤ S.association.units association.old }
{
    Opening::of(association.open_stream(id))
}

pub fn read<S: Association>(association: &mut S, id: u16) -> Heard
    requires { S.association.started association.old ≡ true }
    ensures asks { AsksRead S.association association.old id result association.new }
    ensures started { S.association.started association.new ≡ true }
    ensures units { ReadUnits result (S.association.units association.old) (S.association.units association.new) }
{
    Heard::of(association.stream_read(id))
}

pub fn write<S: Association>(association: &mut S, id: u16, ppi: Ppi, bytes: &[u8]) -> Asked
    requires { S.association.started association.old ≡ true }
    ensures asks { AsksWrite S.association association.old id ppi bytes.now result association.new }
    ensures started { S.association.started association.new ≡ true }
    ensures units { S.association.units association.new ≤ S.association.units association.old + length bytes.now + 2 }
{
    Asked::of(association.stream_write(id, ppi, bytes))
}

pub fn end<S: Association>(association: &mut S, id: u16) -> Asked
    requires { S.association.started association.old ≡ true }
    ensures asks { AsksEnd S.association association.old id result association.new }
    ensures started { S.association.started association.new ≡ true }
    ensures units { S.association.units association.new ≤ S.association.units association.old + 2 }
{
    Asked::of(association.stream_close(id))
}

pub fn hand_threshold<S: Association>(association: &mut S, id: u16, n: usize) -> Asked
    requires { S.association.started association.old ≡ true }
    ensures asks { AsksThreshold S.association association.old id n result association.new }
    ensures started { S.association.started association.new ≡ true }
    ensures units { S.association.units association.new ≤ S.association.units association.old }
{
    Asked::of(association.set_threshold(id, n))
}

pub fn set_reliability<S: Association>(
    association: &mut S,
    id: u16,
    config: &ChannelConfig,
) -> Asked
    requires { S.association.started association.old ≡ true }
    ensures asks { AsksReliability S.association association.old id config.now result association.new }
    ensures started { S.association.started association.new ≡ true }
    ensures units { S.association.units association.new ≤ S.association.units association.old }
{
    let (kind, parameter) = config.reliability.parts();
    Asked::of(association.set_reliability(id, !config.ordered, kind, parameter))
}

/// Starts an association as the client or as the server.
pub fn start<S: Association>(association: &mut S, client: bool, now: Moment, max_send: u32) -> Asked
    requires { S.association.started association.old ≡ false }
    ensures asks { AsksStart S.association client association.old now max_send result association.new }
{
    if client {
        return Asked::of(association.connect(now, max_send));
    }
    Asked::of(association.accept(now, max_send))
}

pub fn shut<S: Association>(association: &mut S) -> Asked
    requires { S.association.started association.old ≡ true }
    ensures asks { AsksShutdown S.association association.old result association.new }
{
    Asked::of(association.shutdown())
}
