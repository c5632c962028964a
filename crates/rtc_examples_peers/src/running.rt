//! Examples that are run over peers with parts in memory.
ghost use Rattle.rtc_peer_core.specs.Built.{AreFresh};
ghost use Rattle.rtc_peer_core.specs.Meanings.{meanings};

use crate::building::build;
use crate::built::Built;
use crate::configs::{left_config, right_config};
use crate::direct::Direct;
use crate::examples::ask;
use crate::marks::Marks;
use crate::peer_parts::PeerParts;
use crate::polled::Polled;
use crate::reading::read_turns;
use crate::resting::Resting;
use crate::signals::Signals;
use rtc_assoc_end::PlainAssociation;
use rtc_peer::{Association, DtlsInstance, IceAgent, Ids, MediaSession, Mid, Rtc};
use rtc_plain::{CountIds, PlainDtls, PlainIce, PlainMark, PlainMedia, PlainMediaEvent};
use std::alloc::AllocError;
use std::rt::Files;

// Whether an example gives what is expected, if its files are there.
fn agrees<R: Files + AllocGlobal, P: Signals + Polled + Direct + Marks + Built + Resting>(
    rt: &R,
    left: &mut P,
    right: &mut P,
    subject: &str,
    name: &str,
) -> bool {
    let (Some(mid), Some(other)) = (Mid::read("a"), Mid::read("b")) else {
        return false;
    };
    let mut turns = Vec::new(rt.alloc());
    let read = read_turns(rt, &mut turns, subject, name);
    read & ask(
        rt.alloc(),
        left,
        right,
        (mid, other),
        (subject, name),
        turns.as_slice(),
    )
}

// The same if there was memory for both peers.
fn agrees_made<
    R: Files + AllocGlobal,
    P: Signals + Polled + Direct + Marks + Built + Resting + Drop,
>(
    rt: &R,
    left: Result<P, AllocError>,
    right: Result<P, AllocError>,
    subject: &str,
    name: &str,
) -> Result<bool, AllocError> {
    let mut left = left?;
    let mut right = right?;
    Ok(agrees(rt, &mut left, &mut right, subject, name))
}

// The same with peers that are built over these parts.
fn agrees_over<
    R: Files + AllocGlobal,
    I: IceAgent + Drop,
    D: DtlsInstance + Drop,
    S: Association + Drop,
    M: MediaSession<E = PlainMediaEvent, Rx = PlainMark, Tx = PlainMark> + Drop,
    N: Ids + Drop,
>(
    rt: &R,
    left: PeerParts<I, D, S, M, N>,
    right: PeerParts<I, D, S, M, N>,
    subject: &str,
    name: &str,
) -> Result<bool, AllocError>
    requires left { AreFresh (meanings I.ice D.dtls S.association M.media N.ids)
        left.ice left.dtls left.association left.media }
    requires right { AreFresh (meanings I.ice D.dtls S.association M.media N.ids)
        right.ice right.dtls right.association right.media }
{
    let alloc = rt.alloc();
    let left = build(alloc, left_config(alloc, subject, name), left);
    let right = build(alloc, right_config(alloc, subject), right);
    agrees_made::<R, Rtc<I, D, S, M, N>>(rt, left, right, subject, name)
}

/// Whether an example gives what is expected, with peers that draw numbers from 1 and from 1,000,001 on. This function
/// alone names parts in memory, and no peer over them.
pub fn does_agree<R: Files + AllocGlobal>(
    rt: &R,
    subject: &str,
    name: &str,
) -> Result<bool, AllocError> {
    let alloc = rt.alloc();
    let left = PeerParts {
        ice: PlainIce::new(alloc),
        dtls: PlainDtls::new(alloc),
        association: PlainAssociation::new(alloc),
        media: PlainMedia::new(alloc),
        ids: CountIds::starting(1),
    };
    let right = PeerParts {
        ice: PlainIce::new(alloc),
        dtls: PlainDtls::new(alloc),
        association: PlainAssociation::new(alloc),
        media: PlainMedia::new(alloc),
        ids: CountIds::starting(1_000_001),
    };
    agrees_over::<R, PlainIce, PlainDtls, PlainAssociation, PlainMedia, CountIds>(
        rt, left, right, subject, name,
    )
}
