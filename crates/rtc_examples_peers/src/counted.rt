//! Peers whose calls of parts are counted.
ghost use Rattle.rtc_peer_core.specs.Built.{AreFresh};
ghost use Rattle.rtc_peer_core.specs.Meanings.{meanings};

use crate::building::build;
use crate::configs::{left_config, right_config};
use crate::peer_parts::PeerParts;
use crate::resting::does_rest;
use rtc_assoc_end::PlainAssociation;
use rtc_faulty::{CallCounts, Counted};
use rtc_peer::{Association, DtlsInstance, IceAgent, Ids, MediaSession, Rtc};
use rtc_plain::{CountIds, PlainDtls, PlainIce, PlainMedia, PlainMediaEvent};
use std::alloc::{AllocError, Global};
use std::rc::Rc;

// Whether the peer over the left parts rests, given the counts of their calls.
fn rests_over<
    I: IceAgent + Drop,
    D: DtlsInstance + Drop,
    S: Association + Drop,
    M: MediaSession<E = PlainMediaEvent> + Drop,
    N: Ids + Drop,
>(
    alloc: Global,
    left: PeerParts<I, D, S, M, N>,
    right: PeerParts<I, D, S, M, N>,
    calls: &CallCounts,
    line: &str,
) -> Result<bool, AllocError>
    requires left { AreFresh (meanings I.ice D.dtls S.association M.media N.ids)
        left.ice left.dtls left.association left.media }
    requires right { AreFresh (meanings I.ice D.dtls S.association M.media N.ids)
        right.ice right.dtls right.association right.media }
{
    let mut left = build(alloc, left_config(alloc, "counted", line), left)?;
    let mut right = build(alloc, right_config(alloc, "counted"), right)?;
    does_rest::<Rtc<I, D, S, M, N>>(alloc, &mut left, &mut right, calls, line)
}

/// Whether a peer rests of which each call of a part is counted.
pub fn does_rest_counted(alloc: Global, line: &str) -> Result<bool, AllocError> {
    let calls = Rc::new(alloc, CallCounts::new())?;
    let other = Rc::new(alloc, CallCounts::new())?;
    let left = PeerParts {
        ice: Counted::new(PlainIce::new(alloc), Rc::clone(&calls)?),
        dtls: Counted::new(PlainDtls::new(alloc), Rc::clone(&calls)?),
        association: Counted::new(PlainAssociation::new(alloc), Rc::clone(&calls)?),
        media: Counted::new(PlainMedia::new(alloc), Rc::clone(&calls)?),
        ids: CountIds::starting(1),
    };
    let right = PeerParts {
        ice: Counted::new(PlainIce::new(alloc), Rc::clone(&other)?),
        dtls: Counted::new(PlainDtls::new(alloc), Rc::clone(&other)?),
        association: Counted::new(PlainAssociation::new(alloc), Rc::clone(&other)?),
        media: Counted::new(PlainMedia::new(alloc), Rc::clone(&other)?),
        ids: CountIds::starting(1_000_001),
    };
    let rests = rests_over::<
        Counted<PlainIce>,
        Counted<PlainDtls>,
        Counted<PlainAssociation>,
        Counted<PlainMedia>,
        CountIds,
    >(alloc, left, right, &calls, line)?;
    Ok(rests & (calls.total() > 0))
}
