//! Fresh peers.
ghost use Rattle.rtc_peer_core.specs.Built.{AreFresh};
ghost use Rattle.rtc_peer_core.specs.Meanings.{meanings};

use crate::peer_parts::PeerParts;
use rtc_peer::{Association, DtlsInstance, IceAgent, Ids, MediaSession, Rtc, RtcConfig};
use rtc_wire::Moment;
use std::alloc::{AllocError, Global};

/// A peer of a config, or of the default one, at moment 0 over these parts, if there was memory for the config. It is
/// over any parts, so that its check does not go through what those in memory consist of.
pub fn build<
    I: IceAgent + Drop,
    D: DtlsInstance + Drop,
    S: Association + Drop,
    M: MediaSession + Drop,
    N: Ids + Drop,
>(
    alloc: Global,
    config: Result<Option<RtcConfig>, AllocError>,
    parts: PeerParts<I, D, S, M, N>,
) -> Result<Rtc<I, D, S, M, N>, AllocError>
    requires fresh { AreFresh (meanings I.ice D.dtls S.association M.media N.ids)
        parts.ice parts.dtls parts.association parts.media }
{
    let PeerParts {
        ice,
        dtls,
        association,
        media,
        ids,
    } = parts;
    match config? {
        Some(config) => Rtc::build(
            alloc,
            config,
            Moment::FAR_PAST,
            ice,
            dtls,
            association,
            media,
            ids,
        ),
        None => Rtc::new(alloc, Moment::FAR_PAST, ice, dtls, association, media, ids),
    }
}
