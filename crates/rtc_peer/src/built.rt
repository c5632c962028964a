//! What a peer is built from.
ghost use Rattle.std.specs.Prelude.{◌≡◌, IfOk, None, true, false};
ghost use Rattle.rtc_peer_core.specs.Built.{AreFresh, Builds};
ghost use Rattle.rtc_config.specs.RtcConfig.{default_config};
ghost use Rattle.rtc_peer_core.specs.Formats.{config_formats, AreFormedFormats};
ghost use Rattle.rtc_peer_core.specs.Formed.{IsFormed};
ghost use Rattle.rtc_peer_core.specs.Meanings.{meanings};
ghost use Rattle.rtc_peer_core.specs.Stance.{stance_of};
ghost use Rattle.rtc_peer_transport.specs.Connection.{no_transport};
ghost use Rattle.rtc_ready.specs.Signals.{both};

use crate::Rtc;
use rtc_config::RtcConfig;
use rtc_lines::CodecConfig;
use rtc_parts::{Association, DtlsInstance, IceAgent, Ids, MediaSession};
use rtc_wire::Moment;
use std::alloc::{AllocError, Global};

// The default config, whose codecs and header extensions are formed.
#[tactic(auto, using(rtc_peer_core::proofs::BuiltPeers::formats_formed))]
fn make_default(alloc: Global) -> Result<RtcConfig, AllocError>
    ensures value { IfOk result (λ config. config ≡ default_config) }
    ensures formed { IfOk result (λ config. AreFormedFormats (config_formats config)) }
{
    let config = RtcConfig::new(alloc)?;
    Ok(config)
}

impl<
    I: IceAgent + Drop,
    D: DtlsInstance + Drop,
    S: Association + Drop,
    M: MediaSession + Drop,
    N: Ids + Drop,
> Rtc<I, D, S, M, N> {
    /// The peer of the default config over five fresh parts.
    pub fn new(
        alloc: Global,
        start: Moment,
        ice: I,
        dtls: D,
        association: S,
        media: M,
        ids: N,
    ) -> Result<Rtc<I, D, S, M, N>, AllocError>
        requires fresh { AreFresh (meanings I.ice D.dtls S.association M.media N.ids) ice dtls association media }
        ensures built { IfOk result (λ rtc. Builds (meanings I.ice D.dtls S.association M.media N.ids)
            alloc default_config start ice dtls association media ids rtc.core) }
        ensures unconnected { IfOk result (λ rtc. rtc.transport ≡ no_transport true false None) }
        ensures awake { IfOk result (λ rtc. rtc.signals ≡ both) }
        ensures formed { IfOk result (λ rtc. IsFormed (stance_of (meanings I.ice D.dtls S.association M.media N.ids) rtc.core)) }
    {
        let config = make_default(alloc)?;
        Rtc::build(alloc, config, start, ice, dtls, association, media, ids)
    }
}

impl<I: IceAgent, D: DtlsInstance, S: Association, M: MediaSession, N: Ids> Rtc<I, D, S, M, N> {
    /// The default config, whose setters say what a peer is built from.
    pub fn builder(alloc: Global) -> Result<RtcConfig, AllocError>
        ensures value { IfOk result (λ config. config ≡ default_config) }
        ensures formed { IfOk result (λ config. AreFormedFormats (config_formats config)) }
    {
        make_default(alloc)
    }

    /// The codecs of the config that it was built from. Negotiation leaves them as they are: what a line has is its own.
    pub fn codec_config(&self) -> &CodecConfig
        ensures { result.now ≡ self.now.core.formats.codecs }
    {
        &self.polled.core.formats.codecs
    }
}
