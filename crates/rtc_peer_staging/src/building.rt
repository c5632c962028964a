//! Peers that are built.
ghost use Rattle.std.specs.Prelude.{◌≡◌, ◌≤◌, ◌<◌, ◌^◌, false, IfOk, OnOk, length, ℕ};
ghost use Rattle.std.specs.Option.{option_copied};
ghost use Rattle.rtc_parts.specs.DtlsState.{BeginsDtls};
ghost use Rattle.rtc_peer_core.specs.Built.{Builds, creds_or, after_creds, cert_or, after_cert};
ghost use Rattle.rtc_peer_core.specs.Built.{empty_peer as EmptyPeer, payload_of_mtu, limited_streams, allowed_halves, streams_of_config};
ghost use Rattle.rtc_peer_core.specs.Formats.{config_formats};
ghost use Rattle.rtc_peer_core.specs.Meanings.{meanings};

use rtc_change::Lines;
use rtc_channels::ChannelHandler;
use rtc_config::RtcConfig;
use rtc_parts::{Association, Dtls, DtlsInstance, IceAgent, Ids, MediaSession};
use rtc_peer_core::{Formats, Peer, Phase, Staged, Undo};
use rtc_peer_sdp::make_creds;
use rtc_sctp::RtcSctp;
use rtc_sdp_values::IceCreds;
use rtc_wire::{Bytes, Moment, TryCopy};
use std::alloc::{AllocError, Global};

// The credentials that are given, or else those that are drawn.
fn take_creds<N: Ids>(
    alloc: Global,
    ids: &mut N,
    given: &Option<IceCreds>,
) -> Result<IceCreds, AllocError>
    ensures creds { IfOk result (λ creds. creds ≡ creds_or N.ids given.now ids.old) }
    ensures after { OnOk result (ids.new ≡ after_creds N.ids given.now ids.old) }
{
    match given {
        Some(creds) => creds.copy(),
        None => {
            let n = ids.draw();
            make_creds(alloc, n)
        }
    }
}

// The certificate that is given, or else one that is drawn.
fn make_cert<N: Ids>(alloc: Global, ids: &mut N, given: Option<&[u8]>) -> Result<Bytes, AllocError>
    ensures cert { IfOk result (λ cert. cert ≡ cert_or N.ids (option_copied given.entry) ids.old) }
    ensures after { OnOk result (ids.new ≡ after_cert N.ids (option_copied given.entry) ids.old) }
{
    match given {
        Some(cert) => {
            let copied = Vec::from_slice(alloc, cert)?;
            Ok(Bytes::new(copied))
        }
        None => {
            let n = ids.draw();
            let bytes = Vec::from_slice(alloc, &n.to_be_bytes())?;
            Ok(Bytes::new(bytes))
        }
    }
}

// What the descriptions of a peer carry of it, and the DTLS part that has its certificate.
#[derive(Drop)]
struct OwnSide<D> {
    creds: IceCreds,
    dtls: Dtls<D>,
}

// The credentials, and the DTLS part that is given the certificate. Those that the config has not are drawn.
fn draw_own<D: DtlsInstance + Drop, N: Ids>(
    alloc: Global,
    config: &RtcConfig,
    ids: &mut N,
    dtls: D,
) -> Result<OwnSide<D>, AllocError>
    ensures creds { IfOk result (λ own. own.creds ≡ creds_or N.ids config.now.ice.credentials ids.old) }
    ensures dtls { IfOk result (λ own. BeginsDtls D.dtls
        (cert_or N.ids config.now.dtls.cert (after_creds N.ids config.now.ice.credentials ids.old)) dtls config.now.mtu own.dtls) }
    ensures after { OnOk result (ids.new
        ≡ after_cert N.ids config.now.dtls.cert (after_creds N.ids config.now.ice.credentials ids.old)) }
{
    let creds = take_creds(alloc, ids, config.local_ice_credentials())?;
    let cert = make_cert(alloc, ids, config.dtls_cert())?;
    let mtu = (config.mtu(), config.mtu_warn());
    let dtls = Dtls::new(alloc, cert.as_slice(), dtls, mtu)?;
    Ok(OwnSide { creds, dtls })
}

// Streams over a fresh association, with the limits that a config says.
fn limit_streams<S: Association>(
    alloc: Global,
    config: &RtcConfig,
    start: Moment,
    association: S,
) -> RtcSctp<S>
    requires { S.association.fresh association }
    ensures limits { S.association.limits_set association (payload_of_mtu config.now.mtu.0) config.now.sctp.max_message_size
        result.association }
    ensures made { result ≡ limited_streams config.now start result.association }
    ensures unstarted { S.association.started result.association ≡ false }
{
    let mtu = config.mtu();
    let size = config.sctp_max_message_size();
    let mut sctp = RtcSctp::new(alloc, mtu, size, start, association);
    sctp.set_max_buffered_amount(config.sctp_max_buffered_amount());
    sctp
}

// Allows a start by session descriptions, or does not.
fn allow_snap<S: Association>(sctp: &mut RtcSctp<S>, allowed: bool)
    requires { S.association.started sctp.old.association ≡ false }
    ensures { sctp.new ≡ record sctp.old { snap = allowed_halves allowed sctp.old.local_max sctp.old.snap } }
{
    if allowed {
        sctp.enable_snap();
    }
}

// The streams of a peer over a fresh association, as its config says.
fn make_streams<S: Association>(
    alloc: Global,
    config: &RtcConfig,
    start: Moment,
    association: S,
) -> RtcSctp<S>
    requires { S.association.fresh association }
    ensures limits { S.association.limits_set association (payload_of_mtu config.now.mtu.0) config.now.sctp.max_message_size
        result.association }
    ensures made { result ≡ streams_of_config config.now start result.association }
{
    let mut sctp = limit_streams(alloc, config, start, association);
    allow_snap(&mut sctp, config.snap_enabled());
    sctp
}

// Gives an agent the times of its checks.
fn set_times<I: IceAgent>(ice: &mut I, config: &RtcConfig)
    ensures { I.ice.rto_set ice.old config.now.ice.initial_stun_rto config.now.ice.max_stun_rto config.now.ice.max_stun_retransmits
        ice.new }
{
    let initial = config.initial_stun_rto();
    let most = config.max_stun_rto();
    ice.set_rto(initial, most, config.max_stun_retransmits());
}

// The codecs and header extensions of a config.
fn take_formats(config: RtcConfig) -> Formats
    ensures { result ≡ config_formats config }
{
    let session_ids = config.session_extension_ids();
    let (codecs, extensions) = config.into_formats();
    Formats {
        codecs,
        extensions,
        session_ids,
    }
}

fn empty_peer<I, D, S: Association, M, N>(
    alloc: Global,
    formats: Formats,
    polite: Option<bool>,
    session_id: u64,
    start: Moment,
    ice: I,
    dtls: Dtls<D>,
    sctp: RtcSctp<S>,
    media: M,
    ids: N,
) -> Peer<I, D, S, M, N>
    ensures { result ≡ EmptyPeer alloc formats polite session_id start ice dtls sctp media ids }
{
    Peer {
        alloc,
        formats,
        lines: Lines::new(alloc),
        staged: Staged::new(alloc),
        undo: Undo::new(alloc),
        channels: ChannelHandler::new(alloc),
        counter: 0,
        outstanding: false,
        polite,
        session_id,
        phase: Phase::Alive,
        fingerprint: None,
        greatest: start,
        ice,
        dtls,
        sctp,
        media,
        ids,
    }
}

/// A peer with no rows over fresh parts, as its config says. Its session number is drawn, and credentials and
/// certificate are if none are set.
pub fn build_peer<
    I: IceAgent + Drop,
    D: DtlsInstance + Drop,
    S: Association + Drop,
    M: MediaSession + Drop,
    N: Ids + Drop,
>(
    alloc: Global,
    config: RtcConfig,
    start: Moment,
    mut ice: I,
    mut dtls: D,
    association: S,
    mut media: M,
    mut ids: N,
) -> Result<Peer<I, D, S, M, N>, AllocError>
    requires { S.association.fresh association }
    ensures { IfOk result (λ p. Builds (meanings I.ice D.dtls S.association M.media N.ids)
        alloc config start ice dtls association media ids p) }
{
    let session_id = ids.draw();
    dtls.set_version(config.dtls_version());
    let OwnSide { creds, dtls } = match draw_own(alloc, &config, &mut ids, dtls) {
        Ok(own) => own,
        Err(error) => {
            drop((config, ice, association, media, ids));
            return Err(error);
        }
    };
    set_times(&mut ice, &config);
    ice.set_ice_lite(config.ice_lite());
    ice.set_local_credentials(creds);
    media.configure(config.media_settings());
    let sctp = make_streams(alloc, &config, start, association);
    let polite = config.polite();
    let formats = take_formats(config);
    Ok(empty_peer(
        alloc, formats, polite, session_id, start, ice, dtls, sctp, media, ids,
    ))
}
