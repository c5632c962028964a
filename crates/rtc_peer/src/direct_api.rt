//! The handle by which a user drives a peer without session descriptions.
ghost use Rattle.std.specs.Prelude.{◌≡◌, IfOk, MatchOption, None, Some, map};
ghost use Rattle.rtc_channels.specs.Channels.{channel_of_stream, numbered_stream};
ghost use Rattle.rtc_peer_core.specs.Meanings.{meanings};
ghost use Rattle.rtc_peer_transport.specs.ChannelCalls.{ClosesDataChannel, stream_under};
ghost use Rattle.rtc_peer_direct.specs.IceCalls.{SetsControlling, SetsLite, SetsLocalCreds, SetsRemoteCreds, InvalidatesCandidate};
ghost use Rattle.rtc_peer_direct.specs.DtlsCalls.{with_fingerprint, TakesDtlsRole};
ghost use Rattle.rtc_peer_direct.specs.ChannelMaking.{StartsStreams, CreatesChannel};
ghost use Rattle.rtc_peer.specs.CachedPeer.{polled_of};

use crate::Rtc;
use crate::waking::wake_all;
use rtc_lines::{Candidate, Fingerprint, IceCreds};
use rtc_parts::{Association, DtlsInstance, DtlsVersion, IceAgent, Ids, MediaSession};
use rtc_peer_core::RtcError;
use rtc_peer_direct::{
    copy_local_credentials, create_data_channel, invalidate_candidate, set_ice_controlling,
    set_ice_lite, set_local_credentials, set_remote_credentials, set_remote_fingerprint,
    start_dtls, start_sctp, start_sctp_with_snap,
};
use rtc_sctp::SctpInitData;
use rtc_wire::{ChannelConfig, ChannelId};
use std::alloc::AllocError;

/// A handle to drive a peer without session descriptions, if both sides agree out-of-band.
///
/// Its calls act at once, also on a peer that is closing or closed.
pub struct DirectApi<'a, I: IceAgent, D: DtlsInstance, S: Association, M: MediaSession, N: Ids> {
    pub(crate) rtc: &'a mut Rtc<I, D, S, M, N>,
}

impl<I: IceAgent, D: DtlsInstance, S: Association, M: MediaSession, N: Ids> Drop
    for DirectApi<'_, I, D, S, M, N> {
    fn drop(self)
        ensures { self.exit.0.now ≡ self.entry.rtc.now }
    {
        let DirectApi { rtc: _ } = self;
    }
}

impl<I: IceAgent, D: DtlsInstance, S: Association, M: MediaSession, N: Ids> Rtc<I, D, S, M, N> {
    /// A handle by which a user drives the peer without session descriptions.
    pub fn direct_api(&mut self) -> DirectApi<'_, I, D, S, M, N>
        ensures same_reference { result.rtc.ghost_name ≡ self.entry.ghost_name }
        ensures peer { result.rtc.now ≡ self.old }
    {
        DirectApi { rtc: self }
    }
}

impl<'a, I: IceAgent, D: DtlsInstance, S: Association, M: MediaSession, N: Ids> DirectApi<
    'a,
    I,
    D,
    S,
    M,
    N,
> {
    /// A handle on a peer, which is as before.
    pub fn new(rtc: &'a mut Rtc<I, D, S, M, N>) -> DirectApi<'a, I, D, S, M, N>
        ensures same_reference { result.rtc.ghost_name ≡ rtc.entry.ghost_name }
        ensures peer { result.rtc.now ≡ rtc.old }
    {
        DirectApi { rtc }
    }
}

impl<'a, I: IceAgent, D: DtlsInstance, S: Association, M: MediaSession, N: Ids> DirectApi<
    'a,
    I,
    D,
    S,
    M,
    N,
> {
    /// Sets whether this side is controlling (RFC 8445, section 6.1.1).
    pub fn set_ice_controlling(&mut self, on: bool)
        ensures same_reference { self.new.rtc.ghost_name ≡ self.old.rtc.ghost_name }
        ensures does { SetsControlling I.ice on (polled_of self.old.rtc.now) (polled_of self.new.rtc.now) }
    {
        let rtc = &mut *self.rtc;
        wake_all(&mut rtc.readiness);
        set_ice_controlling(&mut rtc.polled, on);
    }

    /// Sets whether this side only answers checks (RFC 8445, section 2.5).
    pub fn set_ice_lite(&mut self, on: bool)
        ensures same_reference { self.new.rtc.ghost_name ≡ self.old.rtc.ghost_name }
        ensures does { SetsLite I.ice on (polled_of self.old.rtc.now) (polled_of self.new.rtc.now) }
    {
        let rtc = &mut *self.rtc;
        wake_all(&mut rtc.readiness);
        set_ice_lite(&mut rtc.polled, on);
    }

    /// Sets the credentials of this side.
    pub fn set_local_ice_credentials(&mut self, creds: IceCreds)
        ensures same_reference { self.new.rtc.ghost_name ≡ self.old.rtc.ghost_name }
        ensures does { SetsLocalCreds I.ice creds (polled_of self.old.rtc.now) (polled_of self.new.rtc.now) }
    {
        let rtc = &mut *self.rtc;
        wake_all(&mut rtc.readiness);
        set_local_credentials(&mut rtc.polled, creds);
    }

    /// Sets the credentials of the other side.
    pub fn set_remote_ice_credentials(&mut self, creds: IceCreds)
        ensures same_reference { self.new.rtc.ghost_name ≡ self.old.rtc.ghost_name }
        ensures does { SetsRemoteCreds I.ice creds (polled_of self.old.rtc.now) (polled_of self.new.rtc.now) }
    {
        let rtc = &mut *self.rtc;
        wake_all(&mut rtc.readiness);
        set_remote_credentials(&mut rtc.polled, creds);
    }

    /// Stops using a candidate. Returns whether it was there.
    pub fn invalidate_candidate(&mut self, candidate: &Candidate) -> bool
        ensures same_reference { self.new.rtc.ghost_name ≡ self.old.rtc.ghost_name }
        ensures does { InvalidatesCandidate I.ice candidate.now result (polled_of self.old.rtc.now) (polled_of self.new.rtc.now) }
    {
        let rtc = &mut *self.rtc;
        wake_all(&mut rtc.readiness);
        invalidate_candidate(&mut rtc.polled, candidate)
    }

    /// The credentials of this side, copied.
    pub fn local_ice_credentials(&self) -> Result<IceCreds, AllocError>
        ensures { IfOk result (λ creds. creds ≡ (I.ice.settings self.now.rtc.now.core.ice).local) }
    {
        let rtc = &*self.rtc;
        copy_local_credentials(&rtc.polled)
    }

    /// Sets the fingerprint that the certificate of the other side has to match (RFC 8122, section 5).
    pub fn set_remote_fingerprint(&mut self, fingerprint: Fingerprint)
        ensures same_reference { self.new.rtc.ghost_name ≡ self.old.rtc.ghost_name }
        ensures does { polled_of self.new.rtc.now ≡ with_fingerprint fingerprint (polled_of self.old.rtc.now) }
    {
        let rtc = &mut *self.rtc;
        wake_all(&mut rtc.readiness);
        set_remote_fingerprint(&mut rtc.polled, fingerprint);
    }

    /// Takes a DTLS role; an active side begins the handshake. Ok, and nothing happens, if there is a role.
    pub fn start_dtls(&mut self, active: bool) -> Result<(), RtcError>
        ensures same_reference { self.new.rtc.ghost_name ≡ self.old.rtc.ghost_name }
        ensures does { TakesDtlsRole D.dtls active (polled_of self.old.rtc.now) result (polled_of self.new.rtc.now) }
    {
        let rtc = &mut *self.rtc;
        wake_all(&mut rtc.readiness);
        start_dtls(&mut rtc.polled, active)
    }

    /// The SHA-256 fingerprint of the certificate of this side (RFC 8122, section 5).
    pub fn local_dtls_fingerprint(&self) -> &Fingerprint
        ensures { result.now ≡ self.now.rtc.now.core.dtls.local }
    {
        let rtc = &*self.rtc;
        rtc.polled.core.dtls.local_fingerprint()
    }

    /// The fingerprint of the certificate that the other side showed.
    pub fn remote_dtls_fingerprint(&self) -> Option<&Fingerprint>
        ensures { MatchOption result (self.now.rtc.now.core.dtls.remote ≡ None)
            (λ f. self.now.rtc.now.core.dtls.remote ≡ Some f.now) }
    {
        let rtc = &*self.rtc;
        rtc.polled.core.dtls.remote_fingerprint()
    }

    /// The version that the handshake gave; None before.
    pub fn dtls_protocol_version(&self) -> Option<DtlsVersion>
        ensures { result ≡ D.dtls.version self.now.rtc.now.core.dtls.instance }
    {
        let rtc = &*self.rtc;
        rtc.polled.core.dtls.protocol_version()
    }

    /// Starts the association as client or as server. Ok, and nothing happens, if it was started before.
    pub fn start_sctp(&mut self, client: bool) -> Result<(), RtcError>
        ensures same_reference { self.new.rtc.ghost_name ≡ self.old.rtc.ghost_name }
        ensures does { StartsStreams S.association client None (polled_of self.old.rtc.now) result (polled_of self.new.rtc.now) }
    {
        let rtc = &mut *self.rtc;
        wake_all(&mut rtc.readiness);
        start_sctp(&mut rtc.polled, client)
    }

    /// Starts the association by both SNAP INIT chunks (draft-hancke-tsvwg-snap): it is established at once, and later
    /// session descriptions carry this side's chunk. `SnapHalf`, and nothing happens, if a chunk is missing. Ok, and
    /// nothing happens, if it was started before.
    pub fn start_sctp_with_snap(
        &mut self,
        client: bool,
        halves: SctpInitData,
    ) -> Result<(), RtcError>
        ensures same_reference { self.new.rtc.ghost_name ≡ self.old.rtc.ghost_name }
        ensures does { StartsStreams S.association client (Some halves) (polled_of self.old.rtc.now) result (polled_of self.new.rtc.now) }
    {
        let rtc = &mut *self.rtc;
        wake_all(&mut rtc.readiness);
        start_sctp_with_snap(&mut rtc.polled, client, halves)
    }

    /// Makes a channel, and returns its number. It is opened once the association is started and it has a stream.
    pub fn create_data_channel(&mut self, config: ChannelConfig) -> Result<ChannelId, RtcError>
        ensures same_reference { self.new.rtc.ghost_name ≡ self.old.rtc.ghost_name }
        ensures does { CreatesChannel config (polled_of self.old.rtc.now) result (polled_of self.new.rtc.now) }
    {
        let rtc = &mut *self.rtc;
        wake_all(&mut rtc.readiness);
        create_data_channel(&mut rtc.polled, config)
    }

    /// Closes a data channel: its stream, if it has one, is reset (RFC 8831, section 6.7). Nothing happens if there is
    /// no such channel, or it has no stream yet.
    pub fn close_data_channel(&mut self, id: ChannelId) -> Result<(), AllocError>
        ensures same_reference { self.new.rtc.ghost_name ≡ self.old.rtc.ghost_name }
        ensures does { ClosesDataChannel (meanings I.ice D.dtls S.association M.media N.ids) id (polled_of self.old.rtc.now) result
            (polled_of self.new.rtc.now) }
    {
        let rtc = &mut *self.rtc;
        wake_all(&mut rtc.readiness);
        rtc.polled.close_data_channel(id)
    }

    /// The channel that a stream was given to.
    pub fn channel_id_by_sctp_stream_id(&self, s: u16) -> Option<ChannelId>
        ensures { result ≡ channel_of_stream s (map numbered_stream self.now.rtc.now.core.channels.rows) }
    {
        let rtc = &*self.rtc;
        rtc.polled.core.channels.channel_id_by_stream_id(s)
    }

    /// The stream that a channel was given.
    pub fn sctp_stream_id_by_channel_id(&self, id: ChannelId) -> Option<u16>
        ensures { result ≡ stream_under id self.now.rtc.now.core.channels }
    {
        let rtc = &*self.rtc;
        rtc.polled.core.channels.stream_id_by_channel_id(id)
    }
}
