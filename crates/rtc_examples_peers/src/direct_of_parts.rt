//! Peers that are driven without session descriptions.
use crate::direct::Direct;
use crate::introduction::Introduction;
use rtc_examples_cases::{every, gives, is_ok};
use rtc_peer::{
    Association, Candidate, DtlsInstance, IceAgent, IceCreds, Ids, MediaKind, MediaSession, Mid,
    Rtc, SctpInitData, Ssrc,
};
use rtc_wire::{ChannelConfig, ChannelId};
use std::alloc::AllocError;

fn has_ufrag(creds: Result<IceCreds, AllocError>, ufrag: &str) -> bool {
    match creds {
        Ok(creds) => creds.ufrag.as_str() == ufrag,
        Err(_) => false,
    }
}

impl<I: IceAgent, D: DtlsInstance, S: Association, M: MediaSession, N: Ids> Direct
    for Rtc<I, D, S, M, N> {
    fn takes_parts(&mut self, given: Introduction, ufrag: &str, here: &Candidate) -> bool {
        let Introduction {
            own,
            other,
            announced,
            there,
        } = given;
        let added = is_ok(self.add_remote_candidate(there));
        let mut api = self.direct_api();
        api.set_ice_controlling(true);
        api.set_ice_lite(false);
        api.set_local_ice_credentials(own);
        let set = has_ufrag(api.local_ice_credentials(), ufrag);
        api.set_remote_ice_credentials(other);
        api.set_remote_fingerprint(announced);
        let hashed = api.local_dtls_fingerprint().hash_func.as_str() == "sha-256";
        let unknown = api.remote_dtls_fingerprint().is_none();
        let unversioned = api.dtls_protocol_version().is_none();
        let withdrawn = api.invalidate_candidate(here);
        every(&[added, set, hashed, unknown, unversioned, !withdrawn])
    }

    fn learns(&mut self, other: IceCreds, there: Candidate) -> bool {
        self.direct_api().set_remote_ice_credentials(other);
        is_ok(self.add_remote_candidate(there))
    }

    fn begins(&mut self, given: Introduction, active: bool, channel: ChannelConfig) -> bool {
        let Introduction {
            own,
            other,
            announced,
            there,
        } = given;
        let added = is_ok(self.add_remote_candidate(there));
        let mut api = self.direct_api();
        api.set_ice_controlling(active);
        api.set_local_ice_credentials(own);
        api.set_remote_ice_credentials(other);
        api.set_remote_fingerprint(announced);
        let secured = is_ok(api.start_dtls(active));
        let started = is_ok(api.start_sctp(active));
        let made = gives(api.create_data_channel(channel), &ChannelId::new(0));
        every(&[added, secured, started, made])
    }

    fn starts(&mut self, half: SctpInitData, halves: SctpInitData) -> bool {
        let mut api = self.direct_api();
        let early = is_ok(api.start_sctp_with_snap(true, half));
        let started = is_ok(api.start_sctp_with_snap(true, halves));
        let again = is_ok(api.start_sctp(false));
        every(&[!early, started, again])
    }

    fn makes_channels(
        &mut self,
        first: ChannelConfig,
        again: ChannelConfig,
        other: ChannelConfig,
    ) -> bool {
        let mut api = self.direct_api();
        let started = is_ok(api.start_sctp(true));
        let one = gives(api.create_data_channel(first), &ChannelId::new(0));
        let refused = is_ok(api.create_data_channel(again));
        let two = gives(api.create_data_channel(other), &ChannelId::new(1));
        let used = api.channel_id_by_sctp_stream_id(4).is_some();
        let has = api
            .sctp_stream_id_by_channel_id(ChannelId::new(0))
            .is_some();
        every(&[started, one, !refused, two, !used, !has])
    }

    fn closes_channel(&mut self) -> bool {
        is_ok(self.direct_api().close_data_channel(ChannelId::new(0)))
    }

    fn takes_roles(&mut self) -> bool {
        let mut api = self.direct_api();
        let first = is_ok(api.start_dtls(false));
        first & is_ok(api.start_dtls(true))
    }

    fn sends_feedback(&mut self, mid: Mid) -> bool {
        let mut api = self.direct_api();
        api.enable_twcc_feedback();
        let sent = is_ok(api.send_app_specific_feedback(Ssrc(1), Ssrc(2), b"\x05\x06"));
        let wished = is_ok(api.send_pli_feedback(Ssrc(1), Ssrc(2)));
        let redundant = api.set_red_send(mid, true);
        every(&[sent, wished, !redundant])
    }

    fn declares_lines(&mut self, first: Mid, last: Mid) -> bool {
        let mut api = self.direct_api();
        let once = gives(api.declare_media(first, MediaKind::Audio), &true);
        let twice = gives(api.declare_media(first, MediaKind::Video), &false);
        let other = gives(api.declare_media(last, MediaKind::Audio), &true);
        let stopped = api.remove_media(first);
        let kept = gives(api.declare_media(first, MediaKind::Audio), &false);
        let went = api.remove_media(last);
        let gone = api.remove_media(last);
        let again = gives(api.declare_media(last, MediaKind::Video), &true);
        every(&[once, twice, other, stopped, kept, went, !gone, again])
    }

    fn ends(&mut self) -> bool {
        let alive = self.is_alive();
        self.disconnect();
        let over = !self.is_alive();
        self.disconnect();
        every(&[alive, over, !self.is_alive()])
    }
}
