//! Media lines and streams of a peer without session descriptions.
ghost use Rattle.std.specs.Prelude.{◌≡◌, true};
ghost use Rattle.rtc_peer_direct.specs.DeclaredRows.{DeclaresMedia, RemovesMedia};
ghost use Rattle.rtc_peer_direct.specs.SourcesAndFeedback.{DrawsSource, SetsRed, EnablesTwcc, SendsAppFeedback, SendsPli};
ghost use Rattle.rtc_peer_direct.specs.Streams.{RemovesRx, RemovesTx};
ghost use Rattle.rtc_peer.specs.CachedPeer.{polled_of};

use crate::DirectApi;
use crate::waking::{wake_all, wake_events};
use rtc_lines::{MediaKind, Mid, Ssrc};
use rtc_parts::{Association, DtlsInstance, IceAgent, Ids, MediaSession};
use rtc_peer_direct::{
    declare_media, draw_ssrc, enable_twcc_feedback, remove_media, remove_stream_rx,
    remove_stream_tx, send_app_specific_feedback, send_pli_feedback, set_red_send,
};
use std::alloc::AllocError;

impl<'a, I: IceAgent, D: DtlsInstance, S: Association, M: MediaSession, N: Ids> DirectApi<
    'a,
    I,
    D,
    S,
    M,
    N,
> {
    /// Returns an unused SSRC (if all 2^32 are in use, the one drawn).
    pub fn new_ssrc(&mut self) -> Ssrc
        ensures same_reference { self.new.rtc.ghost_name ≡ self.old.rtc.ghost_name }
        ensures does { DrawsSource M.media N.ids (polled_of self.old.rtc.now) result (polled_of self.new.rtc.now) }
    {
        let rtc = &mut *self.rtc;
        wake_all(&mut rtc.readiness);
        draw_ssrc(&mut rtc.polled)
    }

    /// Declares a media line behind the others, sendrecv and created here. False if a row has the mid.
    pub fn declare_media(&mut self, mid: Mid, kind: MediaKind) -> Result<bool, AllocError>
        ensures same_reference { self.new.rtc.ghost_name ≡ self.old.rtc.ghost_name }
        ensures does { DeclaresMedia mid kind (polled_of self.old.rtc.now) result (polled_of self.new.rtc.now) }
    {
        let rtc = &mut *self.rtc;
        wake_all(&mut rtc.readiness);
        declare_media(&mut rtc.polled, mid, kind)
    }

    /// Removes a media line with its streams: the last row is removed, another one is stopped for good. False if no media row has the mid.
    pub fn remove_media(&mut self, mid: Mid) -> bool
        ensures same_reference { self.new.rtc.ghost_name ≡ self.old.rtc.ghost_name }
        ensures does { RemovesMedia M.media mid (polled_of self.old.rtc.now) result (polled_of self.new.rtc.now) }
    {
        let rtc = &mut *self.rtc;
        wake_all(&mut rtc.readiness);
        remove_media(&mut rtc.polled, mid)
    }

    /// Switches redundancy (RFC 2198) of what a line sends on or off. False if the line has no redundancy.
    pub fn set_red_send(&mut self, mid: Mid, on: bool) -> bool
        ensures same_reference { self.new.rtc.ghost_name ≡ self.old.rtc.ghost_name }
        ensures does { SetsRed M.media mid on (polled_of self.old.rtc.now) result (polled_of self.new.rtc.now) }
    {
        let rtc = &mut *self.rtc;
        wake_all(&mut rtc.readiness);
        set_red_send(&mut rtc.polled, mid, on)
    }

    /// Switches on feedback on the congestion of the whole transport.
    pub fn enable_twcc_feedback(&mut self)
        ensures same_reference { self.new.rtc.ghost_name ≡ self.old.rtc.ghost_name }
        ensures does { EnablesTwcc M.media (polled_of self.old.rtc.now) (polled_of self.new.rtc.now) }
    {
        let rtc = &mut *self.rtc;
        wake_all(&mut rtc.readiness);
        enable_twcc_feedback(&mut rtc.polled);
    }

    /// Sends feedback that the application defines (RFC 4585, section 6.4). It moves no timer.
    pub fn send_app_specific_feedback(
        &mut self,
        sender: Ssrc,
        media_source: Ssrc,
        payload: &[u8],
    ) -> Result<(), AllocError>
        ensures same_reference { self.new.rtc.ghost_name ≡ self.old.rtc.ghost_name }
        ensures signals { self.new.rtc.now.signals ≡ record self.old.rtc.now.signals { events = true } }
        ensures does { SendsAppFeedback M.media sender media_source payload.now (polled_of self.old.rtc.now) result
            (polled_of self.new.rtc.now) }
    {
        let rtc = &mut *self.rtc;
        wake_events(&mut rtc.readiness);
        send_app_specific_feedback(&mut rtc.polled, sender, media_source, payload)
    }

    /// Asks for a new picture (RFC 4585, section 6.3.1).
    pub fn send_pli_feedback(&mut self, sender: Ssrc, media_source: Ssrc) -> Result<(), AllocError>
        ensures same_reference { self.new.rtc.ghost_name ≡ self.old.rtc.ghost_name }
        ensures does { SendsPli M.media sender media_source (polled_of self.old.rtc.now) result (polled_of self.new.rtc.now) }
    {
        let rtc = &mut *self.rtc;
        wake_all(&mut rtc.readiness);
        send_pli_feedback(&mut rtc.polled, sender, media_source)
    }

    /// Drops the received stream of an SSRC. False if there is none.
    pub fn remove_stream_rx(&mut self, ssrc: Ssrc) -> bool
        ensures same_reference { self.new.rtc.ghost_name ≡ self.old.rtc.ghost_name }
        ensures does { RemovesRx M.media ssrc (polled_of self.old.rtc.now) result (polled_of self.new.rtc.now) }
    {
        let rtc = &mut *self.rtc;
        wake_all(&mut rtc.readiness);
        remove_stream_rx(&mut rtc.polled, ssrc)
    }

    /// Drops the sent stream of an SSRC. False if there is none.
    pub fn remove_stream_tx(&mut self, ssrc: Ssrc) -> bool
        ensures same_reference { self.new.rtc.ghost_name ≡ self.old.rtc.ghost_name }
        ensures does { RemovesTx M.media ssrc (polled_of self.old.rtc.now) result (polled_of self.new.rtc.now) }
    {
        let rtc = &mut *self.rtc;
        wake_all(&mut rtc.readiness);
        remove_stream_tx(&mut rtc.polled, ssrc)
    }
}
