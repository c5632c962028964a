//! SSRCs that are drawn, and what is sent to the media of the other side.
ghost use Rattle.rtc_peer_direct.specs.SourcesAndFeedback.{DrawsSource, SetsRed, EnablesTwcc, SendsAppFeedback, SendsPli};

use rtc_parts::{Association, Ids, MediaSession};
use rtc_peer_sdp::{EarlierNumbers, draw_source};
use rtc_peer_transport::PolledPeer;
use rtc_sdp_values::{Mid, Ssrc};
use std::alloc::AllocError;

/// Returns an unused SSRC (if all 2^32 are in use, the one drawn).
pub fn draw_ssrc<I, D, S: Association, M: MediaSession, N: Ids>(
    peer: &mut PolledPeer<I, D, S, M, N>,
) -> Ssrc
    ensures { DrawsSource M.media N.ids peer.old result peer.new }
{
    let earlier = EarlierNumbers::new(peer.core.alloc);
    draw_source(&mut peer.core.ids, &peer.core.media, &earlier)
}

/// Switches redundancy (RFC 2198) of what a line sends on or off. False if the line has no redundancy.
pub fn set_red_send<I, D, S: Association, M: MediaSession, N>(
    peer: &mut PolledPeer<I, D, S, M, N>,
    mid: Mid,
    on: bool,
) -> bool
    ensures { SetsRed M.media mid on peer.old result peer.new }
{
    peer.core.media.set_red_send(mid, on)
}

/// Switches on feedback on the congestion of the whole transport.
pub fn enable_twcc_feedback<I, D, S: Association, M: MediaSession, N>(
    peer: &mut PolledPeer<I, D, S, M, N>,
)
    ensures { EnablesTwcc M.media peer.old peer.new }
{
    peer.core.media.enable_twcc_feedback();
}

/// Sends feedback that the application defines (RFC 4585, section 6.4).
pub fn send_app_specific_feedback<I, D, S: Association, M: MediaSession, N>(
    peer: &mut PolledPeer<I, D, S, M, N>,
    sender: Ssrc,
    media_source: Ssrc,
    payload: &[u8],
) -> Result<(), AllocError>
    ensures { SendsAppFeedback M.media sender media_source payload.now peer.old result peer.new }
{
    peer.core
        .media
        .send_app_specific_feedback(sender, media_source, payload)
}

/// Asks for a new picture (RFC 4585, section 6.3.1).
pub fn send_pli_feedback<I, D, S: Association, M: MediaSession, N>(
    peer: &mut PolledPeer<I, D, S, M, N>,
    sender: Ssrc,
    media_source: Ssrc,
) -> Result<(), AllocError>
    ensures { SendsPli M.media sender media_source peer.old result peer.new }
{
    peer.core.media.send_pli_feedback(sender, media_source)
}
