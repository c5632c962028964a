//! Moments that the streams and the channels are given.
ghost use Rattle.rtc_peer_polling.specs.Inputs.{StreamsTimed, ChannelsTimed};

use rtc_channels::ChannelHandler;
use rtc_parts::Association;
use rtc_ready::Readiness;
use rtc_sctp::RtcSctp;
use rtc_wire::Moment;
use std::alloc::AllocError;

/// Gives the association and the streams over it a moment. A moment raises both signals of the peer, and no mark of the wake is kept.
pub(crate) fn time_sctp<S: Association>(
    sctp: &mut RtcSctp<S>,
    now: Moment,
) -> Result<(), AllocError>
    ensures { StreamsTimed S.association now sctp.old result sctp.new }
{
    let mut readiness = Readiness::armed();
    let mut wake = readiness.wake();
    let timed = sctp.handle_timeout(now, &mut wake);
    readiness.fold(wake);
    timed
}

/// Gives streams to channels, and opens those that are confirmed.
pub(crate) fn time_handler<S: Association>(
    channels: &mut ChannelHandler,
    sctp: &mut RtcSctp<S>,
    now: Moment,
) -> Result<(), AllocError>
    ensures { ChannelsTimed S.association channels.old sctp.old result channels.new sctp.new }
{
    let mut readiness = Readiness::armed();
    let mut wake = readiness.wake();
    let timed = channels.handle_timeout(now, sctp, &mut wake);
    readiness.fold(wake);
    timed
}
