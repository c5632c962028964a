//! Channels over the streams of an association.
ghost use Rattle.std.specs.Prelude.{◌≡◌, ◌+◌, ◌<◌, drop, length, map, slice_get};
ghost use Rattle.rtc_channels.specs.Kept.{config_taken};
ghost use Rattle.rtc_channels.specs.Channels.{numbered_stream, stream_of_channel};
ghost use Rattle.rtc_channels.specs.Openings.{OpensChannelAt, OpensAll, MeetsMoment, channels_wake, ClosesChannel};
ghost use Rattle.rtc_channels.specs.Openings.{is_progress_due as IsDue, can_open as CanOpen, opening_wake};

use crate::ChannelHandler;
use crate::kept::Kept;
use rtc_parts::Association;
use rtc_ready::Wake;
use rtc_sctp::RtcSctp;
use rtc_wire::{ChannelConfig, ChannelId, Moment};
use std::alloc::AllocError;

impl Kept {
    // Passes on what the channel is to be opened with.
    fn take_config(&mut self) -> Option<ChannelConfig>
        ensures config { result ≡ self.old.config }
        ensures taken { self.new ≡ config_taken self.old }
    {
        self.config.take()
    }
}

impl ChannelHandler {
    // Opens the stream of the channel at a place, if it has one and is confirmed.
    fn open_at<S: Association>(
        &mut self,
        place: usize,
        sctp: &mut RtcSctp<S>,
    ) -> Result<(), AllocError>
        requires { place < length self.old.rows }
        ensures opened { OpensChannelAt S.association (slice_get self.old.rows place) self.old sctp.old result self.new sctp.new }
        ensures behind { drop (place + 1) self.new.rows ≡ drop (place + 1) self.old.rows }
        ensures count { length self.new.rows ≡ length self.old.rows }
    {
        let Some(stream) = self.rows[place].1 else {
            return Ok(());
        };
        let Some(config) = self.kept[place].take_config() else {
            return Ok(());
        };
        sctp.open_stream(stream, config)
    }

    // Opens the streams of the channels that are confirmed, of which no settled one is.
    fn open_channels<S: Association>(&mut self, sctp: &mut RtcSctp<S>) -> Result<(), AllocError>
        ensures { OpensAll S.association self.old.rows self.old sctp.old result self.new sctp.new }
    {
        let count = self.count();
        let mut place = self.first_unsettled();
        'places: while place < count {
            match self.open_at(place, sctp) {
                Ok(()) => {}
                Err(error) => return Err(error),
            }
            place += 1;
        }
        Ok(())
    }

    // Whether the association was started, and a channel can be given a stream or opened.
    fn is_due<S: Association>(&self, sctp: &RtcSctp<S>) -> bool
        ensures { result ≡ IsDue S.association self.now sctp.now }
    {
        sctp.is_inited() && self.can_progress(sctp.is_client())
    }

    // Clears the events mark unless a stream can be opened.
    fn narrow(&self, wake: &mut Wake)
        ensures { wake.new ≡ opening_wake (CanOpen self.now.rows) wake.old }
    {
        if self.can_open() {
            return;
        }
        wake.no_events();
    }

    fn progress<S: Association>(
        &mut self,
        sctp: &mut RtcSctp<S>,
        wake: &mut Wake,
    ) -> Result<(), AllocError>
        ensures { MeetsMoment S.association (IsDue S.association self.old sctp.old) self.old sctp.old wake.old
            result self.new sctp.new wake.new }
    {
        if !self.is_due(sctp) {
            wake.no_events();
            wake.no_timeout();
            return Ok(());
        }
        match self.do_allocations(sctp.is_client()) {
            Ok(()) => {
                self.narrow(wake);
                self.open_channels(sctp)
            }
            Err(error) => {
                wake.no_events();
                Err(error)
            }
        }
    }

    /// Gives streams to channels, and opens the streams of confirmed ones, if the association was started. If nothing
    /// of this can be done, both marks of the wake are cleared, and if no stream is opened, the events mark is.
    pub fn handle_timeout<S: Association>(
        &mut self,
        _now: Moment,
        sctp: &mut RtcSctp<S>,
        wake: &mut Wake,
    ) -> Result<(), AllocError>
        ensures { MeetsMoment S.association (IsDue S.association self.old sctp.old) self.old sctp.old wake.old
            result self.new sctp.new wake.new }
    {
        self.settle();
        self.progress(sctp, wake)
    }

    /// When `handle_timeout` is wanted: at once if it can give a stream to a channel or open one.
    pub fn poll_timeout<S: Association>(&self, sctp: &RtcSctp<S>) -> Option<Moment>
        ensures { result ≡ channels_wake S.association self.now sctp.now }
    {
        if self.is_due(sctp) {
            return Some(Moment::FAR_PAST);
        }
        None
    }

    /// Closes the stream of a channel, if it has one.
    pub fn close_channel<S: Association>(
        &self,
        id: ChannelId,
        sctp: &mut RtcSctp<S>,
    ) -> Result<(), AllocError>
        ensures { ClosesChannel S.association (stream_of_channel id (map numbered_stream self.now.rows)) sctp.old result sctp.new }
    {
        match self.stream_id_by_channel_id(id) {
            Some(stream) => sctp.close_stream(stream),
            None => Ok(()),
        }
    }
}
