//! Peers over any parts, as they were built.
use crate::built::Built;
use rtc_examples_cases::{every, gives, is_ok, is_true};
use rtc_peer::{
    Association, Direction, DtlsInstance, IceAgent, Ids, Lines, MediaKind, MediaSession, Mid,
    Reason, Rtc,
};
use rtc_wire::ChannelId;

fn first_mid(lines: &Lines) -> Option<Mid> {
    match lines.rows() {
        [row, ..] => Some(row.mid()),
        [] => None,
    }
}

impl<I: IceAgent, D: DtlsInstance, S: Association, M: MediaSession, N: Ids> Built
    for Rtc<I, D, S, M, N> {
    fn is_as_built(&mut self, codecs: usize, mid: Mid) -> bool {
        let waits = self.last_timeout_reason() == Reason::NotHappening;
        let known = self.codec_config().rows.len() == codecs;
        let early = self.media(mid).is_some();
        let declared = gives(
            self.direct_api().declare_media(mid, MediaKind::Audio),
            &true,
        );
        let there = self.media(mid).is_some();
        let mut api = self.sdp_api();
        let before = api.has_changes();
        let staged = is_ok(api.add_media(MediaKind::Video, Direction::SendRecv, None, None, None));
        let after = api.has_changes();
        every(&[
            waits, known, !early, declared, there, !before, staged, after,
        ])
    }

    fn lends_writer(&mut self) -> bool {
        match first_mid(self.lines()) {
            Some(mid) => self.writer(mid).is_some(),
            None => false,
        }
    }

    fn buffers(&mut self, message: &[u8], threshold: usize) -> bool {
        let known = self.channel_config(ChannelId::new(0)).is_some();
        let other = self.channel_config(ChannelId::new(1)).is_some();
        match self.channel(ChannelId::new(0)) {
            Some(mut channel) => {
                channel.set_buffered_amount_low_threshold(threshold);
                let taken = is_true(channel.write(true, message));
                let buffered = channel.buffered_amount() == message.len();
                let named = channel.config().is_some();
                every(&[known, !other, taken, buffered, named])
            }
            None => false,
        }
    }
}
