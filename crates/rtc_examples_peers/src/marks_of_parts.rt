//! Streams of peers whose media parts have marks.
use crate::marks::Marks;
use rtc_examples_cases::{every, gives};
use rtc_peer::{Association, DtlsInstance, IceAgent, Ids, MediaKind, MediaSession, Mid, Rtc, Ssrc};
use rtc_plain::PlainMark;

// Whether there is a stream, which is marked.
fn marks(mark: Option<&mut PlainMark>, count: u64) -> bool {
    match mark {
        Some(mark) => {
            mark.count = count;
            true
        }
        None => false,
    }
}

// Whether there is a stream with this mark.
fn counts(mark: Option<&mut PlainMark>, count: u64) -> bool {
    match mark {
        Some(mark) => mark.count == count,
        None => false,
    }
}

impl<
    I: IceAgent,
    D: DtlsInstance,
    S: Association,
    M: MediaSession<Rx = PlainMark, Tx = PlainMark>,
    N: Ids,
> Marks for Rtc<I, D, S, M, N> {
    fn passes_over(&mut self, mid: Mid) -> bool {
        let mut api = self.direct_api();
        let line = gives(api.declare_media(mid, MediaKind::Audio), &true);
        let made = match api.declare_stream_tx(Ssrc(4), Some(Ssrc(5)), mid, None) {
            Ok(mark) => marks(mark, 0),
            Err(_) => false,
        };
        let drawn = api.new_ssrc().0 == 6;
        every(&[line, made, drawn])
    }

    fn marks_received(&mut self, mid: Mid) -> bool {
        let mut api = self.direct_api();
        let early = match api.expect_stream_rx(Ssrc(7), None, mid, None) {
            Ok(mark) => marks(mark, 5),
            Err(_) => false,
        };
        let line = gives(api.declare_media(mid, MediaKind::Video), &true);
        let expected = match api.expect_stream_rx(Ssrc(7), None, mid, None) {
            Ok(mark) => marks(mark, 5),
            Err(_) => false,
        };
        let numbered = counts(api.stream_rx(Ssrc(7)), 5);
        let named = counts(api.stream_rx_by_mid(mid, None), 5);
        let made = api.make_stream_rx(Ssrc(10), None, mid, None).is_ok();
        every(&[!early, line, expected, numbered, named, made])
    }

    fn marks_sent(&mut self, mid: Mid) -> bool {
        let mut api = self.direct_api();
        let declared = match api.declare_stream_tx(Ssrc(8), None, mid, None) {
            Ok(mark) => marks(mark, 6),
            Err(_) => false,
        };
        let numbered = counts(api.stream_tx(Ssrc(8)), 6);
        let named = counts(api.stream_tx_by_mid(mid, None), 6);
        let same = api.reset_stream_tx(mid, None, Ssrc(8), None).is_some();
        let reset = api.reset_stream_tx(mid, None, Ssrc(9), None).is_some();
        let old = api.stream_tx(Ssrc(8)).is_some();
        let new = api.stream_tx(Ssrc(9)).is_some();
        let made = api.make_stream_tx(Ssrc(11), None, mid, None).is_ok();
        every(&[declared, numbered, named, !same, reset, !old, new, made])
    }

    fn drops_streams(&mut self, mid: Mid) -> bool {
        let mut api = self.direct_api();
        let line = gives(api.declare_media(mid, MediaKind::Audio), &true);
        let expected = match api.expect_stream_rx(Ssrc(7), None, mid, None) {
            Ok(mark) => marks(mark, 0),
            Err(_) => false,
        };
        let declared = match api.declare_stream_tx(Ssrc(8), None, mid, None) {
            Ok(mark) => marks(mark, 0),
            Err(_) => false,
        };
        let dropped = api.remove_stream_rx(Ssrc(7));
        let again = api.remove_stream_rx(Ssrc(7));
        let stopped = api.remove_media(mid);
        let left = api.remove_stream_tx(Ssrc(8));
        every(&[line, expected, declared, dropped, !again, stopped, !left])
    }
}
