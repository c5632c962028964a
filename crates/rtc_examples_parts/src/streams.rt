//! What examples ask of the streams of a peer.
use rtc_examples_cases::is_ok;
use rtc_parts::Association;
use rtc_ready::Readiness;
use rtc_sctp::{RtcSctp, SctpEvent};
use rtc_wire::{ChannelConfig, Moment};
use std::alloc::AllocError;

/// What examples ask of the streams of one peer. A function over it is checked without what the streams consist of.
pub trait Streams {
    /// Starts the association, as the client or as the server. It returns whether that succeeded, as the calls below do.
    fn start(&mut self, client: bool) -> bool;

    /// Opens a stream with a config whose texts are short.
    fn open(&mut self, id: u16, config: ChannelConfig) -> bool;

    /// Writes a text.
    fn tell(&mut self, id: u16, text: &str) -> bool;

    fn shut(&mut self, id: u16) -> bool;

    /// Takes a packet.
    fn take(&mut self, packet: &[u8]) -> bool;

    /// Takes a moment, in nanoseconds.
    fn pass(&mut self, nanos: u64) -> bool;

    /// What there is to report or to send.
    fn next(&mut self) -> Result<Option<SctpEvent>, AllocError>;

    /// How many resets of a stream are complete.
    fn resets(&self, id: u16) -> u64;
}

impl<S: Association> Streams for RtcSctp<S> {
    fn start(&mut self, client: bool) -> bool {
        is_ok(self.init(client, Moment::FAR_PAST, None, None))
    }

    fn open(&mut self, id: u16, config: ChannelConfig) -> bool {
        let label = config.label.as_str().len();
        let protocol = config.protocol.as_str().len();
        if label > 65_535 || protocol > 65_535 {
            return false;
        }
        is_ok(self.open_stream(id, config))
    }

    fn tell(&mut self, id: u16, text: &str) -> bool {
        is_ok(self.write(id, false, text.as_bytes()))
    }

    fn shut(&mut self, id: u16) -> bool {
        is_ok(self.close_stream(id))
    }

    fn take(&mut self, packet: &[u8]) -> bool {
        is_ok(self.handle_input(Moment::FAR_PAST, packet))
    }

    fn pass(&mut self, nanos: u64) -> bool {
        let mut readiness = Readiness::armed();
        let mut wake = readiness.wake();
        let passed = is_ok(self.handle_timeout(Moment::from_nanos(nanos), &mut wake));
        readiness.fold(wake);
        passed
    }

    fn next(&mut self) -> Result<Option<SctpEvent>, AllocError> {
        self.poll()
    }

    fn resets(&self, id: u16) -> u64 {
        self.generation(id)
    }
}
