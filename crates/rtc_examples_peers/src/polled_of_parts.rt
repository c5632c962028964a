//! Inputs and outputs of peers over any parts.
use crate::ask::Ask;
use crate::hosts::host;
use crate::outputs::Outputs;
use crate::polled::Polled;
use rtc_examples_cases::is_true;
use rtc_peer::{Association, DtlsInstance, IceAgent, Ids, Input, MediaSession, Rtc, RtcError};
use rtc_plain::PlainMediaEvent;
use rtc_wire::{ChannelId, Moment, Protocol, Receive, Transmit};

impl<
    I: IceAgent,
    D: DtlsInstance,
    S: Association,
    M: MediaSession<E = PlainMediaEvent>,
    N: Ids,
> Polled for Rtc<I, D, S, M, N> {
    fn hear(&mut self, now: Moment, came: Option<&Transmit>, outputs: &mut Outputs) -> bool {
        match came {
            Some(transmit) => match Receive::from_transmit::<I>(transmit) {
                Ok(received) => {
                    outputs.note_input(self.handle_input(&Input::Receive(now, received)))
                }
                Err(error) => outputs.note_input(Err(RtcError::from(error))),
            },
            None => outputs.note_input(self.handle_input(&Input::Timeout(now))),
        }
    }

    fn give_next(&mut self, outputs: &mut Outputs) -> bool {
        outputs.keep(self.poll_output())
    }

    fn write(&mut self, channel: ChannelId, binary: bool, message: &[u8]) -> bool {
        match self.channel(channel) {
            Some(mut channel) => is_true(channel.write(binary, message)),
            None => false,
        }
    }

    fn holds(&self, ask: Ask) -> bool {
        match ask {
            Ask::IsConnected => self.is_connected(),
            Ask::Accepts(source, destination) => {
                match Receive::new::<I>(Protocol::Udp, host(source), host(destination), &[22u8]) {
                    Ok(received) => self.accepts(&Input::Receive(Moment::FAR_PAST, received)),
                    Err(_) => false,
                }
            }
        }
    }
}
