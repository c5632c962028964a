//! What the other calls do, and what a part returns of itself.
ghost use Rattle.std.specs.Prelude.{◌≡◌, ◌≤◌, ◌+◌, length, OnOk, OnErr, true};
ghost use Rattle.rtc_parts.specs.DtlsDrawn.{dtls_drawn, polled_length};
ghost use Rattle.rtc_plain_dtls.specs.Contents.{phase_is_finished, resends, asks_of, second_behind};
ghost use Rattle.rtc_plain_dtls.specs.Calls.{data_queued, sent_again, dtls_time_passed, dtls_shut_down, role_set};
ghost use Rattle.rtc_plain_dtls.specs.PlainMeaning.{PollsDtls};
ghost use Rattle.rtc_plain_dtls.specs.declared.phase.Phase.TheVariants.{AwaitCert, AwaitFinish};

use crate::frame::{ALERT, CERTIFICATE, CLOSE, DATA, HANDSHAKE, HELLO};
use crate::instance::PlainDtls;
use crate::phase::Phase;
use crate::short::Short;
use rtc_parts::DtlsPolled;
use rtc_wire::{Moment, Span};
use std::alloc::AllocError;

/// Whether the handshake is finished.
pub fn finished(phase: Phase) -> bool
    ensures { result ≡ phase_is_finished phase }
{
    match phase {
        Phase::FinishedActive | Phase::FinishedPassive => true,
        Phase::NoRole
        | Phase::AwaitStart
        | Phase::AwaitCert
        | Phase::AwaitHello
        | Phase::AwaitFinish => false,
    }
}

/// Whether there is something to send again, or a hello to send.
fn sends_again(phase: Phase) -> bool
    ensures { result ≡ resends phase }
{
    match phase {
        Phase::AwaitStart | Phase::AwaitCert | Phase::AwaitFinish => true,
        Phase::NoRole | Phase::AwaitHello | Phase::FinishedActive | Phase::FinishedPassive => false,
    }
}

/// One second after a moment, if there is such a moment.
fn second_after(moment: Moment) -> Moment
    ensures { result ≡ second_behind moment }
{
    let nanos = moment.nanos();
    if nanos <= u64::MAX - 1 - 1_000_000_000 {
        Moment::from_nanos(nanos + 1_000_000_000)
    } else {
        Moment::FAR_FUTURE
    }
}

impl PlainDtls {
    /// The moment that is asked for once nothing is left to poll.
    pub(crate) fn asks(&self) -> Moment
        ensures { result ≡ asks_of self.now }
    {
        if sends_again(self.phase) {
            second_after(self.greatest)
        } else {
            Moment::FAR_FUTURE
        }
    }

    /// Takes the first role.
    #[tactic(auto, unfolding(crate::specs::Calls::role_set))]
    pub(crate) fn take_role(&mut self, active: bool)
        ensures { self.new ≡ role_set active self.old }
    {
        match self.phase {
            Phase::NoRole => {
                self.phase = if active {
                    Phase::AwaitStart
                } else {
                    Phase::AwaitHello
                };
            }
            Phase::AwaitStart
            | Phase::AwaitCert
            | Phase::AwaitHello
            | Phase::AwaitFinish
            | Phase::FinishedActive
            | Phase::FinishedPassive => {}
        }
    }

    /// Queues application data.
    #[tactic(auto, unfolding(crate::specs::Calls::went_on))]
    pub(crate) fn queue_data(&mut self, bytes: &[u8]) -> Result<(), AllocError>
        requires { length bytes.now ≤ 1900 }
        ensures ok { OnOk result (self.new ≡ data_queued bytes.now self.old) }
        ensures err { OnErr result (self.new ≡ self.old) }
    {
        let packet = Short::marked(self.alloc, &[DATA], bytes)?;
        self.packets.push_back(packet)?;
        Ok(())
    }

    /// Sends a hello.
    #[tactic(auto, unfolding(crate::specs::Calls::went_on))]
    fn send_hello(&mut self) -> Result<(), AllocError>
        ensures ok { OnOk result (self.new ≡ sent_again AwaitCert self.old) }
        ensures err { OnErr result (self.new ≡ self.old) }
    {
        let hello = Short::marked(self.alloc, &[HANDSHAKE, HELLO], self.cert.as_slice())?;
        self.packets.push_back(hello)?;
        self.phase = Phase::AwaitCert;
        Ok(())
    }

    /// Sends the certificate again.
    #[tactic(auto, unfolding(crate::specs::Calls::went_on))]
    fn send_certificate(&mut self) -> Result<(), AllocError>
        ensures ok { OnOk result (self.new ≡ sent_again AwaitFinish self.old) }
        ensures err { OnErr result (self.new ≡ self.old) }
    {
        let marks = [HANDSHAKE, CERTIFICATE];
        let ours = Short::marked(self.alloc, &marks, self.cert.as_slice())?;
        self.packets.push_back(ours)?;
        self.phase = Phase::AwaitFinish;
        Ok(())
    }

    /// Sends again what the other side has not answered.
    fn send_again(&mut self) -> Result<(), AllocError>
        ensures ok { OnOk result (self.new ≡ sent_again self.old.phase self.old) }
        ensures err { OnErr result (self.new ≡ self.old) }
    {
        match self.phase {
            Phase::AwaitStart | Phase::AwaitCert => self.send_hello(),
            Phase::AwaitFinish => self.send_certificate(),
            Phase::NoRole | Phase::AwaitHello | Phase::FinishedActive | Phase::FinishedPassive => {
                Ok(())
            }
        }
    }

    #[tactic(auto, unfolding(crate::specs::Calls::moment_taken))]
    pub(crate) fn time(&mut self, now: Moment) -> Result<(), AllocError>
        ensures ok { OnOk result (self.new ≡ dtls_time_passed now self.old) }
        ensures err { OnErr result (self.new ≡ self.old) }
    {
        if self.asks() <= now {
            self.send_again()?;
        }
        self.greatest = Moment::from_nanos(self.greatest.nanos().max(now.nanos()));
        Ok(())
    }

    #[tactic(auto, unfolding(crate::specs::Calls::dtls_shut_down))]
    pub(crate) fn shut(&mut self) -> Result<(), AllocError>
        ensures ok { OnOk result (self.new ≡ dtls_shut_down self.old) }
        ensures err { OnErr result (self.new ≡ self.old) }
    {
        match self.phase {
            Phase::NoRole => {}
            Phase::AwaitStart
            | Phase::AwaitCert
            | Phase::AwaitHello
            | Phase::AwaitFinish
            | Phase::FinishedActive
            | Phase::FinishedPassive => {
                let close = Short::copied(self.alloc, &[ALERT, CLOSE])?;
                self.packets.push_back(close)?;
            }
        }
        self.closed = true;
        Ok(())
    }

    pub(crate) fn next_output(&mut self, buf: &mut [u8]) -> DtlsPolled
        requires { 2000 ≤ length buf.old }
        ensures polled { PollsDtls self.old.packets self.old.outputs self.old (dtls_drawn result buf.new) self.new }
        ensures short { polled_length result ≤ 2000 }
    {
        match self.packets.pop_front() {
            Some(packet) => DtlsPolled::Packet(packet.put(buf)),
            None => match self.outputs.pop_front() {
                Some(output) => output.show(buf),
                None => DtlsPolled::Timeout(self.asks()),
            },
        }
    }
}
