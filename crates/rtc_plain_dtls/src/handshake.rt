//! What packets do to a part.
ghost use Rattle.std.specs.Prelude.{◌≡◌, ◌≤◌, length, OnOk, OnErr, true};
ghost use Rattle.rtc_plain_dtls.specs.Contents.{phase_is_finished};
ghost use Rattle.std.specs.Prelude.{[]};
ghost use Rattle.rtc_plain_dtls.specs.declared.phase.Phase.TheVariants.{AwaitCert, AwaitHello, AwaitFinish, FinishedActive};
ghost use Rattle.rtc_plain_dtls.specs.Calls.{
  start_came,
  hello_came,
  certificate_came,
  finish_came,
  data_came,
  dtls_close_came,
  packet_came,
};

use crate::frame::{CERTIFICATE, DATA, FINISH, Frame, HANDSHAKE, HELLO, read};
use crate::instance::PlainDtls;
use crate::output::Output;
use crate::phase::Phase;
use crate::queues::tell;
use crate::short::Short;
use std::alloc::AllocError;

#[tactic(auto, unfolding(crate::specs::Calls::went_on))]
impl PlainDtls {
    /// Begins the handshake.
    fn take_start(&mut self) -> Result<(), AllocError>
        ensures ok { OnOk result (self.new ≡ start_came self.old.phase self.old) }
        ensures err { OnErr result (self.new ≡ self.old) }
    {
        match self.phase {
            Phase::AwaitStart => {
                let hello = Short::marked(self.alloc, &[HANDSHAKE, HELLO], self.cert.as_slice())?;
                self.packets.push_back(hello)?;
                self.phase = Phase::AwaitCert;
                Ok(())
            }
            Phase::NoRole
            | Phase::AwaitCert
            | Phase::AwaitHello
            | Phase::AwaitFinish
            | Phase::FinishedActive
            | Phase::FinishedPassive => Ok(()),
        }
    }

    /// The first hello: the other side's certificate is reported, and this side's is sent.
    fn take_first_hello(&mut self, cert: &[u8]) -> Result<(), AllocError>
        requires awaits { self.old.phase ≡ AwaitHello }
        requires fits { length cert.now ≤ 1900 }
        ensures ok { OnOk result (self.new ≡ hello_came AwaitHello cert.now self.old) }
        ensures err { OnErr result (self.new ≡ self.old) }
    {
        let theirs = Short::copied(self.alloc, cert)?;
        let marks = [HANDSHAKE, CERTIFICATE];
        let ours = Short::marked(self.alloc, &marks, self.cert.as_slice())?;
        self.outputs.reserve(1)?;
        self.packets.push_back(ours)?;
        tell(&mut self.outputs, Output::PeerCert(theirs));
        self.phase = Phase::AwaitFinish;
        Ok(())
    }

    /// A hello that was answered before is answered again.
    fn take_hello_again(&mut self) -> Result<(), AllocError>
        requires { self.old.phase ≡ AwaitFinish }
        ensures ok { OnOk result (self.new ≡ hello_came AwaitFinish [] self.old) }
        ensures err { OnErr result (self.new ≡ self.old) }
    {
        let marks = [HANDSHAKE, CERTIFICATE];
        let ours = Short::marked(self.alloc, &marks, self.cert.as_slice())?;
        self.packets.push_back(ours)?;
        Ok(())
    }

    fn take_hello(&mut self, cert: &[u8]) -> Result<(), AllocError>
        requires { length cert.now ≤ 1900 }
        ensures ok { OnOk result (self.new ≡ hello_came self.old.phase cert.now self.old) }
        ensures err { OnErr result (self.new ≡ self.old) }
    {
        match self.phase {
            Phase::AwaitHello => self.take_first_hello(cert),
            Phase::AwaitFinish => self.take_hello_again(),
            Phase::NoRole
            | Phase::AwaitStart
            | Phase::AwaitCert
            | Phase::FinishedActive
            | Phase::FinishedPassive => Ok(()),
        }
    }

    /// The first certificate of the passive side: it is reported and answered, and the handshake is finished.
    fn take_first_certificate(&mut self, cert: &[u8]) -> Result<(), AllocError>
        requires { length cert.now ≤ 1900 }
        ensures ok { OnOk result (self.new ≡ certificate_came AwaitCert cert.now self.old) }
        ensures err { OnErr result (self.new ≡ self.old) }
    {
        let cert = Short::copied(self.alloc, cert)?;
        let finish = Short::copied(self.alloc, &[HANDSHAKE, FINISH])?;
        self.outputs.reserve(3)?;
        self.packets.push_back(finish)?;
        tell(&mut self.outputs, Output::PeerCert(cert));
        tell(&mut self.outputs, Output::Keying);
        tell(&mut self.outputs, Output::Connected);
        self.phase = Phase::FinishedActive;
        Ok(())
    }

    /// A certificate that was answered before is answered again.
    fn take_certificate_again(&mut self) -> Result<(), AllocError>
        requires { self.old.phase ≡ FinishedActive }
        ensures ok { OnOk result (self.new ≡ certificate_came FinishedActive [] self.old) }
        ensures err { OnErr result (self.new ≡ self.old) }
    {
        let finish = Short::copied(self.alloc, &[HANDSHAKE, FINISH])?;
        self.packets.push_back(finish)?;
        Ok(())
    }

    fn take_certificate(&mut self, cert: &[u8]) -> Result<(), AllocError>
        requires { length cert.now ≤ 1900 }
        ensures ok { OnOk result (self.new ≡ certificate_came self.old.phase cert.now self.old) }
        ensures err { OnErr result (self.new ≡ self.old) }
    {
        match self.phase {
            Phase::AwaitStart | Phase::AwaitCert => self.take_first_certificate(cert),
            Phase::FinishedActive => self.take_certificate_again(),
            Phase::NoRole | Phase::AwaitHello | Phase::AwaitFinish | Phase::FinishedPassive => {
                Ok(())
            }
        }
    }

    /// A finish finishes the handshake of the passive side.
    fn take_finish(&mut self) -> Result<(), AllocError>
        ensures ok { OnOk result (self.new ≡ finish_came self.old.phase self.old) }
        ensures err { OnErr result (self.new ≡ self.old) }
    {
        match self.phase {
            Phase::AwaitFinish => {
                self.outputs.reserve(2)?;
                tell(&mut self.outputs, Output::Keying);
                tell(&mut self.outputs, Output::Connected);
                self.phase = Phase::FinishedPassive;
                Ok(())
            }
            Phase::NoRole
            | Phase::AwaitStart
            | Phase::AwaitCert
            | Phase::AwaitHello
            | Phase::FinishedActive
            | Phase::FinishedPassive => Ok(()),
        }
    }

    /// Application data in place of the finish finishes the handshake too.
    fn take_first_data(&mut self, bytes: &[u8]) -> Result<(), AllocError>
        requires { length bytes.now ≤ 1900 }
        ensures ok { OnOk result (self.new ≡ data_came AwaitFinish bytes.now self.old) }
        ensures err { OnErr result (self.new ≡ self.old) }
    {
        let bytes = Short::copied(self.alloc, bytes)?;
        self.outputs.reserve(3)?;
        tell(&mut self.outputs, Output::Keying);
        tell(&mut self.outputs, Output::Connected);
        tell(&mut self.outputs, Output::Data(bytes));
        self.phase = Phase::FinishedPassive;
        Ok(())
    }

    /// Application data after the handshake.
    fn take_more_data(&mut self, bytes: &[u8]) -> Result<(), AllocError>
        requires fits { length bytes.now ≤ 1900 }
        requires finished { phase_is_finished self.old.phase ≡ true }
        ensures ok { OnOk result (self.new ≡ data_came self.old.phase bytes.now self.old) }
        ensures err { OnErr result (self.new ≡ self.old) }
    {
        let bytes = Short::copied(self.alloc, bytes)?;
        self.outputs.push_back(Output::Data(bytes))?;
        Ok(())
    }

    fn take_data(&mut self, bytes: &[u8]) -> Result<(), AllocError>
        requires { length bytes.now ≤ 1900 }
        ensures ok { OnOk result (self.new ≡ data_came self.old.phase bytes.now self.old) }
        ensures err { OnErr result (self.new ≡ self.old) }
    {
        match self.phase {
            Phase::AwaitFinish => self.take_first_data(bytes),
            Phase::FinishedActive | Phase::FinishedPassive => self.take_more_data(bytes),
            Phase::NoRole | Phase::AwaitStart | Phase::AwaitCert | Phase::AwaitHello => Ok(()),
        }
    }

    /// The other side closed, which is reported once.
    #[tactic(auto, unfolding(crate::specs::Calls::close_told))]
    fn take_close(&mut self) -> Result<(), AllocError>
        ensures ok { OnOk result (self.new ≡ dtls_close_came self.old.notified self.old) }
        ensures err { OnErr result (self.new ≡ self.old) }
    {
        if !self.notified {
            self.outputs.push_back(Output::Close)?;
            self.notified = true;
        }
        Ok(())
    }

    /// Takes a packet.
    pub(crate) fn take(&mut self, packet: &[u8]) -> Result<(), AllocError>
        ensures ok { OnOk result (self.new ≡ packet_came packet.now self.old) }
        ensures err { OnErr result (self.new ≡ self.old) }
    {
        match read(packet) {
            Frame::Start => self.take_start(),
            Frame::Hello(cert) => self.take_hello(cert),
            Frame::Certificate(cert) => self.take_certificate(cert),
            Frame::Finish => self.take_finish(),
            Frame::Data(bytes) => self.take_data(bytes),
            Frame::Close => self.take_close(),
            Frame::Unknown => Ok(()),
        }
    }
}
