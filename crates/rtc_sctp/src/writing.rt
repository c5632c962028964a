//! Messages to the other end.
ghost use Rattle.std.specs.Prelude.{◌≡◌, ◌-◌, if◌then◌else◌, true};
ghost use Rattle.rtc_sctp.specs.Calls.{is_open_stream, can_write as CanWrite, WritesStream, buffered_sum};
ghost use Rattle.rtc_sctp.specs.Calls.{is_current as IsCurrent};
ghost use Rattle.rtc_sctp.specs.Calls.{written_ppi as WrittenPpi, write_refusal as WriteRefusal};
ghost use Rattle.rtc_sctp.specs.Refusals.{IsRefusedAs, refusal_of_message};

use crate::buffered::{left_of, sift};
use crate::streams::RtcSctp;
use crate::{ProtoError, SctpError};
use rtc_parts::{AssocError, Association, Ppi};
use rtc_sctp_entries::entries::{fits_generation, generation_of, has_open};

fn written_ppi(binary: bool, empty: bool) -> Ppi
    ensures { result ≡ WrittenPpi binary empty }
{
    match (binary, empty) {
        (true, true) => Ppi::EmptyBinary,
        (true, false) => Ppi::Binary,
        (false, true) => Ppi::EmptyText,
        (false, false) => Ppi::Text,
    }
}

fn write_refusal(id: u16, len: usize, max: u32, why: AssocError) -> SctpError
    ensures { result ≡ WriteRefusal id len max why }
{
    match why {
        AssocError::NoStream => SctpError::Proto(ProtoError::NoStream(id)),
        AssocError::TooLong => SctpError::Proto(ProtoError::TooLong { len, max }),
        AssocError::Closing => SctpError::WriteBeforeEstablished,
        AssocError::Alloc => SctpError::Alloc,
        AssocError::Fault => SctpError::Proto(ProtoError::Fault),
        AssocError::StreamExists => SctpError::Proto(ProtoError::Fault),
        AssocError::ResetPending => SctpError::Proto(ProtoError::Fault),
    }
}

impl<S: Association> RtcSctp<S> {
    /// Whether a stream is open: the association is established, and so is the stream.
    pub fn is_open(&self, id: u16) -> bool
        ensures { result ≡ is_open_stream id self.now }
    {
        self.state.is_established() && has_open(self.entries.as_slice(), id)
    }

    /// How many bytes may be buffered yet.
    pub fn available(&self) -> usize
        ensures { result ≡ (if S.association.started self.now.association
            then self.now.max_buffered - buffered_sum S.association self.now.association self.now.entries else 0) }
    {
        if self.association.is_started() {
            return self.left();
        }
        0
    }

    fn left(&self) -> usize
        ensures { result ≡ self.now.max_buffered - buffered_sum S.association self.now.association self.now.entries }
    {
        left_of(
            &self.association,
            self.entries.as_slice(),
            &self.agenda.buffered,
            self.max_buffered,
        )
    }

    fn can_write(&self, id: u16) -> bool
        ensures { result ≡ CanWrite S.association id self.now }
    {
        self.is_open(id) && !self.is_ended()
    }

    // Whether a stream has the generation that its entry keeps.
    fn is_current(&self, id: u16) -> bool
        ensures { result ≡ IsCurrent S.association id self.now }
    {
        fits_generation(
            generation_of(self.entries.as_slice(), id),
            self.association.generation(id),
        )
    }

    // Looks at the next stream that may have something buffered, whether all of it is acknowledged.
    fn sift(&mut self)
        ensures { self.new ≡ self.old }
    {
        sift(&self.association, self.entries.as_slice(), &mut self.agenda);
    }

    fn write_message(&mut self, id: u16, binary: bool, buf: &[u8]) -> Result<usize, SctpError>
        ensures { WritesStream S.association id binary buf.now self.old result self.new }
    {
        if !self.can_write(id) {
            return Err(SctpError::WriteBeforeEstablished);
        }
        if !self.is_current(id) {
            return Err(SctpError::Proto(ProtoError::NoStream(id)));
        }
        let ppi = written_ppi(binary, buf.is_empty());
        self.rests = false;
        self.agenda.count(id, true);
        match self.association.stream_write(id, ppi, buf) {
            Ok(_) => Ok(buf.len()),
            Err(why) => Err(write_refusal(id, buf.len(), self.remote_max, why)),
        }
    }

    /// Writes a message, and returns the number of its bytes.
    pub fn write(&mut self, id: u16, binary: bool, buf: &[u8]) -> Result<usize, SctpError>
        ensures writes { WritesStream S.association id binary buf.now self.old result self.new }
        ensures refused { IsRefusedAs (refusal_of_message S.association id buf.now self.old)
            (S.association.faults self.old.association) (S.association.faults self.new.association) result }
    {
        self.sift();
        self.sift();
        self.write_message(id, binary, buf)
    }
}
