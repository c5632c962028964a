//! DCEP acknowledgements.
ghost use Rattle.std.specs.Prelude.{◌≡◌, ◌<◌, ◌↔◌, [], length, IsOk, IsErrOf, slice_set};
ghost use Rattle.rtc_wire.specs.DcepAck.{IsAck, IsOtherMessage};

use crate::DcepError;

/// The message that acknowledges an open message (RFC 8832, section 5.2).
#[derive(Clone, Copy, Debug, PartialEq, Eq)]
pub struct DcepAck;

const ACK_TYPE: u8 = 0x02;

impl DcepAck {
    /// Reads an acknowledgement. Bytes after the first are ignored.
    pub fn read(buf: &[u8]) -> Result<DcepAck, DcepError>
        ensures ack { IsOk result ↔ IsAck buf.now }
        ensures too_small { IsErrOf result DcepError.DcepOpenTooSmall ↔ (buf.now ≡ []) }
        ensures other { IsErrOf result DcepError.DcepIncorrectMessageType ↔ IsOtherMessage buf.now }
    {
        match buf {
            [] => Err(DcepError::DcepOpenTooSmall),
            [ACK_TYPE, ..] => Ok(DcepAck),
            _ => Err(DcepError::DcepIncorrectMessageType),
        }
    }

    /// Writes the acknowledgement to the front of a buffer, and returns how many bytes that took.
    pub fn marshal_to(&self, buf: &mut [u8]) -> usize
        requires { 0 < length buf.old }
        ensures count { result ≡ 1 }
        ensures written { buf.new ≡ slice_set buf.old 0 2 }
        ensures again { IsAck buf.new }
    {
        buf[0] = ACK_TYPE;
        1
    }
}
