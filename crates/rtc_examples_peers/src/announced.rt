//! Rounds whose answer announces a fingerprint that the certificate of its side has not (RFC 8122, section 6.2).
use crate::ask::Ask;
use crate::connected::exchange;
use crate::exchanging::meet;
use crate::fault::Fault;
use crate::polled::Polled;
use crate::signals::Signals;
use crate::texts::Texts;
use crate::way::Way;
use crate::wire::Wire;
use std::alloc::{AllocError, Global};

// The hash of the certificate `abc` (FIPS 180-2, appendix B.1), which is that of neither side.
const OTHER_CERTIFICATE: &str =
    "sha-256 BA:78:16:BF:8F:01:CF:EA:41:41:40:DE:5D:AE:22:23:B0:03:61:A3:96:17:7A:9C:B4:10:FF:61:F2:00:15:AD";

// One by a function that peers do not know.
const UNKNOWN_HASH: &str = "md5 90:01:50:98:3C:D2:4F:B0:D6:96:3F:7D:28:E1:7F:72";

// Whether two peers do not connect, and the one that got the answer reports this cause; or do, if there is none.
fn ends<P: Signals + Polled>(
    alloc: Global,
    left: &mut P,
    right: &mut P,
    announced: &str,
    fault: Option<Fault>,
) -> Result<bool, AllocError> {
    let mut texts = Texts::new(alloc);
    texts.announce(announced)?;
    let mut wire = Wire::new(alloc, Way::plain());
    let met = meet(alloc, left, right, 1, &mut texts);
    exchange(left, right, &mut wire);
    let near = left.holds(Ask::IsConnected);
    let far = right.holds(Ask::IsConnected);
    let taken = fault.is_none();
    Ok(met & (near == taken) & (far == taken) & (wire.left.fault == fault))
}

/// Whether two peers do not connect, and one of them reports why; or do, if the certificate is not verified.
pub fn does_refuse<P: Signals + Polled>(
    alloc: Global,
    left: &mut P,
    right: &mut P,
    call: &str,
) -> Result<bool, AllocError> {
    match call {
        "of another certificate" => {
            let fault = Some(Fault::OtherCertificate);
            ends(alloc, left, right, OTHER_CERTIFICATE, fault)
        }
        "of another certificate that is not verified" => {
            ends(alloc, left, right, OTHER_CERTIFICATE, None)
        }
        "of an unknown hash" => {
            let fault = Some(Fault::UnknownHash);
            ends(alloc, left, right, UNKNOWN_HASH, fault)
        }
        _ => Ok(false),
    }
}
