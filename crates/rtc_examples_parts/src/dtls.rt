//! A DTLS connection over a plain part, before its handshake.
use rtc_examples_cases::{is_refused, is_true};
use rtc_parts::{Dtls, DtlsError, DtlsInstance, DtlsOutput};
use rtc_plain::PlainDtls;
use std::alloc::{AllocError, Global};

fn is_never(output: &DtlsOutput<'_>) -> bool {
    match output {
        DtlsOutput::Timeout(moment) => moment.nanos() == u64::MAX,
        _ => false,
    }
}

fn waits_for_nothing<D: DtlsInstance>(end: &mut Dtls<D>, buf: &mut [u8]) -> bool {
    if buf.len() < 2000 {
        return false;
    }
    match end.poll_output(buf) {
        Err(_) => false,
        Ok(output) => is_never(&output),
    }
}

// Whether data has to wait without a role and with one, no moment is waited for, and the first role is kept.
fn is_blocked<D: DtlsInstance>(end: &mut Dtls<D>, buf: &mut [u8]) -> bool {
    let early = is_refused(end.handle_input(b"hi"), &DtlsError::WouldBlock);
    let idle = waits_for_nothing(end, buf);
    end.set_active(true);
    end.set_active(false);
    let active = end.is_active() == Some(true);
    early & idle & active & is_refused(end.handle_input(b"hi"), &DtlsError::WouldBlock)
}

fn data_waits(alloc: Global, cert: &[u8]) -> Result<bool, AllocError> {
    if cert.len() > 1900 {
        return Err(AllocError);
    }
    let mut end = Dtls::new(alloc, cert, PlainDtls::new(alloc), (1150, 1280))?;
    let mut buf = [0u8; 2000];
    Ok(is_blocked(&mut end, &mut buf))
}

/// Whether an example of DTLS connections gives what is expected.
pub fn does_agree(alloc: Global, example: &str) -> bool {
    match example {
        "data waits for the handshake" => is_true(data_waits(alloc, b"abc")),
        _ => false,
    }
}
