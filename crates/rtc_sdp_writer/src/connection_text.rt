//! Lines of a connection's attributes, put behind a text.
ghost use Rattle.std.specs.Prelude.{◌≡◌, ◌++◌, OnOk, string_bytes, map, option_map};
ghost use Rattle.rtc_wire_text.specs.Lines.{crlf, text_of};
ghost use Rattle.rtc_sdp_grammar.specs.ConnectionTexts as spec;
ghost use Rattle.rtc_sdp_writer.specs.Rows.{optional};

use rtc_sdp_attributes::{put_candidate, put_decimal, put_fingerprint};
use rtc_sdp_values::{Candidate, Fingerprint, IceCreds};
use rtc_wire::Text;
use std::alloc::AllocError;

#[tactic(auto, unfolding(rtc_sdp_grammar::specs::ConnectionTexts::ufrag_line))]
fn put_ufrag(out: &mut String, ufrag: &str) -> Result<(), AllocError>
    ensures { OnOk result (string_bytes out.new ≡ string_bytes out.old ++ crlf (spec.ufrag_line ufrag.now)) }
{
    out.push_str("a=ice-ufrag:")?;
    out.push_str(ufrag)?;
    out.push_str("\r\n")?;
    Ok(())
}

#[tactic(auto, unfolding(rtc_sdp_grammar::specs::ConnectionTexts::password_line))]
fn put_password(out: &mut String, password: &str) -> Result<(), AllocError>
    ensures { OnOk result (string_bytes out.new ≡ string_bytes out.old ++ crlf (spec.password_line password.now)) }
{
    out.push_str("a=ice-pwd:")?;
    out.push_str(password)?;
    out.push_str("\r\n")
}

#[tactic(auto, using(rtc_wire_text::proofs::LineLemmas::appends))]
pub(crate) fn put_creds_if_any(out: &mut String, creds: &Option<IceCreds>) -> Result<(), AllocError>
    ensures { OnOk result (string_bytes out.new ≡ string_bytes out.old
        ++ text_of (optional spec.ufrag_line (option_map (λ creds. creds.ufrag) creds.now)
        ++ optional spec.password_line (option_map (λ creds. creds.pass) creds.now))) }
{
    if let Some(creds) = creds {
        put_ufrag(out, creds.ufrag.as_str())?;
        put_password(out, creds.pass.as_str())?;
    }
    Ok(())
}

#[tactic(auto, unfolding(rtc_sdp_grammar::specs::ConnectionTexts::fingerprint_line))]
fn put_fingerprint_line(out: &mut String, fingerprint: &Fingerprint) -> Result<(), AllocError>
    ensures { OnOk result (string_bytes out.new ≡ string_bytes out.old ++ crlf (spec.fingerprint_line fingerprint.now)) }
{
    out.push_str("a=fingerprint:")?;
    put_fingerprint(out, fingerprint)?;
    out.push_str("\r\n")
}

pub(crate) fn put_fingerprint_if_any(
    out: &mut String,
    fingerprint: &Option<Fingerprint>,
) -> Result<(), AllocError>
    ensures { OnOk result (string_bytes out.new ≡ string_bytes out.old ++ text_of (optional spec.fingerprint_line fingerprint.now)) }
{
    if let Some(fingerprint) = fingerprint {
        put_fingerprint_line(out, fingerprint)?;
    }
    Ok(())
}

#[tactic(auto, unfolding(rtc_sdp_grammar::specs::ConnectionTexts::candidate_line))]
fn put_candidate_line(out: &mut String, candidate: &Candidate) -> Result<(), AllocError>
    ensures { OnOk result (string_bytes out.new ≡ string_bytes out.old ++ crlf (spec.candidate_line candidate.now)) }
{
    out.push_str("a=candidate:")?;
    put_candidate(out, candidate)?;
    out.push_str("\r\n")?;
    Ok(())
}

pub(crate) fn put_candidates(out: &mut String, candidates: &[Candidate]) -> Result<(), AllocError>
    ensures { OnOk result (string_bytes out.new ≡ string_bytes out.old ++ text_of (map spec.candidate_line candidates.now)) }
{
    for candidate in candidates {
        put_candidate_line(out, candidate)?;
    }
    Ok(())
}

#[tactic(auto, unfolding(rtc_sdp_grammar::specs::ConnectionTexts::message_size_line))]
fn put_message_size(out: &mut String, size: u64) -> Result<(), AllocError>
    ensures { OnOk result (string_bytes out.new ≡ string_bytes out.old ++ crlf (spec.message_size_line size)) }
{
    out.push_str("a=max-message-size:")?;
    put_decimal(out, size)?;
    out.push_str("\r\n")
}

pub(crate) fn put_message_size_if_any(out: &mut String, size: Option<u64>) -> Result<(), AllocError>
    ensures { OnOk result (string_bytes out.new ≡ string_bytes out.old ++ text_of (optional spec.message_size_line size)) }
{
    if let Some(size) = size {
        put_message_size(out, size)?;
    }
    Ok(())
}

#[tactic(auto, unfolding(rtc_sdp_grammar::specs::ConnectionTexts::sctp_init_line))]
fn put_sctp_init(out: &mut String, chunk: &str) -> Result<(), AllocError>
    ensures { OnOk result (string_bytes out.new ≡ string_bytes out.old ++ crlf (spec.sctp_init_line chunk.now)) }
{
    out.push_str("a=sctp-init:")?;
    out.push_str(chunk)?;
    out.push_str("\r\n")
}

pub(crate) fn put_sctp_init_if_any(out: &mut String, chunk: &Option<Text>) -> Result<(), AllocError>
    ensures { OnOk result (string_bytes out.new ≡ string_bytes out.old ++ text_of (optional spec.sctp_init_line chunk.now)) }
{
    if let Some(chunk) = chunk {
        put_sctp_init(out, chunk.as_str())?;
    }
    Ok(())
}
