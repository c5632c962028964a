//! Values of `candidate`.
ghost use Rattle.std.specs.Prelude.{◌≡◌, ◌++◌, IfOk, OnOk, option_map, string_bytes};
ghost use Rattle.rtc_sdp_attributes.specs.Forms;
ghost use Rattle.rtc_sdp_attributes.specs.AttributeForms as form;
ghost use Rattle.rtc_sdp_attributes.specs.AttributeTexts as written;

use crate::cut;
use rtc_sdp_values::{Candidate, CandidateKind};
use rtc_wire::{Addr, Protocol, Text};
use rtc_wire_text::{is_token, number_up_to, same_letters};
use std::alloc::{AllocError, Global};
use std::fmt::Write;

fn protocol_of(word: &str) -> Option<Protocol>
    ensures { result ≡ Forms.in_lower (Forms.one_of form.protocol_words) word.now }
{
    if same_letters(word, "udp") {
        Some(Protocol::Udp)
    } else if same_letters(word, "tcp") {
        Some(Protocol::Tcp)
    } else {
        None
    }
}

fn protocol_word(proto: Protocol) -> &'static str
    ensures { result.now ≡ written.protocol_word proto }
{
    match proto {
        Protocol::Udp => "udp",
        Protocol::Tcp => "tcp",
        Protocol::SslTcp => "ssltcp",
        Protocol::Tls => "tls",
    }
}

fn ip_of(word: &str) -> Option<[u8; 4]>
    ensures { result ≡ form.ip word.now }
{
    let (a, rest) = cut(word, b'.')?;
    let a = number_up_to(255, a)?;
    let (b, rest) = cut(rest, b'.')?;
    let b = number_up_to(255, b)?;
    let (c, rest) = cut(rest, b'.')?;
    let c = number_up_to(255, c)?;
    let d = number_up_to(255, rest)?;
    Some([a as u8, b as u8, c as u8, d as u8])
}

fn kind_of(word: &str) -> Option<CandidateKind>
    ensures { result ≡ Forms.one_of form.candidate_kind_words word.now }
{
    if word == "host" {
        Some(CandidateKind::Host)
    } else if word == "srflx" {
        Some(CandidateKind::ServerReflexive)
    } else if word == "prflx" {
        Some(CandidateKind::PeerReflexive)
    } else if word == "relay" {
        Some(CandidateKind::Relayed)
    } else {
        None
    }
}

fn kind_word(kind: CandidateKind) -> &'static str
    ensures { result.now ≡ written.candidate_kind_word kind }
{
    match kind {
        CandidateKind::Host => "host",
        CandidateKind::ServerReflexive => "srflx",
        CandidateKind::PeerReflexive => "prflx",
        CandidateKind::Relayed => "relay",
    }
}

/// The kind of a candidate, behind its address. What follows it does not count.
fn end_of(text: &str) -> Option<CandidateKind>
    ensures { result ≡ form.candidate_end text.now }
{
    let Some((label, kind)) = cut(text, b' ') else {
        return None;
    };
    if label != "typ" {
        return None;
    }
    match cut(kind, b' ') {
        Some((kind, _)) => kind_of(kind),
        None => kind_of(kind),
    }
}

/// The address and the kind of a candidate.
fn addr_of(text: &str) -> Option<(Addr, CandidateKind)>
    ensures { option_map (λ read. (read.0.ip, (read.0.port, read.1))) result ≡ form.candidate_addr text.now }
{
    let (ip, rest) = cut(text, b' ')?;
    let ip = ip_of(ip)?;
    let (port, rest) = cut(rest, b' ')?;
    let port = number_up_to(65535, port)?;
    let kind = end_of(rest)?;
    let port = port as u16;
    Some((Addr { ip, port }, kind))
}

/// The candidate that a value writes, if its address is of IPv4 (RFC 8839, section 5.1). What follows the kind is ignored.
pub fn read_candidate(alloc: Global, value: &str) -> Result<Option<Candidate>, AllocError>
    ensures { IfOk result (λ read. read ≡ form.candidate value.now) }
{
    let Some((foundation, rest)) = cut(value, b' ') else {
        return Ok(None);
    };
    if !is_token(foundation) {
        return Ok(None);
    }
    let Some((component, rest)) = cut(rest, b' ') else {
        return Ok(None);
    };
    let Some(component) = number_up_to(65535, component) else {
        return Ok(None);
    };
    let Some((proto, rest)) = cut(rest, b' ') else {
        return Ok(None);
    };
    let Some(proto) = protocol_of(proto) else {
        return Ok(None);
    };
    let Some((priority, rest)) = cut(rest, b' ') else {
        return Ok(None);
    };
    let Some(priority) = number_up_to(4_294_967_295, priority) else {
        return Ok(None);
    };
    let Some((addr, kind)) = addr_of(rest) else {
        return Ok(None);
    };
    let foundation = Text::from_str(alloc, foundation)?;
    Ok(Some(Candidate {
        foundation,
        component: component as u16,
        proto,
        priority: priority as u32,
        addr,
        kind,
    }))
}

fn put_ip(out: &mut String, ip: [u8; 4]) -> Result<(), AllocError>
    ensures { OnOk result (string_bytes out.new ≡ string_bytes out.old ++ written.ip_text ip) }
{
    let [a, b, c, d] = ip;
    write!(out, "{a}.{b}.{c}.{d}")?;
    Ok(())
}

/// Appends a candidate's value.
#[tactic(auto, unfolding(crate::specs::AttributeTexts::candidate_text))]
pub fn put_candidate(out: &mut String, candidate: &Candidate) -> Result<(), AllocError>
    ensures { OnOk result (string_bytes out.new ≡ string_bytes out.old ++ written.candidate_text candidate.now) }
{
    let foundation = candidate.foundation.as_str();
    let component = candidate.component;
    let proto = protocol_word(candidate.proto);
    let priority = candidate.priority;
    let port = candidate.addr.port;
    let kind = kind_word(candidate.kind);
    write!(out, "{foundation} {component} {proto} {priority} ")?;
    put_ip(out, candidate.addr.ip)?;
    write!(out, " {port} typ {kind}")?;
    Ok(())
}
