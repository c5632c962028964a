//! Values of `fmtp`.
ghost use Rattle.std.specs.Prelude.{◌≡◌, ◌++◌, IfOk, OnOk, option_map, string_bytes};
ghost use Rattle.rtc_wire_text.specs.Cuts.{cut as spec_cut};
ghost use Rattle.rtc_sdp_attributes.specs.AttributeForms as form;
ghost use Rattle.rtc_sdp_attributes.specs.AttributeTexts as written;
ghost use Rattle.rtc_sdp_attributes.specs.Forms as forms;

use crate::{Fmtp, cut, put_decimal};
use rtc_sdp_values::Pt;
use rtc_wire::Text;
use rtc_wire_text::{number_up_to, without_blanks};
use std::alloc::{AllocError, Global};

/// The parameters that a value gives to a payload type (RFC 8866, section 6.15), at least one byte.
pub fn read_fmtp(alloc: Global, value: &str) -> Result<Option<Fmtp>, AllocError>
    ensures { IfOk result (λ read. read ≡ form.fmtp value.now) }
{
    let Some((pt, text)) = cut(value, b' ') else {
        return Ok(None);
    };
    let Some(pt) = number_up_to(127, pt) else {
        return Ok(None);
    };
    if text.is_empty() {
        return Ok(None);
    }
    let text = Text::from_str(alloc, text)?;
    Ok(Some(Fmtp {
        pt: Pt(pt as u8),
        text,
    }))
}

/// Appends the value that gives parameters to a payload type.
#[tactic(auto, unfolding(crate::specs::AttributeTexts::fmtp_text))]
pub fn put_fmtp(out: &mut String, pt: Pt, text: &str) -> Result<(), AllocError>
    ensures { OnOk result (string_bytes out.new ≡ string_bytes out.old ++ written.fmtp_text pt.0 text.now) }
{
    put_decimal(out, pt.0 as u64)?;
    out.push_str(" ")?;
    out.push_str(text)
}

fn apt_pair(pair: &str) -> Option<u64>
    ensures { result ≡ form.apt_pair pair.now }
{
    match cut(without_blanks(pair), b'=') {
        Some((name, number)) => if name == "apt" {
            number_up_to(127, number)
        } else {
            None
        },
        None => None,
    }
}

/// The first pair of parameters that semicolons part.
fn first_pair(text: &str) -> &str
    ensures { result.now ≡ forms.front_of text.now (spec_cut forms.SEMICOLON text.now) }
{
    match cut(text, b';') {
        None => text,
        Some((pair, _)) => pair,
    }
}

/// What is behind the first pair, if this names no payload type.
fn behind_other(text: &str) -> Option<&str>
    ensures { option_map (λ rest. rest.now) result ≡ form.behind_other text.now }
{
    let Some((pair, rest)) = cut(text, b';') else {
        return None;
    };
    match apt_pair(pair) {
        Some(_) => None,
        None => Some(rest),
    }
}

/// The payload type that the parameters of a retransmission name as theirs (RFC 4588, section 8.1). The pairs are cut off one by
/// one, so that no list is made.
#[tactic(auto, using(crate::proofs::AptLemmas::apt_next, crate::proofs::AptLemmas::apt_shorter, crate::proofs::AptLemmas::apt_done))]
pub fn read_apt(text: &str) -> Option<u64>
    ensures { result ≡ form.apt text.now }
{
    let mut rest = text;
    while let Some(next) = behind_other(rest) {
        rest = next;
    }
    apt_pair(first_pair(rest))
}

/// Appends the parameters of the retransmission of a payload type.
#[tactic(auto, unfolding(crate::specs::AttributeTexts::apt_text))]
pub fn put_apt(out: &mut String, pt: Pt) -> Result<(), AllocError>
    ensures { OnOk result (string_bytes out.new ≡ string_bytes out.old ++ written.apt_text pt.0) }
{
    out.push_str("apt=")?;
    put_decimal(out, pt.0 as u64)
}

/// The payload type that the parameters of redundant packets name first (RFC 2198, section 5).
pub fn read_red_primary(text: &str) -> Option<u64>
    ensures { result ≡ form.red_primary text.now }
{
    match cut(text, b'/') {
        None => number_up_to(127, text),
        Some((number, _)) => number_up_to(127, number),
    }
}

/// Appends the parameters of redundant packets of a payload type.
#[tactic(auto, unfolding(crate::specs::AttributeTexts::red_text))]
pub fn put_red(out: &mut String, pt: Pt) -> Result<(), AllocError>
    ensures { OnOk result (string_bytes out.new ≡ string_bytes out.old ++ written.red_text pt.0) }
{
    put_decimal(out, pt.0 as u64)?;
    out.push_str("/")?;
    put_decimal(out, pt.0 as u64)
}
