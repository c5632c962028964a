//! The attributes of a connection, each by its row of the table.
ghost use Rattle.std.specs.Prelude.{◌≡◌, IfOk};
ghost use Rattle.rtc_wire_text.specs.Numbers.{number as spec_number};
ghost use Rattle.rtc_sdp_attributes.specs.Forms as forms;
ghost use Rattle.rtc_sdp_attributes.specs.AttributeForms as form;
ghost use Rattle.rtc_sdp_grammar.specs.declared.attribute.Attribute.TheVariants.{
  MidLine,
  SetupLine,
  UfragLine,
  PasswordLine,
  FingerprintLine,
  CandidateLine,
  MessageSizeLine,
  SctpInitLine,
};
ghost use Rattle.rtc_sdp_grammar.specs.NameLengths.{bytes_shown};

use crate::Attribute;
use rtc_sdp_attributes::{
    read_candidate, read_fingerprint, read_password, read_sctp_init, read_setup, read_ufrag,
};
use rtc_sdp_values::Mid;
use rtc_wire_text::number;
use std::alloc::{AllocError, Global};

/// What a `mid` attribute says (RFC 5888, section 4).
#[inline(always)]
pub(crate) fn mid(value: Option<&str>) -> Option<Attribute>
    ensures { result ≡ forms.valued (forms.saying MidLine forms.short_token) (bytes_shown value.entry) }
{
    let mid = Mid::read(value?)?;
    Some(Attribute::MidLine(mid))
}

/// What a `setup` attribute says (RFC 4145, section 4).
#[inline(always)]
pub(crate) fn setup(value: Option<&str>) -> Option<Attribute>
    ensures { result ≡ forms.valued (forms.saying SetupLine (forms.one_of form.setup_words)) (bytes_shown value.entry) }
{
    let setup = read_setup(value?)?;
    Some(Attribute::SetupLine(setup))
}

/// What a `max-message-size` attribute says (RFC 8841, section 6).
#[inline(always)]
pub(crate) fn message_size(value: Option<&str>) -> Option<Attribute>
    ensures { result ≡ forms.valued (forms.saying MessageSizeLine spec_number) (bytes_shown value.entry) }
{
    let size = number(value?)?;
    Some(Attribute::MessageSizeLine(size))
}

/// What an `ice-ufrag` attribute says (RFC 8839, section 5.4).
#[inline(always)]
pub(crate) fn ufrag(alloc: Global, value: Option<&str>) -> Result<Option<Attribute>, AllocError>
    ensures { IfOk result (λ read. read ≡ forms.valued (forms.saying UfragLine (forms.word_up_to 255)) (bytes_shown value.entry)) }
{
    let Some(value) = value else {
        return Ok(None);
    };
    match read_ufrag(alloc, value)? {
        Some(ufrag) => Ok(Some(Attribute::UfragLine(ufrag))),
        None => Ok(None),
    }
}

/// What an `ice-pwd` attribute says (RFC 8839, section 5.4).
#[inline(always)]
pub(crate) fn password(alloc: Global, value: Option<&str>) -> Result<Option<Attribute>, AllocError>
    ensures { IfOk result (λ read. read ≡ forms.valued (forms.saying PasswordLine (forms.word_up_to 256)) (bytes_shown value.entry)) }
{
    let Some(value) = value else {
        return Ok(None);
    };
    match read_password(alloc, value)? {
        Some(password) => Ok(Some(Attribute::PasswordLine(password))),
        None => Ok(None),
    }
}

/// What a `fingerprint` attribute says (RFC 8122, section 5).
#[inline(always)]
pub(crate) fn fingerprint(
    alloc: Global,
    value: Option<&str>,
) -> Result<Option<Attribute>, AllocError>
    ensures { IfOk result (λ read. read ≡ forms.valued (forms.saying FingerprintLine form.fingerprint) (bytes_shown value.entry)) }
{
    let Some(value) = value else {
        return Ok(None);
    };
    match read_fingerprint(alloc, value)? {
        Some(fingerprint) => Ok(Some(Attribute::FingerprintLine(fingerprint))),
        None => Ok(None),
    }
}

/// What a `candidate` attribute says (RFC 8839, section 5.1).
pub(crate) fn candidate(alloc: Global, value: Option<&str>) -> Result<Option<Attribute>, AllocError>
    ensures { IfOk result (λ read. read ≡ forms.valued (forms.saying CandidateLine form.candidate) (bytes_shown value.entry)) }
{
    let Some(value) = value else {
        return Ok(None);
    };
    match read_candidate(alloc, value)? {
        Some(candidate) => Ok(Some(Attribute::CandidateLine(candidate))),
        None => Ok(None),
    }
}

/// What an `sctp-init` attribute says (draft-hancke-tsvwg-snap).
pub(crate) fn sctp_init(alloc: Global, value: Option<&str>) -> Result<Option<Attribute>, AllocError>
    ensures { IfOk result (λ read. read ≡ forms.valued (forms.saying SctpInitLine forms.spaceless) (bytes_shown value.entry)) }
{
    let Some(value) = value else {
        return Ok(None);
    };
    match read_sctp_init(alloc, value)? {
        Some(chunk) => Ok(Some(Attribute::SctpInitLine(chunk))),
        None => Ok(None),
    }
}
