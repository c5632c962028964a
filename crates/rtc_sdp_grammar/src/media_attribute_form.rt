//! The attributes of a media line, each by its row of the table.
ghost use Rattle.std.specs.Prelude.{◌≡◌, IfOk};
ghost use Rattle.rtc_sdp_attributes.specs.Forms as forms;
ghost use Rattle.rtc_sdp_attributes.specs.AttributeForms as form;
ghost use Rattle.rtc_sdp_grammar.specs.declared.attribute.Attribute.TheVariants.{
  CodecLine,
  ParametersLine,
  ExtensionLine,
  StreamLine,
  LayerLine,
  LayerListLine,
  SourceLine,
  SourcePairLine,
};
ghost use Rattle.rtc_sdp_grammar.specs.NameLengths.{bytes_shown};

use crate::Attribute;
use rtc_sdp_attributes::{
    read_extmap, read_fmtp, read_msid, read_rid, read_rtpmap, read_simulcast, read_ssrc_name,
    read_ssrc_pair,
};
use std::alloc::{AllocError, Global};

/// What an `rtpmap` attribute says (RFC 8866, section 6.6).
#[inline(always)]
pub(crate) fn codec(alloc: Global, value: Option<&str>) -> Result<Option<Attribute>, AllocError>
    ensures { IfOk result (λ read. read ≡ forms.valued (forms.saying CodecLine form.rtpmap) (bytes_shown value.entry)) }
{
    let Some(value) = value else {
        return Ok(None);
    };
    match read_rtpmap(alloc, value)? {
        Some(codec) => Ok(Some(Attribute::CodecLine(codec))),
        None => Ok(None),
    }
}

/// What an `fmtp` attribute says (RFC 8866, section 6.15).
#[inline(always)]
pub(crate) fn parameters(
    alloc: Global,
    value: Option<&str>,
) -> Result<Option<Attribute>, AllocError>
    ensures { IfOk result (λ read. read ≡ forms.valued (forms.saying ParametersLine form.fmtp) (bytes_shown value.entry)) }
{
    let Some(value) = value else {
        return Ok(None);
    };
    match read_fmtp(alloc, value)? {
        Some(fmtp) => Ok(Some(Attribute::ParametersLine(fmtp))),
        None => Ok(None),
    }
}

/// What an `extmap` attribute says (RFC 8285, section 8).
#[inline(always)]
pub(crate) fn extension(value: Option<&str>) -> Option<Attribute>
    ensures { result ≡ forms.valued (forms.saying ExtensionLine form.extmap) (bytes_shown value.entry) }
{
    let row = read_extmap(value?)?;
    Some(Attribute::ExtensionLine(row))
}

/// What an `msid` attribute says (RFC 8830, section 2).
#[inline(always)]
pub(crate) fn stream(alloc: Global, value: Option<&str>) -> Result<Option<Attribute>, AllocError>
    ensures { IfOk result (λ read. read ≡ forms.valued (forms.saying StreamLine form.msid) (bytes_shown value.entry)) }
{
    let Some(value) = value else {
        return Ok(None);
    };
    match read_msid(alloc, value)? {
        Some(msid) => Ok(Some(Attribute::StreamLine(msid))),
        None => Ok(None),
    }
}

/// What a `rid` attribute says (RFC 8851, section 4).
pub(crate) fn layer(alloc: Global, value: Option<&str>) -> Result<Option<Attribute>, AllocError>
    ensures { IfOk result (λ read. read ≡ forms.valued (forms.saying LayerLine form.rid) (bytes_shown value.entry)) }
{
    let Some(value) = value else {
        return Ok(None);
    };
    match read_rid(alloc, value)? {
        Some(layer) => Ok(Some(Attribute::LayerLine(layer))),
        None => Ok(None),
    }
}

/// What a `simulcast` attribute says (RFC 8853, section 5.1).
pub(crate) fn layer_list(
    alloc: Global,
    value: Option<&str>,
) -> Result<Option<Attribute>, AllocError>
    ensures { IfOk result (λ read. read ≡ forms.valued (forms.saying LayerListLine form.simulcast) (bytes_shown value.entry)) }
{
    let Some(value) = value else {
        return Ok(None);
    };
    match read_simulcast(alloc, value)? {
        Some(list) => Ok(Some(Attribute::LayerListLine(list))),
        None => Ok(None),
    }
}

/// What an `ssrc` attribute says (RFC 5576, section 6.1).
#[inline(always)]
pub(crate) fn source(alloc: Global, value: Option<&str>) -> Result<Option<Attribute>, AllocError>
    ensures { IfOk result (λ read. read ≡ forms.valued (forms.saying SourceLine form.source) (bytes_shown value.entry)) }
{
    let Some(value) = value else {
        return Ok(None);
    };
    match read_ssrc_name(alloc, value)? {
        Some(source) => Ok(Some(Attribute::SourceLine(source))),
        None => Ok(None),
    }
}

/// What an `ssrc-group` attribute says (RFC 5576, section 4.2).
pub(crate) fn source_pair(value: Option<&str>) -> Option<Attribute>
    ensures { result ≡ forms.valued (forms.saying SourcePairLine form.source_pair_form) (bytes_shown value.entry) }
{
    let pair = read_ssrc_pair(value?)?;
    Some(Attribute::SourcePairLine(pair))
}
