//! The form of BUNDLE groups.
ghost use Rattle.std.specs.Prelude.{◌≡◌, IfOk, map, option_map};
ghost use Rattle.rtc_wire_text.specs.Fields.{each};
ghost use Rattle.rtc_sdp_attributes.specs.Forms.{short_token};
ghost use Rattle.rtc_sdp_grammar.specs.declared.attribute.Attribute.TheVariants.{GroupLine};
ghost use Rattle.rtc_sdp_grammar.specs.Table as spec;
ghost use Rattle.rtc_sdp_grammar.specs.NameLengths.{bytes_shown};

use crate::Attribute;
use rtc_sdp_values::Mid;
use rtc_wire::Seq;
use rtc_wire_text::words;
use std::alloc::{AllocError, Global};

fn mids_of(alloc: Global, words: &[&str]) -> Result<Option<Seq<Mid>>, AllocError>
    ensures { IfOk result (λ read. read ≡ each short_token (map (λ word. word.now) words.now)) }
{
    let mut mids = Vec::new(alloc);
    for word in words {
        let Some(mid) = Mid::read(word) else {
            return Ok(None);
        };
        mids.push(mid)?;
    }
    Ok(Some(Seq::new(mids)))
}

fn bundle(alloc: Global, mids: &[&str]) -> Result<Option<Attribute>, AllocError>
    ensures { IfOk result (λ read. read ≡ option_map GroupLine (each short_token (map (λ word. word.now) mids.now))) }
{
    match mids_of(alloc, mids)? {
        Some(mids) => Ok(Some(Attribute::GroupLine(mids))),
        None => Ok(None),
    }
}

/// What a `group` attribute says (RFC 8843, section 7.1); None if a mid of its BUNDLE is malformed.
pub(crate) fn group(alloc: Global, value: Option<&str>) -> Result<Option<Attribute>, AllocError>
    ensures { IfOk result (λ read. read ≡ spec.group (bytes_shown value.entry)) }
{
    let Some(value) = value else {
        return Ok(Some(Attribute::OtherGroup));
    };
    let fields = words(alloc, value)?;
    match fields.as_slice() {
        [first, rest @ ..] if *first == "BUNDLE" => bundle(alloc, rest),
        _ => Ok(Some(Attribute::OtherGroup)),
    }
}
