//! The formats of a media line.
ghost use Rattle.std.specs.Prelude.{◌≡◌, ◌==◌, ◌&&◌, ◌<◌, ◌++◌, [], ℕ, false, length, map, IfOk, IfSome, OnOk, option_and_then};
ghost use Rattle.std.specs.List.{cons_option, list_any, slice_get};
ghost use Rattle.std.specs.Option.{option_copied};
ghost use Rattle.rtc_wire_text.specs.Fields.{first};
ghost use Rattle.rtc_sdp_reader.specs.Payloads as spec;

use crate::link::Link;
use rtc_sdp_attributes::{Fmtp, Rtpmap, read_apt, read_red_primary};
use rtc_sdp_values::{PayloadRow, Pt};
use rtc_wire::{Seq, Text, TryCopy};
use rtc_wire_text::same_letters;
use std::alloc::{AllocError, Global};
use std::mem;

fn codec_for(codecs: &[Rtpmap], pt: u8) -> Option<&Rtpmap>
    ensures { option_copied result ≡ first (spec.codec_for pt) codecs.now }
{
    for codec in codecs {
        if codec.pt.0 == pt {
            return Some(codec);
        }
    }
    None
}

fn fmtp_for(fmtps: &[Fmtp], pt: u8) -> &str
    ensures { result.now ≡ spec.fmtp_for fmtps.now pt }
{
    for fmtp in fmtps {
        if fmtp.pt.0 == pt {
            return fmtp.text.as_str();
        }
    }
    ""
}

fn is_rtx(codec: &str) -> bool
    ensures { result ≡ spec.is_rtx_codec codec.now }
{
    same_letters(codec, "rtx")
}

fn is_red(codec: &str) -> bool
    ensures { result ≡ spec.is_red codec.now }
{
    same_letters(codec, "red")
}

/// What a payload type serves. Its parameters are looked for if its codec serves others.
fn link_of(codec: &Rtpmap, fmtps: &[Fmtp], format: u8) -> Link
    ensures { result ≡ spec.link_of (record { codec = codec.now; fmtp = spec.fmtp_for fmtps.now format }) }
{
    let pt = codec.pt.0;
    let name = codec.codec.as_str();
    if is_rtx(name) {
        return Link {
            pt,
            rtx_of: read_apt(fmtp_for(fmtps, format)),
            red_of: None,
        };
    }
    if is_red(name) {
        return Link {
            pt,
            rtx_of: None,
            red_of: read_red_primary(fmtp_for(fmtps, format)),
        };
    }
    Link {
        pt,
        rtx_of: None,
        red_of: None,
    }
}

fn links_of(
    alloc: Global,
    formats: &[u8],
    codecs: &[Rtpmap],
    fmtps: &[Fmtp],
) -> Result<Vec<Link>, AllocError>
    ensures { IfOk result (λ links. links.items ≡ map spec.link_of (spec.entries formats.now codecs.now fmtps.now)) }
{
    let mut links = Vec::with_capacity(alloc, formats.len().min(codecs.len()))?;
    for format in formats {
        let Some(codec) = codec_for(codecs, *format) else {
            continue;
        };
        links.push(link_of(codec, fmtps, *format))?;
    }
    Ok(links)
}

fn does_serve(pt: u8, primary: Option<u64>) -> bool
    ensures { result ≡ spec.serves pt primary }
{
    match primary {
        Some(number) => number == pt as u64,
        None => false,
    }
}

fn rtx_among(pt: u8, links: &[Link]) -> Option<Pt>
    ensures { result ≡ spec.rtx_among pt links.now }
{
    for link in links {
        if does_serve(pt, link.rtx_of) {
            return Some(Pt(link.pt));
        }
    }
    None
}

fn red_among(pt: u8, links: &[Link]) -> Option<Pt>
    ensures { result ≡ spec.red_among pt links.now }
{
    for link in links {
        if does_serve(pt, link.red_of) {
            return Some(Pt(link.pt));
        }
    }
    None
}

fn is_primary(codec: &str) -> bool
    ensures { result ≡ spec.is_primary codec.now }
{
    !(is_rtx(codec) || is_red(codec))
}

/// A text, which is moved if it is not read again, and else copied.
fn given(alloc: Global, text: &mut Text, goes: bool) -> Result<Text, AllocError>
    ensures given { IfOk result (λ given. given ≡ text.old) }
    ensures kept { goes ≡ false → text.new ≡ text.old }
{
    if goes {
        let empty = Text::new(String::new(alloc));
        Ok(mem::replace(text, empty))
    } else {
        text.copy()
    }
}

fn fmtp_place(fmtps: &[Fmtp], pt: u8) -> Option<usize>
    ensures place { IfSome result (λ place. place < length fmtps.now) }
    ensures fmtp { option_and_then (slice_get fmtps.now) result ≡ first (spec.parameters_for pt) fmtps.now }
{
    for i in 0..fmtps.len() {
        if fmtps[i].pt.0 == pt {
            return Some(i);
        }
    }
    None
}

fn codec_place(codecs: &[Rtpmap], pt: u8) -> Option<usize>
    ensures place { IfSome result (λ place. place < length codecs.now) }
    ensures codec { option_and_then (slice_get codecs.now) result ≡ first (spec.codec_for pt) codecs.now }
{
    for i in 0..codecs.len() {
        if codecs[i].pt.0 == pt {
            return Some(i);
        }
    }
    None
}

/// The parameters of a payload type.
fn fmtp_given(alloc: Global, fmtps: &mut Vec<Fmtp>, pt: u8, goes: bool) -> Result<Text, AllocError>
    ensures given { IfOk result (λ text. text ≡ spec.fmtp_for fmtps.old.items pt) }
    ensures kept { (other : ℕ) → (goes && (other == pt)) ≡ false
        → spec.fmtp_for fmtps.new.items other ≡ spec.fmtp_for fmtps.old.items other }
{
    match fmtp_place(fmtps.as_slice(), pt) {
        Some(place) => given(alloc, &mut fmtps[place].text, goes),
        None => Ok(Text::new(String::new(alloc))),
    }
}

fn row_made(
    alloc: Global,
    links: &[Link],
    codec: &mut Rtpmap,
    fmtp: Text,
    goes: bool,
) -> Result<PayloadRow, AllocError>
    ensures row { IfOk result (λ row. row ≡ spec.row_made links.now codec.old fmtp) }
    ensures pt { codec.new.pt ≡ codec.old.pt }
    ensures kept { goes ≡ false → codec.new ≡ codec.old }
{
    let name = given(alloc, &mut codec.codec, goes)?;
    let pt = codec.pt;
    Ok(PayloadRow {
        pt,
        rtx: rtx_among(pt.0, links),
        red: red_among(pt.0, links),
        codec: name,
        clock: codec.clock,
        channels: codec.channels,
        fmtp,
    })
}

fn row_of(
    alloc: Global,
    links: &[Link],
    codec: &mut Rtpmap,
    fmtps: &mut Vec<Fmtp>,
    goes: bool,
) -> Result<Option<PayloadRow>, AllocError>
    ensures row { IfOk result (λ row. row
        ≡ spec.payload_row_of links.now (record { codec = codec.old; fmtp = spec.fmtp_for fmtps.old.items codec.old.pt.0 })) }
    ensures pt { codec.new.pt ≡ codec.old.pt }
    ensures kept { goes ≡ false → codec.new ≡ codec.old }
    ensures others { (other : ℕ) → (goes && (other == codec.old.pt.0)) ≡ false
        → spec.fmtp_for fmtps.new.items other ≡ spec.fmtp_for fmtps.old.items other }
{
    if !is_primary(codec.codec.as_str()) {
        return Ok(None);
    }
    let fmtp = fmtp_given(alloc, fmtps, codec.pt.0, goes)?;
    let row = row_made(alloc, links, codec, fmtp, goes)?;
    Ok(Some(row))
}

fn format_row(
    alloc: Global,
    links: &[Link],
    format: u8,
    goes: bool,
    codecs: &mut Vec<Rtpmap>,
    fmtps: &mut Vec<Fmtp>,
) -> Result<Option<PayloadRow>, AllocError>
    ensures row { IfOk result (λ row. row
        ≡ option_and_then (spec.payload_row_of links.now) (spec.entry_of codecs.old.items fmtps.old.items format)) }
    ensures others { (other : ℕ) → (goes && (other == format)) ≡ false
        → spec.entry_of codecs.new.items fmtps.new.items other ≡ spec.entry_of codecs.old.items fmtps.old.items other }
{
    match codec_place(codecs.as_slice(), format) {
        Some(place) => row_of(alloc, links, &mut codecs[place], fmtps, goes),
        None => Ok(None),
    }
}

fn is_among(format: u8, formats: &[u8]) -> bool
    ensures { result ≡ list_any (λ other. other == format) formats.now }
{
    formats.iter().any(|other| *other == format)
}

fn push_row(rows: &mut Vec<PayloadRow>, row: Option<PayloadRow>) -> Result<(), AllocError>
    ensures { OnOk result (rows.new.items ≡ rows.old.items ++ cons_option row []) }
{
    if let Some(row) = row {
        rows.push(row)?;
    }
    Ok(())
}

#[tactic(auto, unfolding(crate::specs::Payloads::payload_rows))]
fn rows_of(
    alloc: Global,
    formats: &[u8],
    codecs: &mut Vec<Rtpmap>,
    fmtps: &mut Vec<Fmtp>,
) -> Result<Seq<PayloadRow>, AllocError>
    ensures { IfOk result (λ rows. rows ≡ spec.payload_rows formats.now codecs.old.items fmtps.old.items) }
{
    let links = links_of(alloc, formats, codecs.as_slice(), fmtps.as_slice())?;
    let mut rows = Vec::with_capacity(alloc, formats.len().min(codecs.len()))?;
    for i in 0..formats.len() {
        let format = formats[i];
        let goes = !is_among(format, &formats[i + 1..]);
        let row = format_row(alloc, links.as_slice(), format, goes, codecs, fmtps)?;
        push_row(&mut rows, row)?;
    }
    Ok(Seq::new(rows))
}

/// The payload rows of a media line: the codecs of its list, in its order, with their retransmissions and redundant packets. Their
/// texts go into the rows.
pub fn payload_rows(
    alloc: Global,
    formats: &[u8],
    codecs: &mut Seq<Rtpmap>,
    fmtps: &mut Seq<Fmtp>,
) -> Result<Seq<PayloadRow>, AllocError>
    ensures { IfOk result (λ rows. rows ≡ spec.payload_rows formats.now codecs.old fmtps.old) }
{
    let mut own_codecs = mem::replace(codecs, Seq::empty(alloc)).into_vec();
    let mut own_fmtps = mem::replace(fmtps, Seq::empty(alloc)).into_vec();
    let rows = rows_of(alloc, formats, &mut own_codecs, &mut own_fmtps)?;
    *codecs = Seq::new(own_codecs);
    *fmtps = Seq::new(own_fmtps);
    Ok(rows)
}
