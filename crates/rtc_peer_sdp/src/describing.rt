//! Session descriptions that a peer makes.
ghost use Rattle.std.specs.Prelude.{◌≡◌, ◌++◌, [], ◌∷◌, IfOk, OnOk, Some, map};
ghost use Rattle.rtc_sdp_values.specs.MediaLine.{bare_line};
ghost use Rattle.rtc_peer_core.specs.MadeSdp.{
  is_stopped,
  shown_msid as ShownMsid,
  shown_ssrcs as ShownSsrcs,
  name_of_sources as NameOfSources,
  bare_row_line as BareRowLine,
  init_of_row as InitOfRow,
  told_line,
  row_told,
  line_kind,
  live_mids,
  with_candidates,
  sdp_of_rows,
};

use rtc_peer_core::{LineMedia, SdpHead, ToldRow};
use rtc_sdp_values::{
    Candidate, Direction, LineKind, LineRow, MediaKind, MediaLine, Mid, Msid, Sdp, Ssrc,
};
use rtc_wire::{Seq, Text};
use rtc_wire_drops::{fill, fill_some, whole};
use std::alloc::{AllocError, Global};
use std::mem;

fn kind_of_line(kind: MediaKind) -> LineKind
    ensures { result ≡ line_kind kind }
{
    match kind {
        MediaKind::Audio => LineKind::Audio,
        MediaKind::Video => LineKind::Video,
    }
}

/// Whether a row is stopped for good.
pub fn is_stopped_row(row: &LineRow) -> bool
    ensures { result ≡ is_stopped row.now }
{
    match row {
        LineRow::Media { stopped, .. } => *stopped,
        LineRow::App { .. } => false,
    }
}

// A stopped line carries no stream.
fn shown_msid(stopped: bool, msid: Option<Msid>) -> Option<Msid>
    ensures { result ≡ ShownMsid stopped msid }
{
    if stopped { None } else { msid }
}

// A stopped line carries no SSRC.
fn shown_ssrcs(
    alloc: Global,
    stopped: bool,
    ssrcs: Seq<(Ssrc, Option<Ssrc>)>,
) -> Seq<(Ssrc, Option<Ssrc>)>
    ensures { result ≡ ShownSsrcs stopped ssrcs }
{
    if stopped { Seq::empty(alloc) } else { ssrcs }
}

// A description has a `cname` if it has SSRCs.
fn name_of_sources(ssrcs: &Seq<(Ssrc, Option<Ssrc>)>, cname: Option<Text>) -> Option<Text>
    ensures { result ≡ NameOfSources ssrcs.now cname }
{
    match ssrcs.as_slice() {
        [] => None,
        [_, ..] => cname,
    }
}

// The m-line of a media row, with what it carries of its media.
fn media_line(
    alloc: Global,
    kind: MediaKind,
    mid: Mid,
    dir: Direction,
    stopped: bool,
    media: LineMedia,
) -> MediaLine
    ensures { result ≡ record (bare_line (line_kind kind) mid dir) {
      disabled = stopped;
      payloads = media.payloads;
      exts = media.exts;
      simulcast = media.simulcast;
      msid = ShownMsid stopped media.msid;
      cname = NameOfSources (ShownSsrcs stopped media.ssrcs) media.cname;
      ssrcs = ShownSsrcs stopped media.ssrcs;
    } }
{
    let ssrcs = shown_ssrcs(alloc, stopped, media.ssrcs);
    MediaLine {
        kind: kind_of_line(kind),
        disabled: stopped,
        mid,
        dir,
        candidates: Seq::empty(alloc),
        creds: None,
        fingerprint: None,
        setup: None,
        payloads: media.payloads,
        exts: media.exts,
        simulcast: media.simulcast,
        msid: shown_msid(stopped, media.msid),
        cname: name_of_sources(&ssrcs, media.cname),
        ssrcs,
        max_message_size: None,
        sctp_init: None,
    }
}

// The m-line of a row. Of its peer it carries only how long messages of its data channels may be.
fn bare_row_line(alloc: Global, most: u32, media: LineMedia, row: &LineRow) -> MediaLine
    ensures { result ≡ BareRowLine most media row.now }
{
    match row {
        LineRow::Media {
            mid,
            kind,
            dir,
            stopped,
            ..
        } => media_line(alloc, *kind, *mid, *dir, *stopped, media),
        LineRow::App { mid, .. } => {
            let mut line = MediaLine::bare(alloc, LineKind::Application, *mid, Direction::SendRecv);
            line.max_message_size = Some(most as u64);
            drop(media);
            line
        }
    }
}

// Puts the SNAP INIT chunk on the line of a row: only that of the data channels carries it.
fn put_init(told: &Option<Text>, row: &LineRow, init: &mut Option<Text>) -> Result<(), AllocError>
    ensures { OnOk result (init.new ≡ InitOfRow told.now row.now) }
{
    match row {
        LineRow::Media { .. } => {
            *init = None;
            Ok(())
        }
        LineRow::App { .. } => fill(init, told),
    }
}

// Puts the credentials, the fingerprint, the role and the start of the peer on the line of a row.
fn put_peer(head: &SdpHead, row: &LineRow, line: &mut MediaLine) -> Result<(), AllocError>
    ensures { OnOk result (line.new ≡ record line.old {
      sctp_init = InitOfRow head.now.sctp_init row.now;
      creds = Some head.now.creds;
      fingerprint = Some head.now.fingerprint;
      setup = Some head.now.setup;
    }) }
{
    line.setup = Some(head.setup);
    fill_some(&mut line.creds, &head.creds)?;
    fill_some(&mut line.fingerprint, &head.fingerprint)?;
    put_init(&head.sctp_init, row, &mut line.sctp_init)
}

// The m-line of a row.
fn line_of_row(alloc: Global, head: &SdpHead, told: ToldRow) -> Result<MediaLine, AllocError>
    ensures { IfOk result (λ line. line ≡ told_line head.now told) }
{
    let ToldRow { row, media } = told;
    let mut line = bare_row_line(alloc, head.max_message_size, media, &row);
    let put = put_peer(head, &row, &mut line);
    whole(line, put)
}

fn list_lines(
    alloc: Global,
    head: &SdpHead,
    rows: Vec<ToldRow>,
) -> Result<Vec<MediaLine>, AllocError>
    ensures { IfOk result (λ lines. lines.items ≡ map (told_line head.now) rows.items) }
{
    let mut lines = Vec::with_capacity(alloc, rows.len())?;
    for told in rows {
        let line = line_of_row(alloc, head, told)?;
        lines.push(line)?;
    }
    Ok(lines)
}

// Puts the candidates at the first line.
fn put_candidates(alloc: Global, candidates: Seq<Candidate>, sdp: &mut Sdp)
    ensures { sdp.new ≡ record sdp.old { lines = with_candidates candidates sdp.old.lines } }
{
    let mut lines = mem::replace(&mut sdp.lines, Seq::empty(alloc)).into_vec();
    if let Some(line) = lines.first_mut() {
        line.candidates = candidates;
    }
    sdp.lines = Seq::new(lines);
}

// The mids of the rows that are not stopped.
fn list_live_mids(alloc: Global, rows: &[ToldRow]) -> Result<Seq<Mid>, AllocError>
    ensures { IfOk result (λ mids. mids ≡ live_mids (map row_told rows.now)) }
{
    let mut mids = Vec::with_capacity(alloc, rows.len())?;
    for told in rows {
        if is_stopped_row(&told.row) {
            continue;
        }
        mids.push(told.row.mid())?;
    }
    Ok(Seq::new(mids))
}

// Puts the lines of rows, and the group of those that are not stopped.
fn put_rows(
    alloc: Global,
    head: &SdpHead,
    rows: Vec<ToldRow>,
    sdp: &mut Sdp,
) -> Result<(), AllocError>
    ensures { OnOk result (sdp.new ≡ record sdp.old {
      groups = sdp.old.groups ++ live_mids (map row_told rows.items) ∷ [];
      lines = map (told_line head.now) rows.items;
    }) }
{
    let group = list_live_mids(alloc, rows.as_slice())?;
    sdp.groups.push(group)?;
    let lines = list_lines(alloc, head, rows)?;
    sdp.lines = Seq::new(lines);
    Ok(())
}

/// The session description of rows.
pub fn make_sdp(alloc: Global, head: SdpHead, rows: Vec<ToldRow>) -> Result<Sdp, AllocError>
    ensures { IfOk result (λ sdp. sdp ≡ sdp_of_rows head rows.items) }
{
    let mut head = head;
    let mut sdp = Sdp {
        id: head.session,
        groups: Seq::empty(alloc),
        ice_lite: head.lite,
        creds: None,
        fingerprint: None,
        setup: None,
        lines: Seq::empty(alloc),
    };
    let put = put_rows(alloc, &head, rows, &mut sdp);
    let candidates = mem::replace(&mut head.candidates, Seq::empty(alloc));
    put_candidates(alloc, candidates, &mut sdp);
    drop(head);
    whole(sdp, put)
}
