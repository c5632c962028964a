//! M-lines.
ghost use Rattle.std.specs.Prelude.{◌≡◌, OnOk};
ghost use Rattle.rtc_sdp_values.specs.MediaLine.{bare_line};

use crate::{
    Candidate, Direction, Extension, Fingerprint, IceCreds, LineKind, Mid, Msid, PayloadRow, Setup,
    Simulcast, Ssrc,
};
use rtc_wire::{Seq, Text, TryCopy};
use rtc_wire_drops::{fill_next, whole};
use std::alloc::{AllocError, Global};

/// An m-line of a session description, with its attributes (RFC 8866, section 5.14).
#[derive(Debug, PartialEq, Eq)]
pub struct MediaLine {
    pub kind: LineKind,
    /// Its port is 0.
    pub disabled: bool,
    pub mid: Mid,
    pub dir: Direction,
    pub candidates: Seq<Candidate>,
    pub creds: Option<IceCreds>,
    pub fingerprint: Option<Fingerprint>,
    pub setup: Option<Setup>,
    pub payloads: Seq<PayloadRow>,
    pub exts: Seq<(u8, Extension)>,
    pub simulcast: Option<Simulcast>,
    pub msid: Option<Msid>,
    pub cname: Option<Text>,
    /// Each SSRC, with its RTX SSRC.
    pub ssrcs: Seq<(Ssrc, Option<Ssrc>)>,
    /// In bytes; 0 means any size (RFC 8841, section 6).
    pub max_message_size: Option<u64>,
    pub sctp_init: Option<Text>,
}

// Written out, so that the proof of what owns a line sees one call and not the drop of each field.
impl Drop for MediaLine {
    fn drop(self) {
        let MediaLine {
            kind: _kind,
            disabled: _disabled,
            mid: _mid,
            dir: _dir,
            candidates: _candidates,
            creds: _creds,
            fingerprint: _fingerprint,
            setup: _setup,
            payloads: _payloads,
            exts: _exts,
            simulcast: _simulcast,
            msid: _msid,
            cname: _cname,
            ssrcs: _ssrcs,
            max_message_size: _max_message_size,
            sctp_init: _sctp_init,
        } = self;
    }
}

impl MediaLine {
    /// A line with a port and no attributes but its mid and its direction. Nothing is allocated.
    pub fn bare(alloc: Global, kind: LineKind, mid: Mid, dir: Direction) -> MediaLine
        ensures { result ≡ bare_line kind mid dir }
    {
        MediaLine {
            kind,
            disabled: false,
            mid,
            dir,
            candidates: Seq::empty(alloc),
            creds: None,
            fingerprint: None,
            setup: None,
            payloads: Seq::empty(alloc),
            exts: Seq::empty(alloc),
            simulcast: None,
            msid: None,
            cname: None,
            ssrcs: Seq::empty(alloc),
            max_message_size: None,
            sctp_init: None,
        }
    }
}

impl MediaLine {
    // A line with a copy of all that takes no memory.
    fn begin_copy(&self) -> MediaLine
        ensures { result ≡ record (bare_line self.now.kind self.now.mid self.now.dir) {
          disabled = self.now.disabled;
          setup = self.now.setup;
          max_message_size = self.now.max_message_size;
        } }
    {
        let nothing = self.candidates.empty_string();
        let mut line = MediaLine::bare(*nothing.allocator(), self.kind, self.mid, self.dir);
        line.disabled = self.disabled;
        line.setup = self.setup;
        line.max_message_size = self.max_message_size;
        line
    }

    fn copy_connection(&self, line: &mut MediaLine) -> Result<(), AllocError>
        ensures { OnOk result (line.new ≡ record line.old {
          candidates = self.now.candidates;
          creds = self.now.creds;
          fingerprint = self.now.fingerprint;
          sctp_init = self.now.sctp_init;
        }) }
    {
        let filled = fill_next(Ok(()), &mut line.candidates, &self.candidates);
        let filled = fill_next(filled, &mut line.creds, &self.creds);
        let filled = fill_next(filled, &mut line.fingerprint, &self.fingerprint);
        fill_next(filled, &mut line.sctp_init, &self.sctp_init)
    }

    fn copy_media(&self, line: &mut MediaLine) -> Result<(), AllocError>
        ensures { OnOk result (line.new ≡ record line.old {
          payloads = self.now.payloads;
          exts = self.now.exts;
          simulcast = self.now.simulcast;
          msid = self.now.msid;
          cname = self.now.cname;
          ssrcs = self.now.ssrcs;
        }) }
    {
        let filled = fill_next(Ok(()), &mut line.payloads, &self.payloads);
        let filled = fill_next(filled, &mut line.exts, &self.exts);
        let filled = fill_next(filled, &mut line.simulcast, &self.simulcast);
        let filled = fill_next(filled, &mut line.msid, &self.msid);
        let filled = fill_next(filled, &mut line.cname, &self.cname);
        fill_next(filled, &mut line.ssrcs, &self.ssrcs)
    }

    fn fill_copy(&self, line: &mut MediaLine) -> Result<(), AllocError>
        ensures { OnOk result (line.new ≡ record line.old {
          candidates = self.now.candidates;
          creds = self.now.creds;
          fingerprint = self.now.fingerprint;
          sctp_init = self.now.sctp_init;
          payloads = self.now.payloads;
          exts = self.now.exts;
          simulcast = self.now.simulcast;
          msid = self.now.msid;
          cname = self.now.cname;
          ssrcs = self.now.ssrcs;
        }) }
    {
        self.copy_connection(line)?;
        self.copy_media(line)
    }
}

impl TryCopy for MediaLine {
    fn copy(&self) -> Result<MediaLine, AllocError> {
        let mut line = self.begin_copy();
        let filled = self.fill_copy(&mut line);
        whole(line, filled)
    }
}
