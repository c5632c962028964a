//! What a negotiation says of a media line.
ghost use Rattle.std.specs.Prelude.{◌≡◌, [], None, OnOk};

use rtc_sdp_values::{Extension, LineRow, Mid, Msid, PayloadRow, Simulcast, Ssrc};
use rtc_wire::{Seq, Text, TryCopy};
use rtc_wire_drops::{fill_next, whole};
use std::alloc::AllocError;

/// A line as a negotiation leaves it. The media part is given one for each media line of a description.
#[derive(Debug, PartialEq, Eq)]
pub struct MediaUpdate {
    pub row: LineRow,
    /// The stopped line in whose place an offer put this one (RFC 8829, section 5.2.2).
    pub removed: Option<Mid>,
    /// Whether a new line is to be reported to callers.
    pub announce: bool,
    pub payloads: Seq<PayloadRow>,
    /// Header extensions by their ids.
    pub exts: Seq<(u8, Extension)>,
    pub simulcast: Option<Simulcast>,
    pub msid: Option<Msid>,
    pub cname: Option<Text>,
    /// The streams that this end sends, each with that of its retransmissions.
    pub ssrcs_tx: Seq<(Ssrc, Option<Ssrc>)>,
    /// The streams that the other end sends.
    pub ssrcs_rx: Seq<(Ssrc, Option<Ssrc>)>,
}

// Written out, so that the proof of what owns an update sees one call and not the drop of each field.
impl Drop for MediaUpdate {
    fn drop(self) {
        let MediaUpdate {
            row: _row,
            removed: _removed,
            announce: _announce,
            payloads: _payloads,
            exts: _exts,
            simulcast: _simulcast,
            msid: _msid,
            cname: _cname,
            ssrcs_tx: _ssrcs_tx,
            ssrcs_rx: _ssrcs_rx,
        } = self;
    }
}

impl MediaUpdate {
    // An update with a copy of all that takes no memory.
    fn begin_copy(&self) -> MediaUpdate
        ensures { result ≡ record self.now {
          payloads = [];
          exts = [];
          simulcast = None;
          msid = None;
          cname = None;
          ssrcs_tx = [];
          ssrcs_rx = [];
        } }
    {
        let nothing = self.payloads.empty_string();
        MediaUpdate {
            row: self.row,
            removed: self.removed,
            announce: self.announce,
            payloads: Seq::empty(*nothing.allocator()),
            exts: Seq::empty(*nothing.allocator()),
            simulcast: None,
            msid: None,
            cname: None,
            ssrcs_tx: Seq::empty(*nothing.allocator()),
            ssrcs_rx: Seq::empty(*nothing.allocator()),
        }
    }

    fn fill_copy(&self, update: &mut MediaUpdate) -> Result<(), AllocError>
        ensures { OnOk result (update.new ≡ record update.old {
          payloads = self.now.payloads;
          exts = self.now.exts;
          simulcast = self.now.simulcast;
          msid = self.now.msid;
          cname = self.now.cname;
          ssrcs_tx = self.now.ssrcs_tx;
          ssrcs_rx = self.now.ssrcs_rx;
        }) }
    {
        let filled = fill_next(Ok(()), &mut update.payloads, &self.payloads);
        let filled = fill_next(filled, &mut update.exts, &self.exts);
        let filled = fill_next(filled, &mut update.simulcast, &self.simulcast);
        let filled = fill_next(filled, &mut update.msid, &self.msid);
        let filled = fill_next(filled, &mut update.cname, &self.cname);
        let filled = fill_next(filled, &mut update.ssrcs_tx, &self.ssrcs_tx);
        fill_next(filled, &mut update.ssrcs_rx, &self.ssrcs_rx)
    }
}

impl TryCopy for MediaUpdate {
    fn copy(&self) -> Result<MediaUpdate, AllocError> {
        let mut update = self.begin_copy();
        let filled = self.fill_copy(&mut update);
        whole(update, filled)
    }
}
