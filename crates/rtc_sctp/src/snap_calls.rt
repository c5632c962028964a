//! The SNAP INIT chunks of an association (draft-hancke-tsvwg-snap).
ghost use Rattle.std.specs.Prelude.{◌≡◌, false, true, Ok, Some, is_some, IfOk, OnOk, OnErr, option_map, string_bytes};
ghost use Rattle.std.specs.Option.{option_copied};
ghost use Rattle.rtc_sctp_values.specs.InitHalves.{remote_text, with_local, after_half};
ghost use Rattle.rtc_sctp_values.specs.SnapHalves.{
  enabled_halves,
  without_pending,
  shown_local,
  shown_remote,
  text_in,
  whole_halves,
  halves_or_none,
  halves_of,
  after_halves_of,
};
ghost use Rattle.rtc_sctp_values.specs.InitChunk.{chunk_of_text};
ghost use Rattle.rtc_sctp.specs.SnapCalls.{EnsuresLocalHalf, TakesRemoteHalf};

use crate::SctpInitData;
use crate::streams::RtcSctp;
use rtc_parts::{Association, Ids};
use std::alloc::AllocError;

impl<S: Association> RtcSctp<S> {
    /// Whether a start by session descriptions was enabled.
    pub fn snap_enabled(&self) -> bool
        ensures { result ≡ self.now.snap.enabled }
    {
        self.snap.is_enabled()
    }

    /// Whether the association was started with both SNAP INIT chunks.
    pub fn is_snap_established(&self) -> bool
        ensures { result ≡ is_some self.now.snap.started }
    {
        self.snap.is_begun()
    }

    /// Enables SNAP for good, with empty pending chunks if no `init` was Ok and none are pending.
    pub fn enable_snap(&mut self)
        ensures { self.new ≡ record self.old {
          snap = enabled_halves (S.association.started self.old.association) self.old.local_max self.old.snap;
        } }
    {
        let is_started = self.association.is_started();
        self.snap.enable(is_started, self.local_max);
    }

    /// Drops the pending chunks. SNAP stays enabled.
    pub fn disable_pending_snap(&mut self)
        ensures { self.new ≡ record self.old { snap = without_pending self.old.snap } }
    {
        self.snap.disable_pending();
    }

    /// Draws this end's chunk if it is missing. If memory runs out, nothing changes and nothing is drawn.
    pub fn ensure_local_snap_init<N: Ids>(&mut self, ids: &mut N) -> Result<(), AllocError>
        ensures { EnsuresLocalHalf N.ids self.old ids.old result self.new ids.new }
    {
        self.snap.ensure_local(self.local_max, ids)
    }

    /// The text of this end's chunk: of those that the association was started with, or else of the pending ones.
    pub fn local_sctp_init_for_sdp(&self) -> Result<Option<String>, AllocError>
        ensures { IfOk result (λ text. option_map (λ t. string_bytes t) text ≡ shown_local self.now.snap) }
    {
        self.snap.local_text()
    }

    /// The text of the other end's chunk: of those that the association was started with, or else of the pending ones.
    pub fn snap_remote_init_string(&self) -> Result<Option<String>, AllocError>
        ensures { IfOk result (λ text. option_map (λ t. string_bytes t) text ≡ shown_remote self.now.snap) }
    {
        self.snap.remote_text()
    }

    /// A copy of the pending chunks, if both are there.
    pub fn build_snap_init_data(&self) -> Result<Option<SctpInitData>, AllocError>
        ensures { IfOk result (λ halves. halves ≡ whole_halves self.now.snap.pending) }
    {
        self.snap.build()
    }

    /// The pending chunks with this end's, which is drawn if it is missing. What is pending is unchanged.
    pub fn draw_snap_init_data<N: Ids>(&self, ids: &mut N) -> Result<SctpInitData, AllocError>
        ensures halves { IfOk result (λ halves. halves
            ≡ with_local N.ids (halves_or_none self.now.local_max self.now.snap.pending) ids.old) }
        ensures after { OnOk result (ids.new
            ≡ after_half N.ids (halves_or_none self.now.local_max self.now.snap.pending).local ids.old) }
        ensures err { OnErr result (ids.new ≡ ids.old) }
    {
        self.snap.draw(self.local_max, ids)
    }

    /// Keeps chunks as the pending ones.
    pub fn keep_snap_init_data(&mut self, halves: SctpInitData)
        ensures { self.new ≡ record self.old { snap = record self.old.snap { pending = Some halves } } }
    {
        self.snap.keep(halves);
    }

    /// The chunks that the association was started with.
    pub fn begun_snap_init_data(&self) -> Option<&SctpInitData>
        ensures { option_copied result ≡ self.now.snap.started }
    {
        self.snap.begun()
    }

    /// The pending chunks with the other end's from its text; this end's is drawn if it is missing. None if the text is
    /// no padded base64. What is pending is unchanged.
    pub fn join_snap_init_data<N: Ids>(
        &self,
        v: &str,
        ids: &mut N,
    ) -> Result<Option<SctpInitData>, AllocError>
        ensures halves { IfOk result (λ halves. halves
            ≡ halves_of N.ids self.now.local_max self.now.snap (chunk_of_text v.now) ids.old) }
        ensures after { OnOk result (ids.new
            ≡ after_halves_of N.ids self.now.local_max self.now.snap (chunk_of_text v.now) ids.old) }
        ensures err { OnErr result (ids.new ≡ ids.old) }
    {
        self.snap.join(self.local_max, v, ids)
    }

    /// Takes the other end's chunk into the pending ones, from its text. If that is no padded base64 (RFC 4648, section
    /// 4), the pending chunks are dropped, and it returns false.
    pub fn set_remote_snap_init_string(&mut self, v: &str) -> Result<bool, AllocError>
        requires { S.association.started self.old.association ≡ false }
        ensures takes { TakesRemoteHalf v.now self.old result self.new }
        ensures text { result ≡ Ok true → text_in remote_text self.new.snap.pending ≡ Some v.now }
    {
        self.snap.set_remote_text(self.local_max, v)
    }
}
