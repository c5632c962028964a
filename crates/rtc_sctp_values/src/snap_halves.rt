//! What an end keeps of starts by session descriptions.
ghost use Rattle.std.specs.Prelude.{◌≡◌, true, Some, Ok, is_some, IfOk, OnOk, OnErr, option_map, string_bytes};
ghost use Rattle.std.specs.Option.{option_copied};
ghost use Rattle.rtc_sctp_values.specs.InitChunk.{chunk_of_text};
ghost use Rattle.rtc_sctp_values.specs.InitHalves.{with_remote, remote_text, with_local, after_half};
ghost use Rattle.rtc_sctp_values.specs.SnapHalves.{
  nothing_kept,
  enabled_halves,
  without_pending,
  begun_halves,
  halves_or_none,
  text_in,
  shown_of,
  shown_local,
  shown_remote,
  whole_halves,
  halves_of,
  after_halves_of,
  KeepsRemote,
  DrawsPending,
  EnsuresLocal,
};

use crate::SctpInitData;
use crate::sctp_init_data::read_chunk;
use rtc_parts::Ids;
use rtc_wire::TryCopy;
use std::alloc::{AllocError, Global};
use std::marker::Model;

/// What an end keeps of SNAP: whether it is enabled, the pending INIT chunks, and those that the association was started with.
#[derive(Debug, Drop)]
pub struct SnapHalves {
    alloc: Global,
    enabled: bool,
    pending: Option<SctpInitData>,
    started: Option<SctpInitData>,
}

impl Model for SnapHalves {
    ghost use Rattle.rtc_sctp_values.specs.SnapHalves.{KeptHalves};

    ghost Value = { KeptHalves };

    ghost view = { λ kept. record {
      enabled = kept.enabled;
      pending = kept.pending;
      started = kept.started;
    } };
}

impl SnapHalves {
    /// Nothing is enabled or pending.
    pub fn none(alloc: Global) -> SnapHalves
        ensures { result ≡ nothing_kept }
    {
        SnapHalves {
            alloc,
            enabled: false,
            pending: None,
            started: None,
        }
    }

    pub fn is_enabled(&self) -> bool
        ensures { result ≡ self.now.enabled }
    {
        self.enabled
    }

    /// Whether the association was started with both chunks.
    pub fn is_begun(&self) -> bool
        ensures { result ≡ is_some self.now.started }
    {
        self.started.is_some()
    }

    /// Enables SNAP for good, with pending chunks until the association is started. `limit` is the longest message that
    /// this end takes, in bytes.
    pub fn enable(&mut self, is_started: bool, limit: u32)
        ensures { self.new ≡ enabled_halves is_started limit self.old }
    {
        self.enabled = true;
        if !is_started && self.pending.is_none() {
            self.pending = Some(SctpInitData::with_limit(self.alloc, limit));
        }
    }

    /// Drops the pending chunks.
    pub fn disable_pending(&mut self)
        ensures { self.new ≡ without_pending self.old }
    {
        self.pending = None;
    }

    /// Keeps the chunks that the association was started with, if any, and drops the pending ones.
    pub fn begin(&mut self, halves: Option<SctpInitData>)
        ensures { self.new ≡ begun_halves halves self.old }
    {
        self.pending = None;
        self.started = halves;
    }

    // Draws the pending chunk of this end, if it is missing.
    fn draw_pending<N: Ids>(&mut self, limit: u32, ids: &mut N) -> Result<(), AllocError>
        ensures { DrawsPending N.ids limit self.old ids.old result self.new ids.new }
    {
        match &mut self.pending {
            Some(halves) => halves.ensure_local_init_chunk(ids),
            None => {
                let mut halves = SctpInitData::with_limit(self.alloc, limit);
                halves.ensure_local_init_chunk(ids)?;
                self.pending = Some(halves);
                Ok(())
            }
        }
    }

    /// Draws this end's chunk, if it is missing. If memory runs out, nothing changes and nothing is drawn.
    pub fn ensure_local<N: Ids>(&mut self, limit: u32, ids: &mut N) -> Result<(), AllocError>
        ensures { EnsuresLocal N.ids limit self.old ids.old result self.new ids.new }
    {
        if self.started.is_some() {
            return Ok(());
        }
        self.draw_pending(limit, ids)
    }

    // Sets the pending chunk of the other end.
    fn put_remote(&mut self, limit: u32, chunk: Vec<u8>)
        ensures { self.new ≡ record self.old { pending = Some (with_remote chunk.items (halves_or_none limit self.old.pending)) } }
    {
        match &mut self.pending {
            Some(halves) => halves.set_remote_init_chunk(chunk),
            None => {
                let mut halves = SctpInitData::with_limit(self.alloc, limit);
                halves.set_remote_init_chunk(chunk);
                self.pending = Some(halves);
            }
        }
    }

    /// Takes the other end's chunk from its text. If that is no padded base64, the pending chunks are dropped, and it returns false.
    pub fn set_remote_text(&mut self, limit: u32, value: &str) -> Result<bool, AllocError>
        ensures keeps { KeepsRemote value.now limit self.old result self.new }
        ensures text { result ≡ Ok true → text_in remote_text self.new.pending ≡ Some value.now }
    {
        match read_chunk(self.alloc, value)? {
            Some(chunk) => {
                self.put_remote(limit, chunk);
                Ok(true)
            }
            None => {
                self.disable_pending();
                Ok(false)
            }
        }
    }

    // A copy of the pending chunks, or else empty ones.
    fn copy_pending(&self, limit: u32) -> Result<SctpInitData, AllocError>
        ensures { IfOk result (λ halves. halves ≡ halves_or_none limit self.now.pending) }
    {
        match &self.pending {
            None => Ok(SctpInitData::with_limit(self.alloc, limit)),
            Some(halves) => halves.copy(),
        }
    }

    /// The pending chunks with this end's, which is drawn if it is missing. If memory runs out, nothing is drawn.
    pub fn draw<N: Ids>(&self, limit: u32, ids: &mut N) -> Result<SctpInitData, AllocError>
        ensures halves { IfOk result (λ halves. halves ≡ with_local N.ids (halves_or_none limit self.now.pending) ids.old) }
        ensures after { OnOk result (ids.new ≡ after_half N.ids (halves_or_none limit self.now.pending).local ids.old) }
        ensures err { OnErr result (ids.new ≡ ids.old) }
    {
        let mut halves = self.copy_pending(limit)?;
        halves.ensure_local_init_chunk(ids)?;
        Ok(halves)
    }

    /// Keeps chunks as the pending ones.
    pub fn keep(&mut self, halves: SctpInitData)
        ensures { self.new ≡ record self.old { pending = Some halves } }
    {
        self.pending = Some(halves);
    }

    /// The chunks that the association was started with.
    pub fn begun(&self) -> Option<&SctpInitData>
        ensures { option_copied result ≡ self.now.started }
    {
        self.started.as_ref()
    }

    /// The pending chunks with the other end's from its text; this end's is drawn if it is missing. None if the text is
    /// no padded base64. If memory runs out, nothing is drawn.
    pub fn join<N: Ids>(
        &self,
        limit: u32,
        value: &str,
        ids: &mut N,
    ) -> Result<Option<SctpInitData>, AllocError>
        ensures halves { IfOk result (λ halves. halves ≡ halves_of N.ids limit self.now (chunk_of_text value.now) ids.old) }
        ensures after { OnOk result (ids.new ≡ after_halves_of N.ids limit self.now (chunk_of_text value.now) ids.old) }
        ensures err { OnErr result (ids.new ≡ ids.old) }
    {
        let Some(chunk) = read_chunk(self.alloc, value)? else {
            return Ok(None);
        };
        let mut halves = self.draw(limit, ids)?;
        halves.set_remote_init_chunk(chunk);
        Ok(Some(halves))
    }

    /// The text of this end's chunk: of those that the association was started with, or else of the pending ones.
    pub fn local_text(&self) -> Result<Option<String>, AllocError>
        ensures { IfOk result (λ text. option_map (λ t. string_bytes t) text ≡ shown_local self.now) }
    {
        match self.shown() {
            None => Ok(None),
            Some(halves) => halves.local_text(),
        }
    }

    /// The text of the other end's chunk: of those that the association was started with, or else of the pending ones.
    pub fn remote_text(&self) -> Result<Option<String>, AllocError>
        ensures { IfOk result (λ text. option_map (λ t. string_bytes t) text ≡ shown_remote self.now) }
    {
        match self.shown() {
            None => Ok(None),
            Some(halves) => halves.remote_init_string(),
        }
    }

    fn shown(&self) -> Option<&SctpInitData>
        ensures { option_copied result ≡ shown_of self.now.started self.now.pending }
    {
        match &self.started {
            Some(halves) => Some(halves),
            None => self.pending.as_ref(),
        }
    }

    /// A copy of the pending chunks, if both are there.
    pub fn build(&self) -> Result<Option<SctpInitData>, AllocError>
        ensures { IfOk result (λ halves. halves ≡ whole_halves self.now.pending) }
    {
        match &self.pending {
            None => Ok(None),
            Some(halves) => {
                if halves.is_whole() {
                    let copied = halves.copy()?;
                    return Ok(Some(copied));
                }
                Ok(None)
            }
        }
    }
}
