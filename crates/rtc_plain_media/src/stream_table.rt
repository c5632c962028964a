//! Tables of streams.
ghost use Rattle.std.specs.Prelude.{
  ◌≡◌,
  ◌<◌,
  ◌==◌,
  ◌++◌,
  ◌∷◌,
  None,
  length,
  IfOk,
  IfErr,
  OnOk,
  OnErr,
  IfSome,
  Some,
  is_some,
  position,
  filter,
  not,
  [],
  false,
};
ghost use Rattle.std.specs.Borrow.{LendsSo, LendsSoOk, sem};
ghost use Rattle.std.specs.List.{list_any, position_or_len};
ghost use Rattle.rtc_parts.specs.NoStream.{StreamAnswers};
ghost use Rattle.rtc_parts.specs.MediaUpdates.{removed_by};
ghost use Rattle.rtc_plain_media.specs.Streams.{
  without_streams,
  has_ssrc,
  has_name,
  is_of_line,
  row_uses,
  made_stream_row,
  new_mark,
  put_row,
  marked,
  held_mark,
  renumbered,
  can_renumber,
};

use crate::PlainMark;
use crate::lines::{any_removal, is_removed};
use crate::stream_index::StreamIndex;
use crate::stream_row::StreamRow;
use rtc_parts::{MediaUpdate, NoStream};
use rtc_sdp_values::{Mid, Rid, Ssrc};
use std::alloc::{AllocError, Global};
use std::collections::VecDeque;
use std::marker::Model;

/// The streams of one direction, in the order in which they were added. Look-ups take the first that fits.
pub struct StreamTable {
    rows: Vec<StreamRow>,
    index: StreamIndex,
}

impl Model for StreamTable {
    ghost use Rattle.rtc_plain_media.specs.StreamIndex.{IndexesStreams};
    ghost use Rattle.rtc_plain_media.specs.Streams.{Streams};

    ghost Value = { Streams };

    ghost view = { λ t. t.rows.items };

    ghost invariant = { λ t. IndexesStreams t.index t.rows.items };
}

// Written out, so that the proof of what owns a table sees one call.
impl Drop for StreamTable {
    fn drop(self) {
        let StreamTable {
            rows: _rows,
            index: _index,
        } = self;
    }
}

/// Drops the rows of an SSRC.
fn drop_ssrc(rows: &mut Vec<StreamRow>, ssrc: Ssrc)
    ensures { rows.new.items ≡ filter (λ row. not (has_ssrc ssrc row)) rows.old.items }
{
    rows.retain(|row| !(row.ssrc.0 == ssrc.0));
}

/// Drops the rows of a line.
fn drop_mid(rows: &mut Vec<StreamRow>, mid: Mid)
    ensures { rows.new.items ≡ filter (λ row. not (is_of_line mid row)) rows.old.items }
{
    rows.retain(|row| row.mid != mid);
}

/// Drops the rows of lines that some updates remove.
fn drop_removed(rows: &mut Vec<StreamRow>, updates: &VecDeque<MediaUpdate>)
    ensures { rows.new.items ≡ without_streams (removed_by updates.now.items) rows.old.items }
{
    rows.retain(|row| !is_removed(updates, row.mid));
}

impl StreamTable {
    ghost use Rattle.rtc_plain_media.specs.contracts.plain_mark.PlainMark.{the_row as mark_row};
    ghost use Rattle.rtc_plain_media.specs.contracts.stream_table.StreamTable.{the_row};

    pub fn new(alloc: Global) -> StreamTable
        ensures { result ≡ [] }
    {
        StreamTable {
            rows: Vec::new(alloc),
            index: StreamIndex::new(alloc),
        }
    }

    fn place_of(&self, ssrc: Ssrc) -> Option<usize>
        ensures { result ≡ position (has_ssrc ssrc) self.now }
    {
        self.index.place_of(ssrc)
    }

    fn place_of_name(&self, mid: Mid, rid: Option<Rid>) -> Option<usize>
        ensures { result ≡ position (has_name mid rid) self.now }
    {
        self.index.place_of_name(mid, rid)
    }

    /// Whether a stream or its retransmissions have an SSRC.
    pub fn uses(&self, ssrc: Ssrc) -> bool
        ensures { result ≡ list_any (row_uses ssrc) self.now }
    {
        self.index.uses(ssrc)
    }

    /// Puts a row in the place of the first of its SSRC, or else as a last one, and returns its place.
    fn put(
        &mut self,
        ssrc: Ssrc,
        rtx: Option<Ssrc>,
        mid: Mid,
        rid: Option<Rid>,
    ) -> Result<usize, AllocError>
        ensures place { IfOk result (λ at. at ≡ position_or_len (has_ssrc ssrc) self.old) }
        ensures within { IfOk result (λ at. at < length self.new) }
        ensures ok { OnOk result (self.new ≡ put_row (made_stream_row ssrc rtx mid rid) self.old) }
        ensures err { OnErr result (self.new ≡ self.old) }
    {
        match self.place_of(ssrc) {
            Some(at) => {
                self.rows[at] = StreamRow {
                    ssrc,
                    rtx,
                    mid,
                    rid,
                    mark: PlainMark { count: 0 },
                };
                self.index.rebuild(self.rows.as_slice());
                Ok(at)
            }
            None => {
                let at = self.push(ssrc, rtx, mid, rid)?;
                Ok(at)
            }
        }
    }

    /// Puts a row behind the others, and returns its place.
    fn push(
        &mut self,
        ssrc: Ssrc,
        rtx: Option<Ssrc>,
        mid: Mid,
        rid: Option<Rid>,
    ) -> Result<usize, AllocError>
        ensures place { IfOk result (λ at. at ≡ length self.old) }
        ensures ok { OnOk result (self.new ≡ self.old ++ made_stream_row ssrc rtx mid rid ∷ []) }
        ensures err { OnErr result (self.new ≡ self.old) }
    {
        let at = self.rows.len();
        self.index.make_room(at + 1)?;
        self.rows.reserve(1)?;
        let row = StreamRow {
            ssrc,
            rtx,
            mid,
            rid,
            mark: PlainMark { count: 0 },
        };
        self.index.add(&row, at);
        self.rows.push_reserved(row);
        Ok(at)
    }

    /// Makes or replaces the stream of an SSRC, and lends its mark.
    pub fn make(
        &mut self,
        ssrc: Ssrc,
        rtx: Option<Ssrc>,
        mid: Mid,
        rid: Option<Rid>,
    ) -> Result<&mut PlainMark, NoStream>
        ensures* leaves { sem 𝓛 (LendsSoOk the_row mark_row self.entry result (λ n x. IfOk result (λ lent. (lent.now ≡ new_mark)
            × (n ≡ put_row (record (made_stream_row ssrc rtx mid rid) { mark = x }) self.old))) (λ n. n ≡ self.old)) }
        ensures answer { StreamAnswers false result }
    {
        let at = self.put(ssrc, rtx, mid, rid)?;
        Ok(&mut self.rows[at].mark)
    }

    /// Drops the streams of an SSRC.
    pub fn remove(&mut self, ssrc: Ssrc) -> bool
        ensures answer { result ≡ list_any (has_ssrc ssrc) self.old }
        ensures rest { self.new ≡ filter (λ row. not (has_ssrc ssrc row)) self.old }
    {
        let there = self.place_of(ssrc).is_some();
        let count = self.rows.len();
        drop_ssrc(&mut self.rows, ssrc);
        self.index.refresh(self.rows.as_slice(), count);
        there
    }

    /// Drops the streams of a line.
    pub fn drop_line(&mut self, mid: Mid)
        ensures { self.new ≡ filter (λ row. not (is_of_line mid row)) self.old }
    {
        let count = self.rows.len();
        drop_mid(&mut self.rows, mid);
        self.index.refresh(self.rows.as_slice(), count);
    }

    /// Drops the streams of lines that some updates remove. The streams are looked through only if one does.
    pub fn drop_removed(&mut self, updates: &VecDeque<MediaUpdate>)
        ensures { self.new ≡ without_streams (removed_by updates.now.items) self.old }
    {
        if !any_removal(updates) {
            return;
        }
        let count = self.rows.len();
        drop_removed(&mut self.rows, updates);
        self.index.refresh(self.rows.as_slice(), count);
    }

    /// The mark of the stream of an SSRC.
    pub fn mark(&mut self, ssrc: Ssrc) -> Option<&mut PlainMark>
        ensures* leaves { sem 𝓛 (LendsSo the_row mark_row self.entry result (λ n x. IfSome result (λ lent.
            (Some lent.now ≡ held_mark (has_ssrc ssrc) self.old) × (n ≡ marked (has_ssrc ssrc) x self.old))) (λ n. n ≡ self.old)) }
        ensures found { is_some result ≡ list_any (has_ssrc ssrc) self.old }
    {
        match self.place_of(ssrc) {
            Some(at) => Some(&mut self.rows[at].mark),
            None => None,
        }
    }

    /// The mark of the stream of a line and a layer.
    pub fn named_mark(&mut self, mid: Mid, rid: Option<Rid>) -> Option<&mut PlainMark>
        ensures* leaves { sem 𝓛 (LendsSo the_row mark_row self.entry result (λ n x. IfSome result (λ lent.
            (Some lent.now ≡ held_mark (has_name mid rid) self.old) × (n ≡ marked (has_name mid rid) x self.old))) (λ n. n ≡ self.old)) }
        ensures found { is_some result ≡ list_any (has_name mid rid) self.old }
    {
        match self.place_of_name(mid, rid) {
            Some(at) => Some(&mut self.rows[at].mark),
            None => None,
        }
    }

    /// Gives the stream of a line and a layer a new SSRC and new retransmissions, and lends its mark.
    pub fn reset(
        &mut self,
        mid: Mid,
        rid: Option<Rid>,
        ssrc: Ssrc,
        rtx: Option<Ssrc>,
    ) -> Option<&mut PlainMark>
        ensures* leaves { sem 𝓛 (LendsSo the_row mark_row self.entry result (λ n x. IfSome result (λ lent.
            (lent.now ≡ new_mark) × (n ≡ renumbered mid rid ssrc rtx x self.old))) (λ n. n ≡ self.old)) }
        ensures found { is_some result ≡ can_renumber mid rid ssrc rtx self.old }
    {
        match self.place_of_name(mid, rid) {
            Some(at) => {
                let row = &self.rows[at];
                if row.can_renumber(ssrc, rtx) {
                    let row = row.numbered(ssrc, rtx);
                    self.rows[at] = row;
                    self.index.rebuild(self.rows.as_slice());
                    Some(&mut self.rows[at].mark)
                } else {
                    None
                }
            }
            None => None,
        }
    }
}
