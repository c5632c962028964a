//! Tables of streams.
ghost use Rattle.std.specs.Prelude.{◌≡◌, ◌<◌, ◌==◌, [], ◌∷◌, ◌++◌, false, Some, None, OnOk, OnErr, position, vec_len, vec_capacity};
ghost use Rattle.rtc_assoc_state.specs.Streams.{stream_of, put, is_unclosed, any_at_last_generation};
ghost use Rattle.rtc_assoc_state.specs.StreamTable.{SoundTable, HasPlaceRoom};

use crate::close_state::CloseState;
use crate::places::Places;
use crate::stream_row::StreamRow;
use std::alloc::{AllocError, Global};

/// The rows of the streams, in the order in which the streams were first heard of. The row of a stream that is gone is kept,
/// for its generation.
#[derive(Debug)]
pub struct StreamTable {
    pub rows: Vec<StreamRow>,
    /// The place of the row of a stream, if it was heard of.
    pub places: Places,
    /// Whether the generation of a stream is the last.
    pub at_last: bool,
}

// Written out, so that the proof of what owns a table sees one call and not the drop of each field.
impl Drop for StreamTable {
    fn drop(self) {
        let StreamTable {
            rows: _rows,
            places: _places,
            at_last: _at_last,
        } = self;
    }
}

impl StreamTable {
    /// A table of no streams. No memory is taken.
    pub fn new(alloc: Global) -> StreamTable
        ensures rows { result.rows.items ≡ [] }
        ensures sound { SoundTable result.rows.items result.places result.at_last }
    {
        StreamTable {
            rows: Vec::new(alloc),
            places: Places::new(alloc),
            at_last: false,
        }
    }

    /// The place of a stream.
    fn place_of(&self, id: u16) -> Option<usize>
        requires { SoundTable self.now.rows.items self.now.places self.now.at_last }
        ensures { result ≡ position (λ row. row.stream == id) self.now.rows.items }
    {
        let Some(place) = self.places.find(id) else {
            return None;
        };
        if place < self.rows.len() {
            if self.rows[place].stream == id {
                return Some(place);
            }
        }
        None
    }

    /// A stream's row; where there is none, the row of a stream of which nothing was heard.
    pub fn row_of(&self, id: u16) -> StreamRow
        requires { SoundTable self.now.rows.items self.now.places self.now.at_last }
        ensures { result ≡ stream_of id self.now.rows.items }
    {
        match self.place_of(id) {
            Some(place) => self.rows[place],
            None => StreamRow {
                stream: id,
                generation: 0,
                there: false,
                close: CloseState::Unclosed,
                finished: false,
                threshold: None,
            },
        }
    }

    /// Makes room for the row of a stream.
    pub fn make_room(&mut self, id: u16) -> Result<(), AllocError>
        requires { SoundTable self.old.rows.items self.old.places self.old.at_last }
        ensures rows { self.new.rows.items ≡ self.old.rows.items }
        ensures sound { SoundTable self.new.rows.items self.new.places self.new.at_last }
        ensures room { OnOk result (vec_len self.new.rows < vec_capacity self.new.rows) }
        ensures place { OnOk result (HasPlaceRoom id self.new.places) }
    {
        self.places.make_room(id)?;
        self.rows.reserve(1)?;
        Ok(())
    }

    /// Puts a row in place of that of its stream, in room that was made.
    pub fn set_row(&mut self, row: StreamRow)
        requires sound { SoundTable self.old.rows.items self.old.places self.old.at_last }
        requires room { vec_len self.old.rows < vec_capacity self.old.rows }
        requires place { HasPlaceRoom row.stream self.old.places }
        ensures rows { self.new.rows.items ≡ put row self.old.rows.items }
        ensures sound { SoundTable self.new.rows.items self.new.places self.new.at_last }
    {
        match self.place_of(row.stream) {
            Some(place) => self.set_at(place, row),
            None => self.add(row),
        }
    }

    /// Puts a row in place of that of its stream.
    pub fn put_row(&mut self, row: StreamRow) -> Result<(), AllocError>
        requires { SoundTable self.old.rows.items self.old.places self.old.at_last }
        ensures ok { OnOk result (self.new.rows.items ≡ put row self.old.rows.items) }
        ensures err { OnErr result (self.new.rows.items ≡ self.old.rows.items) }
        ensures sound { SoundTable self.new.rows.items self.new.places self.new.at_last }
    {
        self.make_room(row.stream)?;
        self.set_row(row);
        Ok(())
    }

    /// Puts a row in place of that of its stream, which this end closed.
    pub fn replace_row(&mut self, row: StreamRow)
        requires sound { SoundTable self.old.rows.items self.old.places self.old.at_last }
        requires closed { is_unclosed (stream_of row.stream self.old.rows.items).close ≡ false }
        ensures rows { self.new.rows.items ≡ put row self.old.rows.items }
        ensures sound { SoundTable self.new.rows.items self.new.places self.new.at_last }
    {
        match self.place_of(row.stream) {
            Some(place) => self.set_at(place, row),
            None => unreachable!(),
        }
    }

    /// Puts a row at the place of its stream. The rows are looked through where one leaves the last generation, which no
    /// stream does.
    fn set_at(&mut self, place: usize, row: StreamRow)
        requires sound { SoundTable self.old.rows.items self.old.places self.old.at_last }
        requires place { position (λ r. r.stream == row.stream) self.old.rows.items ≡ Some place }
        ensures rows { self.new.rows.items ≡ put row self.old.rows.items }
        ensures sound { SoundTable self.new.rows.items self.new.places self.new.at_last }
    {
        let was = self.rows[place].is_at_last_generation();
        let is = row.is_at_last_generation();
        self.rows[place] = row;
        if is {
            self.at_last = true;
            return;
        }
        if was {
            self.at_last = any_last_generation(self.rows.as_slice());
        }
    }

    /// Adds the row of a stream that has none, in room that was made.
    fn add(&mut self, row: StreamRow)
        requires sound { SoundTable self.old.rows.items self.old.places self.old.at_last }
        requires room { vec_len self.old.rows < vec_capacity self.old.rows }
        requires place { HasPlaceRoom row.stream self.old.places }
        requires absent { position (λ r. r.stream == row.stream) self.old.rows.items ≡ None }
        ensures rows { self.new.rows.items ≡ put row self.old.rows.items }
        ensures sound { SoundTable self.new.rows.items self.new.places self.new.at_last }
    {
        let place = self.rows.len();
        let last = row.is_at_last_generation();
        self.places.keep(row.stream, place);
        push_row(&mut self.rows, row);
        if last {
            self.at_last = true;
        }
    }
}

/// Puts a row at the end, in room that was made.
fn push_row(rows: &mut Vec<StreamRow>, row: StreamRow)
    requires { vec_len rows.old < vec_capacity rows.old }
    ensures { rows.new.items ≡ rows.old.items ++ row ∷ [] }
{
    if rows.push(row).is_err() {
        unreachable!();
    }
}

/// Whether the generation of a stream is the last.
fn any_last_generation(rows: &[StreamRow]) -> bool
    ensures { result ≡ any_at_last_generation rows.now }
{
    rows.iter().any(|row| row.is_at_last_generation())
}
