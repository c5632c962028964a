//! The state of a reading.
ghost use Rattle.std.specs.Prelude.{◌≡◌, ◌++◌, [], IfOk, OnOk};
ghost use Rattle.std.specs.List.{cons_option};
ghost use Rattle.rtc_sdp_reader.specs.Putting as spec;
ghost use Rattle.rtc_sdp_reader.specs.Reading.{GivesReading};

use crate::line_value::line_of;
use crate::session_value::sdp_made;
use crate::{Part, Place, Stage};
use rtc_sdp_grammar::MediaHead;
use rtc_sdp_values::{MediaLine, Sdp, SdpError};
use rtc_wire::Seq;
use std::alloc::{AllocError, Global};
use std::mem;

/// What was read so far.
#[derive(Debug, Drop)]
pub struct Reader {
    pub(crate) stage: Stage,
    /// How many lines were read.
    pub(crate) number: u32,
    /// The number of the session.
    pub(crate) id: Option<u64>,
    pub(crate) session: Part,
    /// The line parts that have ended.
    pub(crate) lines: Seq<MediaLine>,
    /// The line part that is being built.
    pub(crate) part: Part,
    /// How many `mid` lines it has.
    pub(crate) mids: u32,
    /// The number of its `m=` line.
    pub(crate) begun: u32,
    /// The number of its first line that is refused.
    pub(crate) refused: Option<u32>,
}

/// The line part that ends here, if one does.
fn line_at(alloc: Global, stage: &Stage, part: &mut Part) -> Result<Option<MediaLine>, AllocError>
    ensures { IfOk result (λ line. line ≡ spec.line_at stage.now part.old) }
{
    match stage {
        Stage::InLine(own) => line_of(alloc, own, part),
        _ => Ok(None),
    }
}

fn push_line(lines: &mut Seq<MediaLine>, line: Option<MediaLine>) -> Result<(), AllocError>
    ensures { OnOk result (lines.new ≡ lines.old ++ cons_option line []) }
{
    match line {
        Some(line) => lines.push(line)?,
        None => {}
    }
    Ok(())
}

impl Reader {
    pub(crate) fn new(alloc: Global) -> Reader
        ensures { result ≡ spec.start }
    {
        Reader {
            stage: Stage::AwaitVersion,
            number: 0,
            id: None,
            session: Part::empty(alloc),
            lines: Seq::empty(alloc),
            part: Part::empty(alloc),
            mids: 0,
            begun: 0,
            refused: None,
        }
    }

    pub(crate) fn place(&self) -> Place
        ensures { result ≡ spec.place_of self.now.stage }
    {
        match self.stage {
            Stage::AwaitVersion => Place::First,
            Stage::AwaitOrigin => Place::Second,
            Stage::InSession => Place::Session,
            Stage::InLine(_) => Place::Line,
        }
    }

    /// The number of the line that refuses the line part that ends.
    pub(crate) fn part_refusal(&self) -> Option<u32>
        ensures { result ≡ spec.part_refusal self.now }
    {
        if self.mids == 1 {
            self.refused
        } else {
            Some(self.begun)
        }
    }

    /// Begins a line part.
    pub(crate) fn begin(&mut self, head: MediaHead)
        ensures { self.new ≡ spec.begun_line self.old head }
    {
        self.stage = Stage::InLine(head);
        self.part.clear();
        self.mids = 0;
        self.begun = self.number;
        self.refused = None;
    }

    /// Ends the line part that is being built.
    pub(crate) fn end(&mut self, alloc: Global) -> Result<(), AllocError>
        ensures { OnOk result (self.new ≡ spec.part_ended self.old) }
    {
        let line = line_at(alloc, &self.stage, &mut self.part)?;
        self.part.clear();
        push_line(&mut self.lines, line)
    }

    /// The value, without a line part that is being built. It is taken out of the reader.
    fn made(&mut self, alloc: Global) -> Sdp
        ensures { result ≡ spec.made self.old }
    {
        let lines = mem::replace(&mut self.lines, Seq::empty(alloc));
        sdp_made(alloc, self.id, &mut self.session, lines)
    }

    /// The value, at the end of the text. It is taken out of the reader.
    pub(crate) fn finish(&mut self, alloc: Global) -> Result<Sdp, SdpError>
        ensures { GivesReading result (spec.finish self.old) }
    {
        match self.place() {
            Place::First | Place::Second => Err(SdpError::Parse(self.number.saturating_add(1))),
            Place::Session => Ok(self.made(alloc)),
            Place::Line => {
                if let Some(number) = self.part_refusal() {
                    return Err(SdpError::Parse(number));
                }
                self.end(alloc)?;
                Ok(self.made(alloc))
            }
        }
    }
}
