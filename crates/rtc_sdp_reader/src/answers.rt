//! The reader.
ghost use Rattle.std.specs.Prelude.{◌≡◌, ◌<◌, ◌∷◌, length};
ghost use Rattle.std.specs.Str.Lines.{strip_carriage_return};
ghost use Rattle.rtc_wire_text.specs.Lines.{lines};
ghost use Rattle.rtc_sdp_reader.specs.Putting.{start};
ghost use Rattle.rtc_sdp_reader.specs.Reading.{reading, ReadsSdp};

use crate::reader::Reader;
use rtc_sdp_attributes::cut;
use rtc_sdp_grammar::item_of;
use rtc_sdp_values::{Sdp, SdpError};
use std::alloc::Global;

fn without_return(line: &str) -> &str
    ensures { result.now ≡ strip_carriage_return line.now }
{
    match line.as_bytes() {
        [.., b'\r'] => &line[..line.len() - 1],
        _ => line,
    }
}

/// The first line of a text, without its end, and what is behind it.
#[tactic(auto, using(crate::proofs::FirstLine::line_cut, crate::proofs::FirstLine::last_line, crate::proofs::FirstLine::is_shorter))]
fn first_line(text: &str) -> (&str, &str)
    requires { 0 < length text.now }
    ensures lines { lines text.now ≡ result.0.now ∷ lines result.1.now }
    ensures shorter { length result.1.now < length text.now }
{
    match cut(text, b'\n') {
        Some((line, behind)) => (without_return(line), behind),
        None => (text, ""),
    }
}

/// What a reader that has read nothing returns for a text.
fn read_by(reader: &mut Reader, alloc: Global, text: &str) -> Result<Sdp, SdpError>
    requires { reader.old ≡ start }
    ensures { ReadsSdp result (reading text.now) }
{
    let mut rest = text;
    'line: while !rest.is_empty() {
        let (line, behind) = first_line(rest);
        let item = item_of(alloc, line)?;
        reader.take(alloc, item)?;
        rest = behind;
    }
    reader.finish(alloc)
}

/// The value that a session description has, or the number of the first line that refuses it. Goes over the text once.
pub fn read(alloc: Global, text: &str) -> Result<Sdp, SdpError>
    ensures { ReadsSdp result (reading text.now) }
{
    let mut reader = Reader::new(alloc);
    let told = read_by(&mut reader, alloc, text);
    drop(reader);
    told
}
