//! Writing a whole text.
ghost use Rattle.std.specs.Prelude.{◌≡◌, ◌≤◌, OnOk, OnErr};
ghost use Rattle.std.specs.Io.KnownBytes.{Appends};
ghost use Rattle.rtc_io.specs.Faults.{Rose};
ghost use Rattle.rtc_io.specs.Writing.{AppendsFront};

use crate::{Sink, WriteFailed};

/// Writes a text piece by piece until all of it is written or the sink fails.
pub fn write_all<W: Sink>(output: &mut W, text: &[u8]) -> Result<(), WriteFailed>
    ensures ok { OnOk result (Appends (W.written output.old) (W.written output.new) text.now) }
    ensures err { OnErr result (AppendsFront (W.written output.old) (W.written output.new) text.now) }
    ensures fault { OnErr result (Rose (W.faults output.old) (W.faults output.new)) }
    ensures later { W.faults output.old ≤ W.faults output.new }
{
    let mut done = 0;
    while done < text.len() {
        match output.write(&text[done..]) {
            Err(failed) => return Err(failed),
            Ok(0) => return Err(WriteFailed),
            Ok(count) => done += count,
        }
    }
    Ok(())
}
