//! Writing a text behind which a program ends.
ghost use Rattle.rtc_io.specs.Saying.{Says};

use crate::status::SINK_FAILED;
use crate::{Sink, write_all};

/// Writes a text, and returns the status to end with: the given one, or `SINK_FAILED` if the sink fails.
pub fn say<W: Sink>(output: &mut W, text: &[u8], status: u8) -> u8
    ensures { Says status text.now (W.written output.old) (W.written output.new) (W.faults output.old) (W.faults output.new) result }
{
    match write_all(output, text) {
        Ok(()) => status,
        Err(_) => SINK_FAILED,
    }
}
