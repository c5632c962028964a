//! Writers of std as sinks.
ghost use Rattle.std.specs.Prelude.{◌≡◌};

use crate::{Sink, WriteFailed};
use std::io::Write;

/// A writer of std, with a count of its errors and of the calls that took none of a piece that is not empty.
///
/// It reports what its writer reports of the bytes that it holds: of standard output nothing.
#[derive(Drop)]
pub struct StdSink<T> {
    writer: T,
    faults: u64,
}

impl<T: Write> StdSink<T> {
    pub fn new(writer: T) -> StdSink<T>
        ensures writer { result.writer ≡ writer }
        ensures faults { result.faults ≡ 0 }
    {
        StdSink { writer, faults: 0 }
    }
}

impl<T: Write> Sink for StdSink<T> {
    ghost written = { λ sink. T.contents sink.writer };

    ghost faults = { λ sink. sink.faults };

    fn write(&mut self, bytes: &[u8]) -> Result<usize, WriteFailed> {
        match self.writer.write(bytes) {
            Ok(count) => {
                if count == 0 && !bytes.is_empty() {
                    self.faults = self.faults.saturating_add(1);
                }
                Ok(count)
            }
            Err(_) => {
                self.faults = self.faults.saturating_add(1);
                Err(WriteFailed)
            }
        }
    }
}
