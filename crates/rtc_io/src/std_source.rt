//! Readers of std.
ghost use Rattle.std.specs.Prelude.{◌≡◌};

use crate::{ReadFailed, Source};
use std::io::Read;

/// A reader of std, with a count of its errors.
///
/// It reports what its reader reports of the bytes that are left: of standard input nothing.
#[derive(Drop)]
pub struct StdSource<T> {
    reader: T,
    faults: u64,
}

impl<T: Read> StdSource<T> {
    pub fn new(reader: T) -> StdSource<T>
        ensures reader { result.reader ≡ reader }
        ensures faults { result.faults ≡ 0 }
    {
        StdSource { reader, faults: 0 }
    }
}

impl<T: Read> Source for StdSource<T> {
    ghost left = { λ source. T.remaining source.reader };

    ghost faults = { λ source. source.faults };

    fn read(&mut self, buf: &mut [u8]) -> Result<usize, ReadFailed> {
        match self.reader.read(buf) {
            Ok(count) => Ok(count),
            Err(_) => {
                self.faults = self.faults.saturating_add(1);
                Err(ReadFailed)
            }
        }
    }
}
