//! Takes bytes.
ghost use Rattle.std.specs.Prelude.{◌≡◌, ℕ, ◌<◌, List, length, Option, IfOk};
ghost use Rattle.std.specs.Io.{WritesAtMost};
ghost use Rattle.std.specs.Io.KnownBytes.{WriteAppends};
ghost use Rattle.rtc_io.specs.Faults.{Rose, HasCause};

/// A call of a sink that failed. It wrote nothing.
#[derive(Clone, Copy, Debug, PartialEq, Eq)]
pub struct WriteFailed;

/// Takes bytes a piece at a time.
pub trait Sink {
    /// The bytes that were written, if the sink reports them.
    ghost written: { Self → Option (List ℕ) };

    /// How often the sink failed. It never falls.
    ghost faults: { Self → ℕ };

    /// Takes bytes from the front of a piece, and returns how many. To take none of a piece that is not empty is a fault.
    fn write(&mut self, bytes: &[u8]) -> Result<usize, WriteFailed>
        ensures bound { WritesAtMost result bytes.now }
        ensures bytes { WriteAppends (written self.old) (written self.new) result bytes.now }
        ensures cause { HasCause (faults self.old) (faults self.new) result }
        ensures stuck { IfOk result (λ count. count ≡ 0 → 0 < length bytes.now → Rose (faults self.old) (faults self.new)) };
}
