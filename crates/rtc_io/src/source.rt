//! Gives bytes.
ghost use Rattle.std.specs.Prelude.{ℕ, ◌<◌, List, length, Option};
ghost use Rattle.std.specs.Io.{ReadsAtMost};
ghost use Rattle.std.specs.Io.KnownBytes.{ReadConsumes};
ghost use Rattle.rtc_io.specs.Faults.{HasCause};

/// A failed read. It took nothing from what is left.
#[derive(Clone, Copy, Debug, PartialEq, Eq)]
pub struct ReadFailed;

/// Gives bytes a piece at a time.
pub trait Source {
    /// The bytes that are left, if the source reports them.
    ghost left: { Self → Option (List ℕ) };

    /// How often the source failed. It never falls.
    ghost faults: { Self → ℕ };

    /// Fills the front of `buf`, and returns how many bytes were read. 0 is the end.
    fn read(&mut self, buf: &mut [u8]) -> Result<usize, ReadFailed>
        requires { 0 < length buf.old }
        ensures bound { ReadsAtMost result buf.new }
        ensures bytes { ReadConsumes (left self.old) (left self.new) result buf.new }
        ensures cause { HasCause (faults self.old) (faults self.new) result };
}
