//! Laws of streams that are cut, over the definitions alone.
ghost use Rattle.std.specs.Prelude.{◌≡◌, ◌++◌, List, ℕ};
ghost use Rattle.rtc_gate_calls.specs.SignalStream.{IsCutAnywhere};

/// A stream has the frames of its front, and behind them those of the rest with what follows later.
pub fn frames_wherever_cut()
    ensures { (front later : List ℕ) → IsCutAnywhere front later }
{}
