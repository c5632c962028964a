//! What holds of signals that are folded one after another.
ghost use Rattle.std.specs.Prelude.{◌≡◌, false};
ghost use Rattle.rtc_ready.specs.Signals.{Signals, joined_signals, KeepsSignals};

/// Two wakes accumulate, in whatever order they are folded, and narrowing one lowers no signal that the other raised.
pub fn signals_accumulate()
    ensures order { (kept first second : Signals) → joined_signals (joined_signals kept first) second
        ≡ joined_signals (joined_signals kept second) first }
    ensures both { (kept first second : Signals) → joined_signals (joined_signals kept first) second
        ≡ joined_signals kept (joined_signals first second) }
    ensures no_events { (kept first second : Signals)
        → KeepsSignals (joined_signals kept first) (joined_signals (joined_signals kept first) (record second { events = false })) }
    ensures no_timeout { (kept first second : Signals)
        → KeepsSignals (joined_signals kept first) (joined_signals (joined_signals kept first) (record second { timeout = false })) }
{}
