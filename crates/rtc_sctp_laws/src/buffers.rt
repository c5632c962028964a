//! What writes leave buffered.
ghost use Rattle.std.specs.Prelude.{◌-◌, ◌<◌, ◌≤◌, ℕ, Bool, IfOk, List, Result, length};
ghost use Rattle.rtc_sctp_entries.specs.Entries.{Ascend};
ghost use Rattle.rtc_sctp.specs.Calls.{WritesStream, buffered_sum};
ghost use Rattle.rtc_sctp.specs.Streams.{SctpStreams};
ghost use Rattle.rtc_sctp_values.specs.declared.sctp_error.SctpError.{SctpError};

use rtc_parts::Association;

/// A message of at least one byte that is accepted, and fits into what was available, leaves no more buffered over all streams than
/// may be.
pub fn accepted_writes_fit<S: Association>()
    ensures fits { (id : ℕ) (binary : Bool) (bytes : List ℕ) (p : SctpStreams S) (answer : Result ℕ SctpError) (q : SctpStreams S)
        → Ascend p.entries → WritesStream S.association id binary bytes p answer q → 0 < length bytes
        → length bytes ≤ p.max_buffered - buffered_sum S.association p.association p.entries
        → IfOk answer (λ n. buffered_sum S.association q.association q.entries ≤ q.max_buffered) }
{}
