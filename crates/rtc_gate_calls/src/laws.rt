//! Laws over whole pasts of calls, over the definitions alone.
ghost use Rattle.std.specs.Prelude.{◌≡◌, ◌+◌, ◌<◌, ◌^◌, List};
ghost use Rattle.rtc_gate_calls.specs.History.{GateEvent, calls_made};
ghost use Rattle.rtc_gate_calls.specs.Histories.{AreCutApart, DeliversDue, NeverRanOut, WereAnswered, gate_after};
ghost use Rattle.rtc_gate_calls.specs.Replies.{IsPossible};
ghost use Rattle.rtc_gate_calls.specs.Sizes.{call_size, calls_size};
ghost use Rattle.rtc_gate_calls.specs.declared.gate_call.GateCall.{GateCall};

/// For every list of calls, some of which may run out of memory: a connection that is here took what is due to it, up to what waits
/// for it, and one that has left took a front of it.
pub fn due_is_delivered()
    ensures { (past : List GateEvent) → WereAnswered past → DeliversDue past }
{}

/// Two lists of calls that differ only in how one feed was cut into neighbouring feeds leave the same gate, queues and
/// all, if memory ran out in neither.
pub fn same_wherever_cut()
    ensures { (past cut : List GateEvent) → NeverRanOut past → NeverRanOut cut → AreCutApart (calls_made past) (calls_made cut)
        → gate_after past ≡ gate_after cut }
{}

/// Calls that ask for fewer than 2^32 connections and bytes together are possible, each on the gate that those before it leave.
pub fn few_calls_are_possible()
    ensures { (past : List GateEvent) (call : GateCall) → WereAnswered past → calls_size (calls_made past) + call_size call < 2 ^ 32
        → IsPossible (gate_after past) call }
{}
