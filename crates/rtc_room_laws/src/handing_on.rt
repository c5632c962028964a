//! That the hub hands on what it hears.
ghost use Rattle.std.specs.Prelude.{List};
ghost use Rattle.std.specs.declared.alloc.Global.{Global};
ghost use Rattle.rtc_run.specs.ProgramPair.{PlainPairState};
ghost use Rattle.rtc_room_laws.specs.RoomRuns.{RoomRuns};
ghost use Rattle.rtc_room_laws.specs.declared.room_reply.RoomReply.{RoomReply};
ghost use Rattle.rtc_room_laws.specs.declared.room_step.RoomStep.{RoomStep};
ghost use Rattle.rtc_room_laws.specs.RoomHandsOn.{RoomHandsOn};

/// In each run of a room, of each two members:
///
/// - What the one received of the other over its line is a prefix of what the hub heard of that one while both were in one room.
/// - What the hub heard is a contiguous stretch of what that one wrote to the stream of its line.
/// - Nothing is received of a member of another room.
/// - A member received all that was heard, if: it has not left and was not put out; its queue is empty; neither end of its line was
///   closed, and its own is open; the hub has no unacknowledged item of the line; a poll of its own peer returned a timeout since its
///   last input.
pub fn rooms_hand_on()
    ensures { (alloc : Global) (steps : List RoomStep) (replies : List RoomReply) (pairs : List PlainPairState)
        (run : RoomRuns alloc steps replies pairs) → RoomHandsOn alloc steps replies pairs run }
{}
