//! The words of a line of a room's script.
ghost use Rattle.std.specs.Prelude.{◌≡◌, ◌≢◌, ◌∷◌, [], ℕ, codes, IfOk, IfSome, IfNone, map};
ghost use Rattle.rtc_room.specs.RoomLines.{AreRoomWords, AreWordsOf, IsMemberWord, IsRoomLine, IsRoomWord};
ghost use Rattle.rtc_room_laws.specs.declared.room_step.RoomStep.{RoomStep};

use rtc_room_laws::RoomStep;
use rtc_script::{cut_words, is_word, read_step_words, read_two_long, read_u32};
use rtc_wire::Moment;
use std::alloc::{AllocError, Global};

// The number of a room.
fn room_in(rest: &[&[u8]]) -> Option<u32>
    ensures some { IfSome result (λ room. IsRoomWord (map (λ word. word.now) rest.now) room) }
    ensures none { IfNone result ((room : ℕ) → IsRoomWord (map (λ word. word.now) rest.now) room → ⊥) }
{
    match rest {
        [word] => read_u32(word),
        _ => None,
    }
}

// The step of a member and a verb behind which no words are.
fn read_single(first: &[u8], member: u32, verb: &[u8]) -> Option<RoomStep>
    requires member { IsMemberWord first.now member }
    requires other { first.now ≢ codes "join" }
    requires no_step { verb.now ≢ codes "do" }
    requires no_arrival { verb.now ≢ codes "arrive" }
    ensures some { IfSome result (λ step. AreWordsOf first.now (verb.now ∷ []) step) }
    ensures none { IfNone result ((step : RoomStep) → AreWordsOf first.now (verb.now ∷ []) step → ⊥) }
{
    if is_word(verb, "leave") {
        return Some(RoomStep::Leave { member });
    }
    if is_word(verb, "forward") {
        return Some(RoomStep::Forward { member });
    }
    None
}

// The step of a member, its verb, and the words behind it.
fn read_act(
    alloc: Global,
    first: &[u8],
    member: u32,
    verb: &[u8],
    rest: &[&[u8]],
) -> Result<Option<RoomStep>, AllocError>
    requires member { IsMemberWord first.now member }
    requires other { first.now ≢ codes "join" }
    ensures some { IfOk result (λ read. IfSome read (λ step. AreWordsOf first.now (verb.now ∷ map (λ word. word.now) rest.now) step)) }
    ensures none { IfOk result (λ read. IfNone read ((step : RoomStep)
        → AreWordsOf first.now (verb.now ∷ map (λ word. word.now) rest.now) step → ⊥)) }
{
    if is_word(verb, "do") {
        return match read_step_words(alloc, rest)? {
            Some(step) => Ok(Some(RoomStep::Perform { member, step })),
            None => Ok(None),
        };
    }
    if is_word(verb, "arrive") {
        return match read_two_long(rest) {
            Some((packet, nanos)) => {
                let now = Moment::from_nanos(nanos);
                Ok(Some(RoomStep::Arrive {
                    member,
                    packet,
                    now,
                }))
            }
            None => Ok(None),
        };
    }
    if rest.is_empty() {
        Ok(read_single(first, member, verb))
    } else {
        Ok(None)
    }
}

// The step of the word that leads a line and those behind it.
fn read_words(alloc: Global, first: &[u8], rest: &[&[u8]]) -> Result<Option<RoomStep>, AllocError>
    ensures some { IfOk result (λ read. IfSome read (λ step. AreWordsOf first.now (map (λ word. word.now) rest.now) step)) }
    ensures none { IfOk result (λ read. IfNone read ((step : RoomStep)
        → AreWordsOf first.now (map (λ word. word.now) rest.now) step → ⊥)) }
{
    if is_word(first, "join") {
        return match room_in(rest) {
            Some(room) => Ok(Some(RoomStep::Join { room })),
            None => Ok(None),
        };
    }
    let Some(member) = read_u32(first) else {
        return Ok(None);
    };
    let [verb, rest @ ..] = rest else {
        return Ok(None);
    };
    read_act(alloc, first, member, verb, rest)
}

/// The step that a line names, if it is the line of one.
pub fn read_room_line(alloc: Global, line: &[u8]) -> Result<Option<RoomStep>, AllocError>
    ensures some { IfOk result (λ read. IfSome read (λ step. IsRoomLine line.now step)) }
    ensures none { IfOk result (λ read. IfNone read ((step : RoomStep) → IsRoomLine line.now step → ⊥)) }
{
    let words = cut_words(alloc, line)?;
    let [first, rest @ ..] = words.as_slice() else {
        return Ok(None);
    };
    read_words(alloc, first, rest)
}
