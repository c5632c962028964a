//! Replies of rooms.
use rtc_plain::PlainMediaEvent;
use rtc_run_history::Reply;

/// The reply to a step of a room.
#[derive(Debug, PartialEq, Eq, Drop)]
pub enum RoomReply {
    /// A member joined, and got this number.
    Joined { member: u32 },
    Left,
    Performed(Reply<PlainMediaEvent>),
    /// So many items were written.
    Forwarded { taken: u32 },
    /// The member was put out: too much waited for it, or a write to its line was refused.
    PutOut,
    /// No such member is here, or the datagram is for no such member.
    NoMember,
    /// As many members joined as can.
    Full,
    /// A member's pair takes nothing of anybody, and the hub's side no messages and datagrams by steps.
    NotAllowed,
}
