//! Replies as lines.
ghost use Rattle.std.specs.Prelude.{◌≡◌, ◌++◌, ◌<◌, OnOk, IfOk, codes, length};
ghost use Rattle.std.specs.Fmt.{decimal};
ghost use Rattle.rtc_room.specs.RoomReport.{room_report, room_reply_text, room_step_text};
ghost use Rattle.rtc_script_reports.specs.Report.{reply_text};

use rtc_plain::PlainMediaEvent;
use rtc_room_laws::{RoomReply, RoomStep};
use rtc_run_history::{Reply, Side, Step};
use rtc_script_reports::write_reply;
use rtc_wire::Bytes;
use std::alloc::{AllocError, Global};

// Puts a word, a number and the end of a line behind a text.
fn push_numbered(alloc: Global, out: &mut Vec<u8>, word: &str, n: u32) -> Result<(), AllocError>
    ensures { OnOk result (out.new.items ≡ out.old.items ++ word.now ++ decimal n ++ codes "\n") }
{
    let mut line = String::new(alloc);
    write!(line, "{word}{n}\n")?;
    out.extend_from_slice(line.as_bytes())
}

// The text of a reply of a member's pair.
fn text_of(
    alloc: Global,
    step: &RoomStep,
    reply: &Reply<PlainMediaEvent>,
) -> Result<Bytes, AllocError>
    ensures { IfOk result (λ text. text ≡ reply_text reply.now) }
{
    match step {
        RoomStep::Perform { step, .. } => write_reply(alloc, step, reply),
        RoomStep::Arrive { packet, now, .. } => {
            let step = Step::Datagram {
                at: Side::Left,
                packet: *packet,
                now: *now,
            };
            write_reply(alloc, &step, reply)
        }
        _ => write_reply(alloc, &Step::Poll { at: Side::Left }, reply),
    }
}

fn push_reply(
    alloc: Global,
    out: &mut Vec<u8>,
    step: &RoomStep,
    reply: &RoomReply,
) -> Result<(), AllocError>
    ensures { OnOk result (out.new.items ≡ out.old.items ++ room_reply_text reply.now) }
{
    match reply {
        RoomReply::Joined { member } => push_numbered(alloc, out, "joined ", *member),
        RoomReply::Left => out.extend_from_slice(b"left\n"),
        RoomReply::Performed(reply) => {
            let text = text_of(alloc, step, reply)?;
            out.extend_from_slice(text.as_slice())
        }
        RoomReply::Forwarded { taken } => push_numbered(alloc, out, "forwarded ", *taken),
        RoomReply::PutOut => out.extend_from_slice(b"putout\n"),
        RoomReply::NoMember => out.extend_from_slice(b"nomember\n"),
        RoomReply::Full => out.extend_from_slice(b"full\n"),
        RoomReply::NotAllowed => out.extend_from_slice(b"notallowed\n"),
    }
}

// Puts the number of a step and its reply behind a text.
fn push_step(
    alloc: Global,
    out: &mut Vec<u8>,
    number: usize,
    step: &RoomStep,
    reply: &RoomReply,
) -> Result<(), AllocError>
    ensures { OnOk result (out.new.items ≡ out.old.items ++ room_step_text number reply.now) }
{
    let mut words = String::new(alloc);
    write!(words, "step {number} ")?;
    out.extend_from_slice(words.as_bytes())?;
    push_reply(alloc, out, step, reply)
}

/// The report of the replies to steps.
pub fn write_room_report(
    alloc: Global,
    steps: &[RoomStep],
    replies: &[RoomReply],
) -> Result<Vec<u8>, AllocError>
    requires { length replies.now ≡ length steps.now }
    ensures { IfOk result (λ text. text.items ≡ room_report replies.now) }
{
    let mut out = Vec::new(alloc);
    for (number, reply) in replies.iter().enumerate() {
        push_step(alloc, &mut out, number, &steps[number], reply)?;
    }
    Ok(out)
}
